// Text on the parts of a case: a line for each, and lines gathered.
#![tactic(auto)]

mod digits;
mod parts;
mod pieces;

pub use digits::hex;
pub use parts::{block_line, edge_line, node_line, place_line, rule_line};
pub use pieces::whole;
