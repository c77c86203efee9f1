// Writing a graph into a pair of memories: one way for every call that makes a graph.
#![tactic(auto)]

mod drawing;
mod room;

pub use drawing::{Counted, Drawn, Shaped, count_edges, write};
pub use room::{MOST_EDGES, MOST_NODES, check_count, check_room};
