// The account of a case: all that a person reads of it.
#![tactic(auto)]

mod input;
mod sections;

pub use input::{MOST, open_input, outcome, report};
pub use sections::account;
