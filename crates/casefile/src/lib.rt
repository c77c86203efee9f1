// The checks of a case file: why one is refused, and what stands in one that is not.
#![tactic(auto)]

mod checks;
mod header_check;
mod table_checks;

pub use checks::{accepts_well_formed, check, make_table};
