// The format of a case file: where everything stands in its bytes. Whether the bytes are right is not asked here.
#![tactic(auto)]

mod bytes;
mod file;
mod header;
mod table;

pub use file::{CaseFile, FormulaEdge};
pub use header::{HEADER_LENGTH, Header, header_field};
pub use table::Table;
