// Opening a case: the rule book is filled, and the formula's graph written as the first remainder.
#![tactic(auto)]

mod call;
mod counting;
mod drawing;

pub use call::open;
