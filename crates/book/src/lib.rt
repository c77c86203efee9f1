// The rule book: the places, rules and blocks of one case.
#![tactic(auto)]

mod rule_book;

pub use rule_book::RuleBook;
