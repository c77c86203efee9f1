// The places, rules and blocks of one case.
mod filling;
mod reading;

use records::{Rule, Sign};
use std::marker::Model;

// Every rule in it has a participant within its places. Room for the rules and blocks of any case is made once,
// when the book is.
#[derive(Drop)]
pub struct RuleBook {
    places: u8,
    rules: Vec<Rule>,
    signs: Vec<Sign>,
}

// Callers see the places, rules and signs.
impl Model for RuleBook {
    ghost use Rattle.meaning.specs.Network.{Book};

    ghost Value = { Book };

    ghost use Rattle.book.specs.Standing.{shown, Standing};

    ghost view = { shown };

    ghost invariant = { Standing };
}
