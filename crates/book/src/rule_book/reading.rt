// Reading a rule book.
ghost use Rattle.std.specs.Prelude.{◌≡◌, true};
ghost use Rattle.meaning.specs.Check.{every};
ghost use Rattle.book.specs.Parts.{has_part};

use super::RuleBook;
use records::{Rule, Sign};

impl RuleBook {
    // How many places the case has; each rule has a participant within them.
    pub fn places(&self) -> u8
        ensures places { result ≡ self.now.places }
        ensures parts { every (has_part self.now.places) self.now.rules ≡ true }
    {
        self.places
    }

    // The rules of the case in their order; each has a participant within the places.
    pub fn rules(&self) -> &[Rule]
        ensures rules { result.now ≡ self.now.rules }
        ensures parts { every (has_part self.now.places) self.now.rules ≡ true }
    {
        self.rules.as_slice()
    }

    // The signs of the case's blocks in their order.
    pub fn signs(&self) -> &[Sign]
        ensures signs { result.now ≡ self.now.signs }
        ensures parts { every (has_part self.now.places) self.now.rules ≡ true }
    {
        self.signs.as_slice()
    }
}
