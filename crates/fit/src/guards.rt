// Guards by the rule book and the places left.
ghost use Rattle.std.specs.Prelude.{◌≡◌, ◌<◌};
ghost use Rattle.meaning.specs.Check.{guard_test};
ghost use Rattle.meaning.specs.Network.{counts};
ghost use Rattle.meaning.specs.Quotient.{any};
ghost use Rattle.calls.specs.Left.{left_places};

use book::RuleBook;
use records::{Guard, PLACES};

// Bit `place` of the places left.
fn is_left(left: u8, place: u8) -> bool
    requires { place < 8 }
    ensures { result ≡ left_places left place }
{
    (left >> place) & 1 == 1
}

// A place that is left takes part in the rule of that number; a rule past the last has no participant.
fn has_participant(book: &RuleBook, left: u8, number: u16) -> bool
    ensures { result ≡ any 8 (counts book.now (left_places left) number) }
{
    let Some(rule) = book.rules().get(usize::from(number)) else {
        return false;
    };
    (0..PLACES as u8).any(|place| is_left(left, place) && rule.takes_part(place))
}

// The guard is plain, or its rule has a participant among the places left.
pub(crate) fn guard_fits(book: &RuleBook, left: u8, guard: Guard) -> bool
    ensures { result ≡ guard_test book.now (left_places left) guard }
{
    match guard {
        Guard::Plain => true,
        Guard::By { rule } => has_participant(book, left, rule),
    }
}
