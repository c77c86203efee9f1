// Whether a remainder, a rule book and a pair of memories belong together.
#![tactic(auto)]

mod guards;
mod view;

ghost use Rattle.std.specs.Prelude.{◌≡◌, ◌^◌, nat_lt};
ghost use Rattle.fault.specs.First.{Passes};
ghost use Rattle.calls.specs.Fit.{fits};
ghost use Rattle.calls.specs.Outcome.{fit_fault};

use book::RuleBook;
use calls::{Memories, Remainder};
use fault::Fault;
use scale::Scale;
use view::View;

// The places left are among the first `places`; of eight and more there is no other.
fn left_fits(left: u8, places: u8) -> bool
    ensures { result ≡ nat_lt left (2 ^ places) }
{
    places >= 8 || u16::from(left) < 1 << places
}

// Everything about the remainder holds in these memories by this rule book.
pub fn fits<S: Scale>(book: &RuleBook, remainder: &Remainder, memory: &Memories<'_>) -> bool
    ensures { result ≡ fits S.Scale.algebra book.now remainder.now memory.now }
{
    let view = View {
        book,
        remainder,
        memory,
    };
    remainder.nodes as usize <= memory.nodes.len()
        && remainder.edges as usize <= memory.edges.len()
        && left_fits(remainder.left, book.places())
        && remainder.initial < remainder.nodes
        && view.nodes_fit::<S>()
        && view.due(remainder.nodes) == u64::from(remainder.edges)
}

// The same as a refusal.
pub fn check_fit<S: Scale>(
    book: &RuleBook,
    remainder: &Remainder,
    memory: &Memories<'_>,
) -> Result<(), Fault>
    ensures { Passes (fit_fault S.Scale.algebra book.now remainder.now memory.now) result }
{
    if fits::<S>(book, remainder, memory) {
        Ok(())
    } else {
        Err(Fault::Misfit)
    }
}
