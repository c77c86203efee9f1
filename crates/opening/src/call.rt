// Opening a case file.
ghost use Rattle.std.specs.Prelude.{◌≡◌, ◌≤◌, true, is_ok, IfOk, if◌then◌else◌};
ghost use Rattle.fault.specs.First.{Answers};
ghost use Rattle.meaning.specs.Check.{every};
ghost use Rattle.book.specs.Parts.{has_part};
ghost use Rattle.calls.specs.Fit.{fits};
ghost use Rattle.calls.specs.Left.{all_left};
ghost use Rattle.calls.specs.Memory.{written};
ghost use Rattle.calls.specs.Opening.{book_of, formula_graph};
ghost use Rattle.calls.specs.Outcome.{open_fault, opened};

use crate::counting::Size;
use crate::drawing::Formula;
use book::RuleBook;
use calls::{Memories, Remainder};
use casefile::check;
use fault::Fault;
use records::{Edge, Node};
use scale::Scale;
use std::marker::PhantomData;
use writing::{check_room, write};

// All of the first places, of which there are at most eight.
fn all_left(places: u8) -> u8
    requires { places ≤ 8 }
    ensures { result ≡ all_left places }
{
    ((1u16 << places) - 1) as u8
}

// Opens the case that the bytes hold at the scale: the rule book takes in its places, rules and blocks, the memories
// the formula's graph, and every place is left. A refusal changes nothing. The memories are two slices, since of a
// struct with two `&mut` each contract would have to say besides that both fields keep their loans.
pub fn open<S: Scale>(
    bytes: &[u8],
    book: &mut RuleBook,
    nodes: &mut [Node],
    edges: &mut [Edge],
) -> Result<Remainder, Fault>
    ensures result { Answers (open_fault S.Scale.algebra S.Scale.NUMBER bytes.now (record { nodes = nodes.entry.now; edges = edges.old })) (λ s. s ≡ opened S.Scale.algebra bytes.now) result }
    ensures book { book.new ≡ (if is_ok result then book_of bytes.now else book.old) }
    ensures parts { every (has_part book.new.places) book.new.rules ≡ true }
    ensures nodes { nodes.exit.now ≡ (if is_ok result then (written (formula_graph S.Scale.algebra bytes.now) (record { nodes = nodes.entry.now; edges = edges.old })).nodes else nodes.entry.now) }
    ensures edges { edges.new ≡ (if is_ok result then (written (formula_graph S.Scale.algebra bytes.now) (record { nodes = nodes.entry.now; edges = edges.old })).edges else edges.old) }
    ensures fits { IfOk result (λ s. fits S.Scale.algebra book.new s (record { nodes = nodes.exit.now; edges = edges.new }) ≡ true) }
{
    // asked here, so that a refusal too can say of the book that every rule in it has a participant
    let _places = book.places();
    let file = check::<S>(bytes)?;
    let scale = PhantomData::<S>;
    check_room(&Size { file, scale }, &Memories { nodes, edges })?;
    let _filled = book.fill(&file);
    let rules = book.rules();
    let count = write(&Formula { file, rules, scale }, nodes, edges);
    Ok(Remainder {
        nodes: u32::from(file.header.nodes),
        edges: count,
        initial: u32::from(file.header.initial),
        left: all_left(file.header.places),
    })
}
