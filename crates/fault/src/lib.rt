// Refusals: every way in which a call can say no, with its number, layer and positions.
#![tactic(auto)]

ghost use Rattle.std.specs.Prelude.{◌≡◌, ℕ, Some, IfOk, string_bytes, Option};
ghost use Rattle.fault.specs.Each.{Below, Each};
ghost use Rattle.fault.specs.First.{earliest, Passes};
ghost use Rattle.fault.specs.Fault.{number, layer, first, second, byte_in_table};
ghost use Rattle.fault.specs.Line.{refused, refused_line};
ghost use Rattle.fault.specs.declared.Fault.TheVariants.{Table};

use std::alloc::{AllocError, Global};
use std::error::Error;
use std::fmt;

// The part of the input or of the state that a fault is in.
#[derive(Clone, Copy, PartialEq, Debug)]
pub enum Layer {
    File,
    Table,
    Process,
    Remainder,
}

// What is wrong with the table of one place.
#[derive(Clone, Copy, PartialEq, Debug)]
pub enum TableFault {
    // the number of states is out of range
    States,
    // the number of transitions is out of range
    Transitions,
    // the initial state is out of range
    Initial,
    // start `index` is not 0 at the first state, falls, or is not the number of transitions at the end
    Start { index: u16 },
    // the field that begins at `byte` does not end within the file
    CutOff { byte: u32 },
    // the last table ends at `byte`, and the file does not
    Excess { byte: u32 },
}

// A refusal with what it names.
#[derive(Clone, Copy, PartialEq, Debug)]
pub enum Fault {
    // the file is shorter than a header
    ShortFile { length: u64 },
    // the header field at `byte` is out of range, or names another scale
    Header { byte: u8 },
    // rules, blocks, nodes or edges do not fit the file
    Sections { length: u64 },
    // the rule has no participant, or no result
    Rule { rule: u16 },
    // the block is neither least nor greatest
    Block { block: u8 },
    // the node's kind, block, edge range or value is wrong
    Node { node: u16 },
    // the edge's target or zero field is wrong, or no node has it
    Edge { edge: u16 },
    // the table of the place is wrong
    Table { place: u8, fault: TableFault },
    // a process has no states or too many, a bad initial state, or too many transitions in a state
    Shape { state: u32 },
    // a process's transition has label 65,535, a target past the states, or a weight that is no value
    Step { state: u32, transition: u32 },
    // the program's input is too long
    Oversize,
    // memory or rule book does not fit the remainder
    Misfit,
    // the place is not left
    NotLeft,
    // the target has too few nodes
    FewNodes,
    // the target has too few edges
    FewEdges,
    // a number or value buffer is shorter than the nodes
    ShortBuffer,
    // places are left, and the initial node is not fixed
    PlacesLeft,
}

// A table's fault with the place of the table.
#[derive(Clone, Copy, PartialEq, Debug)]
pub struct Placed {
    pub place: u8,
    pub fault: TableFault,
}

// A table's fault is carried whole, with its place.
impl From<Placed> for Fault {
    ghost from_gives = { λ p f. f ≡ Table p.place p.fault };

    fn from(p: Placed) -> Fault {
        Fault::Table {
            place: p.place,
            fault: p.fault,
        }
    }
}

impl TableFault {
    // The first byte, counted from the table's own start, of the field at fault.
    pub fn byte(&self) -> u64
        ensures { result ≡ byte_in_table self.now }
    {
        match *self {
            TableFault::States => 0,
            TableFault::Transitions => 4,
            TableFault::Initial => 8,
            TableFault::Start { index } => 12 + 4 * u64::from(index),
            TableFault::CutOff { byte } => u64::from(byte),
            TableFault::Excess { byte } => u64::from(byte),
        }
    }
}

impl Fault {
    pub fn number(&self) -> u8
        ensures { result ≡ number self.now }
    {
        match *self {
            Fault::ShortFile { .. } => 1,
            Fault::Header { .. } => 2,
            Fault::Sections { .. } => 3,
            Fault::Rule { .. } => 4,
            Fault::Block { .. } => 5,
            Fault::Node { .. } => 6,
            Fault::Edge { .. } => 7,
            Fault::Table { .. } => 8,
            Fault::Shape { .. } => 9,
            Fault::Step { .. } => 10,
            Fault::Oversize => 11,
            Fault::Misfit => 20,
            Fault::NotLeft => 21,
            Fault::FewNodes => 22,
            Fault::FewEdges => 23,
            Fault::ShortBuffer => 24,
            Fault::PlacesLeft => 25,
        }
    }

    pub fn layer(&self) -> Layer
        ensures { result ≡ layer self.now }
    {
        match *self {
            Fault::Table { .. } => Layer::Table,
            Fault::Shape { .. } | Fault::Step { .. } => Layer::Process,
            Fault::Misfit | Fault::NotLeft | Fault::FewNodes => Layer::Remainder,
            Fault::FewEdges | Fault::ShortBuffer | Fault::PlacesLeft => Layer::Remainder,
            _ => Layer::File,
        }
    }

    // The first position, 0 where the fault names none, as its line prints it.
    pub fn first(&self) -> u64
        ensures { result ≡ first self.now }
    {
        match *self {
            Fault::ShortFile { length } => length,
            Fault::Header { byte } => u64::from(byte),
            Fault::Sections { length } => length,
            Fault::Rule { rule } => u64::from(rule),
            Fault::Block { block } => u64::from(block),
            Fault::Node { node } => u64::from(node),
            Fault::Edge { edge } => u64::from(edge),
            Fault::Table { place, .. } => u64::from(place),
            Fault::Shape { state } => u64::from(state),
            Fault::Step { state, .. } => u64::from(state),
            _ => 0,
        }
    }

    // The second position, likewise.
    pub fn second(&self) -> u64
        ensures { result ≡ second self.now }
    {
        match *self {
            Fault::Table { fault, .. } => fault.byte(),
            Fault::Step { transition, .. } => u64::from(transition),
            _ => 0,
        }
    }

    // The line that a program prints for the refusal.
    pub fn line(&self, alloc: Global) -> Result<String, AllocError>
        ensures { IfOk result (λ t. string_bytes t ≡ refused_line self.now) }
    {
        format!(in alloc; "{self}\n")
    }
}

// What a program prints for the refusal.
impl fmt::Display for Fault {
    ghost output = { λ f. Some (refused f) };

    fn fmt<W: fmt::Write>(&self, f: &mut fmt::Formatter<W>) -> fmt::Result {
        let number = self.number();
        let first = self.first();
        let second = self.second();
        write!(f, "refused {number} {first} {second}")
    }
}

impl Error for Fault {}

// Checks the positions below n in their order, up to the first that is at fault.
pub fn check_each<E: Drop, F: Fn(u32) -> Result<(), E>>(n: u32, check: F) -> Result<(), E>
    requires { Below n (F.pre check) }
    ensures { (due : ℕ → Option E) → Each n (F.post check) (λ i r. Passes (due i) r) → Passes (earliest n due) result }
{
    // the positions in their order
    for i in 0..n {
        check(i)?;
    }
    Ok(())
}
