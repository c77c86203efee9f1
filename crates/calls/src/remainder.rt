// The numbers of a remainder: what is left to show, once some places are taken into the formula.
use fault::Fault;

// A graph of `nodes` nodes and `edges` edges in memory, its initial node, and the places that are left, bit p for
// place p. A call takes it and gives its successor, or hands it back. Numbers beside memory that is lent at each call,
// since a remainder owns none.
#[derive(Drop)]
pub struct Remainder {
    pub nodes: u32,
    pub edges: u32,
    pub initial: u32,
    pub left: u8,
}

// A remainder that was closed: only this can be asked for its verdict.
#[derive(Drop)]
pub struct Closed {
    pub numbers: Remainder,
}

// A refused call's answer: why, and the remainder that it was given.
#[derive(Drop)]
pub struct Refusal {
    pub fault: Fault,
    pub remainder: Remainder,
}
