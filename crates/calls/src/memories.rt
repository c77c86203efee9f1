// A pair of memories that a call reads.
use records::{Edge, Node};
use std::marker::Model;

// One memory for nodes and one for edges, lent together.
#[derive(Drop)]
pub struct Memories<'a> {
    pub nodes: &'a [Node],
    pub edges: &'a [Edge],
}

// Clauses see what both hold.
impl<'a> Model for Memories<'a> {
    ghost use Rattle.calls.specs.Memory.{Memory};

    ghost Value = { Memory };

    ghost view = { λ m. record { nodes = m.nodes.now; edges = m.edges.now } };
}
