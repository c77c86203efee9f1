// A remainder in the memories that hold it, node by node and edge by edge.
ghost use Rattle.std.specs.Prelude.{◌≡◌, ◌+◌, ◌≤◌, ◌&&◌, length};
ghost use Rattle.meaning.specs.Check.{all, every, fixed_test, edge_test};
ghost use Rattle.calls.specs.Fit.{due, plain_values, fits_node};
ghost use Rattle.calls.specs.Left.{left_places};
ghost use Rattle.calls.specs.Memory.{node_in, edges_of, held};

use crate::guards::guard_fits;
use book::RuleBook;
use calls::{Memories, Remainder};
use records::{Edge, Kind, Node};
use scale::Scale;

// What is read past the end of the nodes.
const NO_NODE: Node = Node {
    kind: Kind::AnyOf,
    block: 0,
    first: 0,
    count: 0,
    value: 0,
};

// A remainder with the rule book and the memories that it is read by.
#[derive(Clone, Copy)]
pub(crate) struct View<'a> {
    pub(crate) book: &'a RuleBook,
    pub(crate) remainder: &'a Remainder,
    pub(crate) memory: &'a Memories<'a>,
}

// A fixed node has a value of the scale and no edges, any other the value 0. Told of a node that has a kind.
fn value_fits<S: Scale>(node: &Node) -> bool
    ensures { result ≡ (plain_values node.now.kind node.now && fixed_test S.Scale.algebra node.now.kind node.now.value) }
{
    match node.kind {
        Kind::AnyOf | Kind::AllOf => node.value == 0,
        Kind::Fixed => node.count == 0 && S::is_value(node.value),
    }
}

impl View<'_> {
    // Node `q` of the memory.
    fn node(&self, q: u32) -> Node
        ensures { result ≡ node_in self.now.memory.now q }
    {
        let memory = self.memory;
        memory.nodes.get(q as usize).copied().unwrap_or(NO_NODE)
    }

    // Where the edges of node `q` are to begin: where those of the node before it end.
    pub(crate) fn due(&self, q: u32) -> u64
        ensures { result ≡ due self.now.memory.now q }
    {
        if q == 0 { 0 } else { self.node(q - 1).end() }
    }

    // An edge of node `q` has a value for its weight, leads to a node in no lower block, and has a guard that fits.
    fn edge_fits<S: Scale>(&self, q: u32, edge: &Edge) -> bool
        ensures { result ≡ edge_test S.Scale.algebra self.now.book.now (left_places self.now.remainder.now.left) (held self.now.remainder.now self.now.memory.now) q edge.now }
    {
        S::is_value(edge.weight)
            && edge.target < self.remainder.nodes
            && self.node(q).block <= self.node(edge.target).block
            && guard_fits(self.book, self.remainder.left, edge.guard)
    }

    // Every edge of node `q` fits.
    fn edges_fit<S: Scale>(&self, q: u32) -> bool
        requires { (node_in self.now.memory.now q).first + (node_in self.now.memory.now q).count ≤ length self.now.memory.now.edges }
        ensures { result ≡ every (edge_test S.Scale.algebra self.now.book.now (left_places self.now.remainder.now.left) (held self.now.remainder.now self.now.memory.now) q) (edges_of self.now.memory.now (node_in self.now.memory.now q)) }
    {
        let node = self.node(q);
        let memory = self.memory;
        memory.edges[node.first as usize..node.end() as usize]
            .iter()
            .all(|edge| self.edge_fits::<S>(q, edge))
    }

    // Node `q` and its edges keep every rule.
    fn node_fits<S: Scale>(&self, q: u32) -> bool
        requires { self.now.remainder.now.edges ≤ length self.now.memory.now.edges }
        ensures { result ≡ fits_node S.Scale.algebra self.now.book.now self.now.remainder.now self.now.memory.now q }
    {
        let node = self.node(q);
        u64::from(node.first) == self.due(q)
            && node.end() <= u64::from(self.remainder.edges)
            && usize::from(node.block) < self.book.signs().len()
            && value_fits::<S>(&node)
            && self.edges_fit::<S>(q)
    }

    // Every node and its edges keep the rules.
    pub(crate) fn nodes_fit<S: Scale>(&self) -> bool
        requires { self.now.remainder.now.edges ≤ length self.now.memory.now.edges }
        ensures { result ≡ all self.now.remainder.now.nodes (fits_node S.Scale.algebra self.now.book.now self.now.remainder.now self.now.memory.now) }
    {
        (0..self.remainder.nodes).all(|q| self.node_fits::<S>(q))
    }
}
