// Graphs whose edges can be counted, graphs that can be written out, and both done.
ghost use Rattle.std.specs.Prelude.{◌≡◌, ◌<◌, ◌≤◌, length, MatchOption};
ghost use Rattle.meaning.specs.Graph.{Graph};
ghost use Rattle.calls.specs.Memory.{node_rows, edge_rows, over};
ghost use Rattle.calls.specs.Outcome.{most_nodes, most_edges};
ghost use Rattle.writing.specs.Row.{row};

use crate::room::MOST_EDGES;
use records::{Edge, Node};

// A graph that is asked for its parts.
pub trait Shaped {
    ghost graph: { Self → Graph };

    // what must hold before anything is asked of a node
    ghost ready: { Self → Type 0 };

    // How many nodes the graph has.
    fn nodes(&self) -> u64
        ensures { result ≡ (graph self.now).nodes };
}

// A graph that is asked how many edges each node has.
pub trait Counted: Shaped {
    // How many edges node `q` has, where a graph may have that many.
    fn degree(&self, q: u32) -> Option<u32>
        requires ready { Self.ready self.now }
        requires within { q < (Self.graph self.now).nodes }
        ensures { MatchOption result (most_edges < length ((Self.graph self.now).edges q)) (λ n. n ≡ length ((Self.graph self.now).edges q)) };
}

// A graph that is asked for its nodes and their edges, one node after another.
pub trait Drawn: Shaped {
    // Node `q` with `count` edges from `first` on.
    fn node(&self, q: u32, first: u32, count: u32) -> Node
        requires ready { Self.ready self.now }
        requires within { q < (Self.graph self.now).nodes }
        ensures { result ≡ row (Self.graph self.now) q first count };

    // Writes the edges of node `q` to the front of the room; how many there are.
    fn put_edges(&self, q: u32, room: &mut [Edge]) -> usize
        requires ready { Self.ready self.now }
        requires within { q < (Self.graph self.now).nodes }
        requires small { (Self.graph self.now).nodes ≤ most_nodes }
        requires room { length ((Self.graph self.now).edges q) ≤ length room.old }
        ensures count { result ≡ length ((Self.graph self.now).edges q) }
        ensures room { room.new ≡ over ((Self.graph self.now).edges q) room.old };
}

// How many edges the graph has, where a graph may have that many.
pub fn count_edges<C: Counted>(counted: &C) -> Option<u32>
    requires ready { C.ready counted.now }
    requires few { (C.graph counted.now).nodes ≤ most_nodes }
    ensures { MatchOption result (most_edges < length (edge_rows (C.graph counted.now))) (λ n. (n ≡ length (edge_rows (C.graph counted.now))) × (n ≤ most_edges)) }
{
    let mut total = 0;
    // the edges of one node after another
    for q in 0..counted.nodes() as u32 {
        let more = counted.degree(q)?;
        if more > MOST_EDGES - total {
            return None;
        }
        total += more;
    }
    Some(total)
}

// Writes the graph to the front of both memories; how many edges it has. Two slices, as in `open` of a case: a struct of
// both would cost each contract two clauses on its loans.
pub fn write<D: Drawn>(drawn: &D, nodes: &mut [Node], edges: &mut [Edge]) -> u32
    requires ready { D.ready drawn.now }
    requires nodes { (D.graph drawn.now).nodes ≤ length nodes.old }
    requires edges { length (edge_rows (D.graph drawn.now)) ≤ length edges.old }
    requires few_nodes { (D.graph drawn.now).nodes ≤ most_nodes }
    requires few_edges { length (edge_rows (D.graph drawn.now)) ≤ most_edges }
    ensures count { result ≡ length (edge_rows (D.graph drawn.now)) }
    ensures nodes { nodes.new ≡ over (node_rows (D.graph drawn.now)) nodes.old }
    ensures edges { edges.new ≡ over (edge_rows (D.graph drawn.now)) edges.old }
{
    let mut at = 0;
    // one node after another, its edges behind those of the nodes before
    for (q, row) in nodes[..drawn.nodes() as usize].iter_mut().enumerate() {
        let count = drawn.put_edges(q as u32, &mut edges[at..]);
        *row = drawn.node(q as u32, at as u32, count as u32);
        at += count;
    }
    at as u32
}
