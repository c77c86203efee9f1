// Writing the formula's graph over the rules of the book.
ghost use Rattle.std.specs.Prelude.{◌≡◌, ◌<◌, ◌≤◌, map, length};
ghost use Rattle.calls.specs.Memory.{over};
ghost use Rattle.calls.specs.Opening.{book_in, rules_for, opened_edge, formula_in};
ghost use Rattle.opening.specs.Measured.{Measured};
ghost use Rattle.opening.specs.Ruled.{ruled};

use format::{CaseFile, FormulaEdge};
use records::{Edge, Guard, NONE, Node, Rule};
use scale::Scale;
use std::marker::PhantomData;
use writing::{Drawn, Shaped};

// An edge with that guard to where a formula edge leads.
fn opened<S: Scale>(guard: Guard, edge: FormulaEdge) -> Edge
    ensures { result ≡ record { guard = guard; weight = S.Scale.algebra.highest; target = edge.target } }
{
    Edge {
        guard,
        weight: S::highest(),
        target: edge.target,
    }
}

// The formula's graph over the rules of the book, as it is at the scale.
#[derive_where(Clone, Copy)]
pub(crate) struct Formula<'a, 'b, S> {
    pub(crate) file: CaseFile<'a>,
    pub(crate) rules: &'b [Rule],
    pub(crate) scale: PhantomData<S>,
}

impl<'a, 'b, S: Scale> Formula<'a, 'b, S> {
    // Writes an edge for each rule with the label of a formula edge for result, in rule order; how many there are.
    fn put_ruled(&self, edge: FormulaEdge, room: &mut [Edge]) -> usize
        requires rules { length self.now.rules.now ≤ 256 }
        requires room { length (rules_for edge.label 0 self.now.rules.now) ≤ length room.old }
        ensures count { result ≡ length (rules_for edge.label 0 self.now.rules.now) }
        ensures room { room.new ≡ over (map (ruled S.Scale.algebra.highest edge.target) (rules_for edge.label 0 self.now.rules.now)) room.old }
    {
        // the count is the answer, so it is kept beside the loop over the rules
        let mut count = 0;
        // the rules in their order
        for (number, rule) in self.rules.iter().enumerate() {
            if rule.result == edge.label {
                let guard = Guard::By {
                    rule: number as u16,
                };
                room[count] = opened::<S>(guard, edge);
                count += 1;
            }
        }
        count
    }

    // Writes what a formula edge becomes; how many edges that is.
    fn put_opened(&self, edge: FormulaEdge, room: &mut [Edge]) -> usize
        requires rules { length self.now.rules.now ≤ 256 }
        requires room { length (opened_edge S.Scale.algebra self.now.rules.now edge) ≤ length room.old }
        ensures count { result ≡ length (opened_edge S.Scale.algebra self.now.rules.now edge) }
        ensures room { room.new ≡ over (opened_edge S.Scale.algebra self.now.rules.now edge) room.old }
    {
        if edge.label == NONE {
            room[0] = opened::<S>(Guard::Plain, edge);
            1
        } else {
            self.put_ruled(edge, room)
        }
    }

    // Writes the edges of node `q` of the formula's graph; how many there are.
    fn put_node(&self, q: u16, room: &mut [Edge]) -> usize
        requires rules { self.now.rules.now ≡ (book_in self.now.file.bytes.now self.now.file.header).rules }
        requires measured { Measured self.now.file.bytes.now self.now.file.header }
        requires within { q < self.now.file.header.nodes }
        requires room { length ((formula_in S.Scale.algebra self.now.file.bytes.now self.now.file.header).edges q) ≤ length room.old }
        ensures count { result ≡ length ((formula_in S.Scale.algebra self.now.file.bytes.now self.now.file.header).edges q) }
        ensures room { room.new ≡ over ((formula_in S.Scale.algebra self.now.file.bytes.now self.now.file.header).edges q) room.old }
    {
        let node = self.file.node(q);
        let mut count = 0;
        // the node's own edges in their order
        for k in 0..node.count {
            let edge = self.file.edge((node.first + k) as u16);
            count += self.put_opened(edge, &mut room[count..]);
        }
        count
    }
}

// The graph that `Size` counts too, here with the rules of the book.
impl<'a, 'b, S: Scale> Shaped for Formula<'a, 'b, S> {
    ghost graph = { λ s. formula_in S.Scale.algebra s.file.bytes.now s.file.header };

    ghost ready = { λ s. Measured s.file.bytes.now s.file.header × (s.rules.now ≡ (book_in s.file.bytes.now s.file.header).rules) };

    fn nodes(&self) -> u64 {
        u64::from(self.file.header.nodes)
    }
}

impl<'a, 'b, S: Scale> Drawn for Formula<'a, 'b, S> {
    fn node(&self, q: u32, first: u32, count: u32) -> Node {
        Node {
            first,
            count,
            ..self.file.node(q as u16)
        }
    }

    fn put_edges(&self, q: u32, room: &mut [Edge]) -> usize {
        self.put_node(q as u16, room)
    }
}
