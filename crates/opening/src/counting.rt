// How many edges the formula's graph has, counted from the file.
ghost use Rattle.std.specs.Prelude.{◌≡◌, ◌+◌, ◌≤◌, length};
ghost use Rattle.scale.specs.Algebra.{Algebra};
ghost use Rattle.calls.specs.Opening.{book_in, rules_for, opened_edge, formula_in};
ghost use Rattle.format.specs.Layout.{edge_row, node_row};
ghost use Rattle.opening.specs.Measured.{Measured};

use format::CaseFile;
use records::NONE;
use scale::Scale;
use std::marker::PhantomData;
use writing::{Counted, Shaped};

// The formula's graph by the file alone, as it will be at the scale.
#[derive_where(Clone, Copy)]
pub(crate) struct Size<'a, S> {
    pub(crate) file: CaseFile<'a>,
    pub(crate) scale: PhantomData<S>,
}

// How many rules have the label for result.
fn count_rules(file: &CaseFile, label: u16) -> u32
    ensures result { result ≡ length (rules_for label 0 (book_in file.now.bytes.now file.now.header).rules) }
    ensures few { result ≤ file.now.header.rules }
{
    // a sum of tests, since a filter's count branches at each rule, for up to 1.4 times the time of an opening
    (0..file.header.rules)
        .map(|r| u32::from(file.label(r, file.header.places) == label))
        .sum()
}

// How many edges a formula edge becomes.
fn edge_size(file: &CaseFile, e: u16) -> u32
    ensures result { (A : Algebra) → result ≡ length (opened_edge A (book_in file.now.bytes.now file.now.header).rules (edge_row file.now.bytes.now file.now.header e)) }
    ensures few { result ≤ file.now.header.rules + 1 }
{
    let label = file.edge(e).label;
    if label == NONE {
        1
    } else {
        count_rules(file, label)
    }
}

// How many edges the node has in the formula's graph.
fn node_size(file: &CaseFile, q: u16) -> u32
    requires rules { file.now.header.rules ≤ 256 }
    requires range { (node_row file.now.bytes.now file.now.header q).first + (node_row file.now.bytes.now file.now.header q).count ≤ 16384 }
    ensures { (A : Algebra) → result ≡ length ((formula_in A file.now.bytes.now file.now.header).edges q) }
{
    let node = file.node(q);
    let mut total = 0;
    // the node's own edges in their order
    for k in 0..node.count {
        total += edge_size(file, (node.first + k) as u16);
    }
    total
}

// The graph that `Formula` writes too, but asked before there is a book: a condition of its own, in three lines.
impl<'a, S: Scale> Shaped for Size<'a, S> {
    ghost graph = { λ s. formula_in S.Scale.algebra s.file.bytes.now s.file.header };

    ghost ready = { λ s. Measured s.file.bytes.now s.file.header };

    fn nodes(&self) -> u64 {
        u64::from(self.file.header.nodes)
    }
}

impl<'a, S: Scale> Counted for Size<'a, S> {
    fn degree(&self, q: u32) -> Option<u32> {
        Some(node_size(&self.file, q as u16))
    }
}
