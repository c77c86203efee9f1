// The header of a case file, and where the sections stand that it counts.
ghost use Rattle.std.specs.Prelude.{◌≡◌, ◌^◌, ◌<◌};
ghost use Rattle.format.specs.Bytes.{four};
ghost use Rattle.format.specs.Layout.{rule_size, rule_at, block_at, node_at, edge_at, tables_at};

use crate::bytes::four;

// How many bytes a header has.
pub const HEADER_LENGTH: usize = 28;

// The counts of a case file: how many places, rules, blocks, nodes and edges it has, and its initial node.
#[derive(Clone, Copy, PartialEq, Debug)]
pub struct Header {
    pub places: u8,
    pub rules: u16,
    pub blocks: u8,
    pub nodes: u16,
    pub edges: u16,
    pub initial: u16,
}

// The number at a byte of the header.
pub fn header_field(bytes: &[u8], at: u8) -> u32
    ensures { result ≡ four bytes.now at }
{
    four(bytes, usize::from(at))
}

impl Header {
    // How many bytes a rule has.
    fn rule_size(self) -> usize
        ensures { result ≡ rule_size self }
    {
        2 * (usize::from(self.places) + 1)
    }

    // Where rule `r` begins.
    #[tactic(auto, unfolding(crate::specs::Layout::rule_at), using(crate::proofs::Offsets::rows_small))]
    pub(crate) fn rule_at(self, r: u16) -> usize
        ensures at { result ≡ rule_at self r }
        ensures small { result < 2 ^ 25 }
    {
        HEADER_LENGTH + usize::from(r) * self.rule_size()
    }

    // Where block `b` begins.
    #[tactic(auto, unfolding(crate::specs::Layout::block_at))]
    pub(crate) fn block_at(self, b: u8) -> usize
        ensures at { result ≡ block_at self b }
        ensures small { result < 2 ^ 26 }
    {
        self.rule_at(self.rules) + usize::from(b)
    }

    // Where node `i` begins.
    #[tactic(auto, unfolding(crate::specs::Layout::node_at))]
    pub(crate) fn node_at(self, i: u16) -> usize
        ensures at { result ≡ node_at self i }
        ensures small { result < 2 ^ 27 }
    {
        self.block_at(self.blocks) + 16 * usize::from(i)
    }

    // Where edge `e` begins.
    #[tactic(auto, unfolding(crate::specs::Layout::edge_at))]
    pub(crate) fn edge_at(self, e: u16) -> usize
        ensures at { result ≡ edge_at self e }
        ensures small { result < 2 ^ 28 }
    {
        self.node_at(self.nodes) + 8 * usize::from(e)
    }

    // Where the tables begin.
    pub fn tables_at(self) -> usize
        ensures at { result ≡ tables_at self }
        ensures small { result < 2 ^ 28 }
    {
        self.edge_at(self.edges)
    }
}
