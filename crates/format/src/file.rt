// What a case file holds.
ghost use Rattle.std.specs.Prelude.{◌≡◌, ◌<◌, ◌≤◌, MatchOption};
ghost use Rattle.format.specs.Layout.{table_in, rule_label, rule_asks, rule_row, block_code, block_sign, kind_byte, node_row, edge_row, edge_zero};

use crate::bytes::{byte, eight, four, tail, two};
use crate::header::Header;
use crate::table::Table;
use records::{Kind, NONE, Node, Rule, Sign};
use std::array;

// An edge of the formula: plain where its label is `NONE`.
#[derive(Clone, Copy, PartialEq, Debug)]
pub struct FormulaEdge {
    pub label: u16,
    pub target: u32,
}

// The bytes of a case file with the header that they are read by; every answer is read from the bytes anew. Clauses
// name both, since the definitions speak of any bytes and any header that they are read by.
#[derive(Clone, Copy)]
pub struct CaseFile<'a> {
    pub bytes: &'a [u8],
    pub header: Header,
}

impl<'a> CaseFile<'a> {
    // What rule `r` asks of the place, which may be the number of places: there the rule's result stands.
    pub fn label(&self, r: u16, place: u8) -> u16
        ensures { result ≡ rule_label self.now.bytes.now self.now.header r place }
    {
        two(self.bytes, self.header.rule_at(r) + 2 * usize::from(place))
    }

    // What rule `r` asks of the place; the places from the file's number of places on are idle.
    fn asked(&self, r: u16, place: u8) -> u16
        ensures { result ≡ rule_asks self.now.bytes.now self.now.header r place }
    {
        if place < self.header.places {
            self.label(r, place)
        } else {
            NONE
        }
    }

    pub fn rule(&self, r: u16) -> Rule
        ensures { result ≡ rule_row self.now.bytes.now self.now.header r }
    {
        Rule {
            labels: array::from_fn(|place| self.asked(r, place as u8)),
            result: self.label(r, self.header.places),
        }
    }

    pub fn block_code(&self, b: u8) -> u8
        ensures { result ≡ block_code self.now.bytes.now self.now.header b }
    {
        byte(self.bytes, self.header.block_at(b))
    }

    pub fn sign(&self, b: u8) -> Sign
        ensures { result ≡ block_sign self.now.bytes.now self.now.header b }
    {
        Sign::of(self.block_code(b))
    }

    pub fn kind_code(&self, i: u16) -> u8
        ensures { result ≡ kind_byte self.now.bytes.now self.now.header i }
    {
        byte(self.bytes, self.header.node_at(i))
    }

    pub fn node(&self, i: u16) -> Node
        ensures { result ≡ node_row self.now.bytes.now self.now.header i }
    {
        let at = self.header.node_at(i);
        Node {
            kind: Kind::of(self.kind_code(i)),
            block: byte(self.bytes, at + 1),
            first: four(self.bytes, at + 4),
            count: u32::from(two(self.bytes, at + 2)),
            value: eight(self.bytes, at + 8),
        }
    }

    pub fn edge(&self, e: u16) -> FormulaEdge
        ensures { result ≡ edge_row self.now.bytes.now self.now.header e }
    {
        let at = self.header.edge_at(e);
        FormulaEdge {
            label: two(self.bytes, at),
            target: four(self.bytes, at + 4),
        }
    }

    // What stands between an edge's label and its target.
    pub fn edge_zero(&self, e: u16) -> u16
        ensures { result ≡ edge_zero self.now.bytes.now self.now.header e }
    {
        two(self.bytes, self.header.edge_at(e) + 2)
    }

    // The table of the place; it starts where the one before ends.
    pub fn table_at(&self, place: u8) -> Table<'a>
        ensures { result.bytes.now ≡ table_in self.now.bytes.now self.now.header place }
    {
        let mut table = Table {
            bytes: tail(self.bytes, self.header.tables_at()),
        };
        // over the tables of the places before
        for _ in 0..place {
            table = Table {
                bytes: tail(table.bytes, table.size()),
            };
        }
        table
    }

    // The table of the place, where the file has that place.
    pub fn table(&self, place: u8) -> Option<Table<'a>>
        ensures { MatchOption result (self.now.header.places ≤ place) (λ t. (place < self.now.header.places) × (t.bytes.now ≡ table_in self.now.bytes.now self.now.header place)) }
    {
        if place >= self.header.places {
            None
        } else {
            Some(self.table_at(place))
        }
    }
}
