// The table of one place, which is a process.
ghost use Rattle.std.specs.Prelude.{◌≡◌, ◌^◌, ◌<◌, length};
ghost use Rattle.format.specs.Table.{transitions, start, transition_at, size, transition_row, table_lts, table_bounded};

use crate::bytes::{eight, four, two};
use process::{Process, Transition};

// A table is read from the bytes of the case file, from the table's own start on.
#[derive(Clone, Copy)]
pub struct Table<'a> {
    pub(crate) bytes: &'a [u8],
}

impl<'a> Table<'a> {
    // How many transitions the table has.
    pub fn transitions(&self) -> u32
        ensures { result ≡ transitions self.now.bytes.now }
    {
        four(self.bytes, 4)
    }

    // The number of state `i`'s first transition.
    pub fn start(&self, i: u32) -> u32
        ensures { result ≡ start self.now.bytes.now i }
    {
        four(self.bytes, 12 + 4 * i as usize)
    }

    // Where the transitions begin.
    pub fn transitions_at(&self) -> usize
        ensures at { result ≡ transition_at self.now.bytes.now 0 }
        ensures small { result < 2 ^ 35 }
    {
        12 + 4 * (self.states() as usize + 1)
    }

    // How many bytes the table has.
    pub fn size(&self) -> usize
        ensures { result ≡ size self.now.bytes.now }
    {
        self.transitions_at() + 14 * self.transitions() as usize
    }

    // How many bytes there are from the table's start on.
    pub fn reach(&self) -> usize
        ensures { result ≡ length self.now.bytes.now }
    {
        self.bytes.len()
    }

    // Transition `k` of the whole table.
    fn row(&self, k: usize) -> Transition
        requires { k < 2 ^ 33 }
        ensures { result ≡ transition_row self.now.bytes.now k }
    {
        let at = self.transitions_at() + 14 * k;
        Transition {
            label: two(self.bytes, at),
            weight: eight(self.bytes, at + 6),
            target: four(self.bytes, at + 2),
        }
    }
}

impl<'a> Process for Table<'a> {
    ghost meaning = { λ t. table_lts t.bytes.now };

    ghost bounded = { λ t. table_bounded t.bytes.now };

    fn states(&self) -> u32 {
        four(self.bytes, 0)
    }

    fn initial(&self) -> u32 {
        four(self.bytes, 8)
    }

    fn count(&self, s: u32) -> u32 {
        if s < self.states() {
            self.start(s + 1).saturating_sub(self.start(s))
        } else {
            0
        }
    }

    fn transition(&self, s: u32, e: u32) -> Option<Transition> {
        if e < self.count(s) {
            Some(self.row(self.start(s) as usize + e as usize))
        } else {
            None
        }
    }
}
