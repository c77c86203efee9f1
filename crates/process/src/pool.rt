// A pool of units that are taken and given back, up to a capacity.
ghost use Rattle.std.specs.Prelude.{◌≡◌, ◌&&◌, nat_le, nat_lt};
ghost use Rattle.process.specs.Pool.{pool, pool_bounded};

use crate::{Process, Transition};

#[derive(Clone, Copy, Debug)]
pub struct Pool {
    pub capacity: u16,
    pub take: u16,
    pub give: u16,
    pub weight: u64,
}

impl Pool {
    // Whether a unit can be taken in state `s`.
    fn takes(&self, s: u32) -> bool
        ensures { result ≡ nat_lt s self.now.capacity }
    {
        s < u32::from(self.capacity)
    }

    // Whether a unit can be given back in state `s`.
    fn gives(&self, s: u32) -> bool
        ensures { result ≡ (nat_lt 0 s && nat_le s self.now.capacity) }
    {
        s > 0 && s <= u32::from(self.capacity)
    }
}

impl Process for Pool {
    ghost meaning = { pool };

    ghost bounded = { pool_bounded };

    fn states(&self) -> u32 {
        u32::from(self.capacity) + 1
    }

    fn initial(&self) -> u32 {
        0
    }

    fn count(&self, s: u32) -> u32 {
        u32::from(self.takes(s)) + u32::from(self.gives(s))
    }

    fn transition(&self, s: u32, e: u32) -> Option<Transition> {
        let takes = self.takes(s);
        if takes && e == 0 {
            Some(Transition {
                label: self.take,
                weight: self.weight,
                target: s + 1,
            })
        } else if self.gives(s) && e == u32::from(takes) {
            Some(Transition {
                label: self.give,
                weight: self.weight,
                target: s - 1,
            })
        } else {
            None
        }
    }
}
