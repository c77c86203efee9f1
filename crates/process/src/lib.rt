// Processes: labelled transition systems that answer four questions.
#![tactic(auto)]

mod pool;
mod single_variant;

ghost use Rattle.std.specs.Prelude.{◌≡◌, length};
ghost use Rattle.std.specs.List.{slice_get};
ghost use Rattle.process.specs.Lts.{Lts, Bounded};

pub use pool::Pool;
pub use single_variant::SingleVariant;

// One step of a process: it shows `label`, counts for `weight`, and leads to the state `target`.
#[derive(Clone, Copy, PartialEq, Debug)]
pub struct Transition {
    pub label: u16,
    pub weight: u64,
    pub target: u32,
}

// Every answer is the meaning's, and asking alters nothing.
pub trait Process {
    ghost meaning: { Self → Lts };

    // a state from the number of states on has no transitions
    ghost bounded: { (p : Self) → Bounded (meaning p) };

    fn states(&self) -> u32
        ensures { result ≡ (meaning self.now).states };

    fn initial(&self) -> u32
        ensures { result ≡ (meaning self.now).initial };

    // How many transitions state `s` has.
    fn count(&self, s: u32) -> u32
        ensures { result ≡ length ((meaning self.now).transitions s) };

    // Transition `e` of state `s`, counted from 0, where there is one.
    fn transition(&self, s: u32, e: u32) -> Option<Transition>
        ensures { result ≡ slice_get ((meaning self.now).transitions s) e };
}

// A reference to a process is a process.
impl<'a, P: Process> Process for &'a P {
    ghost meaning = { λ p. P.Process.meaning p.now };

    ghost bounded = { λ p. P.Process.bounded p.now };

    fn states(&self) -> u32 {
        (**self).states()
    }

    fn initial(&self) -> u32 {
        (**self).initial()
    }

    fn count(&self, s: u32) -> u32 {
        (**self).count(s)
    }

    fn transition(&self, s: u32, e: u32) -> Option<Transition> {
        (**self).transition(s, e)
    }
}
