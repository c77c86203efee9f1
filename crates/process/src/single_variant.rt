// A layer over any process that keeps one variant's bit of each weight.
ghost use Rattle.std.specs.Prelude.{◌≡◌};
ghost use Rattle.std.specs.List.{slice_get};
ghost use Rattle.std.specs.Option.{option_map};
ghost use Rattle.process.specs.SingleVariant.{bit, cut_transition, single_variant, single_variant_bounded};

use crate::{Process, Transition};

// A process as one variant alone sees it. Every transition stays listed, at weight 1 or 0.
#[derive(Clone, Copy)]
pub struct SingleVariant<P> {
    pub variant: u8,
    pub process: P,
}

const VARIANTS: u8 = 64;

fn bit_of(variant: u8, weight: u64) -> u64
    ensures { result ≡ bit variant weight }
{
    if variant < VARIANTS {
        (weight >> variant) % 2
    } else {
        0
    }
}

fn cut(variant: u8, t: Transition) -> Transition
    ensures { result ≡ cut_transition variant t }
{
    Transition {
        weight: bit_of(variant, t.weight),
        ..t
    }
}

impl<P: Process> SingleVariant<P> {
    // Transition `e` of state `s` below, with its weight cut.
    fn seen(&self, s: u32, e: u32) -> Option<Transition>
        ensures { result ≡ option_map (cut_transition self.now.variant) (slice_get ((P.Process.meaning self.now.process).transitions s) e) }
    {
        self.process.transition(s, e).map(|t| cut(self.variant, t))
    }
}

impl<P: Process> Process for SingleVariant<P> {
    ghost meaning = { λ p. single_variant p.variant (P.Process.meaning p.process) };

    ghost bounded = { λ p. single_variant_bounded p.variant (P.Process.meaning p.process) (P.Process.bounded p.process) };

    fn states(&self) -> u32 {
        self.process.states()
    }

    fn initial(&self) -> u32 {
        self.process.initial()
    }

    fn count(&self, s: u32) -> u32 {
        self.process.count(s)
    }

    fn transition(&self, s: u32, e: u32) -> Option<Transition> {
        self.seen(s, e)
    }
}
