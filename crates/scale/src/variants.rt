// The variants scale: every code is a value, and bit v stands for kernel variant v.
ghost use Rattle.std.specs.Prelude.{refl};
ghost use Rattle.scale.specs.Variants.{variants};
ghost use Rattle.scale.specs.Laws.{variants_laws};

use crate::Scale;

#[derive(Clone, Copy)]
pub struct Variants;

impl Scale for Variants {
    ghost algebra = { variants };

    const HEIGHT: u8 = 64;

    ghost HEIGHT = { 64 };

    const NUMBER: u32 = 1;

    ghost NUMBER = { 1 };

    ghost height_is = { refl };

    ghost lawful = { variants_laws };

    fn is_value(_x: u64) -> bool {
        true
    }

    fn lowest() -> u64 {
        0
    }

    fn highest() -> u64 {
        u64::MAX
    }

    fn join(x: u64, y: u64) -> u64 {
        x | y
    }

    fn meet(x: u64, y: u64) -> u64 {
        x & y
    }

    fn complement(x: u64) -> u64 {
        !x
    }

    fn rank(x: u64) -> u8 {
        x.count_ones() as u8
    }
}
