// The yes/no scale: code 0 is no, the lowest, and code 1 yes.
ghost use Rattle.std.specs.Prelude.{refl};
ghost use Rattle.scale.specs.YesNo.{yes_no};
ghost use Rattle.scale.specs.Laws.{yes_no_laws};

use crate::Scale;

#[derive(Clone, Copy)]
pub struct YesNo;

impl Scale for YesNo {
    ghost algebra = { yes_no };

    const HEIGHT: u8 = 1;

    ghost HEIGHT = { 1 };

    const NUMBER: u32 = 0;

    ghost NUMBER = { 0 };

    ghost height_is = { refl };

    ghost lawful = { yes_no_laws };

    fn is_value(x: u64) -> bool {
        x < 2
    }

    fn lowest() -> u64 {
        0
    }

    fn highest() -> u64 {
        1
    }

    fn join(x: u64, y: u64) -> u64 {
        if x < 2 && y < 2 { x.max(y) } else { 0 }
    }

    fn meet(x: u64, y: u64) -> u64 {
        if x < 2 && y < 2 { x.min(y) } else { 0 }
    }

    fn complement(x: u64) -> u64 {
        if x < 2 { 1 - x } else { 0 }
    }

    fn rank(x: u64) -> u8 {
        if x == 1 { 1 } else { 0 }
    }
}
