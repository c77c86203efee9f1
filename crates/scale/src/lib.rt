// Scales: the values that a verdict can have, with their operations and laws.
#![tactic(auto)]

mod variants;
mod yes_no;

ghost use Rattle.std.specs.Prelude.{◌≡◌, ℕ};
ghost use Rattle.scale.specs.Algebra.{Algebra, Laws};

pub use variants::Variants;
pub use yes_no::YesNo;

// A scale is known by its algebra and the laws alone: later code sees nothing else of it.
// Every operation answers a value, the lowest where it is given a code that is no value.
pub trait Scale {
    ghost algebra: { Algebra };

    // the highest rank
    const HEIGHT: u8;

    ghost HEIGHT: { ℕ };

    // the number by which the header of a case file names the scale
    const NUMBER: u32;

    ghost NUMBER: { ℕ };

    fn is_value(x: u64) -> bool
        ensures { result ≡ algebra.value x };

    fn lowest() -> u64
        ensures { result ≡ algebra.lowest };

    fn highest() -> u64
        ensures { result ≡ algebra.highest };

    fn join(x: u64, y: u64) -> u64
        ensures { result ≡ algebra.join x y };

    fn meet(x: u64, y: u64) -> u64
        ensures { result ≡ algebra.meet x y };

    fn complement(x: u64) -> u64
        ensures { result ≡ algebra.complement x };

    fn rank(x: u64) -> u8
        ensures { result ≡ algebra.rank x };

    ghost height_is: { HEIGHT ≡ algebra.height };

    ghost lawful: { Laws algebra };
}
