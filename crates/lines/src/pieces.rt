// Text in numbered pieces, and the whole of it.
ghost use Rattle.std.specs.Prelude.{◌≡◌, ℕ, List, IfOk, string_bytes};
ghost use Rattle.fault.specs.Each.{Below, Each};
ghost use Rattle.lines.specs.Gathered.{gathered};

use std::alloc::{AllocError, Global};

// The texts of the numbers below `count`, one after another.
pub fn whole<F: Fn(u16) -> Result<String, AllocError>>(
    alloc: Global,
    count: u16,
    piece: F,
) -> Result<String, AllocError>
    requires { Below count (F.pre piece) }
    ensures { (text : ℕ → List ℕ) → Each count (F.post piece) (λ i r. IfOk r (λ t. string_bytes t ≡ text i)) → IfOk result (λ t. string_bytes t ≡ gathered count text) }
{
    let mut text = String::new(alloc);
    // the pieces in their order
    for i in 0..count {
        text.push_str(piece(i)?.as_str())?;
    }
    Ok(text)
}
