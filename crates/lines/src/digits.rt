// A code of 64 bits as sixteen hexadecimal digits.
ghost use Rattle.std.specs.Prelude.{◌≡◌, IfOk, string_bytes};
ghost use Rattle.lines.specs.Hex.{hex};

use std::alloc::{AllocError, Global};

#[tactic(auto, using(crate::proofs::Sixteen::sixteen))]
pub fn hex(alloc: Global, x: u64) -> Result<String, AllocError>
    ensures { IfOk result (λ t. string_bytes t ≡ hex x) }
{
    format!(in alloc; "{x:016X}")
}
