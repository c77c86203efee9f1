// The lines that a session prints, one for each accepted call.
#![tactic(auto)]

ghost use Rattle.std.specs.Prelude.{◌≡◌, IfOk, string_bytes};
ghost use Rattle.listing.specs.Listing.{open_line, remove_line};

use calls::Remainder;
use std::alloc::{AllocError, Global};

// The line of an opening, with the counts of the remainder that it wrote.
pub fn open_line(alloc: Global, remainder: &Remainder) -> Result<String, AllocError>
    ensures { IfOk result (λ t. string_bytes t ≡ open_line remainder.now) }
{
    format!(in alloc; "open {} {}\n", remainder.nodes, remainder.edges)
}

// A format each: a function over the name would be longer.
// The line of a removal, with the place and the counts of the remainder that it wrote.
pub fn remove_line(alloc: Global, place: u8, remainder: &Remainder) -> Result<String, AllocError>
    ensures { IfOk result (λ t. string_bytes t ≡ remove_line place remainder.now) }
{
    format!(in alloc; "remove {place} {} {}\n", remainder.nodes, remainder.edges)
}
