// Prints the account of the case file on standard input, or the line of its refusal.
#![tactic(auto)]

use account::{MOST, report};
use std::io;
use std::io::Read;

fn main(rt: HostRuntime) -> io::Result<()> {
    let mut input = Vec::new(rt.alloc());
    // one byte more than an input may have shows that it is too long
    let mut source = rt.stdin().take(MOST as u64 + 1);
    source.read_to_end(&mut input)?;
    let text = report(rt.alloc(), input.as_slice())?;
    print!(rt; "{text}")
}
