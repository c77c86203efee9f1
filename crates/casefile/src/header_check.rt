// The check of a header.
ghost use Rattle.std.specs.Prelude.{◌≡◌, ◌≤◌};
ghost use Rattle.fault.specs.declared.Fault.TheVariants as faults;
ghost use Rattle.format.specs.Bytes.{four};
ghost use Rattle.format.specs.Layout.{header_of};
ghost use Rattle.fault.specs.First.{flag, or_else, Answers};
ghost use Rattle.casefile.specs.Refusal.{outside, short_fault, header_fault};

use fault::Fault;
use format::{HEADER_LENGTH, Header, header_field};

// The header field at `byte`, which is to be among `low` to `high`.
fn field(bytes: &[u8], byte: u8, low: u32, high: u32) -> Result<u32, Fault>
    ensures { Answers (flag (outside low high (four bytes.now byte)) (faults.Header byte)) (λ x. (x ≡ four bytes.now byte) × (x ≤ high)) result }
{
    let x = header_field(bytes, byte);
    if (low..=high).contains(&x) {
        Ok(x)
    } else {
        Err(Fault::Header { byte })
    }
}

// The header of the bytes, which is to name the scale of number `scale`.
pub(crate) fn read_header(bytes: &[u8], scale: u32) -> Result<Header, Fault>
    ensures { Answers (or_else (short_fault bytes.now) (header_fault scale bytes.now)) (λ h. h ≡ header_of bytes.now) result }
{
    if bytes.len() < HEADER_LENGTH {
        return Err(Fault::ShortFile {
            length: bytes.len() as u64,
        });
    }
    if header_field(bytes, 0) != scale {
        return Err(Fault::Header { byte: 0 });
    }
    let places = field(bytes, 4, 1, 8)?;
    let rules = field(bytes, 8, 0, 256)?;
    let blocks = field(bytes, 12, 1, 16)?;
    let nodes = field(bytes, 16, 1, 4096)?;
    let edges = field(bytes, 20, 0, 16384)?;
    let initial = header_field(bytes, 24);
    if initial >= nodes {
        return Err(Fault::Header { byte: 24 });
    }
    Ok(Header {
        places: places as u8,
        rules: rules as u16,
        blocks: blocks as u8,
        nodes: nodes as u16,
        edges: edges as u16,
        initial: initial as u16,
    })
}
