// Numbers in bytes, the least byte first; what stands past the end is read as 0.
ghost use Rattle.std.specs.Prelude.{◌≡◌, drop, map};
ghost use Rattle.std.specs.List.{range_with_len};
ghost use Rattle.format.specs.Bytes.{byte, two, four, eight};

use std::array;

// The bytes from `at` on.
pub(crate) fn tail(bytes: &[u8], at: usize) -> &[u8]
    ensures { result.now ≡ drop at bytes.now }
{
    &bytes[at.min(bytes.len())..]
}

#[tactic(auto, unfolding(crate::specs::Bytes::byte))]
pub(crate) fn byte(bytes: &[u8], at: usize) -> u8
    ensures { result ≡ byte bytes.now at }
{
    bytes.get(at).copied().unwrap_or(0)
}

// The N bytes from `at` on.
fn bytes_at<const N: usize>(bytes: &[u8], at: usize) -> [u8; N]
    ensures { result ≡ map (byte (drop at bytes.now)) (range_with_len 0 N) }
{
    let rest = tail(bytes, at);
    array::from_fn(|k| byte(rest, k))
}

pub(crate) fn two(bytes: &[u8], at: usize) -> u16
    ensures { result ≡ two bytes.now at }
{
    u16::from_le_bytes(bytes_at(bytes, at))
}

pub(crate) fn four(bytes: &[u8], at: usize) -> u32
    ensures { result ≡ four bytes.now at }
{
    u32::from_le_bytes(bytes_at(bytes, at))
}

pub(crate) fn eight(bytes: &[u8], at: usize) -> u64
    ensures { result ≡ eight bytes.now at }
{
    u64::from_le_bytes(bytes_at(bytes, at))
}
