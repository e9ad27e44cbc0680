//! The arguments of heads (RFC 8949 section 3).
ghost use Rattle.std.specs.Prelude.{◌≡◌, ◌+◌, ◌<◌, ◌≤◌, ◌^◌, length, take, drop};
ghost use Rattle.std.specs.Int.{w16, w32, w64, to_be_bytes};
ghost use Rattle.read_items.specs.Whole.Parts.{IsArgumentAt};

/// The argument of the definite head at `at`, of whatever major type, and where the head ends: 0 where there is no such
/// head, or not all of it.
#[inline]
pub fn argument_at(bytes: &[u8], at: usize) -> (u64, usize)
    requires { at < length bytes.now }
    ensures { 0 < result.1 → IsArgumentAt bytes.now at result.0 result.1 }
{
    let info = bytes[at] % 32;
    if info < 24 {
        return (u64::from(info), at + 1);
    }
    let left = bytes.len() - at;
    match info {
        24 if left > 1 => (u64::from(bytes[at + 1]), at + 2),
        25 if left > 2 => (two_bytes(bytes, at + 1), at + 3),
        26 if left > 4 => (four_bytes(bytes, at + 1), at + 5),
        27 if left > 8 => (eight_bytes(bytes, at + 1), at + 9),
        _ => (0, 0),
    }
}

// The number that two bytes make.
#[inline]
fn two_bytes(bytes: &[u8], at: usize) -> u64
    requires { at + 2 ≤ length bytes.now }
    ensures range { result < 2 ^ 16 }
    ensures digits { to_be_bytes w16 result ≡ take 2 (drop at bytes.now) }
{
    u64::from(u16::from_be_bytes([bytes[at], bytes[at + 1]]))
}

#[inline]
fn four_bytes(bytes: &[u8], at: usize) -> u64
    requires { at + 4 ≤ length bytes.now }
    ensures range { result < 2 ^ 32 }
    ensures digits { to_be_bytes w32 result ≡ take 4 (drop at bytes.now) }
{
    u64::from(u32::from_be_bytes([bytes[at], bytes[at + 1], bytes[at + 2], bytes[at + 3]]))
}

#[inline]
fn eight_bytes(bytes: &[u8], at: usize) -> u64
    requires { at + 8 ≤ length bytes.now }
    ensures { to_be_bytes w64 result ≡ take 8 (drop at bytes.now) }
{
    u64::from_be_bytes([
        bytes[at],
        bytes[at + 1],
        bytes[at + 2],
        bytes[at + 3],
        bytes[at + 4],
        bytes[at + 5],
        bytes[at + 6],
        bytes[at + 7],
    ])
}
