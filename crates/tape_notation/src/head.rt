//! Heads that are surely there (RFC 8949 section 3).
ghost use Rattle.std.specs.Prelude.{◌≡◌, ◌+◌, ◌<◌, ◌≤◌, ◌^◌, length, take, drop};
ghost use Rattle.std.specs.Int.{w16, w32, w64, to_be_bytes};
ghost use Rattle.tape_notation.specs.Heads.{HasHead, IsReadAt};

/// The argument of the head at `at`, and where the head ends.
#[inline(always)]
pub(crate) fn head_at(bytes: &[u8], at: usize) -> (u64, usize)
    requires { HasHead bytes.now at }
    ensures { IsReadAt bytes.now at result.0 result.1 }
{
    match bytes[at] % 32 {
        24 => (u64::from(bytes[at + 1]), at + 2),
        25 => (two_bytes(bytes, at + 1), at + 3),
        26 => (four_bytes(bytes, at + 1), at + 5),
        27 => (eight_bytes(bytes, at + 1), at + 9),
        info => (u64::from(info), at + 1),
    }
}

// The number that two bytes make.
#[inline(always)]
fn two_bytes(bytes: &[u8], at: usize) -> u64
    requires { at + 2 ≤ length bytes.now }
    ensures range { result < 2 ^ 16 }
    ensures digits { to_be_bytes w16 result ≡ take 2 (drop at bytes.now) }
{
    u64::from(u16::from_be_bytes([bytes[at], bytes[at + 1]]))
}

#[inline(always)]
fn four_bytes(bytes: &[u8], at: usize) -> u64
    requires { at + 4 ≤ length bytes.now }
    ensures range { result < 2 ^ 32 }
    ensures digits { to_be_bytes w32 result ≡ take 4 (drop at bytes.now) }
{
    u64::from(u32::from_be_bytes([bytes[at], bytes[at + 1], bytes[at + 2], bytes[at + 3]]))
}

#[inline(always)]
fn eight_bytes(bytes: &[u8], at: usize) -> u64
    requires { at + 8 ≤ length bytes.now }
    ensures range { result < 2 ^ 64 }
    ensures digits { to_be_bytes w64 result ≡ take 8 (drop at bytes.now) }
{
    u64::from_be_bytes([
        bytes[at],
        bytes[at + 1],
        bytes[at + 2],
        bytes[at + 3],
        bytes[at + 4],
        bytes[at + 5],
        bytes[at + 6],
        bytes[at + 7],
    ])
}
