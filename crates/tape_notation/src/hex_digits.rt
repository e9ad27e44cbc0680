//! Bytes in hex.
ghost use Rattle.std.specs.Prelude.{◌≡◌, ◌+◌, ◌<◌, ◌≤◌, length, slice_index};
ghost use Rattle.hex.specs.Hex.{encode_lower, lower_digits};
ghost use Rattle.tape_notation.specs.Put.{IsPut};

use crate::put::put;

// So many bytes are turned into digits at once.
const RUN: usize = 16;

const HALF: usize = 8;

const QUARTER: usize = 4;

/// Puts two hex digits for each byte.
pub(crate) fn put_hex(out: &mut [u8], at: usize, bytes: &[u8]) -> usize
    requires { at + length (encode_lower bytes.now) ≤ length out.old }
    ensures { IsPut out.old out.new at (encode_lower bytes.now) result }
{
    let mut end = at;
    let mut read = 0;
    while bytes.len() - read >= RUN {
        end = put_hex_run(out, end, &bytes[read..read + RUN]);
        read += RUN;
    }
    put_hex_rest(out, end, &bytes[read..])
}

// The same of fewer bytes than are turned into digits at once: first half as many.
#[inline(always)]
fn put_hex_rest(out: &mut [u8], at: usize, bytes: &[u8]) -> usize
    requires { at + length (encode_lower bytes.now) ≤ length out.old }
    ensures { IsPut out.old out.new at (encode_lower bytes.now) result }
{
    if bytes.len() < HALF {
        return put_hex_few(out, at, bytes);
    }
    let end = put_hex_run(out, at, &bytes[..HALF]);
    put_hex_few(out, end, &bytes[HALF..])
}

// The same: first a quarter, and then byte by byte.
fn put_hex_few(out: &mut [u8], at: usize, bytes: &[u8]) -> usize
    requires { at + length (encode_lower bytes.now) ≤ length out.old }
    ensures { IsPut out.old out.new at (encode_lower bytes.now) result }
{
    if bytes.len() < QUARTER {
        return put_hex_each(out, at, bytes);
    }
    let end = put_hex_run(out, at, &bytes[..QUARTER]);
    put_hex_each(out, end, &bytes[QUARTER..])
}

#[inline(always)]
fn put_hex_each(out: &mut [u8], at: usize, bytes: &[u8]) -> usize
    requires { at + length (encode_lower bytes.now) ≤ length out.old }
    ensures { IsPut out.old out.new at (encode_lower bytes.now) result }
{
    let mut end = at;
    for i in 0..bytes.len() {
        end = put_hex_run(out, end, &bytes[i..i + 1]);
    }
    end
}

// It is to stand in its callers: where they know how many bytes there are, all digits are worked out without a loop.
#[inline(always)]
pub(crate) fn put_hex_run(out: &mut [u8], at: usize, run: &[u8]) -> usize
    requires few { length run.now ≤ 16 }
    requires room { at + length (encode_lower run.now) ≤ length out.old }
    ensures { IsPut out.old out.new at (encode_lower run.now) result }
{
    let mut digits = [0u8; 2 * RUN];
    for i in 0..run.len() {
        digits[2 * i] = digit(run[i] / 16);
        digits[2 * i + 1] = digit(run[i] % 16);
    }
    put(out, at, &digits[..2 * run.len()])
}

// By arithmetic: so the digits of many bytes are worked out at once, and none is looked up.
#[inline]
fn digit(n: u8) -> u8
    requires { n < 16 }
    ensures { result ≡ slice_index lower_digits n }
{
    if n < 10 { b'0' + n } else { b'a' + (n - 10) }
}
