//! The number that a float is, in decimal (RFC 8949 section 3.3).

ghost use Rattle.std.specs.Prelude.{◌≡◌, ◌<◌, ◌+◌, ◌^◌, ◌%◌, [], ◌∷◌, ◌++◌, IfOk, OnOk, string_bytes};
ghost use Rattle.std.specs.Float.{binary32, binary64};
ghost use Rattle.cbor_data.specs.Value.{FitsWidth};
ghost use Rattle.mismatch_words.specs.Floats.{half_sign, half_size, AreFraction, IsHalf, IsNumber, ReadsBack};

use cbor_data::Width;
use ryu::Buffer;
use std::alloc::{AllocError, Global};

// The bit of the sign of a float of 16 bits, and the bits of its infinity.
const HALF_SIGN: u64 = 0x8000;

const HALF_INFINITY: u64 = 0x7c00;

// So many of the smallest float of 16 bits make 1.
const HALF_ONE: u64 = 1 << 24;

const SINGLE_SIGN: u32 = 1 << 31;

const SINGLE_INFINITY: u32 = 0x7f80_0000;

const DOUBLE_SIGN: u64 = 1 << 63;

const DOUBLE_INFINITY: u64 = 0x7ff0_0000_0000_0000;

/// The number of a float's bits (RFC 8949 section 3.3), or `NaN`, `inf` or `-inf`: of 16 bits with all of its digits, and else one
/// that reads back as the same float. The bits are to fit the width.
///
/// # Errors
///
/// `AllocError` where an allocation was refused.
pub fn number_words(alloc: Global, width: Width, bits: u64) -> Result<String, AllocError>
    ensures { IfOk result (λ words. FitsWidth width bits → IsNumber width bits (string_bytes words)) }
{
    match width {
        Width::W16 => half_words(alloc, bits),
        Width::W32 => match u32::try_from(bits) {
            Ok(bits) => single_words(alloc, bits),
            Err(_) => Ok(String::new(alloc)),
        },
        Width::W64 => double_words(alloc, bits),
    }
}

fn single_words(alloc: Global, bits: u32) -> Result<String, AllocError>
    ensures { IfOk result (λ words. ReadsBack binary32 (bits % 2 ^ 31) 0x7f80_0000 bits (string_bytes words)) }
{
    if bits % SINGLE_SIGN > SINGLE_INFINITY {
        return String::from_str(alloc, "NaN");
    }
    String::from_str(alloc, Buffer::new().format(f32::from_bits(bits)))
}

fn double_words(alloc: Global, bits: u64) -> Result<String, AllocError>
    ensures { IfOk result (λ words. ReadsBack binary64 (bits % 2 ^ 63) 0x7ff0_0000_0000_0000 bits (string_bytes words)) }
{
    if bits % DOUBLE_SIGN > DOUBLE_INFINITY {
        return String::from_str(alloc, "NaN");
    }
    String::from_str(alloc, Buffer::new().format(f64::from_bits(bits)))
}

fn half_words(alloc: Global, bits: u64) -> Result<String, AllocError>
    ensures { IfOk result (λ words. IsHalf bits (string_bytes words)) }
{
    let size = bits % HALF_SIGN;
    if size > HALF_INFINITY {
        return String::from_str(alloc, "NaN");
    }
    let sign = half_sign(bits);
    if size == HALF_INFINITY {
        return format!(in alloc; "{sign}inf");
    }
    let count = half_size(size);
    let whole = count / HALF_ONE;
    let fraction = fraction_digits(alloc, count % HALF_ONE)?;
    format!(in alloc; "{sign}{whole}.{fraction}")
}

fn half_sign(bits: u64) -> &'static str
    ensures { result.now ≡ half_sign bits }
{
    if bits < HALF_SIGN { "" } else { "-" }
}

// A float of 16 bits without that of its sign, as a number of the smallest ones.
fn half_size(bits: u64) -> u64
    requires { bits < 31744 }
    ensures { result ≡ half_size bits }
{
    let exponent = bits / 1024;
    if exponent == 0 {
        return bits;
    }
    (1024 + bits % 1024) * 2_u64.pow(exponent as u32 - 1)
}

// The digits after the point of so many of the smallest floats of 16 bits, which are less than 1: 24 at most.
fn fraction_digits(alloc: Global, rest: u64) -> Result<String, AllocError>
    requires { rest < 2 ^ 24 }
    ensures { IfOk result (λ digits. AreFraction rest (string_bytes digits)) }
{
    let mut digits = String::new(alloc);
    let mut left = rest;
    'digit: for k in 0..24_u32 {
        // What is left is so many times 2 ^ -(24 - k).
        let unit = 2_u64.pow(23 - k);
        push_digit(&mut digits, 5 * left / unit)?;
        left = 5 * left % unit;
        if left == 0 {
            return Ok(digits);
        }
    }
    Ok(digits)
}

fn push_digit(digits: &mut String, digit: u64) -> Result<(), AllocError>
    requires { digit < 10 }
    ensures { OnOk result (string_bytes digits.new ≡ string_bytes digits.old ++ (48 + digit) ∷ []) }
{
    digits.push((b'0' + digit as u8) as char)
}
