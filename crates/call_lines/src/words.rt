//! The words of a line, and what answers are made of.

ghost use Rattle.std.specs.Prelude.{◌≡◌, ◌++◌, ℕ, List, IfOk, OnErr, OnOk, codes, nat_eq, string_bytes};
ghost use Rattle.std.specs.List.{after_first, before_first, repeat};
ghost use Rattle.std.specs.Fmt.{decimal};
ghost use Rattle.std.specs.Str.{IsUtf8};
ghost use Rattle.hex.specs.Hex.{encode_lower};
ghost use Rattle.call_lines.specs.Words.{hex_bytes, or_none, spaced, yes_or_no, AreBytes, IsNumberOf, IsPart};

use hex::FromHexError;
use std::alloc::{AllocError, Global};

/// The first word, and what is after the space that ends it: nothing where there is none.
pub fn first(words: &str) -> (&str, &str)
    ensures word { result.0.now ≡ before_first (λ c. nat_eq c 32) words.now }
    ensures rest { result.1.now ≡ after_first (λ c. nat_eq c 32) words.now }
{
    match words.split_once(' ') {
        Some(parts) => parts,
        None => (words, ""),
    }
}

/// The number that a word is, in decimal digits; 0 where it is none below 2^64.
pub fn number(word: &str) -> u64
    ensures { IsNumberOf 64 word.now result }
{
    word.parse::<u64>().unwrap_or(0)
}

/// The same of a number that counts something.
pub fn count(word: &str) -> usize
    ensures { IsNumberOf 64 word.now result }
{
    word.parse::<usize>().unwrap_or(0)
}

/// The same of a number below 2^32, which limits something.
pub fn limit(word: &str) -> u32
    ensures { IsNumberOf 32 word.now result }
{
    word.parse::<u32>().unwrap_or(0)
}

/// The bytes of a word: parts with `+` between them, each in hex, and those with `*` as often as the number after it says. A part
/// that is no hex has none.
///
/// # Errors
///
/// An allocation was refused.
pub fn bytes(alloc: Global, word: &str) -> Result<Vec<u8>, AllocError>
    ensures { IfOk result (λ bytes. AreBytes word.now bytes.items) }
{
    let mut out = Vec::new(alloc);
    for part in word.split('+') {
        push_part(alloc, &mut out, part)?;
    }
    Ok(out)
}

fn push_part(alloc: Global, out: &mut Vec<u8>, part: &str) -> Result<(), AllocError>
    ensures { OnOk result ((piece : List ℕ) × IsPart part.now piece × (out.new.items ≡ out.old.items ++ piece)) }
{
    let (digits, times) = digits_and_times(part);
    let bytes = plain_bytes(alloc, digits)?;
    push_times(times, &bytes, out)
}

// The hex digits of a part, and how often their bytes are there.
fn digits_and_times(part: &str) -> (&str, usize)
    ensures { (piece : List ℕ) → piece ≡ repeat result.1 (hex_bytes result.0.now) → IsPart part.now piece }
{
    match part.split_once('*') {
        Some((digits, times)) => (digits, count(times)),
        None => (part, 1),
    }
}

// The bytes in hex; none where it is no hex.
fn plain_bytes(alloc: Global, digits: &str) -> Result<Vec<u8>, AllocError>
    ensures { IfOk result (λ bytes. bytes.items ≡ hex_bytes digits.now) }
{
    match hex::decode(alloc, digits) {
        Ok(bytes) => Ok(bytes),
        Err(FromHexError::OutOfMemory) => Err(AllocError),
        Err(_) => Ok(Vec::new(alloc)),
    }
}

// Adds the bytes so many times.
fn push_times(times: usize, bytes: &[u8], out: &mut Vec<u8>) -> Result<(), AllocError>
    ensures { OnOk result (out.new.items ≡ out.old.items ++ repeat times bytes.now) }
{
    for time in 0..times {
        out.extend_from_slice(bytes)?;
    }
    Ok(())
}

/// Adds the bytes in hex, two lower case digits for each.
pub fn push_hex(alloc: Global, bytes: &[u8], out: &mut String) -> Result<(), AllocError>
    ensures ok { OnOk result (string_bytes out.new ≡ string_bytes out.old ++ encode_lower bytes.now) }
    ensures err { OnErr result (string_bytes out.new ≡ string_bytes out.old) }
{
    out.push_str(hex::encode(alloc, bytes)?.as_str())
}

/// Adds the bytes in hex, and `none` where there are none.
pub fn push_bytes(alloc: Global, bytes: &[u8], out: &mut String) -> Result<(), AllocError>
    ensures ok { OnOk result (string_bytes out.new ≡ string_bytes out.old ++ or_none (encode_lower bytes.now)) }
    ensures err { OnErr result (string_bytes out.new ≡ string_bytes out.old) }
{
    let digits = hex::encode(alloc, bytes)?;
    if digits.is_empty() {
        return out.push_str("none");
    }
    out.push_str(digits.as_str())
}

/// Adds a text whose bytes are UTF-8, as notations and paths are, and `no text` in the place of other bytes.
pub fn push_text(bytes: &[u8], out: &mut String) -> Result<(), AllocError>
    ensures text { IsUtf8 bytes.now → OnOk result (string_bytes out.new ≡ string_bytes out.old ++ bytes.now) }
    ensures no_text { (IsUtf8 bytes.now → ⊥) → OnOk result (string_bytes out.new ≡ string_bytes out.old ++ codes "no text") }
    ensures err { OnErr result (string_bytes out.new ≡ string_bytes out.old) }
{
    out.push_str(str::from_utf8(bytes).unwrap_or("no text"))
}

/// Adds a number in decimal digits.
pub fn push_number(alloc: Global, number: u64, out: &mut String) -> Result<(), AllocError>
    ensures ok { OnOk result (string_bytes out.new ≡ string_bytes out.old ++ decimal number) }
    ensures err { OnErr result (string_bytes out.new ≡ string_bytes out.old) }
{
    out.push_str(format!(in alloc; "{number}")?.as_str())
}

/// Adds what a call answers that was refused memory.
pub fn push_no_memory(out: &mut String) -> Result<(), AllocError>
    ensures ok { OnOk result (string_bytes out.new ≡ string_bytes out.old ++ codes "no memory") }
    ensures err { OnErr result (string_bytes out.new ≡ string_bytes out.old) }
{
    out.push_str("no memory")
}

/// Adds `yes` or `no`.
pub fn push_is(is_so: bool, out: &mut String) -> Result<(), AllocError>
    ensures ok { OnOk result (string_bytes out.new ≡ string_bytes out.old ++ yes_or_no is_so) }
    ensures err { OnErr result (string_bytes out.new ≡ string_bytes out.old) }
{
    out.push_str(if is_so { "yes" } else { "no" })
}

/// Adds a space, where something stands before it.
pub fn push_space(out: &mut String) -> Result<(), AllocError>
    ensures ok { OnOk result (string_bytes out.new ≡ spaced (string_bytes out.old)) }
    ensures err { OnErr result (string_bytes out.new ≡ string_bytes out.old) }
{
    if out.is_empty() {
        return Ok(());
    }
    out.push_str(" ")
}

/// Puts `none` in the place of an answer that has nothing in it.
pub fn push_none(out: &mut String) -> Result<(), AllocError>
    ensures ok { OnOk result (string_bytes out.new ≡ or_none (string_bytes out.old)) }
    ensures err { OnErr result (string_bytes out.new ≡ string_bytes out.old) }
{
    if out.is_empty() {
        out.push_str("none")?;
    }
    Ok(())
}
