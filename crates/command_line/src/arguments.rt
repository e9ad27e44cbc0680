//! The words of the command line as the system hands them on.

ghost use Rattle.std.specs.Prelude.{◌≡◌, ◌⊎◌, ℕ, map, IfErr, IfOk, string_bytes};
ghost use Rattle.command_line.specs.Chosen.{AreChosen, IsMisuse};
ghost use Rattle.command_line.specs.Lines.{argument_line, memory_line, IsPut};

use crate::choice::{Options, Use};
use crate::lines::{say_no_memory, say_number};
use crate::status::BROKEN;
use crate::words::options;
use cbor_item::Counted;
use std::alloc::{AllocError, Global};
use std::env::Env;
use std::io::Write;
use std::str;

/// What [`options`] says of the words.
///
/// # Errors
///
/// Those of [`options`].
pub fn options_of_arguments(alloc: Global, words: &[String]) -> Result<Options, Use>
    ensures chosen { IfOk result (λ o. AreChosen o (map (λ w. string_bytes w) words.now)) }
    ensures misuse { IfErr result (IsMisuse (map (λ w. string_bytes w) words.now)) }
{
    match texts_of(alloc, words) {
        Ok(texts) => options(alloc, texts.as_slice()),
        Err(_) => Err(Use::Memory),
    }
}

fn texts_of(alloc: Global, words: &[String]) -> Result<Vec<&str>, AllocError>
    ensures { IfOk result (λ texts. map (λ t. t.now) texts.items ≡ map (λ w. string_bytes w) words.now) }
{
    words.iter().map(|word| word.as_str()).collect(alloc)
}

// How many bytes an argument may have: as many as the system lets one have.
const MOST_ARGUMENT: usize = 131_072;

/// Says which argument is the first that is not UTF-8, by its number: the program's own name has the number 0. It answers
/// the status. One that is longer than 131,072 bytes counts as such an argument.
pub fn say_no_text<R: Env, E: Write>(alloc: Global, env: &R, err: &mut Counted<E>) -> u8
    ensures status { result ≡ BROKEN }
    ensures line { ((number : ℕ) × IsPut E.contents err.old err.new (argument_line number)) ⊎ IsPut E.contents err.old err.new memory_line }
{
    let Ok(mut buffer) = zeros(alloc, MOST_ARGUMENT) else {
        return say_no_memory(err);
    };
    let number = number_of_no_text(env, buffer.as_mut_slice());
    say_number("argument ", number as u128, " is not UTF-8\n", err);
    BROKEN
}

fn zeros(alloc: Global, len: usize) -> Result<Vec<u8>, AllocError> {
    let mut zeros = Vec::new(alloc);
    zeros.resize(len, 0)?;
    Ok(zeros)
}

fn number_of_no_text<R: Env>(env: &R, buffer: &mut [u8]) -> usize {
    for number in 0..usize::MAX {
        if !has_text_at(env, number, buffer) {
            return number;
        }
    }
    0
}

// Whether there is an argument of this number, and it is UTF-8.
fn has_text_at<R: Env>(env: &R, number: usize, buffer: &mut [u8]) -> bool {
    match env.arg(number, buffer) {
        Ok(len) => is_text(buffer, len),
        Err(_) => false,
    }
}

fn is_text(buffer: &[u8], len: usize) -> bool {
    match buffer.get(..len) {
        Some(argument) => str::from_utf8(argument).is_ok(),
        None => false,
    }
}
