//! What is shown of an item.

ghost use Rattle.std.specs.Prelude.{◌≡◌, ℕ, List, ◌++◌, codes, IfOk, string_bytes};
ghost use Rattle.cbor_data.specs.Value.{FitsWidth};
ghost use Rattle.item_nodes.specs.View.{view};
ghost use Rattle.mismatch_words.specs.Floats.{IsNumber, IsShownValue};
ghost use Rattle.mismatch_words.specs.Values.{value_words};

use crate::floats::number_words;
use cbor_data::Width;
use item_nodes::{Item, diag};
use std::alloc::{AllocError, Global};
use text_shown::shown_part;

// So many bytes have more characters than are shown.
const MOST_BYTES: usize = 256;

/// What is shown of an item: the first 60 characters of its notation, and `..` where it has more. Control characters and those
/// that change the order of characters are `\u` and four hex digits.
///
/// # Errors
///
/// `AllocError` where an allocation was refused.
pub fn value_words(alloc: Global, item: &Item) -> Result<String, AllocError>
    ensures { IfOk result (λ words. string_bytes words ≡ value_words (view item.now)) }
{
    let notation = diag(alloc, item)?;
    let part = &notation[..MOST_BYTES.min(notation.len())];
    shown_part(alloc, part)
}

/// What is shown of an item: [`value_words`], and of a float also its number in decimal.
///
/// # Errors
///
/// `AllocError` where an allocation was refused.
pub fn shown_value(alloc: Global, item: &Item) -> Result<String, AllocError>
    ensures { IfOk result (λ words. IsShownValue (view item.now) (string_bytes words)) }
{
    let words = value_words(alloc, item)?;
    match item {
        Item::Float(width, bits) => with_number(alloc, words, *width, *bits),
        _ => Ok(words),
    }
}

// What is shown of a float, with its number.
fn with_number(alloc: Global, words: String, width: Width, bits: u64) -> Result<String, AllocError>
    ensures { IfOk result (λ shown. FitsWidth width bits → (number : List ℕ) × IsNumber width bits number × (string_bytes shown ≡ string_bytes words ++ (codes " (" ++ (number ++ codes ")")))) }
{
    let number = number_words(alloc, width, bits)?;
    format!(in alloc; "{words} ({number})")
}
