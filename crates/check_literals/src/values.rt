//! The values of literals that are written in a specification, and these values as items.
ghost use Rattle.std.specs.Prelude.{◌≡◌, IfOk, Some};
ghost use Rattle.std.specs.Option.{option_map};
ghost use Rattle.item_nodes.specs.View.{view};
ghost use Rattle.cddl_literal.specs.Literals.{view as meaning_of};
ghost use Rattle.cddl_language.specs.Literals.{Means, item_of, whole};
ghost use Rattle.cddl_language.specs.Terms as L;
ghost use Rattle.table_nodes.specs.Nodes.{whole_view};
ghost use Rattle.check_literals.specs.Values.Values.{Answers, literal_of};

mod laws;
mod numbers;
mod strings;

use cddl_literal::Literal;
use item_nodes::Item;
pub use laws::one_value;
use std::alloc::{AllocError, Global};
pub use table_nodes::Whole;

/// A literal as it is written in a specification.
#[derive(Clone, Copy)]
pub enum Written<'t> {
    /// A number.
    Number(&'t str),
    /// A text string, with its quotes.
    Text(&'t str),
    /// A byte string, with its prefix and its quotes.
    Bytes(&'t str),
}

/// The literal's value (RFC 8610, section 3.1), or none where it is not spelled rightly: any text is taken.
///
/// It takes a time that grows with the text's length, and as much memory at most as a few of it.
///
/// # Errors
///
/// `AllocError` where memory is refused.
pub fn value_of(alloc: Global, written: Written<'_>) -> Result<Option<Literal>, AllocError>
    ensures { IfOk result (λ o. Answers (Means (literal_of written.entry)) (option_map meaning_of o)) }
{
    match written {
        Written::Number(text) => Ok(number_value(text)),
        Written::Text(text) => text_value(alloc, text),
        Written::Bytes(text) => bytes_value(alloc, text),
    }
}

/// A literal's value as an item.
///
/// It copies a string: its length is the time and the memory that it takes.
///
/// # Errors
///
/// `AllocError` where memory is refused.
pub fn item_of(alloc: Global, literal: &Literal) -> Result<Item, AllocError>
    ensures { IfOk result (λ i. view i ≡ item_of (meaning_of literal.now)) }
{
    match literal {
        Literal::Uint(number) => Ok(Item::Uint(*number)),
        Literal::Nint(number) => Ok(Item::Nint(*number)),
        Literal::Text(text) => {
            let text = String::from_str(alloc, text)?;
            Ok(Item::Text(text))
        }
        Literal::Bytes(bytes) => {
            let bytes = Vec::from_slice(alloc, bytes)?;
            Ok(Item::Bytes(bytes))
        }
    }
}

/// The whole number that a literal is, or none where it is a string.
pub fn whole_of(literal: &Literal) -> Option<Whole>
    ensures { option_map whole_view result ≡ whole (Some (meaning_of literal.now)) }
{
    match literal {
        Literal::Uint(number) => Some(Whole::Uint(*number)),
        Literal::Nint(number) => Some(Whole::Nint(*number)),
        _ => None,
    }
}

// The value of a number.
fn number_value(text: &str) -> Option<Literal>
    ensures { Answers (Means (L.number text.now)) (option_map meaning_of result) }
{
    numbers::number_in(text.as_bytes())
}

// The value of a text string.
fn text_value(alloc: Global, text: &str) -> Result<Option<Literal>, AllocError>
    ensures { IfOk result (λ o. Answers (Means (L.text text.now)) (option_map meaning_of o)) }
{
    match strings::text_in(alloc, text)? {
        Some(value) => Ok(Some(Literal::Text(value))),
        None => Ok(None),
    }
}

// The value of a byte string.
fn bytes_value(alloc: Global, text: &str) -> Result<Option<Literal>, AllocError>
    ensures { IfOk result (λ o. Answers (Means (L.bytes text.now)) (option_map meaning_of o)) }
{
    match strings::bytes_in(alloc, text)? {
        Some(value) => Ok(Some(Literal::Bytes(value))),
        None => Ok(None),
    }
}
