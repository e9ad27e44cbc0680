//! What is reported where a cause names a key.

ghost use Rattle.std.specs.Prelude.{◌≡◌, IfOk, option_map, string_bytes};
ghost use Rattle.item_nodes.specs.View.{view};
ghost use Rattle.table_nodes.specs.Language.{language_of};
ghost use Rattle.table_nodes.specs.Nodes.{type_view};
ghost use Rattle.cddl_mismatch.specs.Causes.{names_key};
ghost use Rattle.cddl_mismatch.specs.Keys.{beginning, is_same, key_words, notation_of, start_of, told_place, value_asked};

use cbor_item::Item;
use cddl_reasons::Cause;
use cddl_sources::{Place, Span};
use mismatch_words::value_words;
use std::alloc::{AllocError, Global};
use table_nodes::{Node, Table, Test, TypeId};

// The place to which the key's link leads; where that is no other than the one to which those before it lead, the key stands nowhere in
// the text, and it is where that one begins.
pub(crate) fn told_place(cause: Cause, named: Place, holder: Option<Place>) -> Place
    ensures { result ≡ told_place (names_key cause) named holder }
{
    let Some(holder) = holder else {
        return named;
    };
    if names_key(cause) && is_same(named.types, holder.types) {
        return beginning(named);
    }
    named
}

// Whether the cause names the key of an entry.
fn names_key(cause: Cause) -> bool
    ensures { result ≡ names_key cause }
{
    match cause {
        Cause::Few { .. } => true,
        Cause::Many { .. } => true,
        Cause::Value => false,
        Cause::Missing { .. } => false,
        Cause::TooMuch => false,
        Cause::Stray => false,
        Cause::NothingHeld { .. } => false,
    }
}

fn is_same(one: Span, other: Span) -> bool
    ensures { result ≡ is_same one other }
{
    one.first == other.first && one.end == other.end
}

fn beginning(place: Place) -> Place
    ensures { result ≡ beginning place }
{
    let start = start_of(place.types);
    Place {
        name: place.name,
        types: start,
        written: start,
    }
}

fn start_of(span: Span) -> Span
    ensures { result ≡ start_of span }
{
    Span {
        first: span.first,
        end: span.first,
    }
}

// The notation of the value that the key is which the cause names; nothing where it is no literal.
pub(crate) fn key_words(alloc: Global, table: &Table, cause: Cause) -> Result<String, AllocError>
    ensures { IfOk result (λ words. string_bytes words ≡ key_words (language_of table.now) cause) }
{
    match cause {
        Cause::Few { key, .. } => literal_words(alloc, table, key),
        Cause::Many { key, .. } => literal_words(alloc, table, key),
        Cause::Value => Ok(String::new(alloc)),
        Cause::Missing { .. } => Ok(String::new(alloc)),
        Cause::TooMuch => Ok(String::new(alloc)),
        Cause::Stray => Ok(String::new(alloc)),
        Cause::NothingHeld { .. } => Ok(String::new(alloc)),
    }
}

fn literal_words(alloc: Global, table: &Table, key: TypeId) -> Result<String, AllocError>
    ensures { IfOk result (λ words. string_bytes words ≡ notation_of (value_asked ((language_of table.now).type_at key))) }
{
    let Some(form) = table.node(key) else {
        return Ok(String::new(alloc));
    };
    match value_asked(form) {
        Some(value) => value_words(alloc, value),
        None => Ok(String::new(alloc)),
    }
}

// The value that a form asks for, if it asks for one.
fn value_asked(form: &Node) -> Option<&Item>
    ensures { option_map (λ i. view i.now) result ≡ value_asked (type_view form.now) }
{
    match form {
        Node::Plain(Test::Equals(value)) => Some(value),
        _ => None,
    }
}
