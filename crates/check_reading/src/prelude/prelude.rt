//! The 40 lines of the prelude (RFC 8610 appendix D), and their addition to a table of terms.
ghost use Rattle.std.specs.Prelude.{◌≡◌, IfOk, map};
ghost use Rattle.cddl_language.specs.Prelude.{prelude};
ghost use Rattle.check_terms.specs.Definitions.{AreDefinitions};
ghost use Rattle.check_terms.specs.Table.{Grows};
ghost use Rattle.check_reading.specs.Prelude.Lines.{definition_in};

use crate::prelude::lines::Line;
use crate::prelude::lines::Meaning::{Alias, Either, Hash, Tagged, TaggedPair};
use crate::prelude::numbering::add_lines;
use check_terms::{Definition, NoRoom, Terms};
use std::alloc::Global;

/// Adds the terms of the prelude (RFC 8610 appendix D), and answers its 40 definitions in the order in which they stand
/// there. It costs some two hundred hashes of short texts and of rows, whatever is there before.
///
/// # Errors
///
/// [`NoRoom`], where memory is refused or each number of 32 bits is taken; then some of the terms may have been added.
pub fn add_prelude(alloc: Global, terms: &mut Terms<'_>) -> Result<Vec<Definition>, NoRoom>
    ensures grows { Grows terms.old terms.new }
    ensures definitions { IfOk result (λ v. AreDefinitions terms.new v.items prelude) }
{
    add_lines(alloc, terms, lines())
}

// The lines of the prelude, in order.
fn lines() -> &'static [Line]
    ensures { map definition_in result.now ≡ prelude }
{
    static LINES: [Line; 40] = [
        ("any", Hash("#")),
        ("uint", Hash("#0")),
        ("nint", Hash("#1")),
        ("int", Either("uint", "nint")),
        ("bstr", Hash("#2")),
        ("bytes", Alias("bstr")),
        ("tstr", Hash("#3")),
        ("text", Alias("tstr")),
        ("tdate", Tagged("#6.0(", "tstr")),
        ("time", Tagged("#6.1(", "number")),
        ("number", Either("int", "float")),
        ("biguint", Tagged("#6.2(", "bstr")),
        ("bignint", Tagged("#6.3(", "bstr")),
        ("bigint", Either("biguint", "bignint")),
        ("integer", Either("int", "bigint")),
        ("unsigned", Either("uint", "biguint")),
        ("decfrac", TaggedPair("#6.4(", "e10", "m")),
        ("bigfloat", TaggedPair("#6.5(", "e2", "m")),
        ("eb64url", Tagged("#6.21(", "any")),
        ("eb64legacy", Tagged("#6.22(", "any")),
        ("eb16", Tagged("#6.23(", "any")),
        ("encoded-cbor", Tagged("#6.24(", "bstr")),
        ("uri", Tagged("#6.32(", "tstr")),
        ("b64url", Tagged("#6.33(", "tstr")),
        ("b64legacy", Tagged("#6.34(", "tstr")),
        ("regexp", Tagged("#6.35(", "tstr")),
        ("mime-message", Tagged("#6.36(", "tstr")),
        ("cbor-any", Tagged("#6.55799(", "any")),
        ("float16", Hash("#7.25")),
        ("float32", Hash("#7.26")),
        ("float64", Hash("#7.27")),
        ("float16-32", Either("float16", "float32")),
        ("float32-64", Either("float32", "float64")),
        ("float", Either("float16-32", "float64")),
        ("false", Hash("#7.20")),
        ("true", Hash("#7.21")),
        ("bool", Either("false", "true")),
        ("nil", Hash("#7.22")),
        ("null", Alias("nil")),
        ("undefined", Hash("#7.23")),
    ];
    &LINES
}
