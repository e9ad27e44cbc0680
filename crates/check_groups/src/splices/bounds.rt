//! Bounds of occurrences.

ghost use Rattle.std.specs.Prelude.{IfOk, Option};
ghost use Rattle.cddl_language.specs.Terms.{Text};
ghost use Rattle.check_terms.specs.Table.{HoldsText};
ghost use Rattle.check_groups.specs.Splices.Parts.{HasBounds};

use alternatives::Bounds;
use check_terms::Terms;
use check_terms::texts::{Occurrence, occurrence_of};
use std::alloc::AllocError;

/// Without an occurrence.
const ONCE: Bounds = Bounds {
    least: 1,
    most: Some(1),
};

// How often an entry may stand, by the text of its occurrence, if it has one (RFC 8610 section 3.2). A number of 2^64 or
// more, which no token has, is an error.
pub(crate) fn bounds_at(terms: &Terms<'_>, text: Option<u32>) -> Result<Bounds, AllocError>
    ensures { IfOk result (λ b. (o : Option Text) → HoldsText terms.now.texts text o → HasBounds o b) }
{
    let Some(number) = text else {
        return Ok(ONCE);
    };
    let Some(text) = terms.text(number) else {
        return Err(AllocError);
    };
    match occurrence_of(text) {
        Some(Occurrence { least, most }) => Ok(Bounds { least, most }),
        None => Err(AllocError),
    }
}
