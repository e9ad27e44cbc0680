//! What a byte string holds, for a question that refers to it.

ghost use Rattle.std.specs.Prelude.{IfOk, MatchOption};
ghost use Rattle.cbor_data.specs.Value.{Value};
ghost use Rattle.cddl_meaning.specs.Held.{Holds};
ghost use Rattle.match_tests.specs.Views.{subject_view};
ghost use Rattle.table_nodes.specs.Nodes.{content_view};

use crate::reading::string_in;
use crate::shelf::Shelf;
use match_moves::Reading;
use match_tests::Subject;
use std::alloc::AllocError;

/// What a byte string holds, if it holds something. A string that is all it holds stays where it is, and else that is read, and
/// put on the shelf.
///
/// # Errors
///
/// `AllocError` where there is no memory for it, or where the shelf allows no more bytes to be read or kept.
pub fn held_on<'i>(
    shelf: &mut Shelf<'i>,
    reading: Reading<'i>,
) -> Result<Option<Subject<'i>>, AllocError>
    ensures { IfOk result (λ held. MatchOption held ((y : Value) → Holds (content_view reading.entry.content) reading.entry.bytes.now y → ⊥) (λ subject. Holds (content_view reading.entry.content) reading.entry.bytes.now (subject_view subject))) }
{
    if let Some(string) = string_in(reading.content, reading.bytes) {
        return Ok(Some(Subject::Bytes(string)));
    }
    let Some(item) = shelf.held(reading.content, reading.bytes)? else {
        return Ok(None);
    };
    Ok(Some(Subject::Item(shelf.keep(item, reading.bytes.len())?)))
}
