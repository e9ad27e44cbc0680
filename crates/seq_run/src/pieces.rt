//! However a stream is cut into pieces, its run is taken, and its end is reported.

ghost use Rattle.std.specs.Prelude.{◌≡◌, List, flat_map, IfOk};
ghost use Rattle.cbor_data.specs.Sequence.{Found};
ghost use Rattle.seq_run.specs.Answers.{items_of};
ghost use Rattle.seq_run.specs.Ends.{Ends};
ghost use Rattle.seq_run.specs.Judge.{judge_of};

use crate::end::End;
use crate::session::Session;
use cbor_item::Sound;
use cbor_read::Limits;
use std::alloc::{AllocError, Global};
use table_nodes::Table;

/// The end of the stream that comes in these pieces, empty ones too, and the items of its run: exactly the longest list of
/// accepted items that the stream begins with, however it is cut.
///
/// # Errors
///
/// [`AllocError`] where an allocation was refused.
pub fn validate_pieces(
    alloc: Global,
    table: &Table,
    limits: Limits,
    steps: u64,
    pieces: &[Vec<u8>],
) -> Result<(End, Vec<Sound>), AllocError>
    ensures { IfOk result (λ r. (found : List Found)
        × Ends (judge_of table.now steps) limits (flat_map (λ piece. piece.items) pieces.now) found r.0
        × (r.1.items ≡ items_of found)) }
{
    let mut items = Vec::new(alloc);
    let mut session = Session::new(alloc, table, limits, steps);
    for piece in pieces {
        session.feed(piece, &mut items)?;
    }
    let end = session.finish()?;
    Ok((end, items))
}
