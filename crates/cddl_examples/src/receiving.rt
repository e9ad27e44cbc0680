//! Validates a stream as its pieces come.

ghost use Rattle.std.specs.Prelude.{◌≡◌, IfErr, IfOk, flat_map};
ghost use Rattle.cddl_examples.specs.Receiving.{IsReceived};
ghost use Rattle.cddl_check.specs.Text.{IsUnreadText};

use cddl::{End, Limits, Refusal, Session, Sound, State, read_specification, table_has_root};
use std::alloc::Global;

/// The items that the first rule of the text accepts, and how the stream ends, whose pieces come as a socket gives them, empty ones
/// too. No piece is looked at after the one that shows the end.
pub fn receive(
    alloc: Global,
    text: &[u8],
    limits: Limits,
    steps: u64,
    pieces: &[Vec<u8>],
) -> Result<(Vec<Sound>, End), Refusal>
    ensures received { IfOk result (λ r. IsReceived text.now limits steps (flat_map (λ piece. piece.items) pieces.now) r.0.items r.1) }
    ensures unread { IfErr result (IsUnreadText text.now None) }
{
    table_has_root();
    let table = read_specification(alloc, text, None)?;
    let mut session = Session::new(alloc, &table, limits, steps);
    let mut items = Vec::new(alloc);
    for piece in pieces {
        match session.feed(piece, &mut items)? {
            State::Open => {}
            State::Ended(end) => return Ok((items, end)),
        }
    }
    let end = session.finish()?;
    Ok((items, end))
}
