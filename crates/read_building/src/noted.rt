//! The form of what is open, where no value is built any more.
ghost use Rattle.std.specs.Prelude.{◌≡◌, suc, IfOk};
ghost use Rattle.cbor_data.specs.Machine.Machine as machine;
ghost use Rattle.read_items.specs.Form.Stages as form;
ghost use Rattle.read_building.specs.Building as building;
ghost use Rattle.read_building.specs.Stages.{frame_of, stack_of};
ghost use Rattle.read_building.specs.Noted.{after_text, IsFormAfter};

use crate::frame::Frame;
use read_items::form::{FormReader, Frame as FormFrame};
use std::alloc::{AllocError, Global};

// A container without what is in it.
fn form_frame(frame: &Frame) -> FormFrame
    ensures { form.frame_of result ≡ building.frame_of (frame_of frame.now) }
{
    match frame {
        Frame::Array(Some(left), _) => FormFrame::Rest(u128::from(*left)),
        Frame::Array(None, _) => FormFrame::Until,
        Frame::Map(Some(left), _, None) => before_key(*left),
        Frame::Map(Some(left), _, Some(_)) => before_value(*left),
        Frame::Map(None, _, None) => FormFrame::UntilKey,
        Frame::Map(None, _, Some(_)) => FormFrame::UntilValue,
        Frame::Tag(_) => FormFrame::Rest(0),
    }
}

// In a map, where so many pairs come after that of the awaited key.
fn before_key(left: u64) -> FormFrame
    ensures { form.frame_of result ≡ machine.rest (suc (machine.twice left)) }
{
    FormFrame::Rest(2 * u128::from(left) + 1)
}

// In a map, where so many pairs come after that of the awaited value.
fn before_value(left: u64) -> FormFrame
    ensures { form.frame_of result ≡ machine.rest (machine.twice left) }
{
    FormFrame::Rest(2 * u128::from(left))
}

// A reader that awaits an item in these containers.
fn form_within(alloc: Global, frames: &Vec<Frame>) -> Result<FormReader, AllocError>
    ensures { IfOk result (λ form. form ≡ machine.item (building.frames_of (stack_of frames.now.items))) }
{
    let mut form = FormReader::new(alloc);
    for frame in frames {
        form.open(form_frame(frame))?;
    }
    Ok(form)
}

// What follows a text that is whole in these containers, or a chunk of one in chunks. `None` where the text was the item.
pub(crate) fn form_after(
    alloc: Global,
    frames: &Vec<Frame>,
    in_chunks: bool,
) -> Result<Option<FormReader>, AllocError>
    ensures { IfOk result (λ form. IsFormAfter (after_text in_chunks (building.frames_of (stack_of frames.now.items))) form) }
{
    let mut form = form_within(alloc, frames)?;
    if in_chunks {
        form.await_chunk(3);
        return Ok(Some(form));
    }
    if form.end_item() {
        Ok(None)
    } else {
        Ok(Some(form))
    }
}
