//! The steps of a path.

ghost use Rattle.std.specs.Prelude.{◌≡◌, ◌++◌, ◌∷◌, [], reverse, IfOk, OnOk};
ghost use Rattle.cbor_data.specs.Notation.{notation};
ghost use Rattle.item_nodes.specs.View.{view};
ghost use Rattle.cbor_item.specs.Place.Paths.{member_step};
ghost use Rattle.cbor_item.specs.Place.Walked.{step_bytes};

use crate::{Item, diag};
use itoa::Buffer;
use std::alloc::{AllocError, Global};

// A step of one level down, from an item to one directly in it.
#[derive(Clone, Copy)]
pub enum Step<'a> {
    // To the member of an array at this index.
    Member(usize),
    // To this key of a map.
    Key(&'a Item),
    // To the value at this key.
    ValueAt(&'a Item),
    // To the content of a tag.
    Content,
}

// Puts the step down from its last byte to its first.
#[inline(never)]
pub fn push_backwards(out: &mut Vec<u8>, step: &[u8]) -> Result<(), AllocError>
    ensures { OnOk result (out.new.items ≡ out.old.items ++ reverse step.now) }
{
    let mut at = step.len();
    while at > 0 {
        at -= 1;
        out.push(step[at])?;
    }
    Ok(())
}

// The step as text.
#[inline(never)]
pub fn step_text(alloc: Global, step: Step) -> Result<Vec<u8>, AllocError>
    ensures { IfOk result (λ text. text.items ≡ step_bytes step.entry) }
{
    match step {
        Step::Member(index) => member_text(alloc, index),
        Step::Key(key) => key_text(alloc, b'<', key, b'>'),
        Step::ValueAt(key) => key_text(alloc, b'{', key, b'}'),
        Step::Content => Ok(vec![in alloc; b'(', b')']?),
    }
}

fn member_text(alloc: Global, index: usize) -> Result<Vec<u8>, AllocError>
    ensures { IfOk result (λ text. text.items ≡ member_step index) }
{
    let mut buffer = Buffer::new();
    let mut text = Vec::new(alloc);
    text.push(b'[')?;
    text.extend_from_slice(buffer.format(index).as_bytes())?;
    text.push(b']')?;
    Ok(text)
}

fn key_text(alloc: Global, before: u8, key: &Item, after: u8) -> Result<Vec<u8>, AllocError>
    ensures { IfOk result (λ text. text.items ≡ before ∷ (notation (view key.now) ++ after ∷ [])) }
{
    let mut text = Vec::new(alloc);
    text.push(before)?;
    text.extend_from_slice(diag(alloc, key)?.as_slice())?;
    text.push(after)?;
    Ok(text)
}
