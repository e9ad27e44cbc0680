//! What forms take of the room for the parts of a table: what many of them may share is counted for each.

ghost use Rattle.std.specs.Prelude.{◌≡◌, ◌+◌, ◌/◌, OnOk, length};
ghost use Rattle.item_nodes.specs.View.{view};
ghost use Rattle.table_making.specs.Weights.{group_parts, item_parts, map_parts, test_parts, type_parts};

use crate::form::{EntryForm, GroupForm, TypeForm};
use check_terms::NoRoom;
use item_nodes::Item;
use rooms::Room;
use table_nodes::Test;

/// How many bytes of a string count as one part.
const BYTES: usize = 64;

// Takes room for the parts of the type: its choices, the alternatives of a map and their entries, and each 64 bytes of a string.
pub(crate) fn take_type(room: &mut Room, form: &TypeForm) -> Result<(), NoRoom>
    ensures { OnOk result (room.new + type_parts form.now ≡ room.old) }
{
    match form {
        TypeForm::Plain(test) | TypeForm::Such(_, test) => take(room, test_parts(test)),
        TypeForm::Choice(origins) => take(room, origins.len()),
        TypeForm::MapOf(alternatives) => take_map(room, alternatives),
        _ => Ok(()),
    }
}

// Takes room for the parts of the group: those of a sequence, or its alternatives.
pub(crate) fn take_group(room: &mut Room, form: &GroupForm) -> Result<(), NoRoom>
    ensures { OnOk result (room.new + group_parts form.now ≡ room.old) }
{
    match form {
        GroupForm::Sequence(origins) | GroupForm::Alternatives(origins) => {
            take(room, origins.len())
        }
        _ => Ok(()),
    }
}

fn take(room: &mut Room, count: usize) -> Result<(), NoRoom>
    ensures { OnOk result (room.new + count ≡ room.old) }
{
    match room.take(count) {
        Ok(()) => Ok(()),
        Err(_) => Err(NoRoom),
    }
}

fn take_map(room: &mut Room, alternatives: &[Vec<EntryForm>]) -> Result<(), NoRoom>
    ensures { OnOk result (room.new + map_parts alternatives.now ≡ room.old) }
{
    for entries in alternatives {
        take(room, 1)?;
        take(room, entries.len())?;
    }
    Ok(())
}

fn test_parts(test: &Test) -> usize
    ensures { result ≡ test_parts test.now }
{
    match test {
        Test::Equals(item) | Test::Differs(item) => item_parts(item),
        _ => 0,
    }
}

fn item_parts(item: &Item) -> usize
    ensures { result ≡ item_parts (view item.now) }
{
    match item {
        Item::Text(text) => text.len() / BYTES,
        Item::Bytes(bytes) => bytes.len() / BYTES,
        _ => 0,
    }
}
