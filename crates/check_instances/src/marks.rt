//! Marks of the rows that were visited.

ghost use Rattle.std.specs.Prelude.{◌≡◌, OnOk};
ghost use Rattle.check_instances.specs.Marks.{is_new, widened, with_mark};

use check_terms::NoRoom;
use std::mem::replace;

// Sets the mark of the number, and says whether it was there and was not set.
pub(crate) fn mark(marks: &mut Vec<bool>, number: u32) -> bool
    ensures was_new { result ≡ is_new marks.old.items number }
    ensures marked { marks.new.items ≡ with_mark marks.old.items number }
{
    match marks.get_mut(number as usize) {
        Some(own) => !replace(own, true),
        None => false,
    }
}

// So many marks: the further ones are not set.
pub(crate) fn widen(marks: &mut Vec<bool>, count: usize) -> Result<(), NoRoom>
    ensures { OnOk result (marks.new.items ≡ widened marks.old.items count) }
{
    match marks.resize(count, false) {
        Ok(()) => Ok(()),
        Err(_) => Err(NoRoom),
    }
}
