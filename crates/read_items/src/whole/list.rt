//! Lists of members or pairs: so many, or those up to a break.
ghost use Rattle.std.specs.Prelude.{◌≡◌, ◌≤◌, ◌∷◌, ◌++◌, [], length, IsTrue, OnOk};
ghost use Rattle.read_items.specs.Whole.Parts.{IsBreak, IsEnd, end_length};

use crate::whole::leaf::are_there;
use std::alloc::AllocError;

/// The byte that ends what has no declared length.
pub const BREAK: u8 = 0xff;

// For how many parts a list has room before they are read, at most.
const MOST_ROOM: usize = 32;

/// Whether as many bytes are there from `start` on as there are parts, of which each has one at least.
#[inline]
pub fn may_be_there(bytes: &[u8], start: usize, count: Option<u64>) -> bool
    requires { start ≤ length bytes.now }
{
    match count {
        Some(count) => are_there(bytes, start, count),
        None => true,
    }
}

/// Whether a list ends at `at`, where so many parts of it are before.
#[inline]
pub fn is_end(bytes: &[u8], at: usize, count: Option<u64>, read: usize) -> bool
    ensures { IsTrue result → IsEnd count read bytes.now at }
{
    match count {
        Some(count) => read as u64 == count,
        None => is_break(bytes, at),
    }
}

/// Whether there is a break at `at`.
#[inline]
pub fn is_break(bytes: &[u8], at: usize) -> bool
    ensures { IsTrue result → IsBreak bytes.now at }
{
    at < bytes.len() && bytes[at] == BREAK
}

/// How many bytes the end of a list has.
#[inline]
pub fn end_len(count: Option<u64>) -> usize
    ensures { result ≡ end_length count }
{
    match count {
        Some(_) => 0,
        None => 1,
    }
}

// Makes room for a further part of a list that has none: twice as much, but no more than for all parts where these are counted.
// At first it is for two, or for as many as are counted, up to [`MOST_ROOM`].
fn make_room<T>(list: &mut Vec<T>, count: Option<u64>) -> Result<(), AllocError>
    ensures { list.new.items ≡ list.old.items }
{
    let read = list.len();
    let more = match count {
        Some(count) => (count.saturating_sub(read as u64) as usize).min(read.max(MOST_ROOM)),
        None => read.max(2),
    };
    list.reserve_exact(more)
}

/// Puts a part at the end of a list that has so many in the end, if that is known.
///
/// # Errors
///
/// [`AllocError`] where an allocation was refused.
#[inline(always)]
pub fn push_part<T: Drop>(list: &mut Vec<T>, part: T, count: Option<u64>) -> Result<(), AllocError>
    ensures { OnOk result (list.new.items ≡ list.old.items ++ part ∷ []) }
{
    if list.len() < list.capacity() {
        list.push_reserved(part);
        return Ok(());
    }
    make_room(list, count)?;
    list.push(part)?;
    Ok(())
}

/// The list without the room that it does not need, if it is long. A short list up to a break may keep it: with as much again
/// it takes less than 64 bytes for each byte that its parts are read from.
#[inline]
pub fn trimmed<T>(list: Vec<T>) -> Vec<T>
    ensures { result.items ≡ list.items }
{
    if list.len() > MOST_ROOM {
        shrunk(list)
    } else {
        list
    }
}

// By value: no address of a list is then taken while it is read, so it can stay in registers.
fn shrunk<T>(mut list: Vec<T>) -> Vec<T>
    ensures { result.items ≡ list.items }
{
    list.shrink_to_fit();
    list
}
