//! Follows an item through a piece, within the limits.
ghost use Rattle.std.specs.Prelude.{◌≡◌, ℕ, ◌+◌, ◌-◌, ◌^◌, ◌<◌, ◌≤◌, List, min, take, IfOk, length};
ghost use Rattle.cbor_data.specs.Faults.{IsFaultOf};
ghost use Rattle.cbor_read.specs.Steps.{IsBegun, IsFollowed, IsKept, IsOpen, IsToldPast, kind_past_of};
ghost use Rattle.cbor_data.specs.declared.FaultKind.TheVariants as kinds;
ghost use Rattle.cbor_read.specs.declared.follow.Advance.TheVariants as advance;

use crate::fault::Fault;
use crate::limits::Limits;
use cbor_data::FaultKind;
use cbor_item::Item;
use history::History;
use read_building::{Step, Work};
use std::alloc::AllocError;

/// Where an item goes in a piece.
#[derive(Drop)]
pub enum Advance {
    /// Through the whole piece, and on.
    Open,
    /// To its end, with byte `used`.
    Whole { used: usize, item: Item },
    /// To a fault: to its byte, after `used` others, or, where a text is not UTF-8, to the item's end, with byte `used`.
    Fault { used: usize, fault: Fault },
}

/// Follows the item that began at this offset, and of which `count` bytes were `fed`, through the piece.
pub fn follow(
    limits: Limits,
    offset: u64,
    fed: &History<u8>,
    count: u64,
    work: &mut Work,
    piece: &[u8],
) -> Result<Advance, AllocError>
    requires { IsKept limits offset fed.now count work.old }
    ensures { IfOk result (λ advance. IsFollowed limits offset fed.now piece.now advance work.new) }
{
    let next = offset + count;
    let room = room_of(limits, offset, count);
    match work.take(limits.depth(), next, front_of(piece, room))? {
        Step::More => {
            if piece.len() <= room {
                return Ok(Advance::Open);
            }
            let kind = kind_past(limits, next + room as u64, work, &piece[room..room + 1])?;
            Ok(fault_at(next, room, kind))
        }
        Step::Item { used, item } => Ok(Advance::Whole { used, item }),
        Step::BadText { used, place } => Ok(bad_text_at(used, place)),
        Step::Refused { used, kind } => Ok(fault_at(next, used, kind)),
        Step::TooDeep { used } => Ok(fault_at(next, used, FaultKind::TooDeep)),
    }
}

/// What is reported at the end of a stream that ends after so many bytes of an item.
pub fn fault_at_end(limits: Limits, offset: u64, count: u64) -> Fault
    requires { offset + count < 2 ^ 64 }
    ensures { (bytes : List ℕ) → count ≡ length bytes → IsOpen limits offset bytes → IsFaultOf limits offset bytes result.kind result.at }
{
    let kind = if count == u64::from(limits.item_bytes()) {
        FaultKind::TooLong
    } else {
        FaultKind::Truncated
    };
    Fault {
        at: offset + count,
        kind,
    }
}

/// How many bytes may follow: as many as the item may still have, and none at the last offset.
pub fn room_of(limits: Limits, offset: u64, count: u64) -> usize
    requires short { count ≤ limits.item_bytes }
    requires placed { offset + count < 2 ^ 64 }
    ensures { result ≡ min (limits.item_bytes - count) (2 ^ 64 - 1 - (offset + count)) }
{
    let item = u64::from(limits.item_bytes()) - count;
    item.min(u64::MAX - (offset + count)) as usize
}

/// The bytes of the piece that have room.
pub fn front_of(piece: &[u8], room: usize) -> &[u8]
    ensures { result.now ≡ take room piece.now }
{
    &piece[..room.min(piece.len())]
}

// What is wrong with a byte that has no room: what is wrong with its form comes first.
fn kind_past(limits: Limits, at: u64, work: &mut Work, byte: &[u8]) -> Result<FaultKind, AllocError>
    requires { length byte.now ≡ 1 }
    ensures { IfOk result (λ kind. (o : ℕ) (b : List ℕ) → at ≡ o + length b → IsBegun limits o b work.old → IsToldPast limits o b byte.now kind) }
{
    let step = work.take(limits.depth(), at, byte)?;
    Ok(kind_of(step))
}

// The same, by where that byte leads.
fn kind_of(step: Step) -> FaultKind
    ensures { result ≡ kind_past_of step }
{
    match step {
        Step::Refused { kind, .. } => kind,
        Step::TooDeep { .. } => FaultKind::TooDeep,
        Step::More | Step::Item { .. } | Step::BadText { .. } => FaultKind::TooLong,
    }
}

// The fault of the byte after `used` others of a piece whose first byte has the offset `next`.
fn fault_at(next: u64, used: usize, kind: FaultKind) -> Advance
    requires { next + used < 2 ^ 64 }
    ensures { result ≡ advance.Fault used (record { at = next + used; kind = kind }) }
{
    let at = next + used as u64;
    Advance::Fault {
        used,
        fault: Fault { at, kind },
    }
}

// The fault of a text, where the item ends with byte `used`.
fn bad_text_at(used: usize, at: u64) -> Advance
    ensures { result ≡ advance.Fault used (record { at = at; kind = kinds.BadText }) }
{
    let kind = FaultKind::BadText;
    Advance::Fault {
        used,
        fault: Fault { at, kind },
    }
}
