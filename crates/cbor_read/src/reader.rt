//! Reads items from pieces.
ghost use Rattle.std.specs.Prelude.{◌≡◌, ◌↔◌, ◌<◌, ◌≤◌, ◌^◌, ℕ, List, [], None, IfNone, IfOk, IfSome, IsSome, length};
ghost use Rattle.cbor_read.specs.Answers.{IsAgain, IsAnswer, IsEnd, IsSmallNext, IsSmallTaken, IsTapeNext, IsTapeTaken};
ghost use Rattle.cbor_read.specs.Reading.{open_reading};
ghost use Rattle.cbor_tape.specs.declared.entry.Entry.{Entry};
ghost use Rattle.cbor_read.specs.Steps.{IsKept};
ghost use Rattle.cbor_read.specs.Turns.{IsTurn, IsWholeTurn};

use crate::fault::{Fault, Stop};
use crate::follow::{Advance, fault_at_end, follow, front_of, room_of};
use crate::limits::Limits;
use crate::value::{Outcome, front_item, sound_of};
use cbor_item::Sound;
use cbor_tape::{Entry, whole_tape};
use history::History;
use read_building::Work;
use std::alloc::{AllocError, Global};
use std::marker::Model;

/// What a piece led to.
#[derive(Drop)]
pub enum Fed {
    /// The whole piece was used, and the item, if one has begun, goes on.
    More,
    /// The item ended with byte `used` of the piece. What is after it is for the next call.
    Item { used: usize, item: Sound },
    /// The stream has a fault. `used` counts the bytes of the piece before the fault's byte, or, where the item is
    /// whole (bad text, a repeated key), those up to its end.
    Fault { used: usize, fault: Fault },
}

/// Reads the items of a stream, one after the other, from pieces of any size.
///
/// Contracts see its limits, the offset of the item's first byte, the bytes used since, and why it has stopped, if it
/// has. Of an item that a piece does not end it keeps the open containers with their members so far, and the head or the
/// string in work: at most as many containers as the limits allow, with no more places and bytes of strings than the item
/// has bytes so far. It keeps no copy of the bytes.
#[derive(Drop)]
pub struct ItemReader {
    alloc: Global,
    limits: Limits,
    offset: u64,
    count: u64,
    work: Work,
    stopped: Option<Stop>,
    fed: History<u8>,
}

impl Model for ItemReader {
    ghost use Rattle.std.specs.Prelude.{◌≡◌, None};
    ghost use Rattle.cbor_read.specs.Reading.{Reading};
    ghost use Rattle.cbor_read.specs.Steps.{IsKept};

    ghost Value = { Reading };

    ghost view = { λ r. record { limits = r.limits; offset = r.offset; fed = r.fed; stopped = r.stopped } };

    ghost invariant = { λ r. r.stopped ≡ None → IsKept r.limits r.offset r.fed r.count r.work };
}

impl ItemReader {
    /// A reader at the first byte of a stream. Takes no memory.
    pub fn new(alloc: Global, limits: Limits) -> ItemReader
        ensures { result ≡ record { limits = limits; offset = 0; fed = []; stopped = None } }
    {
        ItemReader {
            alloc,
            limits,
            offset: 0,
            count: 0,
            work: Work::new(alloc),
            stopped: None,
            fed: History::new(),
        }
    }

    /// Takes the next piece of the stream, up to the end of an item or to a fault (RFC 8949 section 3, RFC 8742).
    ///
    /// # Errors
    ///
    /// [`AllocError`] where an allocation was refused. From then on each call answers so; from a fault on each call
    /// answers that fault, with none of the piece used.
    pub fn feed(&mut self, piece: &[u8]) -> Result<Fed, AllocError>
        ensures { IsAnswer self.old.stopped self.old piece.now result self.new }
    {
        if let Some(stop) = self.stopped {
            return answer_again(stop);
        }
        match take_whole(self.alloc, self.limits, self.offset, self.count, piece) {
            Ok(Some((used, item))) => {
                self.offset += used as u64;
                Ok(Fed::Item { used, item })
            }
            Ok(None) => self.feed_on(piece),
            Err(refused) => {
                self.stopped = Some(Stop::Memory);
                Err(refused)
            }
        }
    }

    // The same of a reader that has not stopped: the item is built.
    fn feed_on(&mut self, piece: &[u8]) -> Result<Fed, AllocError>
        requires { self.old.stopped ≡ None }
        ensures { IsAnswer self.old.stopped self.old piece.now result self.new }
    {
        self.stopped = Some(Stop::Memory);
        match take_turn(
            self.alloc,
            self.limits,
            self.offset,
            &self.fed,
            self.count,
            &mut self.work,
            piece,
        )? {
            Fed::More => {
                self.count += piece.len() as u64;
                self.fed.extend(piece);
                self.stopped = None;
                Ok(Fed::More)
            }
            Fed::Item { used, item } => {
                self.offset += self.count + used as u64;
                self.count = 0;
                self.fed.clear();
                self.stopped = None;
                Ok(Fed::Item { used, item })
            }
            Fed::Fault { used, fault } => {
                self.fed.extend(&piece[..used]);
                self.stopped = Some(Stop::Fault(fault));
                Ok(Fed::Fault { used, fault })
            }
        }
    }

    /// Takes the unsigned integer below 24 at the front of the piece, where the next item begins with the piece, and answers
    /// it. Such an item is one byte. `None` says that there is none, or no offset for it, and nothing is changed: `feed` tells
    /// what the piece leads to. Takes no memory.
    #[inline]
    pub fn take_small(&mut self, piece: &[u8]) -> Option<u8>
        ensures exactly { IsSome result ↔ IsSmallNext self.old piece.now }
        ensures taken { IfSome result (λ n. IsSmallTaken self.old piece.now n self.new) }
        ensures kept { IfNone result (self.new ≡ self.old) }
    {
        if self.stopped.is_some() || self.count != 0 || self.offset == u64::MAX {
            return None;
        }
        if piece.is_empty() || piece[0] >= 24 {
            return None;
        }
        self.offset += 1;
        Some(piece[0])
    }

    /// Where the item at the front of the piece ends, if it is the next one and whole there. No item is built: from the front of
    /// `tape` on its places are written, as by [`whole_tape`], which says how long `tape` has to be for any map. `None` says
    /// nothing, and only what is on the tape is changed. Takes no memory.
    #[inline]
    pub fn taped_end(&self, piece: &[u8], tape: &mut [Entry]) -> Option<usize>
        requires room { length piece.now ≤ length tape.old }
        requires short { length piece.now < 2 ^ 32 }
        ensures { IfSome result (λ used. IsTapeNext self.now piece.now used tape.new) }
    {
        if self.stopped.is_some() || self.count != 0 {
            return None;
        }
        let room = room_of(self.limits, self.offset, 0);
        let length = whole_tape(piece, self.limits.depth(), tape)?;
        if length > room {
            return None;
        }
        Some(length)
    }

    /// Takes the item that ends there, of which [`taped_end`](ItemReader::taped_end) has just told so. Takes no memory.
    #[inline]
    pub fn take_taped(&mut self, end: usize)
        requires { (piece : List ℕ) × (tape : List Entry) × IsTapeNext self.old piece end tape }
        ensures { (piece : List ℕ) (tape : List Entry) → IsTapeNext self.old piece end tape → IsTapeTaken self.old piece end tape self.new }
    {
        self.offset += end as u64;
    }

    /// Whether the stream may end here: between two items of a reader that has not stopped. Takes no memory.
    ///
    /// # Errors
    ///
    /// Why the reader has stopped; or, inside an item, that it is truncated, at the stream's length, or too long where it
    /// has all the bytes that the limit allows.
    pub fn at_end(&self) -> Result<(), Stop>
        ensures { IsEnd self.now.stopped self.now result }
    {
        if let Some(stop) = self.stopped {
            return Err(stop);
        }
        if self.count == 0 {
            return Ok(());
        }
        Err(Stop::Fault(fault_at_end(self.limits, self.offset, self.count)))
    }
}

// The answer of a reader that has stopped.
fn answer_again(stop: Stop) -> Result<Fed, AllocError>
    ensures { IsAgain stop result }
{
    match stop {
        Stop::Fault(fault) => Ok(Fed::Fault { used: 0, fault }),
        Stop::Memory => Err(AllocError),
    }
}

// Builds the item on. Where it goes on, the reader has to note the piece.
fn take_turn(
    alloc: Global,
    limits: Limits,
    offset: u64,
    fed: &History<u8>,
    count: u64,
    work: &mut Work,
    piece: &[u8],
) -> Result<Fed, AllocError>
    requires { IsKept limits offset fed.now count work.old }
    ensures { IfOk result (λ turn. IsTurn (open_reading limits offset fed.now) piece.now turn work.new) }
{
    match follow(limits, offset, fed, count, work, piece)? {
        Advance::Open => Ok(Fed::More),
        Advance::Whole { used, item } => match sound_of(alloc, item)? {
            Outcome::Item(item) => Ok(Fed::Item { used, item }),
            Outcome::Fault(fault) => Ok(Fed::Fault { used, fault }),
        },
        Advance::Fault { used, fault } => Ok(Fed::Fault { used, fault }),
    }
}

// The item at the front of the piece, after how many bytes it has, where it is whole there and read in one pass, and no
// other has begun. It is no `Fed` yet: that would be copied once more at each return.
fn take_whole(
    alloc: Global,
    limits: Limits,
    offset: u64,
    count: u64,
    piece: &[u8],
) -> Result<Option<(usize, Sound)>, AllocError>
    ensures { IfOk result (λ found. IfSome found (λ taken. IsWholeTurn limits offset count piece.now taken.0 taken.1)) }
{
    if count != 0 {
        return Ok(None);
    }
    let front = front_of(piece, room_of(limits, offset, 0));
    front_item(alloc, limits.depth(), front)
}
