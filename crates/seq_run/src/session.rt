//! A session: the run of a stream that comes in pieces.

ghost use Rattle.std.specs.Prelude.{◌≡◌, ◌+◌, ◌<◌, ◌≤◌, ◌++◌, ◌^◌, [], length, map, take, None, Err, alloc_error, option_copied, vec_capacity, vec_len, IfNone, IfSome, OnOk};
ghost use Rattle.seq_run.specs.Answers.{Appends, IsAnswer, IsFinish, IsLent, IsCount, IsFedOne, IsStep, IsTapeFed, AreSmallsFed};
ghost use Rattle.seq_run.specs.FoundItem.{found_of};
ghost use Rattle.seq_run.specs.Rest.{AreRest, progress_of};
ghost use Rattle.seq_run.specs.Smalls.{smalls_from};
ghost use Rattle.seq_run.specs.Judge.{judge_of};
ghost use Rattle.seq_run.specs.Judged.{IsJudged};

use crate::end::{Cause, End, State, Stopped};
use crate::examiner::Examiner;
use cbor_item::Sound;
use cbor_read::{Fed, ItemReader, Limits, Stop};
use cbor_tape::Entry;
use cddl_match::{Verdict, one_answer};
use history::History;
use std::alloc::{AllocError, Global};
use std::marker::Model;
use table_nodes::Table;

// An item that was taken, and the offset of its first byte, for contracts alone.
#[derive(Drop)]
pub(crate) enum FoundItem {
    // An unsigned integer below 24.
    Small { offset: u64, n: u8 },
    // The item that these bytes spell, of which there is no other copy.
    Spelled { offset: u64, bytes: History<u8> },
    Other { offset: u64, item: Sound },
}

// How far a session has come: how many items it has accepted, the offset of the next one, and how many bytes it has taken.
#[derive(Drop)]
pub(crate) struct Count {
    pub items: u64,
    pub offset: u64,
    pub bytes: u64,
}

impl Count {
    // The end of a stream that has no more bytes.
    fn clean_end(&self) -> End
        ensures { result ≡ End.Clean self.now.items self.now.bytes }
    {
        End::Clean {
            items: self.items,
            bytes: self.bytes,
        }
    }

    // The end of a stream whose next item fails.
    fn failed_end(&self, cause: Cause) -> End
        ensures { result ≡ End.Failed self.now.items self.now.offset cause }
    {
        End::Failed {
            items: self.items,
            offset: self.offset,
            cause,
        }
    }

    // Counts items of one byte each.
    fn add_smalls(&mut self, count: usize)
        requires items { self.old.items + count < 2 ^ 64 }
        requires offset { self.old.offset + count < 2 ^ 64 }
        requires bytes { self.old.bytes + count < 2 ^ 64 }
        ensures { self.new ≡ record { items = self.old.items + count; offset = self.old.offset + count; bytes = self.old.bytes + count } }
    {
        self.items += count as u64;
        self.offset += count as u64;
        self.bytes += count as u64;
    }

    // Counts one more item, which ends with byte `used` of a piece.
    fn add_item(&mut self, used: usize)
        requires items { self.old.items + 1 < 2 ^ 64 }
        requires bytes { self.old.bytes + used < 2 ^ 64 }
        ensures { self.new ≡ record { items = self.old.items + 1; offset = self.old.bytes + used; bytes = self.old.bytes + used } }
    {
        self.items += 1;
        self.bytes += used as u64;
        self.offset = self.bytes;
    }
}

// Notes the unsigned integers that the bytes are, the first one at the offset.
fn note_smalls(taken: &mut History<FoundItem>, offset: u64, numbers: &[u8])
    requires { offset + length numbers.now < 2 ^ 64 }
    ensures { map found_of taken.new ≡ map found_of taken.old ++ smalls_from offset numbers.now }
{
    for at in 0..numbers.len() {
        taken.push(&FoundItem::Small {
            offset: offset + at as u64,
            n: numbers[at],
        });
    }
}

// Makes room for one more item, where the piece may have one.
fn make_room(out: &mut Vec<Sound>, piece: &[u8]) -> Result<(), AllocError>
    ensures items { out.new.items ≡ out.old.items }
    ensures room { OnOk result (0 < length piece.now → vec_len out.new < vec_capacity out.new) }
{
    if piece.is_empty() {
        return Ok(());
    }
    out.reserve(1)
}

/// How far one call of [`Session::feed_one`] takes a session.
#[derive(Drop)]
pub enum Step {
    /// The whole piece was used, and the item, if one has begun, goes on.
    More,
    /// The item was accepted, which ends with byte `used` of the piece. What comes after it in the piece is for the next call.
    Item { used: usize, item: Sound },
    /// The stream has this end, whatever bytes follow.
    Ended(End),
}

// What a piece led to, by the reader and the specification.
#[derive(Drop)]
enum Judged {
    // The whole piece was used, and no item is whole.
    More,
    // An item is accepted, whose last byte is byte `used` of the piece.
    Accepted {
        used: usize,
        item: Sound,
    },
    // What comes after the accepted items fails, with the item where it does not match.
    Failed {
        cause: Cause,
        rejected: Option<Sound>,
    },
}

// What a session keeps beside its specification.
#[derive(Drop)]
pub(crate) struct Rest {
    pub reader: ItemReader,
    pub count: Count,
    pub stopped: Option<Stopped>,
    pub rejected: Option<Sound>,
    pub fed: History<u8>,
    pub taken: History<FoundItem>,
}

/// Takes the items of a stream (RFC 8742) that match a specification, up to the first that does not.
///
/// Contracts see its specification with the steps that an item may take, its limits, the bytes fed, the items taken with
/// their offsets, and why it takes nothing more, if so.
#[derive(Drop)]
pub struct Session<'t> {
    alloc: Global,
    examiner: Examiner<'t>,
    reader: ItemReader,
    count: Count,
    stopped: Option<Stopped>,
    rejected: Option<Sound>,
    fed: History<u8>,
    taken: History<FoundItem>,
}

impl<'t> Model for Session<'t> {
    ghost use Rattle.std.specs.Prelude.{map};
    ghost use Rattle.seq_run.specs.Progress.{Progress, coded_progress};
    ghost use Rattle.seq_run.specs.FoundItem.{found_of};
    ghost use Rattle.seq_run.specs.Parts.{AreParts, parts_of};

    ghost Value = { Progress };

    ghost coded = { coded_progress };

    ghost view = { λ s. record { judge = s.examiner; limits = s.reader.limits; fed = s.fed; taken = map found_of s.taken; stopped = s.stopped } };

    ghost invariant = { λ s. AreParts s.stopped s.examiner s.reader.limits s.fed (map found_of s.taken) (parts_of s.reader s.count.items s.count.offset s.count.bytes s.rejected) };
}

impl<'t> Session<'t> {
    /// A session at the first byte of a stream. Of each item the specification may ask so many questions, its steps.
    /// Takes no memory.
    pub fn new(alloc: Global, table: &'t Table, limits: Limits, steps: u64) -> Session<'t>
        ensures { result ≡ record { judge = judge_of table.now steps; limits = limits; fed = []; taken = []; stopped = None } }
    {
        Session {
            alloc,
            examiner: Examiner::new(table, steps),
            reader: ItemReader::new(alloc, limits),
            count: Count {
                items: 0,
                offset: 0,
                bytes: 0,
            },
            stopped: None,
            rejected: None,
            fed: History::new(),
            taken: History::new(),
        }
    }

    /// Takes the next piece of the stream, and appends the items that it completes.
    ///
    /// `Open` says that more bytes may follow. `Ended` says how the stream ends, with the byte that decides it: an item
    /// that does not match or takes too many steps, or a fault. From then on each call answers that end and appends nothing.
    ///
    /// # Errors
    ///
    /// [`AllocError`] where an allocation was refused. From then on each call answers so.
    pub fn feed(&mut self, piece: &[u8], out: &mut Vec<Sound>) -> Result<State, AllocError>
        ensures appends { Appends self.old self.new out.old.items out.new.items }
        ensures answer { IsAnswer self.old.stopped self.old piece.now result self.new }
    {
        match self.stopped {
            Some(Stopped::Ended(end)) => return Ok(State::Ended(end)),
            Some(Stopped::Memory) => return Err(AllocError),
            None => {}
        }
        let mut rest = piece;
        'steps: loop {
            // An item that is taken has to be appended, so its room comes first.
            if make_room(out, rest).is_err() {
                self.give_up(rest);
                return Err(AllocError);
            }
            match self.take_next(rest)? {
                Step::More => return Ok(State::Open),
                Step::Ended(end) => return Ok(State::Ended(end)),
                Step::Item { used, item } => {
                    if out.push(item).is_err() {
                        unreachable!();
                    }
                    rest = &rest[used..];
                }
            }
        }
    }

    /// Takes the next piece of the stream up to the end of an item that it completes, and answers that one. What comes after it
    /// in the piece was not looked at, and is to be given again. Where it completes none, the whole piece is used, and the
    /// answer is that of [`feed`](Session::feed).
    ///
    /// # Errors
    ///
    /// [`AllocError`] where an allocation was refused. From then on each call answers so.
    pub fn feed_one(&mut self, piece: &[u8]) -> Result<Step, AllocError>
        ensures { IsStep self.old.stopped self.old piece.now result self.new }
    {
        match self.stopped {
            Some(Stopped::Ended(end)) => Ok(Step::Ended(end)),
            Some(Stopped::Memory) => Err(AllocError),
            None => self.take_next(piece),
        }
    }

    /// Ends the stream, and says how it ends. From then on each call answers that end. Takes no memory.
    ///
    /// # Errors
    ///
    /// [`AllocError`] where an earlier call answered so.
    pub fn finish(&mut self) -> Result<End, AllocError>
        ensures { IsFinish self.old.stopped self.old result self.new }
    {
        match self.stopped {
            Some(Stopped::Ended(end)) => return Ok(end),
            Some(Stopped::Memory) => return Err(AllocError),
            None => {}
        }
        let end = match self.reader.at_end() {
            Ok(()) => self.count.clean_end(),
            Err(Stop::Fault(fault)) => self.count.failed_end(Cause::Fault(fault)),
            Err(Stop::Memory) => return Err(AllocError),
        };
        self.stopped = Some(Stopped::Ended(end));
        Ok(end)
    }

    /// The item that does not match, exactly where the session has ended by that. Takes no memory.
    pub fn rejected(&self) -> Option<&Sound>
        ensures { IsLent self.now.stopped self.now (option_copied result) }
    {
        self.rejected.as_ref()
    }

    /// How many items were taken so far, and how many bytes they have in the stream: also after an end, and after want of
    /// memory. The bytes after them have no item that was handed out. Takes no memory.
    pub fn taken(&self) -> (u64, u64)
        ensures { IsCount self.now result.0 result.1 }
    {
        (self.count.items, self.count.offset)
    }

    // The item that does not match, exactly where the session has ended by that.
    pub(crate) fn into_rejected(self) -> Option<Sound>
        ensures { IsLent self.entry.stopped self.entry result }
    {
        self.rejected
    }

    // The session that has kept this.
    pub(crate) fn resumed(alloc: Global, table: &'t Table, steps: u64, rest: Rest) -> Session<'t>
        requires { AreRest (judge_of table.now steps) rest }
        ensures { result ≡ progress_of (judge_of table.now steps) rest }
    {
        Session {
            alloc,
            examiner: Examiner::new(table, steps),
            reader: rest.reader,
            count: rest.count,
            stopped: rest.stopped,
            rejected: rest.rejected,
            fed: rest.fed,
            taken: rest.taken,
        }
    }

    // What it keeps beside its specification.
    pub(crate) fn into_rest(self) -> Rest
        ensures parts { AreRest self.entry.judge result }
        ensures same { self.entry ≡ progress_of self.entry.judge result }
    {
        Rest {
            reader: self.reader,
            count: self.count,
            stopped: self.stopped,
            rejected: self.rejected,
            fed: self.fed,
            taken: self.taken,
        }
    }

    // Takes the unsigned integers below 24 at the front of the piece that are the next items and are known to be accepted, and
    // answers how many. The specification is asked about the first one, if that is not known.
    pub(crate) fn take_smalls(&mut self, piece: &[u8]) -> usize
        requires { self.old.stopped ≡ None }
        ensures within { result ≤ length piece.now }
        ensures taken { AreSmallsFed self.old (take result piece.now) self.new }
    {
        self.examiner.ask(self.alloc, piece);
        let count = self.examiner.take_marked(&mut self.reader, piece);
        note_smalls(&mut self.taken, self.count.offset, &piece[..count]);
        self.fed.extend(&piece[..count]);
        self.count.add_smalls(count);
        count
    }

    // Takes the item at the front of the piece where it is the next one, is whole there and its tape tells that it is accepted,
    // and answers where it ends. Then its tape is at the front of `tape`. None says nothing, and only the tape is changed.
    pub(crate) fn take_taped(
        &mut self,
        piece: &[u8],
        tape: &mut [Entry],
        spare: &mut [Entry],
    ) -> Option<usize>
        requires going { self.old.stopped ≡ None }
        requires room { length piece.now ≤ length tape.old }
        requires short { length piece.now < 2 ^ 32 }
        ensures taken { IfSome result (λ used. IsTapeFed self.old piece.now used tape.new self.new) }
        ensures kept { IfNone result (self.new ≡ self.old) }
    {
        if piece.is_empty() {
            return None;
        }
        if !self.examiner.may_tell(piece[0]) {
            return None;
        }
        let end = self.reader.taped_end(piece, tape)?;
        if !self.examiner.accepts_taped(piece, tape, spare) {
            return None;
        }
        self.reader.take_taped(end);
        let bytes = &piece[..end];
        self.taken.push(&FoundItem::Spelled {
            offset: self.count.offset,
            bytes: History::new().and(bytes),
        });
        self.fed.extend(bytes);
        self.count.add_item(end);
        Some(end)
    }

    // What is done where an item of the piece would have no room.
    fn give_up(&mut self, piece: &[u8])
        requires { self.old.stopped ≡ None }
        ensures { IsFedOne self.old piece.now (Err alloc_error) self.new }
    {
        self.fed.extend(piece);
        self.stopped = Some(Stopped::Memory);
    }

    // `feed_one` for a session that has not stopped.
    fn take_next(&mut self, piece: &[u8]) -> Result<Step, AllocError>
        requires { self.old.stopped ≡ None }
        ensures { IsFedOne self.old piece.now result self.new }
    {
        one_answer();
        match judge_next(self.alloc, &self.examiner, &mut self.reader, piece) {
            Ok(Judged::More) => {
                self.fed.extend(piece);
                self.count.bytes += piece.len() as u64;
                Ok(Step::More)
            }
            Ok(Judged::Accepted { used, item }) => {
                let found = FoundItem::Other {
                    offset: self.count.offset,
                    item,
                };
                self.taken.push(&found);
                let FoundItem::Other { item, .. } = found else {
                    unreachable!()
                };
                self.fed.extend(&piece[..used]);
                self.count.add_item(used);
                Ok(Step::Item { used, item })
            }
            Ok(Judged::Failed { cause, rejected }) => {
                let end = self.count.failed_end(cause);
                self.fed.extend(piece);
                self.rejected = rejected;
                self.stopped = Some(Stopped::Ended(end));
                Ok(Step::Ended(end))
            }
            Err(error) => {
                self.fed.extend(piece);
                self.stopped = Some(Stopped::Memory);
                Err(error)
            }
        }
    }
}

// Reads on, and asks the specification about an item that is whole.
fn judge_next(
    alloc: Global,
    examiner: &Examiner<'_>,
    reader: &mut ItemReader,
    piece: &[u8],
) -> Result<Judged, AllocError>
    requires { reader.old.stopped ≡ None }
    ensures { IsJudged examiner.now reader.old piece.now result reader.new }
{
    match reader.feed(piece)? {
        Fed::More => Ok(Judged::More),
        Fed::Item { used, item } => match examiner.verdict(alloc, &item)? {
            Verdict::Yes => Ok(Judged::Accepted { used, item }),
            Verdict::No { place } => Ok(Judged::Failed {
                cause: Cause::Mismatch(place),
                rejected: Some(item),
            }),
            Verdict::Spent => Ok(Judged::Failed {
                cause: Cause::Spent,
                rejected: None,
            }),
        },
        Fed::Fault { used: _, fault } => Ok(Judged::Failed {
            cause: Cause::Fault(fault),
            rejected: None,
        }),
    }
}
