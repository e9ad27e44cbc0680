//! What a caller is told: a status, and numbers for what is wrong with a text and for how a stream ends.

ghost use Rattle.std.specs.Prelude.{◌≡◌};
ghost use Rattle.cddlseq_c.specs.Told.{IsFaultTold, IsStopTold, number_of_cause, number_of_code, number_of_kind, place_of_cause, status_of, status_of_stop};
ghost use Rattle.cddlseq_c.specs.Told.{told_end as told_end_of};

use crate::stop::Stop;
use cbor_data::FaultKind;
use cddl_token::Code;
use check_text::Fault;
use seq_run::{Cause, End};
use text_position::position_of;

/// The text is a specification; and where there is a stream, it is clean.
pub const OK: u32 = 0;

/// The stream has failed.
pub const FAILED: u32 = 1;

/// The text is refused.
pub const REFUSED: u32 = 2;

/// Memory was refused.
pub const NO_MEMORY: u32 = 3;

/// The name of the root is not UTF-8.
pub const BAD_ROOT: u32 = 4;

/// A limit is 0, or over the greatest.
pub const BAD_LIMITS: u32 = 5;

/// What is wanted is no number of these.
pub const BAD_WANTED: u32 = 6;

/// The offsets of the streams fall, or go beyond the bytes, or are too few or too many.
pub const BAD_OFFSETS: u32 = 7;

/// The buffer has no room for what is wanted.
pub const NO_ROOM: u32 = 8;

/// An item of a stream that comes in pieces matches.
pub const ITEM: u32 = 9;

/// A stream that comes in pieces has ended before, and was clean.
pub const ENDED: u32 = 10;

/// The handle holds nothing.
pub const CLOSED: u32 = 11;

/// The code of a refusal is none.
pub const BAD_REFUSAL: u32 = 12;

/// The name of the file is not UTF-8.
pub const BAD_FILE: u32 = 13;

/// The word names no code and no cause.
pub const BAD_WORD: u32 = 14;

/// What is reported for a text.
#[repr(C)]
#[derive(Clone, Copy)]
pub struct CddlseqRefusal {
    /// The number of the code, from 1; or 0 where the text is not refused.
    pub code: u32,
    /// The byte of the text where it shows.
    pub offset: usize,
    /// The line of that byte, from 1; or 0 where the text is not refused.
    pub line: usize,
    /// Its column, from 1, in characters; or 0.
    pub column: usize,
}

/// What is reported for a stream.
#[repr(C)]
#[derive(Clone, Copy)]
pub struct CddlseqEnd {
    /// How many items are accepted.
    pub items: u64,
    /// How many bytes these have: the offset of the item that fails, if one does.
    pub offset: u64,
    /// Why it fails: 0 where it does not, from 1 to 10 a fault of its bytes, 11 a mismatch, 12 that the steps are too few.
    pub cause: u32,
    /// The byte of the stream where a fault shows; of a key that is there twice, and of a mismatch, the place in the item.
    pub place: u64,
}

/// What an item may have.
#[repr(C)]
#[derive(Clone, Copy)]
pub struct CddlseqLimits {
    /// How many containers may be round a place of it.
    pub depth: u32,
    /// How many bytes.
    pub item_bytes: u32,
    /// How many questions may be asked about it.
    pub steps: u64,
}

// What is reported for a text that is not refused.
pub(crate) const NO_REFUSAL: CddlseqRefusal = CddlseqRefusal {
    code: 0,
    offset: 0,
    line: 0,
    column: 0,
};

// Tells why a call that was given this text stops, and answers the status.
pub(crate) fn tell_stop(text: &[u8], why: Stop, told: &mut CddlseqRefusal) -> u32
    ensures status { result ≡ status_of_stop why }
    ensures told { IsStopTold text.now why told.new }
{
    *told = NO_REFUSAL;
    match why {
        Stop::Refused(fault) => {
            *told = told_fault(text, fault);
            REFUSED
        }
        Stop::Memory => NO_MEMORY,
        Stop::BadRoot => BAD_ROOT,
        Stop::BadLimits => BAD_LIMITS,
    }
}

// What is reported for what is wrong with a text.
fn told_fault(text: &[u8], fault: Fault) -> CddlseqRefusal
    ensures { IsFaultTold text.now fault result }
{
    let position = position_of(text, fault.at);
    CddlseqRefusal {
        code: number_of_code(fault.code),
        offset: fault.at,
        line: position.line,
        column: position.column,
    }
}

// What is reported for an end.
pub(crate) fn told_end(end: &End) -> CddlseqEnd
    ensures { result ≡ told_end_of end.now }
{
    match end {
        End::Clean { items, bytes } => CddlseqEnd {
            items: *items,
            offset: *bytes,
            cause: 0,
            place: 0,
        },
        End::Failed {
            items,
            offset,
            cause,
        } => CddlseqEnd {
            items: *items,
            offset: *offset,
            cause: number_of_cause(*cause),
            place: place_of_cause(*cause),
        },
    }
}

pub(crate) fn status_of(end: &End) -> u32
    ensures { result ≡ status_of end.now }
{
    match end {
        End::Clean { .. } => OK,
        End::Failed { .. } => FAILED,
    }
}

fn number_of_cause(cause: Cause) -> u32
    ensures { result ≡ number_of_cause cause }
{
    match cause {
        Cause::Fault(fault) => number_of_kind(fault.kind),
        Cause::Mismatch(_) => 11,
        Cause::Spent => 12,
    }
}

fn place_of_cause(cause: Cause) -> u64
    ensures { result ≡ place_of_cause cause }
{
    match cause {
        Cause::Fault(fault) => fault.at,
        Cause::Mismatch(place) => place as u64,
        Cause::Spent => 0,
    }
}

fn number_of_kind(kind: FaultKind) -> u32
    ensures { result ≡ number_of_kind kind }
{
    match kind {
        FaultKind::ReservedInfo => 1,
        FaultKind::BadIndefinite => 2,
        FaultKind::BadBreak => 3,
        FaultKind::BadChunk => 4,
        FaultKind::BadSimple => 5,
        FaultKind::TooDeep => 6,
        FaultKind::TooLong => 7,
        FaultKind::Truncated => 8,
        FaultKind::BadText => 9,
        FaultKind::DuplicateKey => 10,
    }
}

fn number_of_code(code: Code) -> u32
    ensures { result ≡ number_of_code code }
{
    match code {
        Code::NotUtf8 => 1,
        Code::BadCharacter => 2,
        Code::Unclosed => 3,
        Code::BadEscape => 4,
        Code::BadNumber => 5,
        Code::FloatLiteral => 6,
        Code::NumberTooLarge => 7,
        Code::BadBytes => 8,
        Code::SourceTooLong => 9,
        Code::Unexpected => 10,
        Code::TooNested => 11,
        Code::Duplicate => 12,
        Code::KindClash => 13,
        Code::Undefined => 14,
        Code::Arity => 15,
        Code::NoRoot => 16,
        Code::BadRoot => 17,
        Code::GroupAsType => 18,
        Code::HashForm => 19,
        Code::UnknownControl => 20,
        Code::TooManyInstances => 21,
        Code::NotUnwrappable => 22,
        Code::Recursion => 23,
        Code::NotLiteral => 24,
        Code::BadRange => 25,
        Code::BadController => 26,
        Code::NoKey => 27,
        Code::MapShape => 28,
        Code::TooManyAlternatives => 29,
    }
}
