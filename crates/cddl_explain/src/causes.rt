//! Why an item fails, by the words that the program prints.

ghost use Rattle.std.specs.Prelude.{◌≡◌};
ghost use Rattle.cddl_explain.specs.Causes.{meaning_of, words_of};

/// Why an item of a stream fails.
#[derive(Clone, Copy, Debug, PartialEq, Eq)]
pub enum Cause {
    /// `reserved additional information`
    ReservedInformation,
    /// `indefinite length not allowed`
    BadIndefinite,
    /// `break not allowed`
    BadBreak,
    /// `bad chunk`
    BadChunk,
    /// `bad simple value`
    BadSimple,
    /// `too deep`
    TooDeep,
    /// `item too long`
    TooLong,
    /// `truncated`
    Truncated,
    /// `text is not UTF-8`
    BadText,
    /// `duplicate key`
    DuplicateKey,
    /// `mismatch`
    Mismatch,
    /// `step limit reached`
    Spent,
}

// All causes.
pub(crate) const CAUSES: [Cause; 12] = [
    Cause::ReservedInformation,
    Cause::BadIndefinite,
    Cause::BadBreak,
    Cause::BadChunk,
    Cause::BadSimple,
    Cause::TooDeep,
    Cause::TooLong,
    Cause::Truncated,
    Cause::BadText,
    Cause::DuplicateKey,
    Cause::Mismatch,
    Cause::Spent,
];

pub(crate) const RESERVED_INFORMATION: &str =
    "an initial byte has additional information from 28 to 30 (RFC 8949, section 3)\nExample, by the specification a = any and the bytes 1c:\n\nfailed: 0 items, offset 0: reserved additional information at byte 0";

pub(crate) const BAD_INDEFINITE: &str =
    "an initial byte of major type 0, 1 or 6 has additional information 31: only strings, arrays and maps may have indefinite length\nExample, by the specification a = any and the bytes 1f:\n\nfailed: 0 items, offset 0: indefinite length not allowed at byte 0";

pub(crate) const BAD_BREAK: &str =
    "ff stands where an item has to stand; it may only end what has indefinite length, and in a map no pair that lacks its value\nExample, by the specification a = any and the bytes ff:\n\nfailed: 0 items, offset 0: break not allowed at byte 0";

pub(crate) const BAD_CHUNK: &str =
    "in a string of indefinite length stands anything but strings of its major type with definite lengths, and the break\nExample, by the specification a = any and the bytes 5f 00:\n\nfailed: 0 items, offset 0: bad chunk at byte 1";

pub(crate) const BAD_SIMPLE: &str =
    "a byte below 32 follows f8: these simple values have a spelling of one byte, or none\nExample, by the specification a = any and the bytes f8 10:\n\nfailed: 0 items, offset 0: bad simple value at byte 1";

pub(crate) const TOO_DEEP: &str =
    "more containers are round a place than --depth allows, which is 256 unless it is given\nExample, by the specification a = any, with --depth 1 and the bytes 81 81 00:\n\nfailed: 0 items, offset 0: too deep at byte 1";

pub(crate) const TOO_LONG: &str =
    "the item has more bytes than --item-bytes allows, which is 16777216 unless it is given\nExample, by the specification a = any, with --item-bytes 1 and the bytes 18 18:\n\nfailed: 0 items, offset 0: item too long at byte 1";

pub(crate) const TRUNCATED: &str =
    "the stream ends inside the item\nExample, by the specification a = any and the bytes 82 01:\n\nfailed: 0 items, offset 0: truncated at byte 2";

pub(crate) const BAD_TEXT: &str =
    "a text string, or a chunk of one, is not UTF-8; the byte is the first of its head\nExample, by the specification a = any and the bytes 61 ff:\n\nfailed: 0 items, offset 0: text is not UTF-8 at byte 0";

pub(crate) const DUPLICATE_KEY: &str =
    "a map has two keys that are the same, whatever order the pairs in them have; the place numbers the later one, where the item is place 0\nExample, by the specification a = any and the bytes a2 01 02 01 03:\n\nfailed: 0 items, offset 0: duplicate key at place 3";

pub(crate) const MISMATCH: &str =
    "the item does not match the root of the specification; the path leads to the place that shows it, and after it is what is there\nExample, by the specification a = uint and the bytes 20:\n\nfailed: 0 items, offset 0: mismatch at $: -1";

pub(crate) const SPENT: &str =
    "to tell whether the item matches takes more questions than --steps allows, which are 10000000 unless it is given\nExample, by the specification a = [* int], with --steps 1 and the bytes 81 01:\n\nfailed: 0 items, offset 0: step limit reached";

/// The words that the program prints of a cause.
pub fn words(cause: Cause) -> &'static str
    ensures { result.now ≡ words_of cause }
{
    match cause {
        Cause::ReservedInformation => "reserved additional information",
        Cause::BadIndefinite => "indefinite length not allowed",
        Cause::BadBreak => "break not allowed",
        Cause::BadChunk => "bad chunk",
        Cause::BadSimple => "bad simple value",
        Cause::TooDeep => "too deep",
        Cause::TooLong => "item too long",
        Cause::Truncated => "truncated",
        Cause::BadText => "text is not UTF-8",
        Cause::DuplicateKey => "duplicate key",
        Cause::Mismatch => "mismatch",
        Cause::Spent => "step limit reached",
    }
}

/// What a cause says, with an example.
pub fn meaning(cause: Cause) -> &'static str
    ensures { result.now ≡ meaning_of cause }
{
    match cause {
        Cause::ReservedInformation => RESERVED_INFORMATION,
        Cause::BadIndefinite => BAD_INDEFINITE,
        Cause::BadBreak => BAD_BREAK,
        Cause::BadChunk => BAD_CHUNK,
        Cause::BadSimple => BAD_SIMPLE,
        Cause::TooDeep => TOO_DEEP,
        Cause::TooLong => TOO_LONG,
        Cause::Truncated => TRUNCATED,
        Cause::BadText => BAD_TEXT,
        Cause::DuplicateKey => DUPLICATE_KEY,
        Cause::Mismatch => MISMATCH,
        Cause::Spent => SPENT,
    }
}
