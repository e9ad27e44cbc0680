//! The tokens of a CDDL specification (RFC 8610, appendix B, with the updates of RFC 9682).
//!
//! A source is gaps (white space and comments) and tokens by turns. At each offset the longest
//! token is taken. [`tokens`] answers them with their offsets, or why there are none, and where.
#![tactic(auto)]

ghost use Rattle.std.specs.Prelude.{◌≡◌, ◌≢◌, ℕ, ◌<◌, ◌≤◌, ◌↔◌, ◌⊎◌, List, map, length, All, IsUtf8, IfOk, IfErr, IsOk, MatchResult, Some};
ghost use Rattle.std.specs.Str.Lossy.{utf8_valid_len};
ghost use Rattle.cddl_token.specs.Answers.{span, IsAnswered, IsReadFrom, InOrder, IsTokenized, IsRefused, Refuses, IsReadAs};
ghost use Rattle.cddl_token.specs.Messages.{code_text, refusal_text};
ghost use Rattle.cddl_token.specs.Spelling.{IsId, IsGrammarId};
ghost use Rattle.cddl_token.specs.Tokens.{Spanned, Tokenized, Refused};
ghost use Rattle.cddl_token.specs.declared.Code.{Code};
ghost use Rattle.cddl_token.specs.declared.Refusal.TheVariants.{Memory as OutOfMemory};

pub use cddl_literal::Literal;
use cddl_literal::{bytes_value, number_value, text_value};
use std::alloc::{AllocError, AllocFailed, Global};
use std::error::Error;
use std::fmt;
pub use text_position::{Position, position_of};

mod bytes;
mod gaps;
mod hashes;
mod names;
mod numbers;
mod scanner;
mod signs;
mod strings;
mod uints;

/// What a token is.
#[derive(Clone, Copy, Debug, PartialEq, Eq)]
pub enum Kind {
    /// An id: a letter, `@`, `_` or `$`, then letters, digits, `-` and `.`, with no `-` or `.` last.
    Name,
    /// An id and `<`.
    NameOpen,
    /// `.` and an id.
    Control,
    /// A uint, with a `-` before it or not.
    Number,
    /// `*` with a uint or nothing on each side; or `+`; or `?`.
    Occur,
    /// A text string in `"`.
    Text,
    /// A byte string in `'`, plain or after `h` or `b64`.
    Bytes,
    /// `#`, `#d` or `#d.n`, d one digit and n a uint.
    Hash,
    /// `#6(` or `#6.n(`.
    TagOpen,
    /// `#6.<`
    TagHeadOpen,
    /// `#7.<`
    SimpleHeadOpen,
    /// `=`
    Assign,
    /// `/=`
    TypeAssign,
    /// `//=`
    GroupAssign,
    /// `/`
    Slash,
    /// `//`
    DoubleSlash,
    /// `..`
    Range,
    /// `...`
    RangeBelow,
    /// `=>`
    Arrow,
    /// `^`
    Cut,
    /// `:`
    Colon,
    /// `,`
    Comma,
    /// `(`
    ParenOpen,
    /// `)`
    ParenClose,
    /// `[`
    BracketOpen,
    /// `]`
    BracketClose,
    /// `{`
    BraceOpen,
    /// `}`
    BraceClose,
    /// `>`
    AngleClose,
    /// `~`
    Tilde,
    /// `&`
    Ampersand,
    /// The end of the source, with an empty text.
    End,
}

/// A token, and where it is in its source.
#[derive(Clone, Copy, Debug, PartialEq, Eq)]
pub struct Token<'s> {
    /// What it is.
    pub kind: Kind,
    /// The offset of its first byte.
    pub start: usize,
    /// The offset after its last byte.
    pub end: usize,
    /// The source from `start` to `end`.
    pub text: &'s str,
}

/// What is wrong with a specification.
#[derive(Clone, Copy, Debug, PartialEq, Eq)]
pub enum Code {
    /// S1: the source is not UTF-8. The offset is the length of its longest valid prefix.
    NotUtf8,
    /// S2: a character that begins no token, or that a string or a comment may not hold.
    BadCharacter,
    /// S3: a string that is not closed.
    Unclosed,
    /// S4: a backslash that begins no escape.
    BadEscape,
    /// S5: a decimal that begins with `0` and goes on, `0x`, `0b` or `-` without a digit.
    BadNumber,
    /// S6: a float literal.
    FloatLiteral,
    /// S7: a uint over 2^64 - 1; after `-` one over 2^64.
    NumberTooLarge,
    /// S8: a byte string in hex or base64 that stands for no bytes.
    BadBytes,
    /// S9: a source of more than 1,048,576 bytes.
    SourceTooLong,
    /// S10: a token with which the tokens so far begin no specification.
    Unexpected,
    /// S11: more than 128 brackets open at once.
    TooNested,
    /// C1: a further definition that differs from the first one, or a parameter twice.
    Duplicate,
    /// C2: a definition of another kind than the name has.
    KindClash,
    /// C3: a name that nothing defines.
    Undefined,
    /// C4: a wrong number of arguments or parameters.
    Arity,
    /// C5: no root.
    NoRoot,
    /// C6: a root that is a group or has parameters.
    BadRoot,
    /// C7: a group where a type is demanded, or the other way round.
    GroupAsType,
    /// C8: a form with `#` that means nothing.
    HashForm,
    /// C9: a control that is not known.
    UnknownControl,
    /// C10: more instances than the limit.
    TooManyInstances,
    /// C11: `~` or `&` on what it cannot open.
    NotUnwrappable,
    /// C12: a rule that leads back to itself with nothing in between.
    Recursion,
    /// C13: no literal where one is demanded, or one that comes out too large.
    NotLiteral,
    /// C14: a range or an occurrence with bad ends.
    BadRange,
    /// C15: a controller that does not fit its control.
    BadController,
    /// C16: an entry of a map without a key.
    NoKey,
    /// C17: a group in a map that is not flat.
    MapShape,
    /// C18: more alternatives or entries of a map than the limit.
    TooManyAlternatives,
}

/// Why a source has no tokens.
#[derive(Clone, Copy, Debug, PartialEq, Eq)]
pub enum Refusal {
    /// What is wrong, and the byte offset where it shows.
    At(Code, usize),
    /// Memory ran out.
    Memory,
}

impl fmt::Display for Code {
    ghost output = { λ code. Some (code_text code) };

    // The number and the name, as `S4 BadEscape`.
    fn fmt<W: fmt::Write>(&self, f: &mut fmt::Formatter<W>) -> fmt::Result {
        f.write_str(label(*self))
    }
}

impl fmt::Display for Refusal {
    ghost output = { λ refusal. Some (refusal_text refusal) };

    // The line that says so, as `refused: S4 BadEscape at byte 5`.
    fn fmt<W: fmt::Write>(&self, f: &mut fmt::Formatter<W>) -> fmt::Result {
        match self {
            Refusal::At(code, at) => write!(f, "refused: {code} at byte {at}"),
            Refusal::Memory => write!(f, "out of memory"),
        }
    }
}

impl Error for Refusal {}

impl From<AllocError> for Refusal {
    ghost from_gives = { λ _ e. e ≡ OutOfMemory };

    fn from(_e: AllocError) -> Refusal {
        Refusal::Memory
    }
}

impl<T: Drop> From<AllocFailed<T>> for Refusal {
    ghost from_gives = { λ _ e. e ≡ OutOfMemory };

    fn from(_e: AllocFailed<T>) -> Refusal {
        Refusal::Memory
    }
}

// The number and the name of a code.
fn label(code: Code) -> &'static str
    ensures { result.now ≡ code_text code }
{
    match code {
        Code::NotUtf8 => "S1 NotUtf8",
        Code::BadCharacter => "S2 BadCharacter",
        Code::Unclosed => "S3 Unclosed",
        Code::BadEscape => "S4 BadEscape",
        Code::BadNumber => "S5 BadNumber",
        Code::FloatLiteral => "S6 FloatLiteral",
        Code::NumberTooLarge => "S7 NumberTooLarge",
        Code::BadBytes => "S8 BadBytes",
        Code::SourceTooLong => "S9 SourceTooLong",
        Code::Unexpected => "S10 Unexpected",
        Code::TooNested => "S11 TooNested",
        Code::Duplicate => "C1 Duplicate",
        Code::KindClash => "C2 KindClash",
        Code::Undefined => "C3 Undefined",
        Code::Arity => "C4 Arity",
        Code::NoRoot => "C5 NoRoot",
        Code::BadRoot => "C6 BadRoot",
        Code::GroupAsType => "C7 GroupAsType",
        Code::HashForm => "C8 HashForm",
        Code::UnknownControl => "C9 UnknownControl",
        Code::TooManyInstances => "C10 TooManyInstances",
        Code::NotUnwrappable => "C11 NotUnwrappable",
        Code::Recursion => "C12 Recursion",
        Code::NotLiteral => "C13 NotLiteral",
        Code::BadRange => "C14 BadRange",
        Code::BadController => "C15 BadController",
        Code::NoKey => "C16 NoKey",
        Code::MapShape => "C17 MapShape",
        Code::TooManyAlternatives => "C18 TooManyAlternatives",
    }
}

/// Why a token can't be read, and where.
#[derive(Clone, Copy, Debug, PartialEq, Eq)]
pub(crate) struct Fault {
    /// What is wrong.
    pub code: Code,
    /// The byte offset where it shows.
    pub at: usize,
}

/// The number of bytes that a source may have.
pub const SOURCE_LIMIT: usize = 1_048_576;

/// The tokens of a source, with [`Kind::End`] last (RFC 8610, appendix B; RFC 9682).
///
/// # Errors
///
/// `At` with the code of the first fault and the offset where it shows. That a source is over
/// [`SOURCE_LIMIT`] comes first, then that it is not UTF-8, then all others. `Memory` where a growth
/// was refused.
pub fn tokens<'s>(alloc: Global, source: &'s [u8]) -> Result<Vec<Token<'s>>, Refusal>
    // What is answered are the source's tokens.
    ensures found { IfOk result (λ v. IsTokenized source.now (map span v.items)) }
    // Each has its part of the source as text, which spells its kind.
    ensures each { IfOk result (λ v. All (IsReadFrom source.now) v.items) }
    // So each may be asked for its value.
    ensures answered { IfOk result (λ v. All IsAnswered v.items) }
    // They are in order, within the source, and do not overlap.
    ensures in_order { IfOk result (λ v. InOrder 0 (length source.now) (map span v.items)) }
    // Where the source has tokens, they are the answer, unless memory runs out.
    ensures only { (ts : List Spanned) → IsTokenized source.now ts → MatchResult result (λ v. map span v.items ≡ ts) (λ e. e ≡ Refusal.Memory) }
    // A refusal says why the source has no tokens, and where.
    ensures refused { IfErr result (λ e. Refuses source.now e) }
    // Where it has none for this reason, this is the answer, unless memory runs out.
    ensures only_refused { (code : Code) (at : ℕ) → IsRefused source.now code at → MatchResult result (λ v. ⊥) (λ e. (e ≡ Refusal.At code at) ⊎ (e ≡ Refusal.Memory)) }
    // That a source is too long, or not UTF-8, is reported without taking memory.
    ensures too_long { 1048576 < length source.now → result ≡ Err (Refusal.At Code.SourceTooLong 1048576) }
    ensures no_text { length source.now ≤ 1048576 → (IsUtf8 source.now → ⊥) → result ≡ Err (Refusal.At Code.NotUtf8 (utf8_valid_len source.now)) }
{
    one_answer();
    if source.len() > SOURCE_LIMIT {
        return Err(Refusal::At(Code::SourceTooLong, SOURCE_LIMIT));
    }
    match simdutf8::compat::from_utf8(source) {
        Ok(text) => scanner::scan(alloc, source, text),
        Err(error) => Err(Refusal::At(Code::NotUtf8, error.valid_up_to())),
    }
}

/// What a number, a text or a byte string stands for; nothing for other tokens.
///
/// It asks for a token that [`tokens`] answered.
///
/// # Errors
///
/// `AllocError` where a growth was refused, and never at a token that is neither a text nor a byte string.
pub fn value(alloc: Global, token: &Token<'_>) -> Result<Option<Literal>, AllocError>
    requires { IsAnswered token.now }
    // Of whatever source it is a token, that is what it stands for there.
    ensures stands { (s : List ℕ) → IsReadFrom s token.now → IfOk result (λ o. IsReadAs s token.now o) }
    // Only the values of texts and of byte strings take memory.
    ensures no_memory { token.now.kind ≢ Kind.Text → token.now.kind ≢ Kind.Bytes → IsOk result }
{
    cddl_literal::cut_out();
    match token.kind {
        Kind::Number => Ok(Some(number_value(token.text.as_bytes()))),
        Kind::Text => Ok(Some(Literal::Text(text_value(alloc, token.text)?))),
        Kind::Bytes => Ok(Some(Literal::Bytes(bytes_value(alloc, token.text)?))),
        _ => Ok(None),
    }
}

/// A source has one list of tokens, or is refused for one fault at one offset, and never both.
pub fn one_answer()
    ensures tokens { (s : List ℕ) (ts us : List Spanned) → IsTokenized s ts → IsTokenized s us → us ≡ ts }
    ensures fault { (s : List ℕ) (c d : Code) (p q : ℕ) → IsRefused s c p → IsRefused s d q → (d ≡ c) × (q ≡ p) }
    ensures apart { (s : List ℕ) (ts : List Spanned) (c : Code) (p : ℕ) → IsTokenized s ts → IsRefused s c p → ⊥ }
{
    cddl_literal::one_meaning();
    cddl_literal::closes_at_stop();
}

/// An id is what the grammar says (RFC 8610, appendix B: id).
pub fn id_by_grammar()
    ensures { (s : List ℕ) (a b : ℕ) → IsId s a b ↔ IsGrammarId s a b }
{}
