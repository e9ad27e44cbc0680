//! The number and the name of a code, and the byte at which its example is refused.

ghost use Rattle.std.specs.Prelude.{◌≡◌};
ghost use Rattle.cddl_explain.specs.Names.{example_at_of, name_of, number_of};

use cddl_token::Code;

// All codes.
pub(crate) const CODES: [Code; 29] = [
    Code::NotUtf8,
    Code::BadCharacter,
    Code::Unclosed,
    Code::BadEscape,
    Code::BadNumber,
    Code::FloatLiteral,
    Code::NumberTooLarge,
    Code::BadBytes,
    Code::SourceTooLong,
    Code::Unexpected,
    Code::TooNested,
    Code::Duplicate,
    Code::KindClash,
    Code::Undefined,
    Code::Arity,
    Code::NoRoot,
    Code::BadRoot,
    Code::GroupAsType,
    Code::HashForm,
    Code::UnknownControl,
    Code::TooManyInstances,
    Code::NotUnwrappable,
    Code::Recursion,
    Code::NotLiteral,
    Code::BadRange,
    Code::BadController,
    Code::NoKey,
    Code::MapShape,
    Code::TooManyAlternatives,
];

/// The number of a code, as `C3`.
pub fn number(code: Code) -> &'static str
    ensures { result.now ≡ number_of code }
{
    match code {
        Code::NotUtf8 => "S1",
        Code::BadCharacter => "S2",
        Code::Unclosed => "S3",
        Code::BadEscape => "S4",
        Code::BadNumber => "S5",
        Code::FloatLiteral => "S6",
        Code::NumberTooLarge => "S7",
        Code::BadBytes => "S8",
        Code::SourceTooLong => "S9",
        Code::Unexpected => "S10",
        Code::TooNested => "S11",
        Code::Duplicate => "C1",
        Code::KindClash => "C2",
        Code::Undefined => "C3",
        Code::Arity => "C4",
        Code::NoRoot => "C5",
        Code::BadRoot => "C6",
        Code::GroupAsType => "C7",
        Code::HashForm => "C8",
        Code::UnknownControl => "C9",
        Code::TooManyInstances => "C10",
        Code::NotUnwrappable => "C11",
        Code::Recursion => "C12",
        Code::NotLiteral => "C13",
        Code::BadRange => "C14",
        Code::BadController => "C15",
        Code::NoKey => "C16",
        Code::MapShape => "C17",
        Code::TooManyAlternatives => "C18",
    }
}

/// The name of a code, as `Undefined`.
pub fn name(code: Code) -> &'static str
    ensures { result.now ≡ name_of code }
{
    match code {
        Code::NotUtf8 => "NotUtf8",
        Code::BadCharacter => "BadCharacter",
        Code::Unclosed => "Unclosed",
        Code::BadEscape => "BadEscape",
        Code::BadNumber => "BadNumber",
        Code::FloatLiteral => "FloatLiteral",
        Code::NumberTooLarge => "NumberTooLarge",
        Code::BadBytes => "BadBytes",
        Code::SourceTooLong => "SourceTooLong",
        Code::Unexpected => "Unexpected",
        Code::TooNested => "TooNested",
        Code::Duplicate => "Duplicate",
        Code::KindClash => "KindClash",
        Code::Undefined => "Undefined",
        Code::Arity => "Arity",
        Code::NoRoot => "NoRoot",
        Code::BadRoot => "BadRoot",
        Code::GroupAsType => "GroupAsType",
        Code::HashForm => "HashForm",
        Code::UnknownControl => "UnknownControl",
        Code::TooManyInstances => "TooManyInstances",
        Code::NotUnwrappable => "NotUnwrappable",
        Code::Recursion => "Recursion",
        Code::NotLiteral => "NotLiteral",
        Code::BadRange => "BadRange",
        Code::BadController => "BadController",
        Code::NoKey => "NoKey",
        Code::MapShape => "MapShape",
        Code::TooManyAlternatives => "TooManyAlternatives",
    }
}

/// The byte at which the example of a code is refused.
pub fn example_at(code: Code) -> u64
    ensures { result ≡ example_at_of code }
{
    match code {
        Code::NotUtf8 => 4,
        Code::BadCharacter => 4,
        Code::Unclosed => 4,
        Code::BadEscape => 5,
        Code::BadNumber => 4,
        Code::FloatLiteral => 4,
        Code::NumberTooLarge => 4,
        Code::BadBytes => 4,
        Code::SourceTooLong => 1_048_576,
        Code::Unexpected => 8,
        Code::TooNested => 132,
        Code::Duplicate => 14,
        Code::KindClash => 24,
        Code::Undefined => 4,
        Code::Arity => 4,
        Code::NoRoot => 0,
        Code::BadRoot => 0,
        Code::GroupAsType => 4,
        Code::HashForm => 4,
        Code::UnknownControl => 8,
        Code::TooManyInstances => 0,
        Code::NotUnwrappable => 5,
        Code::Recursion => 8,
        Code::NotLiteral => 12,
        Code::BadRange => 7,
        Code::BadController => 12,
        Code::NoKey => 23,
        Code::MapShape => 6,
        Code::TooManyAlternatives => 4,
    }
}
