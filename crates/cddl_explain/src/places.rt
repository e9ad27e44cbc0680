//! Which byte a refusal names, by its code.

ghost use Rattle.std.specs.Prelude.{◌≡◌};
ghost use Rattle.cddl_explain.specs.Places.{place_of};

use cddl_token::Code;

pub(crate) const NOT_UTF8: &str = "the length of the longest part from its beginning that is";

pub(crate) const BAD_CHARACTER: &str = "the character";

pub(crate) const UNCLOSED: &str = "its first byte";

pub(crate) const BAD_ESCAPE: &str = "the backslash";

pub(crate) const BAD_NUMBER: &str = "the first byte of the token";

pub(crate) const FLOAT_LITERAL: &str = "the first byte of the number";

pub(crate) const NUMBER_TOO_LARGE: &str = "the first byte of the token";

pub(crate) const BAD_BYTES: &str = "the first byte of the string";

pub(crate) const SOURCE_TOO_LONG: &str = "1,048,576";

pub(crate) const UNEXPECTED: &str = "the first such token";

pub(crate) const TOO_NESTED: &str = "the first such token";

pub(crate) const DUPLICATE: &str = "the later name";

pub(crate) const KIND_CLASH: &str = "its name";

pub(crate) const UNDEFINED: &str = "the name";

pub(crate) const ARITY: &str = "the name";

pub(crate) const NO_ROOT: &str = "0";

pub(crate) const BAD_ROOT: &str = "the name of its first rule";

pub(crate) const GROUP_AS_TYPE: &str = "the name";

pub(crate) const HASH_FORM: &str = "the #";

pub(crate) const UNKNOWN_CONTROL: &str = "its .";

pub(crate) const TOO_MANY_INSTANCES: &str = "0";

pub(crate) const NOT_UNWRAPPABLE: &str = "the ~ or &";

pub(crate) const RECURSION: &str =
    "the first rule of a name on the way; where no such name has one, the first byte";

pub(crate) const NOT_LITERAL: &str = "its first token; of a result, the first token on the right";

pub(crate) const BAD_RANGE: &str = "the end; the occurrence";

pub(crate) const BAD_CONTROLLER: &str = "its first token";

pub(crate) const NO_KEY: &str = "the first token of the entry";

pub(crate) const MAP_SHAPE: &str = "the first token of the entry";

pub(crate) const TOO_MANY_ALTERNATIVES: &str = "the map's {";

/// What the byte is that a refusal with this code names.
pub fn place(code: Code) -> &'static str
    ensures { result.now ≡ place_of code }
{
    match code {
        Code::NotUtf8 => NOT_UTF8,
        Code::BadCharacter => BAD_CHARACTER,
        Code::Unclosed => UNCLOSED,
        Code::BadEscape => BAD_ESCAPE,
        Code::BadNumber => BAD_NUMBER,
        Code::FloatLiteral => FLOAT_LITERAL,
        Code::NumberTooLarge => NUMBER_TOO_LARGE,
        Code::BadBytes => BAD_BYTES,
        Code::SourceTooLong => SOURCE_TOO_LONG,
        Code::Unexpected => UNEXPECTED,
        Code::TooNested => TOO_NESTED,
        Code::Duplicate => DUPLICATE,
        Code::KindClash => KIND_CLASH,
        Code::Undefined => UNDEFINED,
        Code::Arity => ARITY,
        Code::NoRoot => NO_ROOT,
        Code::BadRoot => BAD_ROOT,
        Code::GroupAsType => GROUP_AS_TYPE,
        Code::HashForm => HASH_FORM,
        Code::UnknownControl => UNKNOWN_CONTROL,
        Code::TooManyInstances => TOO_MANY_INSTANCES,
        Code::NotUnwrappable => NOT_UNWRAPPABLE,
        Code::Recursion => RECURSION,
        Code::NotLiteral => NOT_LITERAL,
        Code::BadRange => BAD_RANGE,
        Code::BadController => BAD_CONTROLLER,
        Code::NoKey => NO_KEY,
        Code::MapShape => MAP_SHAPE,
        Code::TooManyAlternatives => TOO_MANY_ALTERNATIVES,
    }
}
