//! A specification that is refused, by its code.

ghost use Rattle.std.specs.Prelude.{◌≡◌};
ghost use Rattle.cddl_explain.specs.Examples.{example_of};

use cddl_token::Code;

pub(crate) const NOT_UTF8: &str = "a =  and then the byte ff";

pub(crate) const BAD_CHARACTER: &str = "a = !";

pub(crate) const UNCLOSED: &str = "a = \"b";

pub(crate) const BAD_ESCAPE: &str = "a = \"\\x\"";

pub(crate) const BAD_NUMBER: &str = "a = 01";

pub(crate) const FLOAT_LITERAL: &str = "a = 1.5";

pub(crate) const NUMBER_TOO_LARGE: &str = "a = 18446744073709551616";

pub(crate) const BAD_BYTES: &str = "a = h'0'";

pub(crate) const SOURCE_TOO_LONG: &str = "a text of 1,048,577 bytes";

pub(crate) const UNEXPECTED: &str = "a = (int";

pub(crate) const TOO_NESTED: &str = "a =  and then 129 times [";

pub(crate) const DUPLICATE: &str = "a = b\nb = int\nb = tstr";

pub(crate) const KIND_CLASH: &str = "a = [g]\ng = (int, tstr)\ng /= int";

pub(crate) const UNDEFINED: &str = "a = b";

pub(crate) const ARITY: &str = "a = b<int>\nb = [int]";

pub(crate) const NO_ROOT: &str = "an empty text";

pub(crate) const BAD_ROOT: &str = "a = (int, tstr)";

pub(crate) const GROUP_AS_TYPE: &str = "a = g / int\ng = (int, tstr)";

pub(crate) const HASH_FORM: &str = "a = #6.32";

pub(crate) const UNKNOWN_CONTROL: &str = "a = int .regexp \"x\"";

pub(crate) const TOO_MANY_INSTANCES: &str = "a = [b<int>]\nb<t> = [t, ? b<[t]>]";

pub(crate) const NOT_UNWRAPPABLE: &str = "a = [~b]\nb = int";

pub(crate) const RECURSION: &str = "a = [g]\ng = (? int, g)";

pub(crate) const NOT_LITERAL: &str = "a = int .eq tstr";

pub(crate) const BAD_RANGE: &str = "a = 0..tstr";

pub(crate) const BAD_CONTROLLER: &str = "a = int .lt \"x\"";

pub(crate) const NO_KEY: &str = "m = { g }\ng = (a: int, tstr)";

pub(crate) const MAP_SHAPE: &str = "m = { * (a: int, b: int) }";

pub(crate) const TOO_MANY_ALTERNATIVES: &str =
    "m = { p, p, k }\np = (k, k, k, k, k)\nk = (x: 1 // y: 1)";

/// A specification that is refused with this code; or what it is, where it cannot be printed.
pub fn example(code: Code) -> &'static str
    ensures { result.now ≡ example_of code }
{
    match code {
        Code::NotUtf8 => NOT_UTF8,
        Code::BadCharacter => BAD_CHARACTER,
        Code::Unclosed => UNCLOSED,
        Code::BadEscape => BAD_ESCAPE,
        Code::BadNumber => BAD_NUMBER,
        Code::FloatLiteral => FLOAT_LITERAL,
        Code::NumberTooLarge => NUMBER_TOO_LARGE,
        Code::BadBytes => BAD_BYTES,
        Code::SourceTooLong => SOURCE_TOO_LONG,
        Code::Unexpected => UNEXPECTED,
        Code::TooNested => TOO_NESTED,
        Code::Duplicate => DUPLICATE,
        Code::KindClash => KIND_CLASH,
        Code::Undefined => UNDEFINED,
        Code::Arity => ARITY,
        Code::NoRoot => NO_ROOT,
        Code::BadRoot => BAD_ROOT,
        Code::GroupAsType => GROUP_AS_TYPE,
        Code::HashForm => HASH_FORM,
        Code::UnknownControl => UNKNOWN_CONTROL,
        Code::TooManyInstances => TOO_MANY_INSTANCES,
        Code::NotUnwrappable => NOT_UNWRAPPABLE,
        Code::Recursion => RECURSION,
        Code::NotLiteral => NOT_LITERAL,
        Code::BadRange => BAD_RANGE,
        Code::BadController => BAD_CONTROLLER,
        Code::NoKey => NO_KEY,
        Code::MapShape => MAP_SHAPE,
        Code::TooManyAlternatives => TOO_MANY_ALTERNATIVES,
    }
}
