//! What is wrong with the token that a refusal names, by the code.

ghost use Rattle.std.specs.Prelude.{◌≡◌, option_copied, string_bytes, IfOk};
ghost use Rattle.cddl_explain.specs.Predicates.{duplicate_of, predicate_at, predicate_of};

use crate::arity::arity_of_name;
use crate::cases::{clash_case, hash_case, kind_case, opening_case, range_case, root_case};
use crate::controls::{controller_case, literal_case};
use crate::rules::begins_rule;
use crate::spots::passed;
use cddl_token::{Code, Token};
use std::alloc::{AllocError, Global};

pub(crate) const NOT_UTF8: &str = "is not UTF-8";

pub(crate) const BAD_CHARACTER: &str = "begins no token, or a string or comment may not hold it";

pub(crate) const UNCLOSED: &str = "is a string that is not closed";

pub(crate) const BAD_ESCAPE: &str = "begins no escape; in a prefixed string no backslash does";

pub(crate) const BAD_NUMBER: &str =
    "is no number: a decimal of more than one digit begins with 0, or 0x, 0b or - has no digit after it";

pub(crate) const FLOAT_LITERAL: &str = "is a float, and numbers in a specification are whole here";

pub(crate) const NUMBER_TOO_LARGE: &str = "holds a uint over 2^64 - 1, or over 2^64 after -";

pub(crate) const BAD_BYTES: &str = "has no hex between its quotes, or after b64 no base64";

pub(crate) const SOURCE_TOO_LONG: &str = "is past the 1,048,576 bytes that a source may have";

pub(crate) const UNEXPECTED: &str = "cannot stand here";

pub(crate) const TOO_NESTED: &str = "opens one more inside 128 open ones";

pub(crate) const DUPLICATE: &str = "is defined by = before, as something else";

pub(crate) const PARAMETER_TWICE: &str = "stands twice in this list of parameters";

pub(crate) const UNDEFINED: &str = "is no rule, no parameter, none of the prelude and no socket";

pub(crate) const ARITY: &str = "has a wrong number of arguments or parameters";

pub(crate) const NO_ROOT: &str = "is no root";

pub(crate) const UNKNOWN_CONTROL: &str = "is no control that is known here";

pub(crate) const TOO_MANY_INSTANCES: &str = "has more than 4,096 instances";

pub(crate) const RECURSION: &str = "comes back to itself before an item is taken or gone into";

pub(crate) const NOT_LITERAL: &str =
    "begins no literal that may stand on the left: .plus takes whole numbers, .cat and .det take strings";

pub(crate) const BAD_CONTROLLER: &str = "begins what the control cannot take";

pub(crate) const NO_KEY: &str =
    "begins an entry of a map that has no key and is no group: a key has : or => right after it";

pub(crate) const MAP_SHAPE: &str =
    "begins an entry of a map whose group occurs as none in a map may, or as its alternatives do not allow; or the group comes back to itself";

pub(crate) const TOO_MANY_ALTERNATIVES: &str =
    "opens a map that has, or in which a group has, more than 512 alternatives, or more than 16,384 entries in them";

// What is wrong with the token that a refusal with this code names, which is at the offset: words that follow the token and
// end with no full stop.
pub(crate) fn predicate_at(
    alloc: Global,
    code: Code,
    at: usize,
    tokens: &[Token<'_>],
) -> Result<String, AllocError>
    ensures { IfOk result (λ told. string_bytes told ≡ predicate_at code at tokens.now) }
{
    let (before, after) = tokens.split_at(passed(tokens, at));
    match code {
        Code::Arity => arity_of_name(alloc, before, after, tokens),
        Code::Duplicate => duplicate(alloc, after),
        Code::NotLiteral => literal_case(alloc, before.last()),
        Code::BadController => controller_case(alloc, before.last()),
        _ => {
            let words = predicate(code, before.last(), after, tokens);
            format!(in alloc; "{words}")
        }
    }
}

fn duplicate(alloc: Global, here: &[Token<'_>]) -> Result<String, AllocError>
    ensures { IfOk result (λ told. string_bytes told ≡ duplicate_of here.now) }
{
    match here.first() {
        Some(_) if !begins_rule(here, 0) => format!(in alloc; "{PARAMETER_TWICE}"),
        _ => format!(in alloc; "{DUPLICATE}"),
    }
}

// What is wrong with the first of the tokens `here`, by the code, the token before it, and all tokens.
fn predicate(
    code: Code,
    last: Option<&Token<'_>>,
    here: &[Token<'_>],
    tokens: &[Token<'_>],
) -> &'static str
    ensures { result.now ≡ predicate_of code (option_copied last.entry) here.now tokens.now }
{
    match code {
        Code::NotUtf8 => NOT_UTF8,
        Code::BadCharacter => BAD_CHARACTER,
        Code::Unclosed => UNCLOSED,
        Code::BadEscape => BAD_ESCAPE,
        Code::BadNumber => BAD_NUMBER,
        Code::FloatLiteral => FLOAT_LITERAL,
        Code::NumberTooLarge => NUMBER_TOO_LARGE,
        Code::BadBytes => BAD_BYTES,
        Code::SourceTooLong => SOURCE_TOO_LONG,
        Code::Unexpected => UNEXPECTED,
        Code::TooNested => TOO_NESTED,
        Code::Duplicate => DUPLICATE,
        Code::KindClash => clash_case(here, tokens),
        Code::Undefined => UNDEFINED,
        Code::Arity => ARITY,
        Code::NoRoot => NO_ROOT,
        Code::BadRoot => root_case(here),
        Code::GroupAsType => kind_case(last),
        Code::HashForm => hash_case(here),
        Code::UnknownControl => UNKNOWN_CONTROL,
        Code::TooManyInstances => TOO_MANY_INSTANCES,
        Code::NotUnwrappable => opening_case(here),
        Code::Recursion => RECURSION,
        Code::NotLiteral => NOT_LITERAL,
        Code::BadRange => range_case(here),
        Code::BadController => BAD_CONTROLLER,
        Code::NoKey => NO_KEY,
        Code::MapShape => MAP_SHAPE,
        Code::TooManyAlternatives => TOO_MANY_ALTERNATIVES,
    }
}
