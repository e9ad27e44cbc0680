//! What is wrong with a specification, by its code.

ghost use Rattle.std.specs.Prelude.{◌≡◌};
ghost use Rattle.cddl_explain.specs.Sentences.{sentence_of};

use cddl_token::Code;

pub(crate) const NOT_UTF8: &str = "the source is not UTF-8";

pub(crate) const BAD_CHARACTER: &str =
    "a character begins no token, or a string or comment may not hold it";

pub(crate) const UNCLOSED: &str = "a string is not closed";

pub(crate) const BAD_ESCAPE: &str =
    "a backslash begins no escape; in a prefixed string no backslash does";

pub(crate) const BAD_NUMBER: &str =
    "a decimal of more than one digit begins with 0; 0x, 0b or - has no digit after it";

pub(crate) const FLOAT_LITERAL: &str =
    "a number is a float: a decimal with . and a digit, or with an exponent; or 0x and hex digits, with or without a fraction, and an exponent p, as 0x1.8p1";

pub(crate) const NUMBER_TOO_LARGE: &str =
    "a uint in a number, in an occurrence or after #d. is over 2^64 - 1; after - it is over 2^64";

pub(crate) const BAD_BYTES: &str = "the content of a prefixed string is not hex or base64 as above";

pub(crate) const SOURCE_TOO_LONG: &str = "the source has more than 1,048,576 bytes";

pub(crate) const UNEXPECTED: &str =
    "with a token the tokens so far begin no tree, however deep it may nest";

pub(crate) const TOO_NESTED: &str =
    "a token opens one more inside 128 open ones, where the grammar allows it";

pub(crate) const DUPLICATE: &str =
    "a further = of a name says something else than its first; or a parameter stands twice in one list";

pub(crate) const KIND_CLASH: &str =
    "a rule defines a type where its name is a group's, or a group where it is a type's";

pub(crate) const UNDEFINED: &str =
    "a name is no rule's, no parameter, none of the prelude and no socket";

pub(crate) const ARITY: &str =
    "another number of arguments than of parameters; a parameter with arguments; rules of one name with different numbers of parameters. A socket without a rule takes any number";

pub(crate) const NO_ROOT: &str = "there is no rule and no --root, or --root names nothing";

pub(crate) const BAD_ROOT: &str = "the root is a group, or has parameters";

pub(crate) const GROUP_AS_TYPE: &str =
    "the name of a group stands where a type has to; or that of a type after &";

pub(crate) const HASH_FORM: &str =
    "#8 or #9; #d.n with another d than 7; #7.n with 24, 28 to 31, or over 255";

pub(crate) const UNKNOWN_CONTROL: &str = "a control is not one of those above";

pub(crate) const TOO_MANY_INSTANCES: &str = "there are more than 4,096 instances";

pub(crate) const NOT_UNWRAPPABLE: &str =
    "~ opens nothing, or a group where a type has to stand; or & cannot choose: an entry may occur other than once, or a group comes back to itself";

pub(crate) const RECURSION: &str =
    "what is asked of an item comes back to itself before an item is taken or gone into";

pub(crate) const NOT_LITERAL: &str =
    "what stands on the right of .eq, .ne, .lt, .le, .gt or .ge is no literal; a side of .plus is no literal that is a whole number, one of .cat or .det none that is a string; a sum is out of range, or a join has more than 65,536 bytes";

pub(crate) const BAD_RANGE: &str =
    "an end of a range is no whole number; or the minimum of an occurrence is over its maximum";

pub(crate) const BAD_CONTROLLER: &str =
    "what stands on the right of .lt, .le, .gt or .ge is a literal and no whole number; what stands on the right of .size or .bits is no choice of unsigned numbers and ranges of them; a joined text is not UTF-8";

pub(crate) const NO_KEY: &str = "an entry of a map has no key and is no group";

pub(crate) const MAP_SHAPE: &str =
    "a group in a map occurs as no group in a map may, or as its alternatives do not allow; or it comes back to itself";

pub(crate) const TOO_MANY_ALTERNATIVES: &str =
    "a map, or a group in it, has more than 512 alternatives, or more than 16,384 entries in them";

/// What is wrong with a specification that is refused with this code, in words that end with no full stop.
pub fn sentence(code: Code) -> &'static str
    ensures { result.now ≡ sentence_of code }
{
    match code {
        Code::NotUtf8 => NOT_UTF8,
        Code::BadCharacter => BAD_CHARACTER,
        Code::Unclosed => UNCLOSED,
        Code::BadEscape => BAD_ESCAPE,
        Code::BadNumber => BAD_NUMBER,
        Code::FloatLiteral => FLOAT_LITERAL,
        Code::NumberTooLarge => NUMBER_TOO_LARGE,
        Code::BadBytes => BAD_BYTES,
        Code::SourceTooLong => SOURCE_TOO_LONG,
        Code::Unexpected => UNEXPECTED,
        Code::TooNested => TOO_NESTED,
        Code::Duplicate => DUPLICATE,
        Code::KindClash => KIND_CLASH,
        Code::Undefined => UNDEFINED,
        Code::Arity => ARITY,
        Code::NoRoot => NO_ROOT,
        Code::BadRoot => BAD_ROOT,
        Code::GroupAsType => GROUP_AS_TYPE,
        Code::HashForm => HASH_FORM,
        Code::UnknownControl => UNKNOWN_CONTROL,
        Code::TooManyInstances => TOO_MANY_INSTANCES,
        Code::NotUnwrappable => NOT_UNWRAPPABLE,
        Code::Recursion => RECURSION,
        Code::NotLiteral => NOT_LITERAL,
        Code::BadRange => BAD_RANGE,
        Code::BadController => BAD_CONTROLLER,
        Code::NoKey => NO_KEY,
        Code::MapShape => MAP_SHAPE,
        Code::TooManyAlternatives => TOO_MANY_ALTERNATIVES,
    }
}
