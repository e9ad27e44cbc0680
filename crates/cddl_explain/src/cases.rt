//! What is wrong with a token, where its code leaves several cases: words that follow the token and end with no full stop.

ghost use Rattle.std.specs.Prelude.{◌≡◌, option_copied};
ghost use Rattle.cddl_explain.specs.Cases.{adds_group, adds_type, clash_case, clash_of, hash_case, is_ampersand, is_occur, kind_case, name_here, of_hash, opening_case, range_case, root_case, sign_of_rule};

use crate::origins::first_rule;
use crate::parts::is_open;
use crate::rules::{is_assignment, name_of_token};
use cddl_token::{Kind, Token};

pub(crate) const GROUP_ROOT: &str = "is the root, and it is a group";

pub(crate) const OPEN_ROOT: &str = "is the root, and it has parameters";

pub(crate) const GROUP_FOR_TYPE: &str = "is a group, and a type has to stand here";

pub(crate) const TYPE_FOR_GROUP: &str = "is a type, and after & a group has to stand";

pub(crate) const EMPTY_TAG: &str = "is a tag that holds nothing";

pub(crate) const NO_SIMPLE_VALUE: &str =
    "is no simple value and no float: after #7. stands a number up to 255, without 24 and 28 to 31";

pub(crate) const NO_MAJOR_TYPE: &str = "is no major type: these are #0 to #7";

pub(crate) const NO_NUMBER: &str = "has a number after the dot, as only #6 and #7 have here";

pub(crate) const OPENS_NOTHING: &str =
    "opens no name of one array, map or tag; or it opens an array or a map where a type has to stand";

pub(crate) const CANNOT_CHOOSE: &str =
    "cannot choose: each entry of the group has to occur once, and no group may come back to itself";

pub(crate) const OVER_MAXIMUM: &str = "has a minimum over its maximum";

pub(crate) const NO_END: &str = "begins no whole number, as the ends of a range are";

pub(crate) const TYPE_TO_GROUP: &str = "is a group, and `/=` adds types alone";

pub(crate) const GROUP_TO_TYPE: &str = "is a type, and `//=` adds groups alone";

pub(crate) const TYPE_OF_GROUP: &str = "is a group by its first rule, and a type by this one";

pub(crate) const GROUP_OF_TYPE: &str =
    "is a type, by its first rule, by its `$` or by the prelude, and a group by this rule";

// Of the root, by the first token of its first rule.
pub(crate) fn root_case(here: &[Token<'_>]) -> &'static str
    ensures { result.now ≡ root_case here.now }
{
    match here.first() {
        Some(first) if is_open(first.kind) => OPEN_ROOT,
        _ => GROUP_ROOT,
    }
}

// Of a name of the wrong kind, by the token before it.
pub(crate) fn kind_case(before: Option<&Token<'_>>) -> &'static str
    ensures { result.now ≡ kind_case (option_copied before.entry) }
{
    match before {
        Some(token) if is_ampersand(token.kind) => TYPE_FOR_GROUP,
        _ => GROUP_FOR_TYPE,
    }
}

// Of `#` and digits.
pub(crate) fn hash_case(here: &[Token<'_>]) -> &'static str
    ensures { result.now ≡ hash_case here.now }
{
    match here.first() {
        Some(first) => of_hash(first.text.as_bytes()),
        None => NO_NUMBER,
    }
}

fn of_hash(text: &[u8]) -> &'static str
    ensures { result.now ≡ of_hash text.now }
{
    if text.starts_with(b"#6.") {
        EMPTY_TAG
    } else if text.starts_with(b"#7.") {
        NO_SIMPLE_VALUE
    } else if text.len() == 2 {
        NO_MAJOR_TYPE
    } else {
        NO_NUMBER
    }
}

// Of `~` and of `&`.
pub(crate) fn opening_case(here: &[Token<'_>]) -> &'static str
    ensures { result.now ≡ opening_case here.now }
{
    match here.first() {
        Some(first) if is_ampersand(first.kind) => CANNOT_CHOOSE,
        _ => OPENS_NOTHING,
    }
}

// Of an occurrence, and of an end of a range.
pub(crate) fn range_case(here: &[Token<'_>]) -> &'static str
    ensures { result.now ≡ range_case here.now }
{
    match here.first() {
        Some(first) if is_occur(first.kind) => OVER_MAXIMUM,
        _ => NO_END,
    }
}

// Of a rule, with which the tokens `here` begin, that clashes with its name.
pub(crate) fn clash_case(here: &[Token<'_>], tokens: &[Token<'_>]) -> &'static str
    ensures { result.now ≡ clash_case here.now tokens.now }
{
    let first = first_rule(tokens, name_here(here));
    clash_of(sign_of_rule(here), sign_of_rule(first))
}

// Of a rule with this sign, where the first rule of its name has the other.
fn clash_of(sign: Option<Kind>, first: Option<Kind>) -> &'static str
    ensures { result.now ≡ clash_of sign first }
{
    if adds_type(sign) {
        TYPE_TO_GROUP
    } else if adds_group(sign) {
        GROUP_TO_TYPE
    } else if adds_group(first) {
        TYPE_OF_GROUP
    } else {
        GROUP_OF_TYPE
    }
}

fn adds_type(sign: Option<Kind>) -> bool
    ensures { result ≡ adds_type sign }
{
    matches!(sign, Some(Kind::TypeAssign))
}

fn adds_group(sign: Option<Kind>) -> bool
    ensures { result ≡ adds_group sign }
{
    matches!(sign, Some(Kind::GroupAssign))
}

// The sign of the rule that begins with these tokens.
fn sign_of_rule(tokens: &[Token<'_>]) -> Option<Kind>
    ensures { result ≡ sign_of_rule tokens.now }
{
    'token: for k in 0..tokens.len() {
        let kind = tokens[k].kind;
        if is_assignment(kind) {
            return Some(kind);
        }
    }
    None
}

// The name that the first of these tokens is.
fn name_here<'s>(tokens: &[Token<'s>]) -> &'s str
    ensures { result.now ≡ name_here tokens.now }
{
    match tokens.first() {
        Some(first) => name_of_token(first.text),
        None => "",
    }
}

pub(crate) fn is_ampersand(kind: Kind) -> bool
    ensures { result ≡ is_ampersand kind }
{
    matches!(kind, Kind::Ampersand)
}

pub(crate) fn is_occur(kind: Kind) -> bool
    ensures { result ≡ is_occur kind }
{
    matches!(kind, Kind::Occur)
}
