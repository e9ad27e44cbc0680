//! Which tokens may come at a place: the parser is asked about each kind.

ghost use Rattle.std.specs.Prelude.{◌≡◌, ◌<◌, true, false, string_bytes, All, IfOk};
ghost use Rattle.cddl_token.specs.declared.Token.{Token as AToken};
ghost use Rattle.cddl_explain.specs.Expected.{AreExpected, IsExpectation, MayCome};

use crate::phrases::{expected_words, phrases_of};
use cddl_token::{Kind, Refusal, Token};
use cddl_tree::{discard, parse};
use std::alloc::{AllocError, Global};
use tree_nodes::syntax::is_balanced;

// How many tokens may stand before the place: the parser reads them once for each kind.
pub(crate) const MOST_TOKENS: usize = 8192;

// All kinds, in the order in which they are reported.
pub(crate) const KINDS: [Kind; 32] = [
    Kind::ParenClose,
    Kind::BracketClose,
    Kind::BraceClose,
    Kind::AngleClose,
    Kind::Comma,
    Kind::Colon,
    Kind::Arrow,
    Kind::Cut,
    Kind::Assign,
    Kind::TypeAssign,
    Kind::GroupAssign,
    Kind::Slash,
    Kind::DoubleSlash,
    Kind::Range,
    Kind::RangeBelow,
    Kind::Control,
    Kind::Occur,
    Kind::Name,
    Kind::NameOpen,
    Kind::Number,
    Kind::Text,
    Kind::Bytes,
    Kind::Hash,
    Kind::TagOpen,
    Kind::TagHeadOpen,
    Kind::SimpleHeadOpen,
    Kind::ParenOpen,
    Kind::BracketOpen,
    Kind::BraceOpen,
    Kind::Tilde,
    Kind::Ampersand,
    Kind::End,
];

// Which tokens may come after these, which begin before an offset, in words after what is wrong; none where these are too
// many.
pub(crate) fn expectation(
    alloc: Global,
    front: &[Token<'_>],
    at: usize,
) -> Result<String, AllocError>
    requires { All (λ (t : AToken). t.start < at) front.now }
    ensures { IfOk result (λ told. IsExpectation front.now (string_bytes told)) }
{
    if front.len() > MOST_TOKENS {
        return Ok(String::new(alloc));
    }
    let kinds = kinds_after(alloc, front, at)?;
    let phrases = phrases_of(alloc, kinds.as_slice())?;
    expected_words(alloc, phrases.as_slice())
}

// Of which kinds a token may come after these, in the order of `KINDS`.
fn kinds_after(alloc: Global, front: &[Token<'_>], at: usize) -> Result<Vec<Kind>, AllocError>
    requires { All (λ (t : AToken). t.start < at) front.now }
    ensures { IfOk result (λ kinds. AreExpected front.now KINDS kinds.items) }
{
    let mut found = Vec::new(alloc);
    'kind: for k in 0..KINDS.len() {
        let token = sample(KINDS[k]);
        if may_come(alloc, front, at, token)? {
            found.push(token.kind)?;
        }
    }
    Ok(found)
}

// Whether a token that begins at 0 may come after these: the parser refuses neither it nor one of these.
fn may_come(
    alloc: Global,
    front: &[Token<'_>],
    at: usize,
    token: Token<'_>,
) -> Result<bool, AllocError>
    requires before { All (λ (t : AToken). t.start < at) front.now }
    requires first { token.start ≡ 0 }
    ensures yes { IfOk result (λ may. may ≡ true → MayCome front.now token.entry) }
    ensures no { IfOk result (λ may. may ≡ false → MayCome front.now token.entry → ⊥) }
{
    is_balanced();
    let end = at.max(1);
    let mut tokens = Vec::new(alloc);
    tokens.extend_from_slice(front)?;
    tokens.push(token)?;
    tokens.push(Token {
        kind: Kind::End,
        start: end,
        end,
        text: "",
    })?;
    match parse(alloc, tokens.as_slice()) {
        Ok(tree) => {
            discard(tree);
            Ok(true)
        }
        Err(Refusal::At(_, refused)) => Ok(refused == end),
        Err(Refusal::Memory) => Err(AllocError),
    }
}

// A token of the kind.
fn sample(kind: Kind) -> Token<'static>
    ensures kind { result.kind ≡ kind }
    ensures first { result.start ≡ 0 }
{
    Token {
        kind,
        start: 0,
        end: 0,
        text: "",
    }
}
