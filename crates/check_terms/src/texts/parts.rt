//! Parts of a text, to the first of some sign and after it.

ghost use Rattle.std.specs.Prelude.{◌≡◌, nat_eq};
ghost use Rattle.std.specs.List.{position};
ghost use Rattle.cddl_language.specs.Numbers.{after, before, is_byte};

// Where the first such sign is, if there is one.
fn place_of(text: &[u8], sign: u8) -> Option<usize>
    ensures { result ≡ position (λ b. nat_eq b sign) text.now }
{
    text.iter().position(|byte| *byte == sign)
}

// What stands before the first such sign, or all where there is none.
pub(crate) fn before(text: &[u8], sign: u8) -> &[u8]
    ensures { result.now ≡ before sign text.now }
{
    match place_of(text, sign) {
        Some(at) => &text[..at],
        None => text,
    }
}

// What stands after the first such sign, or nothing where there is none.
pub(crate) fn after(text: &[u8], sign: u8) -> &[u8]
    ensures { result.now ≡ after sign text.now }
{
    match place_of(text, sign) {
        Some(at) => &text[at + 1..],
        None => &[],
    }
}

// Whether the text is this sign alone.
pub(crate) fn is_sign(text: &[u8], sign: u8) -> bool
    ensures { result ≡ is_byte sign text.now }
{
    match text {
        [only] => *only == sign,
        _ => false,
    }
}
