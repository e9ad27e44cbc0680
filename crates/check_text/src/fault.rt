//! What is wrong with a specification.

ghost use Rattle.std.specs.Prelude.{◌≡◌, [], ◌∷◌};
ghost use Rattle.check_text.specs.First.{IsFirst, first_in};
ghost use Rattle.cddl_language.specs.Faults.{IsFaultAt, Specification};
ghost use Rattle.cddl_language.specs.Literals.{Values};
ghost use Rattle.lists.specs.Least.{IsLeast};

use cddl_token::Code;

/// What is wrong, and the byte where it shows.
#[derive(Clone, Copy, Debug, PartialEq, Eq)]
pub struct Fault {
    /// What is wrong.
    pub code: Code,
    /// The offset in the text, in bytes.
    pub at: usize,
}

// The fault of this code, if it stands anywhere, by its least offset.
pub(crate) fn fault_of(code: Code, least: Option<usize>) -> Option<Fault>
    ensures { (s : Specification) (worth : Values) → IsLeast (IsFaultAt s worth code) least → IsFirst (IsFaultAt s worth) (code ∷ []) result }
{
    match least {
        Some(at) => Some(Fault { code, at }),
        None => None,
    }
}

// The first of two answers, of codes of which those of the first come before those of the second.
pub(crate) fn first_of(first: Option<Fault>, second: Option<Fault>) -> Option<Fault>
    ensures { result ≡ first_in first second }
{
    match first {
        Some(fault) => Some(fault),
        None => second,
    }
}
