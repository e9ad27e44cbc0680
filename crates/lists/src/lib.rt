//! Lemmas on lists, options, results and truth values for the proofs of all crates, and the lesser of two offsets. What is here
//! knows nothing of CBOR or CDDL.
#![tactic(auto)]

ghost use Rattle.std.specs.Prelude.{◌≡◌};
ghost use Rattle.lists.specs.Least.{lesser_of};

/// The lesser of two offsets, of which each may be missing: the least at which one of two things stands.
pub fn lesser(first: Option<usize>, second: Option<usize>) -> Option<usize>
    ensures { result ≡ lesser_of first second }
{
    match (first, second) {
        (Some(first), Some(second)) => Some(first.min(second)),
        (Some(first), None) => Some(first),
        (None, second) => second,
    }
}
