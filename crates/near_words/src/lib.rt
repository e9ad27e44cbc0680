//! Which of many words is near one that was perhaps meant to be one of them. What is here knows nothing of CDDL.
#![tactic(auto)]

ghost use Rattle.std.specs.Prelude.{◌≡◌, ℕ, List, ◌∷◌, ◌++◌, [], map, IfOk, option_map};
ghost use Rattle.near_words.specs.Near.{are_alike, near_edits, texts, IsNear, IsNearest};

use std::alloc::{AllocError, Global};
use strsim::osa_distance;

// The length, in bytes, of the longest word that one is looked for.
const LONGEST: usize = 64;

// A word that is near, and how many edits lead to it.
#[derive(Clone, Copy, Debug, PartialEq, Eq)]
pub(crate) struct Near<'w> {
    pub(crate) text: &'w str,
    pub(crate) edits: usize,
}

/// Of these words the one that is nearest to a word, and of several the first; nothing where none is near.
///
/// An edit puts one character in, takes one out, or puts one in the place of another, or of two neighbours each in the place of
/// the other. A word is near where a third as many edits lead to it as the word has bytes, or fewer. Nothing is near a word of
/// more than 64 bytes. So a call takes time in proportion to the length of all words together.
///
/// # Errors
///
/// `AllocError` where an allocation was refused.
pub fn nearest<'w>(
    alloc: Global,
    word: &str,
    words: &[&'w str],
) -> Result<Option<&'w str>, AllocError>
    ensures { IfOk result (λ found. IsNearest word.now (texts words.now) (option_map (λ t. t.now) found)) }
{
    let mut best: Option<Near<'w>> = None;
    for candidate in words {
        best = nearer(alloc, word, best, *candidate)?;
    }
    Ok(text_of(best))
}

fn text_of<'w>(best: Option<Near<'w>>) -> Option<&'w str>
    ensures { (word : List ℕ) (ws : List (List ℕ)) → IsNear word ws best.entry → IsNearest word ws (option_map (λ t. t.now) result) }
{
    match best {
        Some(near) => Some(near.text),
        None => None,
    }
}

// The nearest word, with one word more.
fn nearer<'w>(
    alloc: Global,
    word: &str,
    best: Option<Near<'w>>,
    candidate: &'w str,
) -> Result<Option<Near<'w>>, AllocError>
    ensures { IfOk result (λ found. (ws : List (List ℕ)) → IsNear word.now ws best.entry → IsNear word.now (ws ++ candidate.now ∷ []) found) }
{
    let Some(edits) = near_edits(alloc, word, candidate)? else {
        return Ok(best);
    };
    match best {
        Some(near) if near.edits <= edits => Ok(best),
        _ => Ok(Some(Near {
            text: candidate,
            edits,
        })),
    }
}

// How many edits lead from the one word to the other, where it is near.
fn near_edits(alloc: Global, word: &str, candidate: &str) -> Result<Option<usize>, AllocError>
    ensures { IfOk result (λ edits. edits ≡ near_edits word.now candidate.now) }
{
    if !are_alike(word.len(), candidate.len()) {
        return Ok(None);
    }
    let edits = osa_distance(alloc, word, candidate)?;
    Ok((edits <= word.len() / 3).then_some(edits))
}

// Whether words of these lengths may be near.
fn are_alike(word: usize, candidate: usize) -> bool
    ensures { result ≡ are_alike word candidate }
{
    let most = word / 3;
    word <= LONGEST
        && candidate <= word.saturating_add(most)
        && word <= candidate.saturating_add(most)
}
