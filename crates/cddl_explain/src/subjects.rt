//! What can be explained, by the words that name it.

ghost use Rattle.std.specs.Prelude.{◌≡◌, ◌⊎◌, true, false, IfOk, IfSome, IfNone, string_bytes};
ghost use Rattle.cddl_explain.specs.Names.{name_of, number_of};
ghost use Rattle.cddl_explain.specs.Causes.{words_of};
ghost use Rattle.cddl_explain.specs.Subjects.{code_explanation, explanation_of, IsNameOf, IsSameWord};
ghost use Rattle.cddl_explain.specs.declared.causes.Cause.{Cause as WhyItem};
ghost use Rattle.cddl_explain.specs.declared.subjects.Subject.{Subject as What};
ghost use Rattle.cddl_token.specs.declared.Code.{Code as WhyText};

use crate::causes::{CAUSES, Cause, meaning, words};
use crate::examples::example;
use crate::names::{CODES, example_at, name, number};
use crate::places::place;
use crate::sentences::sentence;
use cddl_token::Code;
use std::alloc::{AllocError, Global};

/// What can be explained.
#[derive(Clone, Copy, Debug, PartialEq, Eq)]
pub enum Subject {
    /// Why a specification is refused.
    Code(Code),
    /// Why an item of a stream fails.
    Cause(Cause),
}

/// What a word names: a code by its number or its name, as `C3` or `Undefined`, or a cause by the words that the program
/// prints, as `mismatch`, in any case of their letters.
pub fn subject_of(word: &str) -> Option<Subject>
    ensures some { IfSome result (λ s. IsNameOf s word.now) }
    ensures none { IfNone result ((s : What) → IsNameOf s word.now → ⊥) }
{
    match code_named(word) {
        Some(code) => Some(Subject::Code(code)),
        None => cause_subject(word),
    }
}

fn cause_subject(word: &str) -> Option<Subject>
    ensures some { IfSome result (λ s. IsNameOf s word.now) }
    ensures none { IfNone result ((cause : WhyItem) → IsSameWord word.now (words_of cause) → ⊥) }
{
    match cause_named(word) {
        Some(cause) => Some(Subject::Cause(cause)),
        None => None,
    }
}

fn code_named(word: &str) -> Option<Code>
    ensures some { IfSome result (λ code. IsSameWord word.now (number_of code) ⊎ IsSameWord word.now (name_of code)) }
    ensures none { IfNone result ((code : WhyText) → IsSameWord word.now (number_of code) ⊎ IsSameWord word.now (name_of code) → ⊥) }
{
    for code in &CODES {
        if is_code(*code, word) {
            return Some(*code);
        }
    }
    None
}

fn cause_named(word: &str) -> Option<Cause>
    ensures some { IfSome result (λ cause. IsSameWord word.now (words_of cause)) }
    ensures none { IfNone result ((cause : WhyItem) → IsSameWord word.now (words_of cause) → ⊥) }
{
    for cause in &CAUSES {
        if is_cause(*cause, word) {
            return Some(*cause);
        }
    }
    None
}

fn is_code(code: Code, word: &str) -> bool
    ensures yes { result ≡ true → IsSameWord word.now (number_of code) ⊎ IsSameWord word.now (name_of code) }
    ensures no { result ≡ false → IsSameWord word.now (number_of code) ⊎ IsSameWord word.now (name_of code) → ⊥ }
{
    word.eq_ignore_ascii_case(number(code)) || word.eq_ignore_ascii_case(name(code))
}

fn is_cause(cause: Cause, word: &str) -> bool
    ensures yes { result ≡ true → IsSameWord word.now (words_of cause) }
    ensures no { result ≡ false → IsSameWord word.now (words_of cause) → ⊥ }
{
    word.eq_ignore_ascii_case(words(cause))
}

/// What is said of a subject, in whole lines: of a code what is wrong, which byte is reported and an example, and of a cause what
/// it says, with an example.
///
/// # Errors
///
/// `AllocError` where an allocation was refused.
pub fn explanation(alloc: Global, subject: Subject) -> Result<String, AllocError>
    ensures { IfOk result (λ text. string_bytes text ≡ explanation_of subject) }
{
    match subject {
        Subject::Code(code) => code_text(alloc, code),
        Subject::Cause(cause) => cause_text(alloc, cause),
    }
}

fn code_text(alloc: Global, code: Code) -> Result<String, AllocError>
    ensures { IfOk result (λ text. string_bytes text ≡ code_explanation code) }
{
    let (sentence, place) = (sentence(code), place(code));
    let (example, at) = (example(code), example_at(code));
    format!(in alloc;
        "{code}: {sentence}\nTold at: {place}\nExample, refused at byte {at}:\n\n{example}\n"
    )
}

fn cause_text(alloc: Global, cause: Cause) -> Result<String, AllocError>
    ensures { IfOk result (λ text. string_bytes text ≡ explanation_of (Subject.Cause cause)) }
{
    let (words, meaning) = (words(cause), meaning(cause));
    format!(in alloc; "{words}: {meaning}\n")
}
