//! A refusal is explained, and what a code or a cause means.

ghost use Rattle.std.specs.Prelude.{◌≡◌, ◌≢◌, IfNone, IfSome, IsUtf8, option_map};
ghost use Rattle.cddl_token.specs.declared.Code.{Code as AnyCode};
ghost use Rattle.cddlseq_c.specs.Answers.{root_name};
ghost use Rattle.cddlseq_c.specs.Explained.{IsExplained, IsWordExplained};
ghost use Rattle.cddlseq_c.specs.Told.{number_of_code};

use crate::running::put;
use crate::told::{
    BAD_FILE, BAD_REFUSAL, BAD_ROOT, BAD_WORD, CddlseqRefusal, NO_MEMORY, NO_ROOM, OK,
};
use cddl_explain::{explained_refusal, explanation, subject_of};
use cddl_token::Code;
use std::alloc::Global;
use std::str;

/// Writes what a refusal of a text means: the line of the refusal; the name of the file, the line and the column, and the name of
/// the code; the line of the text, with a mark under the place; and what is wrong.
#[unsafe(no_mangle)]
pub extern "C" fn cddlseq_explain(
    alloc: Global,
    text: &[u8],
    root: &[u8],
    file: &[u8],
    refusal: &CddlseqRefusal,
    out: &mut [u8],
    needed: &mut usize,
) -> u32
    ensures { IsExplained text.now root.now file.now refusal.now out.old out.new needed.new result }
{
    *needed = 0;
    let Some(code) = code_by(refusal.code) else {
        return BAD_REFUSAL;
    };
    let Ok(file) = str::from_utf8(file) else {
        return BAD_FILE;
    };
    let Some(root) = name_of(root) else {
        return BAD_ROOT;
    };
    match explained_refusal(alloc, code, refusal.offset, file, text, root) {
        Ok(told) => {
            let bytes = told.as_str().as_bytes();
            *needed = bytes.len();
            if put(bytes, out) { OK } else { NO_ROOM }
        }
        Err(_) => NO_MEMORY,
    }
}

/// Writes what is said of the code or the cause that a word names: of a code what is wrong, which byte is reported and an example, and
/// of a cause what it says, with an example.
#[unsafe(no_mangle)]
pub extern "C" fn cddlseq_explain_word(
    alloc: Global,
    word: &[u8],
    out: &mut [u8],
    needed: &mut usize,
) -> u32
    ensures { IsWordExplained word.now out.old out.new needed.new result }
{
    *needed = 0;
    let Ok(word) = str::from_utf8(word) else {
        return BAD_WORD;
    };
    let Some(subject) = subject_of(word) else {
        return BAD_WORD;
    };
    match explanation(alloc, subject) {
        Ok(told) => {
            let bytes = told.as_str().as_bytes();
            *needed = bytes.len();
            if put(bytes, out) { OK } else { NO_ROOM }
        }
        Err(_) => NO_MEMORY,
    }
}

// The name of a root, which is none where it has no bytes; and nothing where it is not UTF-8.
fn name_of(root: &[u8]) -> Option<Option<&str>>
    ensures some { IfSome result (λ name. option_map (λ n. n.now) name ≡ root_name root.now) }
    ensures none { IfNone result (¬ (IsUtf8 root.now)) }
{
    if root.is_empty() {
        return Some(None);
    }
    match str::from_utf8(root) {
        Ok(name) => Some(Some(name)),
        Err(_) => None,
    }
}

// The code of a number, if it is one.
fn code_by(number: u32) -> Option<Code>
    ensures some { IfSome result (λ code. number ≡ number_of_code code) }
    ensures none { IfNone result ((code : AnyCode) → number ≢ number_of_code code) }
{
    match number {
        1 => Some(Code::NotUtf8),
        2 => Some(Code::BadCharacter),
        3 => Some(Code::Unclosed),
        4 => Some(Code::BadEscape),
        5 => Some(Code::BadNumber),
        6 => Some(Code::FloatLiteral),
        7 => Some(Code::NumberTooLarge),
        8 => Some(Code::BadBytes),
        9 => Some(Code::SourceTooLong),
        10 => Some(Code::Unexpected),
        11 => Some(Code::TooNested),
        12 => Some(Code::Duplicate),
        13 => Some(Code::KindClash),
        14 => Some(Code::Undefined),
        15 => Some(Code::Arity),
        16 => Some(Code::NoRoot),
        17 => Some(Code::BadRoot),
        18 => Some(Code::GroupAsType),
        19 => Some(Code::HashForm),
        20 => Some(Code::UnknownControl),
        21 => Some(Code::TooManyInstances),
        22 => Some(Code::NotUnwrappable),
        23 => Some(Code::Recursion),
        24 => Some(Code::NotLiteral),
        25 => Some(Code::BadRange),
        26 => Some(Code::BadController),
        27 => Some(Code::NoKey),
        28 => Some(Code::MapShape),
        29 => Some(Code::TooManyAlternatives),
        _ => None,
    }
}
