//! The faults of each code in a list.

ghost use Rattle.std.specs.Prelude.{◌≡◌, ◌∷◌, [], ◌++◌, ◌-◌, IfOk, List, OnOk, length, option_map, take};
ghost use Rattle.all_offsets.specs.Offsets.{AreOffsets};
ghost use Rattle.cddl_check.specs.RootFaults.{AreFaults};
ghost use Rattle.cddl_language.specs.Faults.{IsFaultAt, Specification};
ghost use Rattle.cddl_language.specs.Literals.{Values};
ghost use Rattle.cddl_token.specs.declared.Code.{Code as Codes};
ghost use Rattle.check_reading.specs.Survey.Survey.{IsSurvey};
ghost use Rattle.check_text.specs.Codes.{reached_codes, text_codes};
ghost use Rattle.check_faults.specs.Listed.{AreListed};
ghost use Rattle.tree_nodes.specs.View.{view};
ghost use Rattle.tree_nodes.specs.declared.tree.Tree.{Tree};

use cddl_check::RootFaults;
use cddl_token::Code;
use check_reading::survey::Survey;
use check_terms::Terms;
use check_text::everywhere::{TEXT_CODES, code_of, offsets_of};
use std::alloc::{AllocError, Global};

/// The faults of one code: the first of them, and how many there are besides.
#[derive(Debug, Drop)]
pub struct Listed {
    /// What is wrong.
    pub code: Code,
    /// The offsets in the text, in bytes, in ascending order, of the first: at most as many as were asked for.
    pub offsets: Vec<usize>,
    /// At how many offsets it stands besides.
    pub further: usize,
}

// The faults of each code of the whole text.
pub(crate) fn list_of(
    alloc: Global,
    terms: &Terms<'_>,
    survey: &Survey,
    given: Option<&str>,
    most: usize,
) -> Result<Vec<Listed>, AllocError>
    ensures { IfOk result (λ v. (s : Specification) (worth : Values) (tree : Tree) → s.tree ≡ view tree → s.given ≡ option_map (λ t. t.now) given.entry → IsSurvey terms.now tree survey.now → AreListed (IsFaultAt s worth) most text_codes v.items) }
{
    let mut all = Vec::new(alloc);
    'code: for k in 0..TEXT_CODES.len() {
        let offsets = offsets_of(alloc, terms, survey, given, TEXT_CODES[k])?;
        push_first(&mut all, code_of(TEXT_CODES[k]), offsets, most)?;
    }
    Ok(all)
}

// The faults of each code of what the root reaches.
pub(crate) fn list_of_reached(
    alloc: Global,
    found: RootFaults,
    most: usize,
) -> Result<Vec<Listed>, AllocError>
    ensures { IfOk result (λ v. (s : Specification) (worth : Values) → AreFaults s worth found → AreListed (IsFaultAt s worth) most reached_codes v.items) }
{
    let mut all = Vec::new(alloc);
    push_first(&mut all, Code::NotUnwrappable, found.not_unwrappable, most)?;
    push_first(&mut all, Code::Recursion, found.recursion, most)?;
    push_first(&mut all, Code::NotLiteral, found.not_literal, most)?;
    push_first(&mut all, Code::BadRange, found.bad_range, most)?;
    push_first(&mut all, Code::BadController, found.bad_controller, most)?;
    push_first(&mut all, Code::NoKey, found.no_key, most)?;
    push_first(&mut all, Code::MapShape, found.map_shape, most)?;
    let crowded = found.too_many_alternatives;
    push_first(&mut all, Code::TooManyAlternatives, crowded, most)?;
    Ok(all)
}

// Adds the first faults of this code, which stands at these offsets.
fn push_first(
    all: &mut Vec<Listed>,
    code: Code,
    offsets: Vec<usize>,
    most: usize,
) -> Result<(), AllocError>
    ensures { OnOk result ((s : Specification) (worth : Values) (codes : List Codes) → AreOffsets (IsFaultAt s worth code) offsets.items → AreListed (IsFaultAt s worth) most codes all.old.items → AreListed (IsFaultAt s worth) most (codes ++ code ∷ []) all.new.items) }
{
    all.push(first_of(code, offsets, most))?;
    Ok(())
}

// The first of these, and how many there are besides.
fn first_of(code: Code, mut offsets: Vec<usize>, most: usize) -> Listed
    ensures code { result.code ≡ code }
    ensures first { result.offsets.items ≡ take most offsets.items }
    ensures further { result.further ≡ length offsets.items - most }
{
    let further = offsets.len().saturating_sub(most);
    offsets.truncate(most);
    Listed {
        code,
        offsets,
        further,
    }
}
