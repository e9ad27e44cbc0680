//! All offsets at which a code of the whole text stands.

ghost use Rattle.std.specs.Prelude.{◌≡◌, IfOk, OnOk, ◌++◌, map, option_map};
ghost use Rattle.cddl_language.specs.Faults.{HasWrongArity, IsFaultAt, Specification};
ghost use Rattle.cddl_language.specs.Literals.{Values};
ghost use Rattle.check_reading.specs.Survey.Survey.{IsSurvey};
ghost use Rattle.check_text.specs.Everywhere.Codes.{code_of};
ghost use Rattle.all_offsets.specs.Offsets.{AreOf, AreOffsets};
ghost use Rattle.tree_nodes.specs.View.{view};
ghost use Rattle.tree_nodes.specs.declared.tree.Tree.{Tree};

use crate::everywhere::rules::{RuleCode, at_rules};
use crate::everywhere::sites::at_sites;
use crate::rule_faults::{bad_root, no_root};
use crate::site_faults::SiteCode;
use all_offsets::{found_alone, sort};
use cddl_token::Code;
use check_reading::survey::Survey;
use check_terms::Terms;
use std::alloc::{AllocError, Global};

/// A code that is reported for the whole text, whatever its root reaches.
#[derive(Clone, Copy, Debug, PartialEq, Eq)]
pub enum TextCode {
    /// [`Code::Duplicate`].
    Duplicate,
    /// [`Code::KindClash`].
    KindClash,
    /// [`Code::Undefined`].
    Undefined,
    /// [`Code::Arity`].
    Arity,
    /// [`Code::NoRoot`].
    NoRoot,
    /// [`Code::BadRoot`].
    BadRoot,
    /// [`Code::GroupAsType`].
    GroupAsType,
    /// [`Code::HashForm`].
    HashForm,
    /// [`Code::UnknownControl`].
    UnknownControl,
}

/// All of these, in their order.
pub const TEXT_CODES: [TextCode; 9] = [
    TextCode::Duplicate,
    TextCode::KindClash,
    TextCode::Undefined,
    TextCode::Arity,
    TextCode::NoRoot,
    TextCode::BadRoot,
    TextCode::GroupAsType,
    TextCode::HashForm,
    TextCode::UnknownControl,
];

/// The code itself.
pub fn code_of(code: TextCode) -> Code
    ensures { result ≡ code_of code }
{
    match code {
        TextCode::Duplicate => Code::Duplicate,
        TextCode::KindClash => Code::KindClash,
        TextCode::Undefined => Code::Undefined,
        TextCode::Arity => Code::Arity,
        TextCode::NoRoot => Code::NoRoot,
        TextCode::BadRoot => Code::BadRoot,
        TextCode::GroupAsType => Code::GroupAsType,
        TextCode::HashForm => Code::HashForm,
        TextCode::UnknownControl => Code::UnknownControl,
    }
}

/// All offsets at which this code stands in the text, in ascending order, each once. The root is the given name, or the first
/// rule's.
///
/// It takes a time of n log n for a text of n bytes. An error comes only where memory is refused.
pub fn offsets_of(
    alloc: Global,
    terms: &Terms<'_>,
    survey: &Survey,
    given: Option<&str>,
    code: TextCode,
) -> Result<Vec<usize>, AllocError>
    ensures { IfOk result (λ v. (s : Specification) (worth : Values) (tree : Tree) → s.tree ≡ view tree → s.given ≡ option_map (λ t. t.now) given.entry → IsSurvey terms.now tree survey.now → AreOffsets (IsFaultAt s worth (code_of code)) v.items) }
{
    let mut offsets = found_offsets(alloc, terms, survey, given, code)?;
    sort(&mut offsets);
    Ok(offsets)
}

// The same in any order.
fn found_offsets(
    alloc: Global,
    terms: &Terms<'_>,
    survey: &Survey,
    given: Option<&str>,
    code: TextCode,
) -> Result<Vec<usize>, AllocError>
    ensures { IfOk result (λ v. (s : Specification) (worth : Values) (tree : Tree) → s.tree ≡ view tree → s.given ≡ option_map (λ t. t.now) given.entry → IsSurvey terms.now tree survey.now → AreOf (IsFaultAt s worth (code_of code)) v.items) }
{
    match code {
        TextCode::Duplicate => at_rules(alloc, terms, survey, RuleCode::Duplicate),
        TextCode::KindClash => at_rules(alloc, terms, survey, RuleCode::KindClash),
        TextCode::Undefined => at_sites(alloc, terms, survey, SiteCode::Undefined),
        TextCode::Arity => wrong_arities(alloc, terms, survey),
        TextCode::NoRoot => found_alone(alloc, no_root(terms, survey, given)),
        TextCode::BadRoot => found_alone(alloc, bad_root(terms, survey, given)),
        TextCode::GroupAsType => at_sites(alloc, terms, survey, SiteCode::GroupAsType),
        TextCode::HashForm => at_sites(alloc, terms, survey, SiteCode::HashForm),
        TextCode::UnknownControl => { at_sites(alloc, terms, survey, SiteCode::UnknownControl) }
    }
}

// All offsets of a wrong number of arguments or of parameters, at rules and at names.
fn wrong_arities(
    alloc: Global,
    terms: &Terms<'_>,
    survey: &Survey,
) -> Result<Vec<usize>, AllocError>
    ensures { IfOk result (λ v. (s : Specification) (tree : Tree) → s.tree ≡ view tree → IsSurvey terms.now tree survey.now → AreOf (HasWrongArity s) v.items) }
{
    let mut offsets = at_rules(alloc, terms, survey, RuleCode::Arity)?;
    let at_names = at_sites(alloc, terms, survey, SiteCode::Arity)?;
    offsets.extend_from_slice(&at_names)?;
    Ok(offsets)
}
