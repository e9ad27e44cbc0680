//! The faults of the whole text, whatever its root reaches.

ghost use Rattle.std.specs.Prelude.{◌≡◌, [], ◌∷◌, IfOk, option_map};
ghost use Rattle.cddl_token.specs.declared.Code.TheVariants.{Duplicate, KindClash, Undefined, Arity, NoRoot, BadRoot, GroupAsType, HashForm, UnknownControl};
ghost use Rattle.check_text.specs.Codes.{text_codes};
ghost use Rattle.check_text.specs.First.{IsFirst};
ghost use Rattle.cddl_language.specs.Faults.{HasWrongArity, IsFaultAt, Specification};
ghost use Rattle.cddl_language.specs.Literals.{Values};
ghost use Rattle.lists.specs.Least.{IsLeast};
ghost use Rattle.check_reading.specs.Survey.Survey.{IsSurvey};
ghost use Rattle.tree_nodes.specs.View.{view};
ghost use Rattle.tree_nodes.specs.declared.tree.Tree.{Tree};

use crate::fault::{Fault, fault_of, first_of};
use crate::rule_faults::{bad_root, duplicate, kind_clash, no_root};
use crate::site_faults::{SiteCode, site_fault};
use cddl_token::Code;
use check_reading::survey::Survey;
use check_terms::Terms;
use lists::lesser;
use std::alloc::{AllocError, Global};

/// The first fault of the whole text, whatever its root reaches: of the lowest of C1 to C9 that stands anywhere, the least
/// offset (RFC 8610; the codes are those of [`Code`]). The root is the given name, or the first rule's.
///
/// It takes a time of n log n for a text of n bytes. An error comes only where memory is refused.
pub fn text_fault(
    alloc: Global,
    terms: &Terms<'_>,
    survey: &Survey,
    given: Option<&str>,
) -> Result<Option<Fault>, AllocError>
    ensures { IfOk result (λ o. (s : Specification) (worth : Values) (tree : Tree) → s.tree ≡ view tree → s.given ≡ option_map (λ t. t.now) given.entry → IsSurvey terms.now tree survey.now → IsFirst (IsFaultAt s worth) text_codes o) }
{
    let rules = rule_fault(alloc, terms, survey)?;
    let names = name_fault(alloc, terms, survey)?;
    let root = root_fault(terms, survey, given);
    let types = type_fault(alloc, terms, survey)?;
    Ok(first_of(rules, first_of(names, first_of(root, types))))
}

// The first fault of C1 and C2: of definitions.
fn rule_fault(
    alloc: Global,
    terms: &Terms<'_>,
    survey: &Survey,
) -> Result<Option<Fault>, AllocError>
    ensures { IfOk result (λ o. (s : Specification) (worth : Values) (tree : Tree) → s.tree ≡ view tree → IsSurvey terms.now tree survey.now → IsFirst (IsFaultAt s worth) (Duplicate ∷ KindClash ∷ []) o) }
{
    let twice = fault_of(Code::Duplicate, duplicate(alloc, terms, survey)?);
    let clash = fault_of(Code::KindClash, kind_clash(terms, survey));
    Ok(first_of(twice, clash))
}

// The least offset of a wrong number of arguments or of parameters, at rules and at names.
fn wrong_arity(
    alloc: Global,
    terms: &Terms<'_>,
    survey: &Survey,
) -> Result<Option<usize>, AllocError>
    ensures { IfOk result (λ o. (s : Specification) (tree : Tree) → s.tree ≡ view tree → IsSurvey terms.now tree survey.now → IsLeast (HasWrongArity s) o) }
{
    let at_rules = crate::rule_faults::wrong_arity(terms, survey);
    let at_names = site_fault(alloc, terms, survey, SiteCode::Arity)?;
    Ok(lesser(at_rules, at_names))
}

// The first fault of C3 and C4: of names that are used.
fn name_fault(
    alloc: Global,
    terms: &Terms<'_>,
    survey: &Survey,
) -> Result<Option<Fault>, AllocError>
    ensures { IfOk result (λ o. (s : Specification) (worth : Values) (tree : Tree) → s.tree ≡ view tree → IsSurvey terms.now tree survey.now → IsFirst (IsFaultAt s worth) (Undefined ∷ Arity ∷ []) o) }
{
    let undefined = fault_of(
        Code::Undefined,
        site_fault(alloc, terms, survey, SiteCode::Undefined)?,
    );
    let arity = fault_of(Code::Arity, wrong_arity(alloc, terms, survey)?);
    Ok(first_of(undefined, arity))
}

// The first fault of C5 and C6: of the root.
fn root_fault(terms: &Terms<'_>, survey: &Survey, given: Option<&str>) -> Option<Fault>
    ensures { (s : Specification) (worth : Values) (tree : Tree) → s.tree ≡ view tree → s.given ≡ option_map (λ t. t.now) given.entry → IsSurvey terms.now tree survey.now → IsFirst (IsFaultAt s worth) (NoRoot ∷ BadRoot ∷ []) result }
{
    let none = fault_of(Code::NoRoot, no_root(terms, survey, given));
    let bad = fault_of(Code::BadRoot, bad_root(terms, survey, given));
    first_of(none, bad)
}

// The first fault of C7, C8 and C9: of what stands in the place of a type.
fn type_fault(
    alloc: Global,
    terms: &Terms<'_>,
    survey: &Survey,
) -> Result<Option<Fault>, AllocError>
    ensures { IfOk result (λ o. (s : Specification) (worth : Values) (tree : Tree) → s.tree ≡ view tree → IsSurvey terms.now tree survey.now → IsFirst (IsFaultAt s worth) (GroupAsType ∷ HashForm ∷ UnknownControl ∷ []) o) }
{
    let group = site_fault(alloc, terms, survey, SiteCode::GroupAsType)?;
    let hash = site_fault(alloc, terms, survey, SiteCode::HashForm)?;
    let control = site_fault(alloc, terms, survey, SiteCode::UnknownControl)?;
    let group = fault_of(Code::GroupAsType, group);
    let hash = fault_of(Code::HashForm, hash);
    let control = fault_of(Code::UnknownControl, control);
    Ok(first_of(group, first_of(hash, control)))
}
