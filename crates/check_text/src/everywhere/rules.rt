//! All offsets of what is reported at rules.

ghost use Rattle.std.specs.Prelude.{◌≡◌, IfOk, OnOk, Some, slice_get};
ghost use Rattle.cddl_language.specs.Faults.{Specification};
ghost use Rattle.cddl_language.specs.Reading.{name_at, rules_of};
ghost use Rattle.check_reading.specs.Survey.Survey.{IsSurvey};
ghost use Rattle.all_offsets.specs.Offsets.{AreOf, Gains};
ghost use Rattle.check_text.specs.Everywhere.Rules.{IsToldAtRule, IsToldAtRules};
ghost use Rattle.tree_nodes.specs.Syntax.Syntax.{Rule};
ghost use Rattle.tree_nodes.specs.View.{view};
ghost use Rattle.tree_nodes.specs.declared.tree.Tree.{Tree};

use crate::everywhere::repeats::push_duplicates;
use crate::rule_faults::{clash_at, other_count};
use all_offsets::push_found;
use check_reading::survey::Survey;
use check_terms::Terms;
use std::alloc::{AllocError, Global};

/// A code that is reported at rules.
#[derive(Clone, Copy, Debug, PartialEq, Eq)]
pub(crate) enum RuleCode {
    /// A name that is defined twice, or a parameter that stands twice in its list.
    Duplicate,
    /// A definition of another kind than its name has.
    KindClash,
    /// A definition with another number of parameters than its name has.
    Arity,
}

// All offsets at which this code is reported at a rule, in the order of the rules. It takes a time in proportion to the text.
pub(crate) fn at_rules(
    alloc: Global,
    terms: &Terms<'_>,
    survey: &Survey,
    code: RuleCode,
) -> Result<Vec<usize>, AllocError>
    ensures { IfOk result (λ v. (s : Specification) (tree : Tree) → s.tree ≡ view tree → IsSurvey terms.now tree survey.now → AreOf (IsToldAtRules code s) v.items) }
{
    let mut offsets = Vec::new(alloc);
    for (place, start) in survey.starts.iter().enumerate() {
        push_told(alloc, &mut offsets, terms, survey, place, *start, code)?;
    }
    Ok(offsets)
}

// Adds what is reported at the rule at this place.
fn push_told(
    alloc: Global,
    offsets: &mut Vec<usize>,
    terms: &Terms<'_>,
    survey: &Survey,
    place: usize,
    start: usize,
    code: RuleCode,
) -> Result<(), AllocError>
    ensures { OnOk result ((tree : Tree) (r : Rule) → IsSurvey terms.now tree survey.now → slice_get (rules_of (view tree)) place ≡ Some r → start ≡ name_at r → Gains (IsToldAtRule code (rules_of (view tree)) r) offsets.old.items offsets.new.items) }
{
    match code {
        RuleCode::Duplicate => push_duplicates(alloc, offsets, terms, survey, place, start),
        RuleCode::KindClash => push_found(offsets, clash_at(terms, survey, place, start)),
        RuleCode::Arity => push_found(offsets, other_count(survey, place, start)),
    }
}
