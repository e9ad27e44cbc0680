//! Causes as implications.

ghost use Rattle.std.specs.Prelude.{◌≡◌, ◌++◌, ◌∷◌, [], IfOk, OnOk};
ghost use Rattle.check_groups.specs.Causes.Rules.{all_rules, rule, rules_by};

use crate::causes::cause::RowCause;
use graphs::implications::Implication;
use std::alloc::{AllocError, Global};

// The implications of all rows, two a row at most, where these are their causes.
pub(crate) fn rules_of(alloc: Global, causes: &[RowCause]) -> Result<Vec<Implication>, AllocError>
    ensures { IfOk result (λ v. v.items ≡ all_rules 0 causes.now) }
{
    let mut rules = Vec::new(alloc);
    for (number, cause) in causes.iter().enumerate() {
        add_rules(&mut rules, number, *cause)?;
    }
    Ok(rules)
}

fn add_rules(rules: &mut Vec<Implication>, number: usize, cause: RowCause) -> Result<(), AllocError>
    ensures { OnOk result (rules.new.items ≡ rules.old.items ++ rules_by number cause) }
{
    match cause {
        RowCause::Never => Ok(()),
        RowCause::Always => add(rules, number, None, None),
        RowCause::One(row) => add(rules, number, Some(row), None),
        RowCause::Either(row, other) => {
            add(rules, number, Some(row), None)?;
            add(rules, number, Some(other), None)
        }
        RowCause::Both(row, other) => add(rules, number, Some(row), Some(other)),
    }
}

fn add(
    rules: &mut Vec<Implication>,
    then: usize,
    first: Option<usize>,
    second: Option<usize>,
) -> Result<(), AllocError>
    ensures { OnOk result (rules.new.items ≡ rules.old.items ++ rule then first second ∷ []) }
{
    rules.push(Implication {
        then,
        first,
        second,
    })?;
    Ok(())
}
