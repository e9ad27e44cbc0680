//! Where the parameters of rules begin.
ghost use Rattle.std.specs.Prelude.{◌≡◌, IfOk, map};
ghost use Rattle.check_names.specs.Environment.Places.{lists};
ghost use Rattle.check_reading.specs.Survey.Survey.{parameters_at, token_at};
ghost use Rattle.cddl_language.specs.Reading.{parameter_tokens, parameters_of, rules_of};
ghost use Rattle.tree_nodes.specs.View.{token_of, view, view_name, view_parm, view_rule};

use std::alloc::{AllocError, Global};
use tree_nodes::{GenericParm, Leaf, Rule, RuleName, Tree};

// The offsets of the parameters of each rule, in the order of the text.
pub(crate) fn all_parameters(alloc: Global, tree: &Tree<'_>) -> Result<Vec<Vec<usize>>, AllocError>
    ensures { IfOk result (λ v. lists v.items ≡ map parameters_at (rules_of (view tree.now))) }
{
    let mut starts = Vec::new(alloc);
    for rule in &tree.rules {
        starts.push(of_rule(alloc, tree, rule)?)?;
    }
    Ok(starts)
}

fn of_rule(alloc: Global, tree: &Tree<'_>, rule: &Rule) -> Result<Vec<usize>, AllocError>
    ensures { IfOk result (λ v. v.items ≡ parameters_at (view_rule (token_of tree.now) rule.now)) }
{
    match rule {
        Rule::TypeRule { name, .. } => of_name(alloc, tree, name),
        Rule::GroupRule { name, .. } => of_name(alloc, tree, name),
    }
}

fn of_name(alloc: Global, tree: &Tree<'_>, name: &RuleName) -> Result<Vec<usize>, AllocError>
    ensures { IfOk result (λ v. v.items ≡ map token_at (parameter_tokens (view_name (token_of tree.now) name.now))) }
{
    match name {
        RuleName::Plain(_) => Ok(Vec::new(alloc)),
        RuleName::Generic { parameters, .. } => of_list(alloc, tree, parameters),
    }
}

fn of_list(
    alloc: Global,
    tree: &Tree<'_>,
    parameters: &GenericParm,
) -> Result<Vec<usize>, AllocError>
    ensures { IfOk result (λ v. v.items ≡ map token_at (parameters_of (view_parm (token_of tree.now) parameters.now))) }
{
    let mut starts = Vec::new(alloc);
    starts.push(start_at(tree, parameters.first))?;
    for parameter in &parameters.others {
        starts.push(start_at(tree, parameter.name))?;
    }
    Ok(starts)
}

fn start_at(tree: &Tree<'_>, leaf: Leaf) -> usize
    ensures { result ≡ token_at (token_of tree.now leaf) }
{
    tree.token(leaf).start
}
