//! What is known of the rules of a text.

ghost use Rattle.std.specs.Prelude.{◌≡◌, ◌++◌, [], ◌∷◌, IfOk, OnOk};
ghost use Rattle.cddl_language.specs.Reading.{rules_of};
ghost use Rattle.cddl_token.specs.declared.Token.{Token};
ghost use Rattle.check_terms.specs.Table.{Grows};
ghost use Rattle.tree_nodes.specs.View.{token_of, view, view_group, view_grpent, view_name, view_rule};
ghost use Rattle.tree_nodes.specs.declared.tree.Leaf.{Leaf};
ghost use Rattle.source_pieces.specs.Pieces.{alternatives_of, count_of, own_count};
ghost use Rattle.source_pieces.specs.Rules.{AreRules, IsRuleAt};
ghost use Rattle.source_pieces.specs.Spans.{has_parameters};

use crate::span::{Span, body_span, head_of, name_span, rule_name};
use check_terms::laws::growing_keeps;
use check_terms::{NoRoom, Terms};
use std::alloc::Global;
use tree_nodes::{Group, GrpEnt, Rule, RuleName, Tree};

/// A rule of the text.
#[derive(Clone, Copy)]
pub struct RuleAt {
    /// The number of its name.
    pub number: u32,
    /// So many alternatives it makes as a group.
    pub alternatives: usize,
    /// Whether it has parameters.
    pub is_generic: bool,
    /// Where it has its name.
    pub name: Span,
    /// Where its body stands, without the parentheses round all of it.
    pub body: Span,
}

/// The rules of the tree, in order. The table of terms grows by their names.
///
/// # Errors
///
/// Memory was refused, or a number does not fit.
pub fn rules_at<'s>(
    alloc: Global,
    terms: &mut Terms<'s>,
    tree: &Tree<'s>,
) -> Result<Vec<RuleAt>, NoRoom>
    ensures grows { Grows terms.old terms.new }
    ensures rules { IfOk result (λ v. AreRules terms.new (rules_of (view tree.now)) v.items) }
{
    growing_keeps();
    let mut rules = Vec::new(alloc);
    for rule in &tree.rules {
        let at = rule_at(terms, tree, rule)?;
        push_rule(&mut rules, at)?;
    }
    Ok(rules)
}

fn push_rule(rules: &mut Vec<RuleAt>, rule: RuleAt) -> Result<(), NoRoom>
    ensures { OnOk result (rules.new.items ≡ rules.old.items ++ rule ∷ []) }
{
    match rules.push(rule) {
        Ok(()) => Ok(()),
        Err(_) => Err(NoRoom),
    }
}

fn rule_at<'s>(terms: &mut Terms<'s>, tree: &Tree<'s>, rule: &Rule) -> Result<RuleAt, NoRoom>
    ensures grows { Grows terms.old terms.new }
    ensures rule { IfOk result (λ a. IsRuleAt terms.new (view_rule (token_of tree.now) rule.now) a) }
{
    let number = terms.add_text(rule_name(tree, head_of(rule)))?;
    match name_span(tree, rule) {
        Some(name) => Ok(RuleAt {
            number,
            alternatives: alternatives_of(rule)?,
            is_generic: has_parameters(head_of(rule)),
            name,
            body: body_span(tree, rule),
        }),
        None => Err(NoRoom),
    }
}

// Whether a rule with this name has parameters.
fn has_parameters(name: &RuleName) -> bool
    ensures { (read : Leaf → Token) → result ≡ has_parameters (view_name read name.now) }
{
    match name {
        RuleName::Plain(_) => false,
        RuleName::Generic { .. } => true,
    }
}

// How many alternatives a rule makes as a group.
fn alternatives_of(rule: &Rule) -> Result<usize, NoRoom>
    ensures { (read : Leaf → Token) → IfOk result (λ n. n ≡ alternatives_of (view_rule read rule.now)) }
{
    match rule {
        Rule::TypeRule { .. } => Ok(1),
        Rule::GroupRule { grpent, .. } => own_count(grpent),
    }
}

// The same of a rule whose body this is.
fn own_count(body: &GrpEnt) -> Result<usize, NoRoom>
    ensures { (read : Leaf → Token) → IfOk result (λ n. n ≡ own_count (view_grpent read body.now)) }
{
    match body {
        GrpEnt::Typed { .. } => Ok(1),
        GrpEnt::Keyed { .. } => Ok(1),
        GrpEnt::Grouped { occur, group, .. } => match occur {
            Some(_) => Ok(1),
            None => count_of(group),
        },
    }
}

// How many alternatives a group has.
fn count_of(group: &Group) -> Result<usize, NoRoom>
    ensures { (read : Leaf → Token) → IfOk result (λ n. n ≡ count_of (view_group read group.now)) }
{
    let Group { others, .. } = group;
    match others.len().checked_add(1) {
        Some(count) => Ok(count),
        None => Err(NoRoom),
    }
}
