//! The definitions that the rules of a tree are.
ghost use Rattle.std.specs.Prelude.{◌≡◌, ◌++◌, [], ◌∷◌, IfOk, List};
ghost use Rattle.cddl_language.specs.Reading.{definition_of, definitions_in, group_sign as sign_of_group, parameter_tokens, parameters_of, rule_name as name_of_rule, rules_of, text_of, texts_of, type_sign as sign_of_type};
ghost use Rattle.cddl_language.specs.Terms as L;
ghost use Rattle.cddl_language.specs.Terms.{Text};
ghost use Rattle.check_terms.specs.Definitions.{AreDefinitions, AreTexts, IsBody, IsDefinition, sign_of};
ghost use Rattle.check_terms.specs.Table.{Grows};
ghost use Rattle.tree_nodes.specs.View.{token_of, view, view_assigng, view_assignt, view_name, view_parm, view_rule};

use crate::reader::leaves::text_at;
use crate::reader::nodes::{read_entry, read_types};
use check_terms::{Body, Definition, NoRoom, Sign, Terms, opened_name};
use std::alloc::Global;
use tree_nodes::{AssignG, AssignT, GenericParm, Leaf, Rule, RuleName, Tree};

/// The definitions that the rules of the tree are, in the order of the text (RFC 8610 sections 2.2.2 and 3.10).
///
/// It looks at each node once, and for each hashes its text and a row or two.
///
/// # Errors
///
/// `NoRoom` where memory is refused, or each number of 32 bits is taken. The table may have grown.
pub fn read<'s>(
    alloc: Global,
    terms: &mut Terms<'s>,
    tree: &Tree<'s>,
) -> Result<Vec<Definition>, NoRoom>
    ensures grows { Grows terms.old terms.new }
    ensures definitions { IfOk result (λ v. AreDefinitions terms.new v.items (definitions_in (rules_of (view tree.now)))) }
{
    let mut definitions = Vec::new(alloc);
    for rule in &tree.rules {
        let definition = read_rule(alloc, terms, tree, rule)?;
        push_last(&mut definitions, definition)?;
    }
    Ok(definitions)
}

// The definition that a rule is.
fn read_rule<'s>(
    alloc: Global,
    terms: &mut Terms<'s>,
    tree: &Tree<'s>,
    rule: &Rule,
) -> Result<Definition, NoRoom>
    ensures grows { Grows terms.old terms.new }
    ensures definition { IfOk result (λ d. IsDefinition terms.new d (definition_of (view_rule (token_of tree.now) rule.now))) }
{
    match rule {
        Rule::TypeRule {
            name,
            assign,
            types,
        } => {
            let body = read_types(terms, tree, types)?;
            define(
                alloc,
                terms,
                tree,
                name,
                type_sign(assign),
                Body::Types(body),
            )
        }
        Rule::GroupRule {
            name,
            assign,
            grpent,
        } => {
            let body = read_entry(terms, tree, grpent)?;
            define(
                alloc,
                terms,
                tree,
                name,
                group_sign(assign),
                Body::Entry(body),
            )
        }
    }
}

fn type_sign(assign: &AssignT) -> Sign
    ensures { (t : Tree) → sign_of result ≡ sign_of_type (view_assignt (token_of t) assign.now) }
{
    match assign {
        AssignT::TypeIs(_) => Sign::Is,
        AssignT::TypeOr(_) => Sign::TypeOr,
    }
}

fn group_sign(assign: &AssignG) -> Sign
    ensures { (t : Tree) → sign_of result ≡ sign_of_group (view_assigng (token_of t) assign.now) }
{
    match assign {
        AssignG::GroupIs(_) => Sign::Is,
        AssignG::GroupOr(_) => Sign::GroupOr,
    }
}

// The definition with this name and its parameters, this sign and this body.
fn define<'s>(
    alloc: Global,
    terms: &mut Terms<'s>,
    tree: &Tree<'s>,
    name: &RuleName,
    sign: Sign,
    body: Body,
) -> Result<Definition, NoRoom>
    ensures grows { Grows terms.old terms.new }
    ensures definition { IfOk result (λ d. (b : L.Body) → IsBody terms.old body b → IsDefinition terms.new d (record { name = name_of_rule (view_name (token_of tree.now) name.now); parameters = texts_of (parameter_tokens (view_name (token_of tree.now) name.now)); sign = sign_of sign; body = b })) }
{
    let number = terms.add_text(rule_name(tree, name))?;
    let parameters = read_parameters(alloc, terms, tree, name)?;
    Ok(Definition {
        name: number,
        parameters,
        sign,
        body,
    })
}

// The name of a rule.
fn rule_name<'s>(tree: &Tree<'s>, name: &RuleName) -> &'s str
    ensures { result.now ≡ name_of_rule (view_name (token_of tree.now) name.now) }
{
    match name {
        RuleName::Plain(leaf) => text_at(tree, *leaf),
        RuleName::Generic { opening, .. } => opened_name(text_at(tree, *opening)),
    }
}

// The numbers of the texts of a rule's parameters.
fn read_parameters<'s>(
    alloc: Global,
    terms: &mut Terms<'s>,
    tree: &Tree<'s>,
    name: &RuleName,
) -> Result<Vec<u32>, NoRoom>
    ensures grows { Grows terms.old terms.new }
    ensures parameters { IfOk result (λ v. AreTexts terms.new.texts v.items (texts_of (parameter_tokens (view_name (token_of tree.now) name.now)))) }
{
    match name {
        RuleName::Plain(_) => Ok(Vec::new(alloc)),
        RuleName::Generic { parameters, .. } => read_names(alloc, terms, tree, parameters),
    }
}

// The numbers of the texts of these parameters.
fn read_names<'s>(
    alloc: Global,
    terms: &mut Terms<'s>,
    tree: &Tree<'s>,
    parameters: &GenericParm,
) -> Result<Vec<u32>, NoRoom>
    ensures grows { Grows terms.old terms.new }
    ensures parameters { IfOk result (λ v. AreTexts terms.new.texts v.items (texts_of (parameters_of (view_parm (token_of tree.now) parameters.now)))) }
{
    let mut names = Vec::new(alloc);
    add_name(&mut names, terms, tree, parameters.first)?;
    for parameter in &parameters.others {
        add_name(&mut names, terms, tree, parameter.name)?;
    }
    Ok(names)
}

// Adds the number of a leaf's text to the list.
fn add_name<'s>(
    names: &mut Vec<u32>,
    terms: &mut Terms<'s>,
    tree: &Tree<'s>,
    leaf: Leaf,
) -> Result<(), NoRoom>
    ensures grows { Grows terms.old terms.new }
    ensures added { IfOk result (λ _. (xs : List Text) → AreTexts terms.old.texts names.old.items xs → AreTexts terms.new.texts names.new.items (xs ++ text_of (token_of tree.now leaf) ∷ [])) }
{
    let number = terms.add_text(text_at(tree, leaf))?;
    push_last(names, number)
}

// Puts the value after the others.
fn push_last<T: Drop>(list: &mut Vec<T>, value: T) -> Result<(), NoRoom>
    ensures { IfOk result (λ _. list.new.items ≡ list.old.items ++ value ∷ []) }
{
    match list.push(value) {
        Ok(()) => Ok(()),
        Err(_) => Err(NoRoom),
    }
}
