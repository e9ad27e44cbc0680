//! What a body is, out of its parentheses.

ghost use Rattle.std.specs.Prelude.{◌≡◌, IfOk, Some, nat_eq};
ghost use Rattle.std.specs.List.{list_any};
ghost use Rattle.cddl_language.specs.Terms.{Term, stripped};
ghost use Rattle.check_names.specs.Kinds.Heads.{AreHeads, HasHead, HasTop, HoldsRow, head_by, is_parens, name_at, without};
ghost use Rattle.check_terms.specs.Trees.{IsTerm, term_tree};
ghost use Rattle.check_terms.specs.declared.row.Row as R;

use check_terms::{Body, Definition, Form, Row, Terms};
use std::alloc::{AllocError, Global};

/// What a body is, out of its parentheses. Names are given by the numbers of their texts.
#[derive(Clone, Copy)]
pub(crate) enum Head {
    /// One name that is no parameter.
    Name(u32),
    /// `~` and one name that is no parameter.
    Unwrapped(u32),
    /// A map or an array.
    Container,
    /// A tag with its content.
    Tag,
    /// An entry of a group.
    Entry,
    /// Any other type.
    Other,
}

// The head of each definition's body, in order.
pub(crate) fn heads(
    alloc: Global,
    terms: &Terms<'_>,
    definitions: &[Definition],
) -> Result<Vec<Head>, AllocError>
    ensures { IfOk result (λ v. AreHeads terms.now definitions.now v.items) }
{
    let mut heads = Vec::new(alloc);
    for definition in definitions {
        heads.push(head_of(terms, definition))?;
    }
    Ok(heads)
}

pub(crate) fn head_of(terms: &Terms<'_>, definition: &Definition) -> Head
    ensures { HasHead terms.now definition.now result }
{
    terms.len();
    match definition.body {
        Body::Entry(_) => Head::Entry,
        Body::Types(number) => {
            without_parameters(&definition.parameters, head_of_type(terms, number))
        }
    }
}

// The head, where these names are parameters: a way through a parameter leads nowhere.
fn without_parameters(parameters: &[u32], head: Head) -> Head
    ensures { result ≡ without parameters.now head }
{
    match head {
        Head::Name(name) if is_among(parameters, name) => Head::Other,
        Head::Unwrapped(name) if is_among(parameters, name) => Head::Other,
        head => head,
    }
}

fn is_among(names: &[u32], name: u32) -> bool
    ensures { result ≡ list_any (λ n. nat_eq n name) names.now }
{
    names.iter().any(|other| *other == name)
}

// The head of a type, where no name is a parameter.
fn head_of_type(terms: &Terms<'_>, number: u32) -> Head
    ensures { HasTop terms.now number result }
{
    match stripped(terms, number) {
        Some(row) => head_of_row(terms, row),
        None => Head::Other,
    }
}

// The row of the type in any number of parentheses.
fn stripped(terms: &Terms<'_>, number: u32) -> Option<Row>
    ensures { (x : Term) → IsTerm terms.now number x → (r : R.Row) × (result ≡ Some r) × HoldsRow terms.now r (term_tree (stripped x)) }
{
    terms.len();
    let mut number = number;
    loop {
        let row = terms.row(number)?;
        if !is_parens(row.form) {
            return Some(row);
        }
        number = row.first?;
    }
}

fn is_parens(form: Form) -> bool
    ensures { result ≡ is_parens form }
{
    matches!(form, Form::Parens)
}

fn head_of_row(terms: &Terms<'_>, row: Row) -> Head
    ensures { result ≡ head_by row.form (name_at terms.now.rows row.first) }
{
    match row.form {
        Form::Named => name_of(terms, row.first).map_or(Head::Other, Head::Name),
        Form::Unwrapped => name_of(terms, row.first).map_or(Head::Other, Head::Unwrapped),
        Form::MapOf | Form::ArrayOf => Head::Container,
        Form::Tagged | Form::TaggedBy => Head::Tag,
        _ => Head::Other,
    }
}

// The number of a reference's name.
fn name_of(terms: &Terms<'_>, reference: Option<u32>) -> Option<u32>
    ensures { result ≡ name_at terms.now.rows reference }
{
    let row = terms.row(reference?)?;
    row.text
}
