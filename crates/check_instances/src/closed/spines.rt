//! The rows of a type's choices, of a group's alternatives and of an alternative's entries, in order.

ghost use Rattle.std.specs.Prelude.{◌≡◌, IfOk};
ghost use Rattle.cddl_language.specs.Terms as L;
ghost use Rattle.cddl_meaning.specs.Alike.{AlikeAll};
ghost use Rattle.check_terms.specs.Trees.{IsTerm, IsGroup, IsEntries};
ghost use Rattle.check_instances.specs.Closed.Closed.{TermRow, EntriesRow, EntryRow};
ghost use Rattle.check_instances.specs.Closed.Spines as by;

use check_terms::laws::is_table;
use check_terms::{Form, Terms};
use std::alloc::{AllocError, Global};

/// What a list that grows at its end is of.
#[derive(Clone, Copy)]
pub(crate) enum Spine {
    /// The choices of a type.
    Choices,
    /// The alternatives of a group.
    Alternatives,
    /// The entries of an alternative.
    Entries,
}

/// The parts of a list from the last on, and the row before all of them.
#[derive(Drop)]
pub(crate) struct Walked {
    pub parts: Vec<u32>,
    pub end: u32,
}

/// The rows of the type's choices in order, also where it is one itself (RFC 8610 section 2.2.2). The second of two is no choice,
/// but in parentheses.
///
/// It takes time and memory in proportion to the choices. An error comes only where memory is refused.
pub fn choices(alloc: Global, terms: &Terms<'_>, row: u32) -> Result<Vec<u32>, AllocError>
    ensures { IfOk result (λ v. (x : L.Term) → IsTerm terms.now row x → AlikeAll (TermRow terms.now) (L.choices x) v.items) }
{
    let walked = walk(alloc, terms, Spine::Choices, row)?;
    in_order(walked.parts, Some(walked.end))
}

/// The rows of the group's alternatives in order (RFC 8610 section 2.2.2).
///
/// It takes time and memory in proportion to the alternatives. An error comes only where memory is refused.
pub fn alternatives(alloc: Global, terms: &Terms<'_>, row: u32) -> Result<Vec<u32>, AllocError>
    ensures { IfOk result (λ v. (g : L.Group) → IsGroup terms.now row g → AlikeAll (EntriesRow terms.now) (L.alternatives g) v.items) }
{
    let walked = walk(alloc, terms, Spine::Alternatives, row)?;
    in_order(walked.parts, first_part(terms, walked.end))
}

/// The rows of the entries of an alternative in order (RFC 8610 section 2.1).
///
/// It takes time and memory in proportion to the entries. An error comes only where memory is refused.
pub fn entries(alloc: Global, terms: &Terms<'_>, row: u32) -> Result<Vec<u32>, AllocError>
    ensures { IfOk result (λ v. (es : L.Entries) → IsEntries terms.now row es → AlikeAll (EntryRow terms.now) (L.entry_list es) v.items) }
{
    let walked = walk(alloc, terms, Spine::Entries, row)?;
    in_order(walked.parts, None)
}

fn walk(alloc: Global, terms: &Terms<'_>, spine: Spine, row: u32) -> Result<Walked, AllocError>
    ensures { IfOk result (λ w. by.IsWalked spine terms.now.rows row w.parts.items w.end) }
{
    is_table(terms);
    let mut parts = Vec::new(alloc);
    let mut end = row;
    while let Some((before, part)) = split(terms, spine, end) {
        parts.push(part)?;
        end = before;
    }
    Ok(Walked { parts, end })
}

// The row of what is before the last part, and that of the last part.
fn split(terms: &Terms<'_>, spine: Spine, number: u32) -> Option<(u32, u32)>
    ensures { result ≡ by.split_at spine terms.now.rows number }
{
    let row = terms.row(number)?;
    if goes_on(spine, row.form) {
        both(row.first, row.second)
    } else {
        None
    }
}

fn goes_on(spine: Spine, form: Form) -> bool
    ensures { result ≡ by.goes_on spine form }
{
    match spine {
        Spine::Choices => matches!(form, Form::Or),
        Spine::Alternatives => matches!(form, Form::OrElse),
        Spine::Entries => matches!(form, Form::Entries | Form::EntriesComma),
    }
}

fn both(first: Option<u32>, second: Option<u32>) -> Option<(u32, u32)>
    ensures { result ≡ by.both first second }
{
    Some((first?, second?))
}

fn first_part(terms: &Terms<'_>, number: u32) -> Option<u32>
    ensures { result ≡ by.first_at terms.now.rows number }
{
    terms.row(number)?.first
}

fn in_order(mut parts: Vec<u32>, end: Option<u32>) -> Result<Vec<u32>, AllocError>
    ensures { IfOk result (λ v. v.items ≡ by.in_order parts.items end) }
{
    if let Some(end) = end {
        parts.push(end)?;
    }
    parts.reverse();
    Ok(parts)
}
