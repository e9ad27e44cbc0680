//! The members of a choice in buckets, by the literals that they are.

ghost use Rattle.std.specs.Prelude.{◌≡◌, ◌≤◌, IfOk, IfSome};
ghost use Rattle.table_nodes.specs.Choices.{buckets_in, form_bucket, member_bucket, type_in};
ghost use Rattle.table_nodes.specs.Nodes.{type_view};

use crate::codes::bucket_of;
use crate::nodes::{Node, Test, TypeId};
use std::alloc::{AllocError, Global};

/// A choice has an index from so many literals on. For fewer it would not save what it takes to look there.
const LEAST_INDEXED: usize = 16;

// The bucket of a member, of so many.
fn member_bucket(types: &[Node], member: TypeId, buckets: usize) -> usize
    ensures is { result ≡ member_bucket (type_in types.now) buckets member }
    ensures within { result ≤ buckets }
{
    match types.get(member.number) {
        Some(form) => form_bucket(form, buckets),
        None => buckets,
    }
}

// The bucket of a member of this form, of so many.
fn form_bucket(form: &Node, buckets: usize) -> usize
    ensures is { result ≡ form_bucket buckets (type_view form.now) }
    ensures within { result ≤ buckets }
{
    match form {
        Node::Plain(Test::Equals(literal)) => bucket_of(literal, buckets),
        _ => buckets,
    }
}

// The buckets of these members.
fn buckets_of(alloc: Global, types: &[Node], members: &[TypeId]) -> Result<Vec<usize>, AllocError>
    ensures { IfOk result (λ v. v.items ≡ buckets_in (type_in types.now) members.now) }
{
    let mut buckets = Vec::with_capacity(alloc, members.len())?;
    for member in members {
        buckets.push(member_bucket(types, *member, members.len()))?;
    }
    Ok(buckets)
}

// How many of these members are in buckets by their values.
fn literal_count(buckets: &[usize]) -> usize {
    let mut count: usize = 0;
    for bucket in buckets {
        if *bucket < buckets.len() {
            count = count.saturating_add(1);
        }
    }
    count
}

// Whether these are so many members that they may have an index.
#[inline(always)]
pub(crate) fn may_have_index(members: &[TypeId]) -> bool {
    members.len() >= LEAST_INDEXED
}

// The buckets of these members, if enough of them are literals.
pub(crate) fn member_buckets(
    alloc: Global,
    types: &[Node],
    members: &[TypeId],
) -> Result<Option<Vec<usize>>, AllocError>
    ensures { IfOk result (λ o. IfSome o (λ buckets. buckets.items ≡ buckets_in (type_in types.now) members.now)) }
{
    if !may_have_index(members) {
        return Ok(None);
    }
    let buckets = buckets_of(alloc, types, members)?;
    if literal_count(&buckets) < LEAST_INDEXED {
        return Ok(None);
    }
    Ok(Some(buckets))
}
