//! The entries of an alternative of a map in buckets, by the literals that their keys are.

ghost use Rattle.std.specs.Prelude.{◌≡◌, ◌≤◌, IfOk, IfSome};
ghost use Rattle.table_nodes.specs.Choices.{type_in};
ghost use Rattle.table_nodes.specs.Entries.{entry_bucket, entry_buckets_in};
ghost use Rattle.table_nodes.specs.Nodes.{entries_view, entry_view};

use crate::codes::bucket_of;
use crate::keys::literal_in;
use crate::nodes::{MapEntry, Node};
use item_nodes::Item;
use std::alloc::{AllocError, Global};

/// An alternative has an index from so many entries on. For fewer it would not save what it takes to look there.
pub(crate) const LEAST_INDEXED: usize = 10;

/// An index of an alternative serves further ones that begin with the same entries, so many or more, where fewer than these come
/// after them.
const MOST_BEHIND: usize = 12;

/// Entries whose keys are strings of so many bytes have no index: to compare one such key would take long.
const LONG: usize = 1_024;

/// Where more entries than these are in one bucket there is no index, so that a pair looks at few entries that have other keys.
const MOST_IN_BUCKET: usize = 32;

// The bucket of an entry, of so many.
fn entry_bucket(types: &[Node], entry: &MapEntry, buckets: usize) -> usize
    ensures is { result ≡ entry_bucket (type_in types.now) buckets (entry_view entry.now) }
    ensures within { result ≤ buckets }
{
    match literal_in(types, entry.key_type) {
        Some(literal) => bucket_of(literal, buckets),
        None => buckets,
    }
}

// The buckets of these entries.
fn buckets_of(alloc: Global, types: &[Node], entries: &[MapEntry]) -> Result<Vec<usize>, AllocError>
    ensures { IfOk result (λ v. v.items ≡ entry_buckets_in (type_in types.now) (entries_view entries.now)) }
{
    let mut buckets = Vec::with_capacity(alloc, entries.len())?;
    for entry in entries {
        buckets.push(entry_bucket(types, entry, entries.len()))?;
    }
    Ok(buckets)
}

// Whether a literal is a string that takes long to compare.
fn is_long(literal: &Item) -> bool {
    match literal {
        Item::Bytes(bytes) => bytes.len() >= LONG,
        Item::Text(text) => text.len() >= LONG,
        _ => false,
    }
}

// Whether a key of these entries is a string that takes long to compare.
fn has_long_key(types: &[Node], entries: &[MapEntry]) -> bool {
    entries.iter().any(|entry| literal_in(types, entry.key_type).is_some_and(is_long))
}

// Whether too many entries are in one bucket of those by values.
fn is_crowded(alloc: Global, buckets: &[usize]) -> Result<bool, AllocError> {
    let mut counts: Vec<usize> = vec![in alloc; 0; buckets.len()]?;
    for bucket in buckets {
        if let Some(count) = counts.get_mut(*bucket) {
            if *count >= MOST_IN_BUCKET {
                return Ok(true);
            }
            *count += 1;
        }
    }
    Ok(false)
}

// Whether these have no index of their own, since one leads among so many of their first entries, and few come after those.
pub(crate) fn are_led(led: usize, entries: &[MapEntry]) -> bool {
    led >= LEAST_INDEXED && entries.len().saturating_sub(led) < MOST_BEHIND
}

// Whether these are so many entries that they may have an index.
#[inline(always)]
pub(crate) fn may_have_index(entries: &[MapEntry]) -> bool {
    entries.len() >= LEAST_INDEXED
}

// The buckets of these entries, if they are worth an index.
pub(crate) fn entry_buckets(
    alloc: Global,
    types: &[Node],
    entries: &[MapEntry],
) -> Result<Option<Vec<usize>>, AllocError>
    ensures { IfOk result (λ o. IfSome o (λ buckets. buckets.items ≡ entry_buckets_in (type_in types.now) (entries_view entries.now))) }
{
    if !may_have_index(entries) || has_long_key(types, entries) {
        return Ok(None);
    }
    let buckets = buckets_of(alloc, types, entries)?;
    if is_crowded(alloc, &buckets)? {
        return Ok(None);
    }
    Ok(Some(buckets))
}
