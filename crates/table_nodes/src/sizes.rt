//! Sets of numbers: of bytes, which the control `.size` asks for (RFC 8610 section 3.8.1), or of bits, which `.bits` asks for
//! (section 3.8.2).

ghost use Rattle.std.specs.Prelude.{◌≡◌, ◌+◌, ◌^◌, ◌≤◌, ◌||◌, ◌++◌, ℕ, [], ◌∷◌, IfOk, max, nat_lt, slice_get};
ghost use Rattle.std.specs.List.Sorted.{IsNonDecreasingBy};
ghost use Rattle.std.specs.Arc.{arc_slice_items};
ghost use Rattle.cddl_meaning.specs.Alike.{SameTest};
ghost use Rattle.cddl_meaning.specs.Forms.{bits_among, fits_in, is_member, sized};
ghost use Rattle.table_nodes.specs.Sizes.{AreInOrder, BeginBy, are_in_order_once, begins_by, size_view, sizes_view};

use std::alloc::{AllocError, Global};
use std::sync::ArcSlice;

/// Numbers of bytes or of bits, from the first to the last. There is none in it where the last is below the first.
#[derive(Clone, Copy, Debug, PartialEq, Eq)]
pub struct NumberRange {
    /// The first number.
    pub least: u64,
    /// The last number.
    pub last: u64,
}

/// A set of numbers of bytes or of bits. All that are shared from one have its ranges in common.
#[derive(Drop)]
pub struct NumberSet {
    /// No range is empty, and each is after a gap.
    ranges: ArcSlice<NumberRange>,
    pub ghost in_order: { AreInOrder (arc_slice_items ranges) } by { are_in_order_once (arc_slice_items ranges) },
}

impl NumberSet {
    ghost use Rattle.std.specs.Prelude.{◌≡◌, IfOk};
    ghost use Rattle.cddl_meaning.specs.Alike.{SameTest};
    ghost use Rattle.cddl_meaning.specs.Forms.{bits_among, fits_in, is_member, sized};
    ghost use Rattle.table_nodes.specs.Sizes.{AreInOrder, sizes_view};
    ghost use Rattle.table_nodes.specs.SizeSets.{set_view};

    /// The set of the numbers in these ranges, which may overlap and come in any order.
    ///
    /// It takes a time of n log n for n ranges, and 16 bytes for each range of those that are left when what overlaps or
    /// touches is one. An error comes only where memory is refused.
    pub fn new(alloc: Global, ranges: Vec<NumberRange>) -> Result<NumberSet, AllocError>
        ensures sizes { IfOk result (λ set. SameTest (sized (sizes_view ranges.items)) (sized (set_view set))) }
        ensures bits { IfOk result (λ set. SameTest (bits_among (sizes_view ranges.items)) (bits_among (set_view set))) }
    {
        let mut ranges = ranges;
        sort(&mut ranges);
        let merged = merged(alloc, &ranges)?;
        let ranges = ArcSlice::from_slice(alloc, &merged)?;
        Ok(NumberSet { ranges })
    }

    /// The same set, with the same list of ranges in memory. An error comes only where a set is shared 2^64 times.
    pub fn share(&self) -> Result<NumberSet, AllocError>
        ensures { IfOk result (λ set. set_view set ≡ set_view self.now) }
    {
        let ranges = self.ranges.clone()?;
        Ok(NumberSet { ranges })
    }

    /// The ranges, in order and with gaps between them.
    pub fn ranges(&self) -> &[NumberRange]
        ensures ranges { sizes_view result.now ≡ set_view self.now }
        ensures in_order { AreInOrder result.now }
    {
        self.ranges.as_slice()
    }

    /// Whether the number is in the set. It looks at as many ranges as the number of all of them has binary digits. Numbers of
    /// the bits of a byte string may be over 2^64.
    pub fn has(&self, number: u128) -> bool
        ensures { result ≡ is_member number (set_view self.now) }
    {
        is_in(self.ranges(), number)
    }

    /// Whether an unsigned number fits in so many bytes as a number of the set says. Only the greatest number is looked at.
    pub fn can_hold(&self, number: u64) -> bool
        ensures { result ≡ fits_in number (set_view self.now) }
    {
        fits_last(self.ranges(), number)
    }
}

fn sort(ranges: &mut Vec<NumberRange>)
    ensures sorted { IsNonDecreasingBy (λ r. r.least) ranges.new.items }
    ensures members { (n : ℕ) → is_member n (sizes_view ranges.new.items) ≡ is_member n (sizes_view ranges.old.items) }
{
    ranges.sort_unstable_by_key(|range| range.least);
}

// These ranges without empty ones, where what overlaps or touches is one.
fn merged(alloc: Global, ranges: &[NumberRange]) -> Result<Vec<NumberRange>, AllocError>
    requires { IsNonDecreasingBy (λ (r : NumberRange). r.least) ranges.now }
    ensures in_order { IfOk result (λ v. AreInOrder v.items) }
    ensures members { IfOk result (λ v. (n : ℕ) → is_member n (sizes_view v.items) ≡ is_member n (sizes_view ranges.now)) }
{
    let mut merged = Vec::new(alloc);
    for range in ranges {
        add(&mut merged, *range)?;
    }
    Ok(merged)
}

// Adds a range that begins no earlier than the others.
fn add(merged: &mut Vec<NumberRange>, range: NumberRange) -> Result<(), AllocError>
    requires in_order { AreInOrder merged.old.items }
    requires begins { BeginBy range.least merged.old.items }
    ensures in_order { IfOk result (λ _. AreInOrder merged.new.items) }
    ensures begins { IfOk result (λ _. (n : ℕ) → range.least ≤ n → BeginBy n merged.old.items → BeginBy n merged.new.items) }
    ensures members { IfOk result (λ _. (n : ℕ) → is_member n (sizes_view merged.new.items) ≡ (is_member n (sizes_view merged.old.items) || is_member n (size_view range ∷ []))) }
{
    if range.last < range.least {
        return Ok(());
    }
    match merged.pop() {
        Some(before) => add_behind(merged, before, range),
        None => {
            merged.push(range)?;
            Ok(())
        }
    }
}

// Adds the last range again, and one that begins no earlier: as one, where there is no gap between them.
fn add_behind(
    merged: &mut Vec<NumberRange>,
    before: NumberRange,
    range: NumberRange,
) -> Result<(), AllocError>
    requires in_order { AreInOrder (merged.old.items ++ before ∷ []) }
    requires begins { before.least ≤ range.least }
    requires some { range.least ≤ range.last }
    ensures in_order { IfOk result (λ _. AreInOrder merged.new.items) }
    ensures begins { IfOk result (λ _. (n : ℕ) → range.least ≤ n → BeginBy n merged.old.items → BeginBy n merged.new.items) }
    ensures members { IfOk result (λ _. (n : ℕ) → is_member n (sizes_view merged.new.items) ≡ (is_member n (sizes_view (merged.old.items ++ before ∷ [])) || is_member n (size_view range ∷ []))) }
{
    if before.last.saturating_add(1) < range.least {
        merged.push(before)?;
        merged.push(range)?;
    } else {
        merged.push(joined(before, range))?;
    }
    Ok(())
}

// From where the first begins to where one of them ends.
fn joined(first: NumberRange, second: NumberRange) -> NumberRange
    ensures least { result.least ≡ first.least }
    ensures last { result.last ≡ max first.last second.last }
{
    NumberRange {
        least: first.least,
        last: first.last.max(second.last),
    }
}

// Whether one of the ranges has the number.
fn is_in(ranges: &[NumberRange], number: u128) -> bool
    requires { AreInOrder ranges.now }
    ensures { result ≡ is_member number (sizes_view ranges.now) }
{
    let place = ranges.partition_point(|range| u128::from(range.last) < number);
    begins_by(ranges, place, number)
}

// Whether there is a range at this place, and it begins by the number.
fn begins_by(ranges: &[NumberRange], place: usize, number: u128) -> bool
    ensures { result ≡ begins_by number (slice_get ranges.now place) }
{
    match ranges.get(place) {
        Some(range) => u128::from(range.least) <= number,
        None => false,
    }
}

// Whether as many bytes as the last number of the ranges can hold an unsigned number.
fn fits_last(ranges: &[NumberRange], number: u64) -> bool
    requires { AreInOrder ranges.now }
    ensures { result ≡ fits_in number (sizes_view ranges.now) }
{
    match ranges.last() {
        Some(range) => can_hold(range.last, number),
        None => false,
    }
}

// Whether so many bytes can hold an unsigned number.
fn can_hold(bytes: u64, number: u64) -> bool
    ensures { result ≡ nat_lt number (256 ^ bytes) }
{
    // All such numbers are below 256^8.
    match 256u64.checked_pow(bytes.min(8) as u32) {
        Some(limit) => number < limit,
        None => true,
    }
}
