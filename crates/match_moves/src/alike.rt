//! Alternatives of a map that begin with the same entries.

ghost use Rattle.std.specs.Prelude.{◌≡◌, IsTrue};
ghost use Rattle.table_nodes.specs.Fronts.{BeginAlike};

use table_nodes::MapEntry;

// Whether two entries are the same. Most that differ have other keys.
#[inline(always)]
fn are_same(some: &MapEntry, other: &MapEntry) -> bool
    ensures { IsTrue result → some.now ≡ other.now }
{
    some.key_type == other.key_type
        && some.value_type == other.value_type
        && some.least == other.least
        && some.most == other.most
        && some.cuts == other.cuts
}

/// Whether the first entries, so many, are the same.
#[inline]
pub fn begin_alike(some: &[MapEntry], others: &[MapEntry], count: usize) -> bool
    ensures { IsTrue result → BeginAlike count some.now others.now }
{
    let mut same = 0;
    while same < count {
        match (some.get(same), others.get(same)) {
            (Some(entry), Some(other)) if are_same(entry, other) => same += 1,
            _ => return false,
        }
    }
    true
}
