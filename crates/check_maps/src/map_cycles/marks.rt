//! Of each spliced entry whether its node leads back to itself.

ghost use Rattle.std.specs.Prelude.{◌≡◌, IfOk, slice_get};
ghost use Rattle.check_maps.specs.MapCycles.Edges as by;
ghost use Rattle.check_maps.specs.MapCycles.Coming.{AreMarked};

use crate::map_cycles::layout::Layout;
use graphs::cycles::laws::ranks_or_cycles;
use graphs::cycles::{Edge, Order, order_of};
use std::alloc::{AllocError, Global};

// For each entry of the list whether its node is on a cycle of these edges.
pub(crate) fn marked(alloc: Global, layout: Layout, edges: &[Edge]) -> Result<Vec<bool>, AllocError>
    ensures { IfOk result (λ v. AreMarked layout edges.now v.items) }
{
    ranks_or_cycles();
    match order_of(alloc, layout.nodes(), edges)? {
        Order::Ranks(_) => flags_of(alloc, layout, &[]),
        Order::Cycles(marks) => flags_of(alloc, layout, &marks),
    }
}

// The marks of the entries' nodes. Without a mark a node is on no cycle.
fn flags_of(alloc: Global, layout: Layout, marks: &[bool]) -> Result<Vec<bool>, AllocError>
    ensures { IfOk result (λ v. v.items ≡ by.flags_below layout marks.now layout.entries) }
{
    let mut flags = Vec::new(alloc);
    for place in 0..layout.entries {
        flags.push(mark_at(marks, layout.entry(place)))?;
    }
    Ok(flags)
}

fn mark_at(marks: &[bool], node: usize) -> bool
    ensures { result ≡ by.mark_in (slice_get marks.now node) }
{
    matches!(marks.get(node), Some(true))
}
