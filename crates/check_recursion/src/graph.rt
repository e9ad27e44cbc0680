//! Ranks of what is asked, or what comes back to itself.

ghost use Rattle.std.specs.Prelude.{◌≡◌, List, IfOk, IfSome, length};
ghost use Rattle.cddl_language.specs.Terms as L;
ghost use Rattle.cddl_language.specs.Terms.{Ref, Text};
ghost use Rattle.check_names.specs.Kinds.Kinds.{AreKinds};
ghost use Rattle.check_instances.specs.Closed.Closed.{IsClosed};
ghost use Rattle.check_instances.specs.Openings.Openings.{AreOpenings};
ghost use Rattle.check_groups.specs.Choosing.Choosing.{AreChoosable};
ghost use Rattle.check_groups.specs.Empty.Empty.{AreEmpty};
ghost use Rattle.check_recursion.specs.Order.{IsOrder, IsOrdered, bound, rank, rank_at};

use crate::edges::edges_of;
use crate::flags::flags_of;
use crate::node::{Layout, Node};
use crate::parts::parts_of;
use crate::steps::View;
use check_instances::closed::Closed;
use check_instances::closed::laws::meanings_are_reached;
use check_instances::openings::Opening;
use check_instances::openings::laws::{opened_is_reached, part_is_reached};
use check_names::kinds::Kinds;
use check_terms::Terms;
use check_terms::laws::equal_numbers;
use graphs::cycles::laws::ranks_or_cycles;
use graphs::cycles::{Edge, order_of};
use std::alloc::{AllocError, Global};

/// Ranks of the nodes, which go down along each step.
#[derive(Drop)]
pub struct Ranks {
    layout: Layout,
    ranks: Vec<usize>,
}

impl Ranks {
    /// The rank of a node; of a row or a place that is not there it is 0.
    pub fn rank(&self, node: Node) -> usize
        ensures { result ≡ rank self.now node }
    {
        rank_at(&self.ranks, self.layout.number(node))
    }

    /// No rank is above this.
    pub fn bound(&self) -> usize
        ensures { result ≡ bound self.now }
    {
        self.ranks.len()
    }
}

fn rank_at(ranks: &[usize], number: Option<usize>) -> usize
    ensures { result ≡ rank_at ranks.now number }
{
    match number {
        Some(number) => match ranks.get(number) {
            Some(rank) => *rank,
            None => 0,
        },
        None => 0,
    }
}

/// What there is of what a specification asks of an item before it is taken or gone into.
#[derive(Drop)]
pub enum Order {
    /// Nothing comes back to itself: ranks that go down.
    Ranks(Ranks),
    /// For each instance whether a reference with its name and arguments comes back to itself: by itself, after `~` or after `&`.
    /// Where none does, a choice comes back through names of groups alone, and it is reported for these.
    Cycles(Vec<bool>),
}

/// Ranks of what the instances of a specification ask of an item, or the references that come back to themselves (RFC 8610 does
/// not say what these would mean).
///
/// The time is linear in rows and instances. An error comes only where memory is refused, or where a table has more rows than
/// there are numbers.
pub fn find_order(
    alloc: Global,
    terms: &Terms<'_>,
    closed: &Closed,
    kinds: &Kinds,
    openings: &[Opening],
    choosable: &[bool],
    may_be_empty: &[bool],
) -> Result<Order, AllocError>
    ensures { IfOk result (λ o. (xs : List L.Definition) (root : Text) (refs : List Ref) → IsClosed xs root refs terms.now closed.now → AreKinds terms.now.texts xs kinds.now → AreOpenings xs terms.now refs openings.now → AreChoosable xs root terms.now choosable.now → AreEmpty xs root terms.now may_be_empty.now → IsOrder xs root refs terms.now o) }
{
    equal_numbers(terms);
    meanings_are_reached();
    opened_is_reached();
    part_is_reached();
    ranks_or_cycles();
    let Some(layout) = layout_of(terms, closed) else {
        return Err(AllocError);
    };
    let parts = parts_of(alloc, terms, closed, kinds, openings, layout.rows)?;
    let view = View {
        closed,
        kinds,
        openings,
        parts: &parts,
        choosable,
        may_be_empty,
    };
    let edges = edges_of(alloc, layout, terms, &view)?;
    ordered(alloc, layout, &edges)
}

// How many rows and instances there are, if numbers of 32 bits can tell.
fn layout_of(terms: &Terms<'_>, closed: &Closed) -> Option<Layout>
    ensures rows { IfSome result (λ l. l.rows ≡ length terms.now.rows) }
    ensures places { IfSome result (λ l. l.places ≡ length closed.now.meanings.items) }
{
    let rows = u32::try_from(terms.len()).ok()?;
    let places = u32::try_from(closed.meanings.len()).ok()?;
    Some(Layout { rows, places })
}

// The order of the graph with these edges.
fn ordered(alloc: Global, layout: Layout, edges: &[Edge]) -> Result<Order, AllocError>
    ensures { IfOk result (IsOrdered layout edges.now) }
{
    match order_of(alloc, layout.nodes(), edges)? {
        graphs::cycles::Order::Ranks(ranks) => Ok(Order::Ranks(Ranks { layout, ranks })),
        graphs::cycles::Order::Cycles(marks) => {
            let flags = flags_of(alloc, layout, &marks)?;
            Ok(Order::Cycles(flags))
        }
    }
}
