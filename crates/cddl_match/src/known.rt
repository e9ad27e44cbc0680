//! What a type says of an item by the item's major type alone, where the table keeps that.

ghost use Rattle.std.specs.Prelude.{◌≡◌, ℕ, Bool, Some};
ghost use Rattle.cddl_meaning.specs.Forms.{Language};
ghost use Rattle.cddl_meaning.specs.Moves as M;
ghost use Rattle.cddl_match.specs.Ahead.{IsTypeTold};
ghost use Rattle.cddl_match.specs.Within.{Says, said_view};
ghost use Rattle.item_nodes.specs.View.{view};
ghost use Rattle.table_nodes.specs.Language.{language_of};
ghost use Rattle.table_nodes.specs.Majors.{told_view};
ghost use Rattle.table_nodes.specs.declared.nodes.GroupId.{GroupId};
ghost use Rattle.table_nodes.specs.declared.nodes.TypeId.{TypeId};

use crate::calls::Said;
use crate::means::Means;
use crate::replies::said_of;
use cbor_item::Item;
use match_held::Allowance;
use table_nodes::{Table, Told, TypeId, major_of};

// What the table keeps of a type for an item of this kind.
#[inline(always)]
pub(crate) fn told_of(table: &Table, node: TypeId, item: &Item) -> Told
    ensures { (t : Bool × ℕ) → told_view result ≡ Some t → IsTypeTold (language_of table.now) node (view item.now) t.0 t.1 }
{
    table.told(node, major_of(item))
}

// What is said of an item where that is known to be yes or no, in so many steps, which are taken at once.
#[inline(always)]
pub(crate) fn said_in(
    means: &mut Means<'_>,
    says: bool,
    steps: u16,
    place: usize,
    item: &Item,
) -> Said
    ensures { (l : Language TypeId GroupId) (n : TypeId) → IsTypeTold l n (view item.now) says steps → Says l (M.OfType n place (view item.now)) means.old.left means.new.left (said_view result) }
{
    let Some(left) = means.left.checked_sub(u64::from(steps)) else {
        return Said::Spent;
    };
    means.left = left;
    said_of(says, place, item)
}

// What is said of an item at a place, whose places were counted for a yes, unless no more may be done.
#[inline(always)]
pub(crate) fn counted_for(allowance: &mut Allowance<'_>, place: usize, said: Said) -> Said
    ensures { (l : Language TypeId GroupId) (q : M.Question TypeId GroupId) (steps left : ℕ) → Says l q steps left (said_view said) → Says l q steps left (said_view result) }
{
    match said {
        Said::Yes { next } if !allowance.may_count(place, next) => Said::NoMemory,
        _ => said,
    }
}
