//! What is known of keys on a tape and of entries of maps, without asking about them.
ghost use Rattle.std.specs.Prelude.{◌≡◌, ◌<◌, Some, true};
ghost use Rattle.cbor_data.specs.Same.{same_value};
ghost use Rattle.cbor_data.specs.Value.{Value};
ghost use Rattle.cddl_meaning.specs.Forms as F;
ghost use Rattle.item_nodes.specs.View.{view};
ghost use Rattle.table_nodes.specs.Language.{language_of};
ghost use Rattle.table_nodes.specs.Nodes.{entry_view};
ghost use Rattle.tape_match.specs.Says.{FormSays};
ghost use Rattle.tape_match.specs.Told.{IsKnown, IsLiteralKnown, IsOfCost};

use crate::asking::behind_names;
use crate::leaf::is_other;
use crate::told::Known;
use cbor_tape::Seen;
use item_nodes::Item;
use table_nodes::{MapEntry, Node, Table, Test, TypeId};

// What is known of an entry and of a key: an entry whose key type is known to be one value is passed over where the key is another.
#[inline(always)]
pub(crate) fn key_known(table: &Table, entry: &MapEntry, seen: Seen<'_>) -> Known
    ensures { IsKnown (language_of table.now) (entry_view entry.now) seen.entry result }
{
    match table.node(entry.key_type) {
        Some(Node::Plain(Test::Equals(literal))) => literal_known(seen, literal, 1),
        _ => named_known(table, entry, seen),
    }
}

// The same of an entry whose key type may be known to be one value by names.
#[inline(always)]
fn named_known(table: &Table, entry: &MapEntry, seen: Seen<'_>) -> Known
    ensures { IsKnown (language_of table.now) (entry_view entry.now) seen.entry result }
{
    let Some(literal) = table.literal_of(entry.key_type) else {
        return Known::Asked { cost: 0 };
    };
    match is_other(seen, literal) {
        Some(true) => Known::Other,
        Some(false) => Known::Asked {
            cost: cost_of_names(table, entry.key_type),
        },
        None => Known::Nothing,
    }
}

// The same of an entry whose key type is this literal, and says yes in so many judgements.
#[inline(always)]
fn literal_known(seen: Seen<'_>, literal: &Item, cost: u64) -> Known
    ensures known { IsLiteralKnown (view literal.now) seen.entry result }
    ensures cost { IsOfCost cost result }
{
    match is_other(seen, literal) {
        Some(true) => Known::Other,
        Some(false) => Known::Asked { cost },
        None => Known::Nothing,
    }
}

// In how many judgements a type says yes to the one value that it is known to be by its names, or 0.
#[inline(never)]
fn cost_of_names(table: &Table, node: TypeId) -> u64
    ensures { 0 < result → (v x : Value) → F.key_in (language_of table.now).type_at F.most_forms node ≡ Some v → same_value x v ≡ true → FormSays (language_of table.now) ((language_of table.now).type_at node) x true result }
{
    let (named, names) = behind_names(table, node);
    match table.node(named) {
        Some(Node::Plain(Test::Equals(_))) => names + 1,
        _ => 0,
    }
}
