//! An entry is put at the end of the list.

ghost use Rattle.std.specs.Prelude.{OnOk, [], ◌∷◌, None};
ghost use Rattle.tree_nodes.specs.Syntax.Syntax.{typed};
ghost use Rattle.tree_nodes.specs.View.{view_grpent, view_types};
ghost use Rattle.check_sites.specs.Entries.Entries.{view_node};
ghost use Rattle.check_sites.specs.Entries.Walk.{Adds};

use crate::entries::entry::{Holder, Node, TextEntry};
use std::alloc::AllocError;
use tree_nodes::{GrpEnt, Types};

/// Where the walk is: in the rule of this place, in the group of this holder.
#[derive(Clone, Copy)]
pub(crate) struct Place {
    pub(crate) rule: usize,
    pub(crate) holder: Holder,
}

pub(crate) fn push_entry<'t>(
    entry: &'t GrpEnt,
    place: Place,
    found: &mut Vec<TextEntry<'t>>,
) -> Result<(), AllocError>
    ensures { OnOk result (Adds found.old.items found.new.items place (λ read. view_grpent read entry.now ∷ [])) }
{
    push(Node::Entry(entry), place, found)
}

pub(crate) fn push_type<'t>(
    types: &'t Types,
    place: Place,
    found: &mut Vec<TextEntry<'t>>,
) -> Result<(), AllocError>
    ensures { OnOk result (Adds found.old.items found.new.items place (λ read. typed None (view_types read types.now) ∷ [])) }
{
    push(Node::Type(types), place, found)
}

fn push<'t>(node: Node<'t>, place: Place, found: &mut Vec<TextEntry<'t>>) -> Result<(), AllocError>
    ensures { OnOk result (Adds found.old.items found.new.items place (λ read. view_node read node.entry ∷ [])) }
{
    found.push(TextEntry {
        rule: place.rule,
        holder: place.holder,
        node,
    })?;
    Ok(())
}
