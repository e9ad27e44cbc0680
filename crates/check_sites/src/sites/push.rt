//! A site of each kind is put at the end of the list.
ghost use Rattle.std.specs.Prelude.{OnOk, [], ◌∷◌};
ghost use Rattle.cddl_language.specs.Sites.{a_choice_of, a_choice_of_name, a_hash, a_map, a_name, an_entry, an_operation, an_unwrapping};
ghost use Rattle.tree_nodes.specs.View.{view_group, view_grpent, view_operator, view_ref, view_type2};
ghost use Rattle.check_sites.specs.Sites.View.{view_site};
ghost use Rattle.check_sites.specs.Sites.Walk.{Adds};

use crate::sites::site::{Found, Site};
use std::alloc::AllocError;
use tree_nodes::{Group, GrpEnt, Leaf, Operator, Ref, Type2};

/// Where the walk is: in the rule of this place, in an argument or not, and whether it enters arguments.
#[derive(Clone, Copy)]
pub(crate) struct Place {
    pub(crate) rule: usize,
    pub(crate) in_argument: bool,
    pub(crate) enters: bool,
}

pub(crate) fn push_name<'t>(
    name: &'t Ref,
    demanded: bool,
    place: Place,
    found: &mut Vec<Found<'t>>,
) -> Result<(), AllocError>
    ensures { OnOk result (Adds found.old.items found.new.items place (λ inside read. a_name demanded (view_ref read name.now) ∷ [])) }
{
    push(Site::Name { demanded, name }, place, found)
}

pub(crate) fn push_unwrapping<'t>(
    tilde: Leaf,
    name: &'t Ref,
    demanded: bool,
    place: Place,
    found: &mut Vec<Found<'t>>,
) -> Result<(), AllocError>
    ensures { OnOk result (Adds found.old.items found.new.items place (λ inside read. an_unwrapping demanded (read tilde) (view_ref read name.now) ∷ [])) }
{
    push(
        Site::Unwrapping {
            demanded,
            tilde,
            name,
        },
        place,
        found,
    )
}

pub(crate) fn push_choice<'t>(
    ampersand: Leaf,
    group: &'t Group,
    place: Place,
    found: &mut Vec<Found<'t>>,
) -> Result<(), AllocError>
    ensures { OnOk result (Adds found.old.items found.new.items place (λ inside read. a_choice_of (read ampersand) (view_group read group.now) ∷ [])) }
{
    push(Site::ChoiceOf { ampersand, group }, place, found)
}

pub(crate) fn push_choice_of_name<'t>(
    ampersand: Leaf,
    name: &'t Ref,
    place: Place,
    found: &mut Vec<Found<'t>>,
) -> Result<(), AllocError>
    ensures { OnOk result (Adds found.old.items found.new.items place (λ inside read. a_choice_of_name (read ampersand) (view_ref read name.now) ∷ [])) }
{
    push(Site::ChoiceOfName { ampersand, name }, place, found)
}

pub(crate) fn push_hash(
    token: Leaf,
    place: Place,
    found: &mut Vec<Found<'_>>,
) -> Result<(), AllocError>
    ensures { OnOk result (Adds found.old.items found.new.items place (λ inside read. a_hash (read token) ∷ [])) }
{
    push(Site::Hash(token), place, found)
}

pub(crate) fn push_operation<'t>(
    left: &'t Type2,
    operator: Operator,
    right: &'t Type2,
    place: Place,
    found: &mut Vec<Found<'t>>,
) -> Result<(), AllocError>
    ensures { OnOk result (Adds found.old.items found.new.items place (λ inside read. an_operation (view_type2 read left.now) (view_operator read operator) (view_type2 read right.now) ∷ [])) }
{
    push(
        Site::Operation {
            left,
            operator,
            right,
        },
        place,
        found,
    )
}

pub(crate) fn push_entry<'t>(
    grpent: &'t GrpEnt,
    place: Place,
    found: &mut Vec<Found<'t>>,
) -> Result<(), AllocError>
    ensures { OnOk result (Adds found.old.items found.new.items place (λ inside read. an_entry (view_grpent read grpent.now) ∷ [])) }
{
    push(Site::Entry(grpent), place, found)
}

pub(crate) fn push_map<'t>(
    opening: Leaf,
    group: &'t Group,
    place: Place,
    found: &mut Vec<Found<'t>>,
) -> Result<(), AllocError>
    ensures { OnOk result (Adds found.old.items found.new.items place (λ inside read. a_map (read opening) (view_group read group.now) ∷ [])) }
{
    push(Site::Map { opening, group }, place, found)
}

fn push<'t>(site: Site<'t>, place: Place, found: &mut Vec<Found<'t>>) -> Result<(), AllocError>
    ensures { OnOk result (Adds found.old.items found.new.items place (λ inside read. view_site read site.entry ∷ [])) }
{
    found.push(Found {
        rule: place.rule,
        in_argument: place.in_argument,
        site,
    })?;
    Ok(())
}
