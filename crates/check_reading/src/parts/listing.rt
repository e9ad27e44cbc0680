//! The rows of what is asked of, site by site and entry by entry.
ghost use Rattle.std.specs.Prelude.{◌≡◌, ◌++◌, ◌∷◌, [], IfOk, List, OnOk, flat_map, option_map};
ghost use Rattle.cddl_language.specs.Reading.{rules_of};
ghost use Rattle.check_reading.specs.Parts.{AreEntryParts, AreParts, Placed, of_entry, of_found, some_placed, wanted};
ghost use Rattle.check_terms.specs.Table.{Grows};
ghost use Rattle.tree_nodes.specs.View.{token_of, view};

use crate::parts::nodes::{NodePart, entry_part, first_part, last_part, read_node};
use crate::parts::part::Part;
use check_sites::entries::{TextEntry, entries};
use check_sites::sites::Found;
use check_terms::laws::growing_keeps;
use check_terms::{NoRoom, Terms, push};
use std::alloc::Global;
use tree_nodes::Tree;

// What is asked of at these sites, in their order.
pub(crate) fn site_parts<'s>(
    alloc: Global,
    terms: &mut Terms<'s>,
    tree: &Tree<'s>,
    sites: &[Found<'_>],
) -> Result<Vec<Part>, NoRoom>
    ensures grows { Grows terms.old terms.new }
    ensures parts { IfOk result (λ v. AreParts terms.new v.items (flat_map (of_found (token_of tree.now)) sites.now)) }
{
    growing_keeps();
    let mut parts = Vec::new(alloc);
    for site in sites {
        add_site(terms, tree, *site, &mut parts)?;
    }
    Ok(parts)
}

// What is asked of the entries of the maps at these sites, and of those of each rule.
pub(crate) fn entry_parts<'s, 't>(
    alloc: Global,
    terms: &mut Terms<'s>,
    tree: &'t Tree<'s>,
    sites: &[Found<'t>],
) -> Result<Vec<Part>, NoRoom>
    ensures grows { Grows terms.old terms.new }
    ensures parts { IfOk result (λ v. AreEntryParts terms.new (rules_of (view tree.now)) (token_of tree.now) sites.now v.items) }
{
    growing_keeps();
    let Ok(listed) = entries(alloc, tree, sites) else {
        return Err(NoRoom);
    };
    parts_of(alloc, terms, tree, &listed)
}

fn parts_of<'s>(
    alloc: Global,
    terms: &mut Terms<'s>,
    tree: &Tree<'s>,
    listed: &[TextEntry<'_>],
) -> Result<Vec<Part>, NoRoom>
    ensures grows { Grows terms.old terms.new }
    ensures parts { IfOk result (λ v. AreParts terms.new v.items (flat_map (of_entry (token_of tree.now)) listed.now)) }
{
    growing_keeps();
    let mut parts = Vec::new(alloc);
    for entry in listed {
        let part = entry_part(tree, *entry);
        add(terms, tree, entry.rule, part, &mut parts)?;
    }
    Ok(parts)
}

// Adds what is asked of at the site.
fn add_site<'s>(
    terms: &mut Terms<'s>,
    tree: &Tree<'s>,
    site: Found<'_>,
    parts: &mut Vec<Part>,
) -> Result<(), NoRoom>
    ensures grows { Grows terms.old terms.new }
    ensures added { OnOk result ((ws : List Placed) → AreParts terms.old parts.old.items ws → AreParts terms.new parts.new.items (ws ++ of_found (token_of tree.now) site.entry)) }
{
    growing_keeps();
    let first = first_part(tree, site.site);
    add_some(terms, tree, site.rule, first, parts)?;
    let last = last_part(tree, site.site);
    add_some(terms, tree, site.rule, last, parts)
}

// Adds the part, if there is one.
fn add_some<'s>(
    terms: &mut Terms<'s>,
    tree: &Tree<'s>,
    rule: usize,
    part: Option<NodePart<'_>>,
    parts: &mut Vec<Part>,
) -> Result<(), NoRoom>
    ensures grows { Grows terms.old terms.new }
    ensures added { OnOk result ((ws : List Placed) → AreParts terms.old parts.old.items ws → AreParts terms.new parts.new.items (ws ++ some_placed rule (option_map (wanted (token_of tree.now)) part.entry))) }
{
    growing_keeps();
    match part {
        Some(part) => add(terms, tree, rule, part, parts),
        None => Ok(()),
    }
}

// Adds the row of the part's node.
fn add<'s>(
    terms: &mut Terms<'s>,
    tree: &Tree<'s>,
    rule: usize,
    part: NodePart<'_>,
    parts: &mut Vec<Part>,
) -> Result<(), NoRoom>
    ensures grows { Grows terms.old terms.new }
    ensures added { OnOk result ((ws : List Placed) → AreParts terms.old parts.old.items ws → AreParts terms.new parts.new.items (ws ++ (rule, wanted (token_of tree.now) part.entry) ∷ [])) }
{
    growing_keeps();
    let row = read_node(terms, tree, part.node)?;
    push(
        parts,
        Part {
            rule,
            at: part.at,
            question: part.question,
            row,
        },
    )
}
