//! All entries of a tree's maps and of its rules, each with those in its parentheses.

ghost use Rattle.std.specs.Prelude.{◌≡◌, ◌++◌, IfOk, OnOk, map};
ghost use Rattle.cddl_language.specs.Reading.{rules_of};
ghost use Rattle.check_sites.specs.Sites.View.{view_site};
ghost use Rattle.tree_nodes.specs.View.{token_of, view, view_rule};
ghost use Rattle.check_sites.specs.Entries.Entries.{AreEntries, of_rule, of_rules, of_site, of_sites, view_found};
ghost use Rattle.check_sites.specs.Entries.Walk.{Lists};

use crate::entries::entry::{Holder, TextEntry};
use crate::entries::push::Place;
use crate::entries::walk::{add_body, add_group, add_opened};
use crate::sites::{Found, Site};
use std::alloc::{AllocError, Global};
use tree_nodes::{Rule, Tree};

/// The entries of the maps at these sites, those of each rule's body, and those of a map or an array that a rule's body is;
/// each with those in its parentheses.
///
/// It takes a time in proportion to the entries. It goes down one level of the program's stack for each bracket that is open,
/// of which the parser has 128 at most. An error comes only where memory is refused.
pub fn entries<'t>(
    alloc: Global,
    tree: &'t Tree<'_>,
    sites: &[Found<'t>],
) -> Result<Vec<TextEntry<'t>>, AllocError>
    ensures { IfOk result (λ v. AreEntries (rules_of (view tree.now)) (token_of tree.now) sites.now v.items) }
{
    let mut found = Vec::new(alloc);
    add_maps(sites, &mut found)?;
    add_rules(&tree.rules, &mut found)?;
    Ok(found)
}

fn add_maps<'t>(sites: &[Found<'t>], found: &mut Vec<TextEntry<'t>>) -> Result<(), AllocError>
    ensures { OnOk result (Lists found.old.items found.new.items (λ read. of_sites read sites.now)) }
{
    for site in sites {
        add_map(*site, found)?;
    }
    Ok(())
}

// Adds the entries of a map, if there is one at the site.
fn add_map<'t>(site: Found<'t>, found: &mut Vec<TextEntry<'t>>) -> Result<(), AllocError>
    ensures { OnOk result (Lists found.old.items found.new.items (λ read. of_site site.entry.rule (view_site read site.entry.site))) }
{
    match site.site {
        Site::Map { group, .. } => {
            let place = Place {
                rule: site.rule,
                holder: Holder::Map,
            };
            add_group(group, place, found)
        }
        _ => Ok(()),
    }
}

fn add_rules<'t>(rules: &'t [Rule], found: &mut Vec<TextEntry<'t>>) -> Result<(), AllocError>
    ensures { OnOk result (Lists found.old.items found.new.items (λ read. of_rules 0 (map (view_rule read) rules.now))) }
{
    for (rule, node) in rules.iter().enumerate() {
        add_rule(node, rule, found)?;
    }
    Ok(())
}

// Adds the entries of a rule's body, and those of the map or the array that it is.
fn add_rule<'t>(
    node: &'t Rule,
    rule: usize,
    found: &mut Vec<TextEntry<'t>>,
) -> Result<(), AllocError>
    ensures { OnOk result (Lists found.old.items found.new.items (λ read. of_rule rule (view_rule read node.now))) }
{
    let body = Place {
        rule,
        holder: Holder::Rule,
    };
    add_body(node, body, found)?;
    let opened = Place {
        rule,
        holder: Holder::Opened,
    };
    add_opened(node, opened, found)
}
