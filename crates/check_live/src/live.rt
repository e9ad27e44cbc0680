//! The live sites of a text: those outside of arguments, and those in an argument whose parameter is used.

ghost use Rattle.std.specs.Prelude.{◌≡◌, IfOk, map};
ghost use Rattle.cddl_language.specs.Reading.{definitions_in, rules_of};
ghost use Rattle.check_live.specs.Live.{AreLive};
ghost use Rattle.check_live.specs.Search.{live_in};
ghost use Rattle.check_sites.specs.Sites.View.{outside, view_found};
ghost use Rattle.check_sites.specs.Sites.Walk.{all_outer_sites};
ghost use Rattle.check_terms.specs.Definitions.{AreDefinitions};
ghost use Rattle.tree_nodes.specs.View.{token_of, view};

use crate::facts::{Facts, facts_of};
use crate::search::{Standing, begin, run};
use check_sites::sites::Found;
use check_sites::sites::laws::found_outer_sites;
use check_terms::laws::is_table;
use check_terms::{Definition, Terms};
use graphs::implications::following;
use std::alloc::{AllocError, Global};
use tree_nodes::Tree;

/// How many numbers texts can have.
const NUMBERS: usize = 4_294_967_296;

/// The live sites of a text: those outside of arguments, and those in an argument whose parameter is used (RFC 8610 section
/// 3.10).
///
/// The definitions are those of the text, and the sites all of it. It takes time and memory in proportion to the sites, the
/// texts of their tokens and the parameters of all rules. An error comes only where memory is refused, or where the table has
/// more texts than there are numbers of 32 bits.
pub fn live_sites<'t>(
    alloc: Global,
    terms: &Terms<'_>,
    tree: &'t Tree<'_>,
    definitions: &[Definition],
    sites: &[Found<'t>],
) -> Result<Vec<Found<'t>>, AllocError>
    ensures { IfOk result (λ v. AreDefinitions terms.now definitions.now (definitions_in (rules_of (view tree.now))) → map (view_found (token_of tree.now)) (outside sites.now) ≡ all_outer_sites (rules_of (view tree.now)) → AreLive (rules_of (view tree.now)) (token_of tree.now) v.items) }
{
    found_outer_sites();
    is_table(terms);
    if terms.text_count() > NUMBERS {
        return Err(AllocError);
    }
    let Facts {
        numbers,
        implications,
    } = facts_of(alloc, definitions)?;
    let count = numbers.len();
    let mut search = begin(alloc, count, implications, sites)?;
    run(alloc, terms, tree, &numbers, &mut search)?;
    let facts = count + search.implications.len();
    let flags = following(alloc, facts, &search.implications)?;
    live_of(alloc, &flags, &search.standing)
}

// The sites of the contexts that follow.
fn live_of<'t>(
    alloc: Global,
    flags: &[bool],
    standing: &[Standing<'t>],
) -> Result<Vec<Found<'t>>, AllocError>
    ensures { IfOk result (λ v. v.items ≡ live_in flags.now standing.now) }
{
    let mut live = Vec::new(alloc);
    for site in standing {
        if flags.get(site.context).copied().unwrap_or(false) {
            live.push(site.found)?;
        }
    }
    Ok(live)
}
