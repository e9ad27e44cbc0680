//! The search for contexts: that of the rules' sites outside of arguments, and one for the sites of each argument that is
//! given to a name.

ghost use Rattle.std.specs.Prelude.{◌≡◌, ◌<◌, ◌+◌, ◌^◌, ◌++◌, ◌∷◌, [], List, OnOk, IfOk, length};
ghost use Rattle.cddl_language.specs.Sites.{arguments};
ghost use Rattle.check_live.specs.Search.{AddsArgument, AddsArguments, Brings, BringsName, IsSearch, State, of_rules, standing_at, state};
ghost use Rattle.check_sites.specs.Sites.View.{outside};
ghost use Rattle.tree_nodes.specs.Syntax.Syntax.{Rule};
ghost use Rattle.check_terms.specs.declared.definition.Definition.{Definition};
ghost use Rattle.cddl_token.specs.declared.Token.{Token};
ghost use Rattle.tree_nodes.specs.View.{token_of, view_ref, view_type1};
ghost use Rattle.tree_nodes.specs.declared.tree.Leaf.{Leaf};

use crate::facts::{Fact, find, slot_of, use_of};
use crate::names::{name_at, name_text};
use check_sites::sites::{Found, argument, argument_count, argument_sites};
use check_terms::Terms;
use graphs::implications::Implication;
use indexmap::IndexSet;
use std::alloc::{AllocError, Global};
use tree_nodes::{Ref, Tree, Type1};

/// A site, and the fact that the context follows in which it stands.
#[derive(Clone, Copy)]
pub(crate) struct Standing<'t> {
    pub(crate) found: Found<'t>,
    pub(crate) context: usize,
}

/// What was found. Each context follows from one implication alone, and its number is the place of that one, after the
/// numbers of the facts of parameters.
#[derive(Drop)]
pub(crate) struct Search<'t> {
    pub(crate) implications: Vec<Implication>,
    pub(crate) standing: Vec<Standing<'t>>,
}

// The search before any site is served: the context of rules, which follows from nothing, and the sites in it.
pub(crate) fn begin<'t>(
    alloc: Global,
    count: usize,
    implications: Vec<Implication>,
    sites: &[Found<'t>],
) -> Result<Search<'t>, AllocError>
    requires { count < 2 ^ 63 }
    ensures implied { IfOk result (λ s. s.implications.items ≡ implications.items ++ of_rules count (length implications.items) ∷ []) }
    ensures standing { IfOk result (λ s. s.standing.items ≡ standing_at (count + length implications.items) (outside sites.now)) }
{
    let mut implications = implications;
    let context = count + implications.len();
    implications.push(Implication {
        then: context,
        first: None,
        second: None,
    })?;
    let standing = outer_standing(alloc, sites, context)?;
    Ok(Search {
        implications,
        standing,
    })
}

// The sites outside of arguments, in the context.
fn outer_standing<'t>(
    alloc: Global,
    sites: &[Found<'t>],
    context: usize,
) -> Result<Vec<Standing<'t>>, AllocError>
    ensures { IfOk result (λ v. v.items ≡ standing_at context (outside sites.now)) }
{
    let mut standing = Vec::new(alloc);
    for found in sites {
        if !found.in_argument {
            standing.push(Standing {
                found: *found,
                context,
            })?;
        }
    }
    Ok(standing)
}

// Puts the sites into the context.
fn stand<'t>(
    standing: &mut Vec<Standing<'t>>,
    sites: &[Found<'t>],
    context: usize,
) -> Result<(), AllocError>
    ensures { OnOk result (standing.new.items ≡ standing.old.items ++ standing_at context sites.now) }
{
    for found in sites {
        standing.push(Standing {
            found: *found,
            context,
        })?;
    }
    Ok(())
}

// Adds the context of an argument that is given at a site: it follows from that site's context and from the slot.
fn serve_argument<'t>(
    alloc: Global,
    count: usize,
    search: &mut Search<'t>,
    site: Standing<'t>,
    argument: &'t Type1,
    slot: usize,
) -> Result<(), AllocError>
    requires { count < 2 ^ 63 }
    ensures { OnOk result ((read : Leaf → Token) → AddsArgument count read site.entry slot (view_type1 read argument.now) (state search.old) (state search.new)) }
{
    let context = count + search.implications.len();
    search.implications.push(Implication {
        then: context,
        first: Some(site.context),
        second: Some(slot),
    })?;
    let sites = argument_sites(alloc, argument, site.found.rule)?;
    stand(&mut search.standing, &sites, context)
}

// Adds the context of the argument at the place, if there is one, and if a rule of the name has a parameter there.
fn serve_place<'t>(
    alloc: Global,
    numbers: &IndexSet<Fact>,
    search: &mut Search<'t>,
    site: Standing<'t>,
    name: &'t Ref,
    number: u32,
    place: usize,
) -> Result<(), AllocError>
    ensures { OnOk result ((read : Leaf → Token) → (from : State) → AddsArguments numbers.now.keys read site.entry (view_ref read name.now) number place from (state search.old) → AddsArguments numbers.now.keys read site.entry (view_ref read name.now) number (place + 1) from (state search.new)) }
{
    let Some(slot) = find(numbers, slot_of(number, place)) else {
        return Ok(());
    };
    match argument(name, place) {
        Some(argument) => serve_argument(alloc, numbers.len(), search, site, argument, slot),
        None => Ok(()),
    }
}

// Adds the contexts of the arguments of a name that is given at a site.
fn serve_arguments<'t>(
    alloc: Global,
    numbers: &IndexSet<Fact>,
    search: &mut Search<'t>,
    site: Standing<'t>,
    name: &'t Ref,
    number: u32,
) -> Result<(), AllocError>
    ensures { OnOk result ((read : Leaf → Token) → AddsArguments numbers.now.keys read site.entry (view_ref read name.now) number (length (arguments (view_ref read name.now))) (state search.old) (state search.new)) }
{
    for place in 0..argument_count(name) {
        serve_place(alloc, numbers, search, site, name, number, place)?;
    }
    Ok(())
}

// Adds what follows from a name that is used at a site.
fn serve_name<'t>(
    alloc: Global,
    numbers: &IndexSet<Fact>,
    search: &mut Search<'t>,
    site: Standing<'t>,
    name: &'t Ref,
    number: u32,
) -> Result<(), AllocError>
    ensures { OnOk result (BringsName numbers.now.keys site.entry (state search.old) (state search.new) name.now number) }
{
    match find(numbers, use_of(site.found.rule, number)) {
        Some(used) => {
            search.implications.push(Implication {
                then: used,
                first: Some(site.context),
                second: None,
            })?;
            Ok(())
        }
        None => serve_arguments(alloc, numbers, search, site, name, number),
    }
}

// Adds what a site brings.
fn serve<'t>(
    alloc: Global,
    terms: &Terms<'_>,
    tree: &Tree<'_>,
    numbers: &IndexSet<Fact>,
    search: &mut Search<'t>,
    site: Standing<'t>,
) -> Result<(), AllocError>
    ensures { OnOk result (Brings numbers.now.keys (token_of tree.now) terms.now.texts site.entry (state search.old) (state search.new)) }
{
    let Some(name) = name_at(site.found.site) else {
        return Ok(());
    };
    match terms.find_text(name_text(tree, name)) {
        Some(number) => serve_name(alloc, numbers, search, site, name, number),
        None => Ok(()),
    }
}

// Serves all sites, also those that come meanwhile.
pub(crate) fn run(
    alloc: Global,
    terms: &Terms<'_>,
    tree: &Tree<'_>,
    numbers: &IndexSet<Fact>,
    search: &mut Search<'_>,
) -> Result<(), AllocError>
    ensures { OnOk result ((rs : List Rule) (ds : List Definition) → IsSearch numbers.now.keys (token_of tree.now) terms.now.texts rs ds 0 (state search.old) → IsSearch numbers.now.keys (token_of tree.now) terms.now.texts rs ds (length search.new.standing.items) (state search.new)) }
{
    let mut place = 0;
    while place < search.standing.len() {
        let site = search.standing[place];
        serve(alloc, terms, tree, numbers, search, site)?;
        place += 1;
    }
    Ok(())
}
