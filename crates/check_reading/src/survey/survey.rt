//! A survey of a tree: its definitions and the prelude's, where those of each name stand, the kinds of names, where rules and
//! their parameters begin, the words at its sites, and the checks at the live ones.
ghost use Rattle.std.specs.Prelude.{IfOk};
ghost use Rattle.check_reading.specs.Survey.Survey.{IsSurvey};
ghost use Rattle.check_terms.specs.Table.{Grows};

use crate::parts::{Part, entry_parts, site_parts};
use crate::prelude::add_prelude;
use crate::reader::read;
use crate::survey::parameters::all_parameters;
use crate::survey::starts::starts_of;
use crate::words::{Word, site_words};
use check_live::live_sites;
use check_names::environment::laws::names_stand;
use check_names::environment::{Name, names};
use check_names::kinds::{Kinds, kinds_of};
use check_sites::sites::sites;
use check_terms::laws::growing_keeps;
use check_terms::{Definition, NoRoom, Terms};
use std::alloc::Global;
use tree_nodes::Tree;

/// What is read of a specification once, by the numbers of a table of terms.
#[derive(Drop)]
pub struct Survey {
    /// The definitions of the prelude, in order.
    pub known: Vec<Definition>,
    /// The definitions of the text, rule by rule.
    pub definitions: Vec<Definition>,
    /// Where the definitions of each name stand, by the number of its text.
    pub names: Vec<Name>,
    /// The kinds of names, and what `~` of each unwraps.
    pub kinds: Kinds,
    /// The offset in bytes of the name that each rule defines.
    pub starts: Vec<usize>,
    /// The offsets in bytes of the parameters of each rule.
    pub parameters: Vec<Vec<usize>>,
    /// The words at all sites, rule by rule.
    pub words: Vec<Word>,
    /// The words at the live sites: those outside of arguments, and those in an argument whose parameter is used.
    pub live: Vec<Word>,
    /// What is asked of at the live sites.
    pub parts: Vec<Part>,
    /// What is asked of the entries of maps at live sites, and of those of each rule's own group and of the map or the array
    /// that its body is.
    pub entries: Vec<Part>,
}

/// Reads the prelude and the rules of the tree, and finds the words at all sites and at the live ones, the rows that are checked at
/// these, where names are defined, of what kind they are, and where rules and their parameters begin.
///
/// The parts of live sites and the entries of maps are read once more, each by itself: so a tree of n nodes takes a time of
/// n log n for each bracket that is open at most, of which the parser has 128. The table keeps what it has, also after an error,
/// which comes only where memory is refused or each number of 32 bits is taken.
pub fn survey_of<'s>(
    alloc: Global,
    terms: &mut Terms<'s>,
    tree: &Tree<'s>,
) -> Result<Survey, NoRoom>
    ensures grows { Grows terms.old terms.new }
    ensures survey { IfOk result (λ v. IsSurvey terms.new tree.now v) }
{
    growing_keeps();
    names_stand();
    let known = add_prelude(alloc, terms)?;
    let definitions = read(alloc, terms, tree)?;
    let Ok(sites) = sites(alloc, tree) else {
        return Err(NoRoom);
    };
    let Ok(reached) = live_sites(alloc, terms, tree, &definitions, &sites) else {
        return Err(NoRoom);
    };
    let words = site_words(alloc, terms, tree, &sites)?;
    let live = site_words(alloc, terms, tree, &reached)?;
    let parts = site_parts(alloc, terms, tree, &reached)?;
    let entries = entry_parts(alloc, terms, tree, &reached)?;
    let count = terms.text_count();
    terms.len();
    let Ok(names) = names(alloc, count, &known, &definitions) else {
        return Err(NoRoom);
    };
    let Ok(kinds) = kinds_of(alloc, terms, &names, &known, &definitions) else {
        return Err(NoRoom);
    };
    let Ok(starts) = starts_of(alloc, tree) else {
        return Err(NoRoom);
    };
    let Ok(parameters) = all_parameters(alloc, tree) else {
        return Err(NoRoom);
    };
    Ok(Survey {
        known,
        definitions,
        names,
        kinds,
        starts,
        parameters,
        words,
        live,
        parts,
        entries,
    })
}
