//! All faults of what the root reaches, and not the first alone.

ghost use Rattle.std.specs.Prelude.{◌≡◌, IfErr, IfOk, List, option_map};
ghost use Rattle.all_offsets.specs.Offsets.{AreOffsets};
ghost use Rattle.cddl_language.specs.Faults.{HasBadController, HasBadRange, HasNotLiteral, HasNotUnwrappable, HasRecursion, Specification, definitions};
ghost use Rattle.cddl_language.specs.Literals.{AreRight, AreTokens, Values};
ghost use Rattle.cddl_language.specs.Terms.{Ref, Text};
ghost use Rattle.check_recursion.specs.Order.{IsOrder};
ghost use Rattle.tree_nodes.specs.View.{view};
ghost use Rattle.tree_nodes.specs.declared.tree.Tree.{Tree as Trees};
ghost use Rattle.cddl_check.specs.Outcome.{specification};
ghost use Rattle.cddl_check.specs.RootFaults.{AreFaults, AreOfMaps, AreRootFaults, HasEarlyFault, IsLater};
ghost use Rattle.cddl_check.specs.Stages.{IsGiven, IsReading};
ghost use Rattle.cddl_check.specs.declared.stopped.Stopped.TheVariants as Why;

use crate::faults::order_of;
use crate::mapping::maps_of;
use crate::reading::{Reading, read_tree};
use crate::stopped::Stopped;
use check_recursion::Order;
use check_root::control_faults::{all_bad_controller, all_not_literal};
use check_root::range_faults::all_bad_range;
use check_root::reached_faults::{all_not_unwrappable, all_not_unwrapped, all_nothing_chosen};
use check_root::root_faults::all_recursion;
use check_root::spliced_faults::{all_map_shape, all_no_key, all_too_many_alternatives};
use check_terms::Terms;
use check_text::laws::codes_are_in_order;
use std::alloc::{AllocError, Global};
use tree_nodes::Tree;

/// The faults of what a root reaches, C11 to C18: of each code all offsets in the text, in bytes, in ascending order, each once.
#[derive(Debug, Drop)]
pub struct RootFaults {
    /// [`cddl_token::Code::NotUnwrappable`].
    pub not_unwrappable: Vec<usize>,
    /// [`cddl_token::Code::Recursion`].
    pub recursion: Vec<usize>,
    /// [`cddl_token::Code::NotLiteral`].
    pub not_literal: Vec<usize>,
    /// [`cddl_token::Code::BadRange`].
    pub bad_range: Vec<usize>,
    /// [`cddl_token::Code::BadController`].
    pub bad_controller: Vec<usize>,
    /// [`cddl_token::Code::NoKey`].
    pub no_key: Vec<usize>,
    /// [`cddl_token::Code::MapShape`].
    pub map_shape: Vec<usize>,
    /// [`cddl_token::Code::TooManyAlternatives`].
    pub too_many_alternatives: Vec<usize>,
}

/// The faults of C16 to C18.
#[derive(Drop)]
struct FaultsOfMaps {
    no_key: Vec<usize>,
    map_shape: Vec<usize>,
    too_many_alternatives: Vec<usize>,
}

/// All faults of what the root of this tree reaches, C11 to C18; or none, where a fault of C1 to C10 stands: then it is not known
/// what the root reaches. The root is the given name, or that of the first rule.
///
/// The time and the memory are those of [`crate::check`], and n log n for n sites that are reached.
///
/// # Errors
///
/// `AllocError` where an allocation was refused, or each number of 32 bits was taken.
pub fn root_faults(
    alloc: Global,
    tree: &Tree<'_>,
    root: Option<&str>,
) -> Result<Option<RootFaults>, AllocError>
    // The tree is of tokens, as `cddl_tree` makes it.
    requires { AreTokens (view tree.now) }
    ensures { IfOk result (λ o. (worth : Values) → AreRight (view tree.now) worth → AreRootFaults (specification (view tree.now) (option_map (λ t. t.now) root.entry)) worth o) }
{
    let mut terms = Terms::new(alloc);
    match faults_in(alloc, &mut terms, tree, root) {
        Ok(found) => Ok(Some(found)),
        Err(Stopped::Refused(_)) => Ok(None),
        Err(Stopped::Memory) => Err(AllocError),
    }
}

// The same by a table of terms; or the first fault of C1 to C10.
fn faults_in<'s>(
    alloc: Global,
    terms: &mut Terms<'s>,
    tree: &Tree<'s>,
    given: Option<&str>,
) -> Result<RootFaults, Stopped>
    ensures none_early { IfOk result (λ x. (s : Specification) (worth : Values) → IsGiven s worth tree.now (option_map (λ t. t.now) given.entry) → IsLater s worth) }
    ensures found { IfOk result (λ x. (s : Specification) (worth : Values) → IsGiven s worth tree.now (option_map (λ t. t.now) given.entry) → AreFaults s worth x) }
    ensures early { IfErr result (λ e. (s : Specification) (worth : Values) → IsGiven s worth tree.now (option_map (λ t. t.now) given.entry) → HasEarlyFault s worth e) }
{
    codes_are_in_order();
    let reading = read_tree(alloc, terms, tree, given)?;
    let found = faults_of(alloc, terms, &reading)?;
    Ok(found)
}

// The same of a reading.
fn faults_of(alloc: Global, terms: &Terms<'_>, reading: &Reading) -> Result<RootFaults, Stopped>
    ensures found { IfOk result (λ x. (s : Specification) (worth : Values) (tree : Trees) (root : Text) (refs : List Ref) → s.tree ≡ view tree → AreTokens s.tree → AreRight s.tree worth → IsReading s worth root refs terms.now tree reading.now → AreFaults s worth x) }
    ensures memory { IfErr result (λ e. e ≡ Why.Memory) }
{
    let not_unwrappable = unwrappings(alloc, terms, reading)?;
    let order = order_of(alloc, terms, reading)?;
    let recursion = recursions(alloc, terms, reading, &order)?;
    let not_literal = literals_of(alloc, terms, reading)?;
    let bad_range = ranges_of(alloc, terms, reading)?;
    let bad_controller = controllers_of(alloc, terms, reading)?;
    let maps = all_of_maps(alloc, terms, reading)?;
    Ok(RootFaults {
        not_unwrappable,
        recursion,
        not_literal,
        bad_range,
        bad_controller,
        no_key: maps.no_key,
        map_shape: maps.map_shape,
        too_many_alternatives: maps.too_many_alternatives,
    })
}

// All offsets of what `~` cannot unwrap, or `&` cannot choose from.
fn unwrappings(
    alloc: Global,
    terms: &Terms<'_>,
    reading: &Reading,
) -> Result<Vec<usize>, AllocError>
    ensures { IfOk result (λ v. (s : Specification) (worth : Values) (tree : Trees) (root : Text) (refs : List Ref) → s.tree ≡ view tree → IsReading s worth root refs terms.now tree reading.now → AreOffsets (HasNotUnwrappable s root) v.items) }
{
    let reached = &reading.instanced.reached;
    let opens = all_not_unwrapped(alloc, &reading.survey, reached)?;
    let meant = &reading.meant;
    let asked = &reading.questions.asked;
    let chooses = all_nothing_chosen(alloc, terms, &meant.closed, &meant.choosable, asked)?;
    all_not_unwrappable(opens, &chooses)
}

// All offsets of what comes back to itself.
fn recursions(
    alloc: Global,
    terms: &Terms<'_>,
    reading: &Reading,
    order: &Order,
) -> Result<Vec<usize>, AllocError>
    ensures { IfOk result (λ v. (s : Specification) (worth : Values) (tree : Trees) (root : Text) (refs : List Ref) → IsReading s worth root refs terms.now tree reading.now → IsOrder (definitions s) root refs terms.now order.now → AreOffsets (HasRecursion s root) v.items) }
{
    let survey = &reading.survey;
    let closed = &reading.meant.closed;
    all_recursion(alloc, terms, &survey.starts, &survey.names, closed, order)
}

// All offsets of what has to be a literal and is none.
fn literals_of(
    alloc: Global,
    terms: &Terms<'_>,
    reading: &Reading,
) -> Result<Vec<usize>, AllocError>
    ensures { IfOk result (λ v. (s : Specification) (worth : Values) (tree : Trees) (root : Text) (refs : List Ref) → AreRight s.tree worth → IsReading s worth root refs terms.now tree reading.now → AreOffsets (HasNotLiteral s worth root) v.items) }
{
    let meant = &reading.meant;
    all_not_literal(alloc, terms, &meant.literals, &reading.questions.asked)
}

// All offsets of a range or of an occurrence with bad ends.
fn ranges_of(alloc: Global, terms: &Terms<'_>, reading: &Reading) -> Result<Vec<usize>, AllocError>
    ensures { IfOk result (λ v. (s : Specification) (worth : Values) (tree : Trees) (root : Text) (refs : List Ref) → AreTokens s.tree → AreRight s.tree worth → IsReading s worth root refs terms.now tree reading.now → AreOffsets (HasBadRange s worth root) v.items) }
{
    let meant = &reading.meant;
    let asked = &reading.questions.asked;
    let reached = &reading.instanced.reached;
    all_bad_range(alloc, terms, &meant.literals, asked, reached)
}

// All offsets of a controller that is not of the kind that its control asks for.
fn controllers_of(
    alloc: Global,
    terms: &Terms<'_>,
    reading: &Reading,
) -> Result<Vec<usize>, AllocError>
    ensures { IfOk result (λ v. (s : Specification) (worth : Values) (tree : Trees) (root : Text) (refs : List Ref) → AreRight s.tree worth → IsReading s worth root refs terms.now tree reading.now → AreOffsets (HasBadController s worth root) v.items) }
{
    let meant = &reading.meant;
    let asked = &reading.questions.asked;
    all_bad_controller(alloc, terms, &meant.literals, &meant.controllers, asked)
}

// All offsets of what is wrong in the groups of maps.
fn all_of_maps(alloc: Global, terms: &Terms<'_>, reading: &Reading) -> Result<FaultsOfMaps, Stopped>
    ensures found { IfOk result (λ x. (s : Specification) (worth : Values) (tree : Trees) (root : Text) (refs : List Ref) → IsReading s worth root refs terms.now tree reading.now → AreOfMaps s root x) }
    ensures memory { IfErr result (λ e. e ≡ Why.Memory) }
{
    let maps = maps_of(alloc, terms, reading)?;
    let asked = &reading.questions.asked;
    let no_key = all_no_key(alloc, &maps.spliced, &maps.faults)?;
    let map_shape = all_map_shape(alloc, &maps.spliced, &maps.faults, &maps.returning)?;
    let too_many_alternatives = all_too_many_alternatives(alloc, asked, &maps.faults)?;
    Ok(FaultsOfMaps {
        no_key,
        map_shape,
        too_many_alternatives,
    })
}
