//! What is wrong with what the root reaches.

ghost use Rattle.std.specs.Prelude.{◌≡◌, IfErr, IfOk, List, None, OnOk};
ghost use Rattle.cddl_language.specs.Faults.{HasBadController, HasBadRange, HasNotLiteral, HasNotUnwrappable, HasRecursion, IsAccepted, Specification, definitions};
ghost use Rattle.cddl_language.specs.Literals.{AreRight, AreTokens, Values};
ghost use Rattle.cddl_language.specs.Terms.{Ref, Text};
ghost use Rattle.check_recursion.specs.Order.{AreRanked, IsOrder};
ghost use Rattle.check_recursion.specs.declared.graph.Order.TheVariants as Orders;
ghost use Rattle.lists.specs.Least.{IsLeast};
ghost use Rattle.tree_nodes.specs.declared.tree.Tree.{Tree as Trees};
ghost use Rattle.cddl_check.specs.Outcome.{IsStopped};
ghost use Rattle.cddl_check.specs.Stages.{AreFlat, AreValued, IsReading};
ghost use Rattle.cddl_check.specs.Told.{IsTold};
ghost use Rattle.cddl_check.specs.declared.stopped.Stopped.TheVariants as Why;

use crate::mapping::faults_of_maps;
use crate::reading::Reading;
use crate::stopped::{Stopped, refused};
use cddl_token::Code;
use check_groups::empty::may_be_empty;
use check_recursion::{Order, Ranks, find_order};
use check_root::control_faults::{bad_controller, not_literal};
use check_root::range_faults::bad_range;
use check_root::reached_faults::{not_unwrappable, nothing_chosen};
use check_root::root_faults::recursion;
use check_terms::Terms;
use check_text::laws::root_faults_are_told;
use std::alloc::Global;

// Ranks of what the instances of an accepted specification ask; or the first fault of what its root reaches.
pub(crate) fn ranks_of(
    alloc: Global,
    terms: &Terms<'_>,
    reading: &Reading,
) -> Result<Ranks, Stopped>
    ensures accepted { IfOk result (λ r. (s : Specification) (worth : Values) (tree : Trees) (root : Text) (refs : List Ref) → AreTokens s.tree → AreRight s.tree worth → IsReading s worth root refs terms.now tree reading.now → IsAccepted s worth) }
    ensures ranked { IfOk result (λ r. (s : Specification) (worth : Values) (tree : Trees) (root : Text) (refs : List Ref) → AreTokens s.tree → AreRight s.tree worth → IsReading s worth root refs terms.now tree reading.now → AreRanked (definitions s) root refs terms.now r) }
    ensures stopped { IfErr result (λ e. (s : Specification) (worth : Values) (tree : Trees) (root : Text) (refs : List Ref) → AreTokens s.tree → AreRight s.tree worth → IsReading s worth root refs terms.now tree reading.now → IsStopped s worth e) }
{
    root_faults_are_told();
    if let Some(at) = unwrapping(terms, reading) {
        return Err(refused(Code::NotUnwrappable, at));
    }
    let order = order_of(alloc, terms, reading)?;
    let ranks = ranks_in(terms, reading, order)?;
    check_values(terms, reading)?;
    splice_maps(alloc, terms, reading)?;
    Ok(ranks)
}

// Nothing, where nothing is wrong with literals and numbers; or the first fault there, where none of a lower code stands.
fn check_values(terms: &Terms<'_>, reading: &Reading) -> Result<(), Stopped>
    ensures valued { OnOk result ((s : Specification) (worth : Values) (tree : Trees) (root : Text) (refs : List Ref) → AreTokens s.tree → AreRight s.tree worth → IsReading s worth root refs terms.now tree reading.now → AreValued s worth root) }
    ensures stopped { IfErr result (λ e. (s : Specification) (worth : Values) (tree : Trees) (root : Text) (refs : List Ref) → AreTokens s.tree → AreRight s.tree worth → IsReading s worth root refs terms.now tree reading.now → IsLeast (HasNotUnwrappable s root) None → IsLeast (HasRecursion s root) None → IsStopped s worth e) }
{
    root_faults_are_told();
    if let Some(at) = literal_of(terms, reading) {
        return Err(refused(Code::NotLiteral, at));
    }
    if let Some(at) = range_of(terms, reading) {
        return Err(refused(Code::BadRange, at));
    }
    if let Some(at) = controller_of(terms, reading) {
        return Err(refused(Code::BadController, at));
    }
    Ok(())
}

// Nothing, where nothing is wrong in the groups of maps; or the first fault there, where none of a lower code stands.
fn splice_maps(alloc: Global, terms: &Terms<'_>, reading: &Reading) -> Result<(), Stopped>
    ensures flat { OnOk result ((s : Specification) (worth : Values) (tree : Trees) (root : Text) (refs : List Ref) → IsReading s worth root refs terms.now tree reading.now → AreFlat s root) }
    ensures stopped { IfErr result (λ e. (s : Specification) (worth : Values) (tree : Trees) (root : Text) (refs : List Ref) → IsReading s worth root refs terms.now tree reading.now → IsLeast (HasNotUnwrappable s root) None → IsLeast (HasRecursion s root) None → AreValued s worth root → IsStopped s worth e) }
{
    root_faults_are_told();
    let maps = faults_of_maps(alloc, terms, reading)?;
    if let Some(at) = maps.no_key {
        return Err(refused(Code::NoKey, at));
    }
    if let Some(at) = maps.shape {
        return Err(refused(Code::MapShape, at));
    }
    if let Some(at) = maps.too_many {
        return Err(refused(Code::TooManyAlternatives, at));
    }
    Ok(())
}

// The ranks of an order in which nothing comes back to itself; or the least offset of what does.
fn ranks_in(terms: &Terms<'_>, reading: &Reading, order: Order) -> Result<Ranks, Stopped>
    ensures ranked { IfOk result (λ r. order ≡ Orders.Ranks r) }
    ensures clear { OnOk result ((s : Specification) (worth : Values) (tree : Trees) (root : Text) (refs : List Ref) → IsReading s worth root refs terms.now tree reading.now → IsOrder (definitions s) root refs terms.now order → IsLeast (HasRecursion s root) None) }
    ensures told { IfErr result (λ e. (s : Specification) (worth : Values) (tree : Trees) (root : Text) (refs : List Ref) → IsReading s worth root refs terms.now tree reading.now → IsOrder (definitions s) root refs terms.now order → IsTold (HasRecursion s root) Code.Recursion e) }
{
    let first = recursion_of(terms, reading, &order);
    match order {
        Order::Ranks(ranks) => Ok(ranks),
        // Where something is on a cycle, a fault is reported for it.
        Order::Cycles(flags) => {
            drop(flags);
            Err(refused(Code::Recursion, first.unwrap_or(0)))
        }
    }
}

// The least offset of what `~` cannot open, or `&` cannot choose from.
fn unwrapping(terms: &Terms<'_>, reading: &Reading) -> Option<usize>
    ensures { (s : Specification) (worth : Values) (tree : Trees) (root : Text) (refs : List Ref) → IsReading s worth root refs terms.now tree reading.now → IsLeast (HasNotUnwrappable s root) result }
{
    let meant = &reading.meant;
    let questions = &reading.questions;
    let chooses = nothing_chosen(terms, &meant.closed, &meant.choosable, &questions.asked);
    not_unwrappable(questions.opens, chooses)
}

// Ranks of what the instances ask, or what comes back to itself.
pub(crate) fn order_of(
    alloc: Global,
    terms: &Terms<'_>,
    reading: &Reading,
) -> Result<Order, Stopped>
    ensures order { IfOk result (λ o. (s : Specification) (worth : Values) (tree : Trees) (root : Text) (refs : List Ref) → IsReading s worth root refs terms.now tree reading.now → IsOrder (definitions s) root refs terms.now o) }
    ensures memory { IfErr result (λ e. e ≡ Why.Memory) }
{
    let closed = &reading.meant.closed;
    let kinds = &reading.survey.kinds;
    let openings = &reading.meant.openings;
    let choosable = &reading.meant.choosable;
    let empty = may_be_empty(alloc, terms, closed, kinds, openings)?;
    let order = find_order(alloc, terms, closed, kinds, openings, choosable, &empty)?;
    Ok(order)
}

// The least offset of what comes back to itself.
fn recursion_of(terms: &Terms<'_>, reading: &Reading, order: &Order) -> Option<usize>
    ensures { (s : Specification) (worth : Values) (tree : Trees) (root : Text) (refs : List Ref) → IsReading s worth root refs terms.now tree reading.now → IsOrder (definitions s) root refs terms.now order.now → IsLeast (HasRecursion s root) result }
{
    let survey = &reading.survey;
    let closed = &reading.meant.closed;
    recursion(terms, &survey.starts, &survey.names, closed, order)
}

// The least offset of what has to be a literal and is none.
fn literal_of(terms: &Terms<'_>, reading: &Reading) -> Option<usize>
    ensures { (s : Specification) (worth : Values) (tree : Trees) (root : Text) (refs : List Ref) → AreRight s.tree worth → IsReading s worth root refs terms.now tree reading.now → IsLeast (HasNotLiteral s worth root) result }
{
    let meant = &reading.meant;
    not_literal(terms, &meant.literals, &reading.questions.asked)
}

// The least offset of a controller that is not of the kind that its control asks for.
fn controller_of(terms: &Terms<'_>, reading: &Reading) -> Option<usize>
    ensures { (s : Specification) (worth : Values) (tree : Trees) (root : Text) (refs : List Ref) → AreRight s.tree worth → IsReading s worth root refs terms.now tree reading.now → IsLeast (HasBadController s worth root) result }
{
    let meant = &reading.meant;
    let asked = &reading.questions.asked;
    bad_controller(terms, &meant.literals, &meant.controllers, asked)
}

// The least offset of a range or of an occurrence with bad ends.
fn range_of(terms: &Terms<'_>, reading: &Reading) -> Option<usize>
    ensures { (s : Specification) (worth : Values) (tree : Trees) (root : Text) (refs : List Ref) → AreTokens s.tree → AreRight s.tree worth → IsReading s worth root refs terms.now tree reading.now → IsLeast (HasBadRange s worth root) result }
{
    let meant = &reading.meant;
    let asked = &reading.questions.asked;
    let reached = &reading.instanced.reached;
    bad_range(terms, &meant.literals, asked, reached)
}
