//! The turns that the open questions take.

ghost use Rattle.std.specs.Prelude.{◌≡◌, [], ◌∷◌, ◌++◌, List, IfOk, true};
ghost use Rattle.cddl_meaning.specs.Forms.{Language};
ghost use Rattle.cddl_meaning.specs.Moves as M;
ghost use Rattle.cddl_match.specs.Open.{AreOpenWith};
ghost use Rattle.cddl_reasons.specs.Opened.{IsOpen, StandsAt};
ghost use Rattle.cddl_reasons.specs.Told.{AreSome};
ghost use Rattle.match_moves.specs.Views.{entering_move, move_view, pending_view, question_view, reading_move, reply_view, sorting_view};
ghost use Rattle.table_nodes.specs.Language.{language_of};
ghost use Rattle.table_nodes.specs.declared.nodes.GroupId.{GroupId};
ghost use Rattle.table_nodes.specs.declared.nodes.TypeId.{TypeId};

use crate::aims::{Aim, is_at, wanted_in};
use crate::found::{Found, Mark};
use crate::run::{Open, Run, Wanted};
use crate::telling::{note_counts, tell};
use match_held::{Shelf, held_on};
use match_moves::{
    Entering, Move, Pending, PendingType, Question, Reading, Reply, Sorting, alternative_move,
    enter, first_of_group, first_of_type, next_entry, next_move, weighed_reply,
};
use match_tests::is_passed_over;
use std::alloc::{AllocError, Global};
use std::mem;
use table_nodes::Table;

// What a question asks first, or its reply.
fn first_of<'t, 'i>(
    alloc: Global,
    table: &'t Table,
    question: Question<'t, 'i>,
    pending: &mut Pending<'t, 'i>,
) -> Result<Move<'t, 'i>, AllocError>
    ensures { IfOk result (λ next. move_view next (pending_view pending.new) ≡ M.first_move (language_of table.now) (question_view question.entry)) }
{
    match question {
        Question::OfType {
            node,
            place,
            subject,
        } => Ok(first_of_type(table, node, place, subject, pending)),
        Question::OfGroup {
            group,
            base,
            place,
            items,
        } => Ok(first_of_group(table, group, base, place, items, pending)),
        Question::OfAlternative {
            entries,
            base,
            pairs,
        } => alternative_move(alloc, entries, base, pairs),
    }
}

// A question alone is open, in which reasons are looked for that show at this place.
pub(crate) fn begin<'t, 'i>(
    alloc: Global,
    table: &'t Table,
    question: Question<'t, 'i>,
    place: usize,
) -> Result<Run<'t, 'i>, AllocError>
    ensures { IfOk result (λ run. IsOpen (language_of table.now) (question_view question.entry) run) }
{
    let mut pending = Pending::Ref;
    let next = first_of(alloc, table, question.again(), &mut pending)?;
    let below = Vec::new(alloc);
    let last = Open {
        question,
        pending,
        wanted: Wanted::At(place),
        mark: Mark {
            reasons: 0,
            more: 0,
        },
        number: 0,
        tried: false,
        counts: Vec::new(alloc),
    };
    Ok(Run {
        below,
        last,
        next,
        asked: 1,
    })
}

// The last question waits below this one, whose next move is reported.
fn put_on<'t, 'i>(
    run: &mut Run<'t, 'i>,
    asked: Open<'t, 'i>,
    next: Move<'t, 'i>,
) -> Result<(), AllocError>
    ensures below { IfOk result (λ _. run.new.below.items ≡ run.old.below.items ++ run.old.last ∷ []) }
    ensures last { IfOk result (λ _. run.new.last ≡ asked.entry) }
    ensures next { IfOk result (λ _. run.new.next ≡ next.entry) }
{
    let last = mem::replace(&mut run.last, asked);
    run.below.push(last)?;
    run.next = next;
    run.asked = run.asked.saturating_add(1);
    Ok(())
}

// The last question asks this one.
fn ask<'t, 'i>(
    alloc: Global,
    table: &'t Table,
    run: &mut Run<'t, 'i>,
    question: Question<'t, 'i>,
    wanted: Wanted,
    mark: Mark,
) -> Result<(), AllocError>
    ensures { IfOk result (λ _. (first : M.Question TypeId GroupId) → StandsAt (language_of table.now) first run.old.below.items run.old.last (M.Asks (question_view question.entry) (pending_view run.old.last.pending)) → IsOpen (language_of table.now) first run.new) }
{
    let mut pending = Pending::Ref;
    let next = first_of(alloc, table, question.again(), &mut pending)?;
    let asked = Open {
        question,
        pending,
        wanted,
        mark,
        number: run.asked,
        tried: false,
        counts: Vec::new(alloc),
    };
    put_on(run, asked, next)?;
    Ok(())
}

// The last question has this reply, and the one below it goes on, if there is one.
fn reply_to_last<'t, 'i>(
    alloc: Global,
    run: &mut Run<'t, 'i>,
    reply: Reply<'i>,
) -> Result<bool, AllocError>
    ensures { IfOk result (λ goes. goes ≡ true → (l : Language TypeId GroupId) (first : M.Question TypeId GroupId) → StandsAt l first run.old.below.items run.old.last (M.Answered (reply_view reply.entry)) → IsOpen l first run.new) }
{
    let Some(mut last) = run.below.pop() else {
        return Ok(false);
    };
    note_counts(alloc, &mut last, &reply)?;
    run.next = next_move(&mut last.pending, reply);
    run.last = last;
    Ok(true)
}

// The last question tries a pair.
fn try_pair<'t, 'i>(run: &mut Run<'t, 'i>, sorting: Sorting<'t, 'i>)
    ensures { (l : Language TypeId GroupId) (first : M.Question TypeId GroupId) → StandsAt l first run.old.below.items run.old.last (M.Tries (sorting_view sorting.entry)) → IsOpen l first run.new }
{
    run.last.tried = run.last.tried || is_at(run.last.wanted, sorting.place);
    run.next = next_entry(sorting.entries, sorting);
}

// A pair comes to an entry: it passes over that, or the entry is asked about it.
fn come_to<'t, 'i>(
    table: &Table,
    entering: Entering<'t, 'i>,
    pending: &mut Pending<'t, 'i>,
) -> Move<'t, 'i>
    ensures { (first : M.Question TypeId GroupId) (qs : List (M.Question TypeId GroupId)) (os : List (M.Pending TypeId GroupId)) → AreOpenWith (language_of table.now) first qs os (entering_move entering.entry) → AreOpenWith (language_of table.now) first qs os (move_view result (pending_view pending.new)) }
{
    if !is_passed_over(table, entering.entry, &entering.sorting.pair.0) {
        return enter(entering, pending);
    }
    let Entering {
        others,
        sorting,
        ..
    } = entering;
    next_entry(others, sorting)
}

// A byte string is read, and a type is asked of what it holds.
fn read<'t, 'i>(
    shelf: &mut Shelf<'i>,
    run: &mut Run<'t, 'i>,
    reading: Reading<'i>,
) -> Result<(), AllocError>
    ensures { IfOk result (λ _. (l : Language TypeId GroupId) (first : M.Question TypeId GroupId) → StandsAt l first run.old.below.items run.old.last (reading_move reading.entry) → IsOpen l first run.new) }
{
    let Reading {
        node,
        place,
        next,
        ..
    } = reading;
    let Some(subject) = held_on(shelf, reading)? else {
        run.next = Move::Answered(Reply::Fails { far: place });
        return Ok(());
    };
    run.last.pending = Pending::Type(PendingType::Held { place, next });
    run.next = Move::Asks(Question::OfType {
        node,
        place: 0,
        subject,
    });
    Ok(())
}

// One turn. It says whether some question is still open, and takes in what has failed by itself.
//
// # Errors
//
// `AllocError` where there is no memory for it.
pub(crate) fn turn<'t, 'i>(
    table: &'t Table,
    shelf: &mut Shelf<'i>,
    run: &mut Run<'t, 'i>,
    aim: Aim<'_>,
    found: &mut Found,
) -> Result<bool, AllocError>
    ensures opened { IfOk result (λ goes. goes ≡ true → (first : M.Question TypeId GroupId) → IsOpen (language_of table.now) first run.old → IsOpen (language_of table.now) first run.new) }
    ensures found { IfOk result (λ _. (first : M.Question TypeId GroupId) → IsOpen (language_of table.now) first run.old → AreSome (language_of table.now) first aim.entry.most found.old.list.items → AreSome (language_of table.now) first aim.entry.most found.new.list.items) }
{
    let next = mem::replace(&mut run.next, Move::Answered(Reply::Fails { far: 0 }));
    match next {
        Move::Asks(question) => {
            let wanted = wanted_in(&run.last, run.asked, aim.known);
            ask(aim.alloc, table, run, question, wanted, found.mark())?;
            return Ok(true);
        }
        Move::Answered(reply) => {
            tell(table, run, reply.again(), aim, found)?;
            return Ok(reply_to_last(aim.alloc, run, reply)?);
        }
        Move::Tries(sorting) => {
            try_pair(run, sorting);
            return Ok(true);
        }
        Move::Enters(entering) => {
            run.next = come_to(table, entering, &mut run.last.pending);
            return Ok(true);
        }
        Move::Reads(reading) => {
            read(shelf, run, reading)?;
            return Ok(true);
        }
        Move::Weighs(weighing) => {
            run.next = Move::Answered(weighed_reply(weighing));
            return Ok(true);
        }
    }
}
