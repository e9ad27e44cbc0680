//! What a machine keeps while it asks: the questions that wait, each with what it waits for, and its next move.

ghost use Rattle.std.specs.Prelude.{◌≡◌, ◌⊎◌, ◌<◌, ◌≤◌, ℕ, [], true, IfOk, OnErr, vec_capacity, vec_len};
ghost use Rattle.cddl_meaning.specs.Forms.{Language};
ghost use Rattle.cddl_meaning.specs.Moves as M;
ghost use Rattle.cddl_match.specs.Entering.{IsAskedNext};
ghost use Rattle.cddl_match.specs.Machine.{Finds, FindsAt, Goes, GoesFrom, IsKept, NeedsMore, WaitsAt, asked_in, asks_in, found_in, is_alternative, next_in};
ghost use Rattle.match_moves.specs.Views.{entering_move, move_view, pending_view, question_view, reading_move, reply_view, sorting_view, weighing_move};
ghost use Rattle.match_moves.specs.declared.questions.Reply as R;
ghost use Rattle.match_moves.specs.declared.questions.Entering as E;
ghost use Rattle.match_moves.specs.declared.questions.Sorting as C;
ghost use Rattle.table_nodes.specs.Language.{language_of};
ghost use Rattle.table_nodes.specs.declared.nodes.GroupId.{GroupId};
ghost use Rattle.table_nodes.specs.declared.nodes.TypeId.{TypeId};
ghost use Rattle.table_nodes.specs.declared.table.Table.{Table};

use crate::entering::asked_from;
use history::History;
use match_held::{Shelf, held_on};
use match_moves::{
    Entering, Move, Pending, PendingType, Question, Reading, Reply, Weighing, alternative_move,
    enter, first_of_group, first_of_type, next_entry, next_move, weighed_reply,
};
use match_tests::{is_passed_over, left_after_bits};
use std::alloc::{AllocError, Global};
use std::mem;
use table_nodes::Table;

/// How a turn ends. It is small, and a reply is left where the next move stands.
#[derive(Clone, Copy)]
pub(crate) enum Turned {
    /// The run goes on.
    GoesOn,
    /// The first question has its reply, which is the next move.
    Replied,
    /// The reply takes more steps.
    Spent,
    /// There is no memory for it.
    NoMemory,
}

/// An open question, which contracts alone see, and how it waits for the reply to what it has asked.
#[derive(Drop)]
pub(crate) struct Waiting<'t, 'i> {
    pub(crate) asked: History<Question<'t, 'i>>,
    pub(crate) pending: Pending<'t, 'i>,
}

/// The open questions, the next move, the steps that were taken, and those that are to be taken before that move, for bits that
/// are set.
#[derive(Drop)]
pub(crate) struct Run<'t, 'i> {
    pub(crate) waiting: Vec<Waiting<'t, 'i>>,
    pub(crate) next: Move<'t, 'i>,
    pub(crate) taken: u64,
    pub(crate) owed: u64,
}

impl<'t, 'i> Waiting<'t, 'i> {
    ghost use Rattle.cddl_match.specs.Machine.{noted};
    ghost use Rattle.match_moves.specs.Views.{question_view};

    // The question, which has asked nothing yet.
    #[inline]
    fn new(question: &Question<'t, 'i>) -> Waiting<'t, 'i>
        ensures { noted result.asked ≡ question_view question.now }
    {
        Waiting {
            asked: History::new().with(question),
            pending: Pending::Ref,
        }
    }
}

// What a question asks first, or its reply.
fn first_of<'t, 'i>(
    alloc: Global,
    table: &'t Table,
    question: Question<'t, 'i>,
    pending: &mut Pending<'t, 'i>,
) -> Result<Move<'t, 'i>, AllocError>
    ensures first { IfOk result (λ next. move_view next (pending_view pending.new) ≡ M.first_move (language_of table.now) (question_view question.entry)) }
    ensures memory { OnErr result (is_alternative (question_view question.entry) ≡ true) }
{
    match question {
        Question::OfType {
            node,
            place,
            subject,
        } => Ok(first_of_type(table, node, place, subject, pending)),
        Question::OfGroup {
            group,
            base,
            place,
            items,
        } => Ok(first_of_group(table, group, base, place, items, pending)),
        Question::OfAlternative {
            entries,
            base,
            pairs,
        } => alternative_move(alloc, entries, base, pairs),
    }
}

// A step that is owed by bits that are set.
#[inline]
fn take_owed(run: &mut Run<'_, '_>, steps: u64) -> Turned
    requires owed { 0 < run.old.owed }
    ensures goes { result ≡ Turned.GoesOn → (l : Language TypeId GroupId) → Goes l steps run.old run.new }
    ensures finds { (l : Language TypeId GroupId) → Finds l steps run.old (found_in result run.new.next) }
    ensures kind { (result ≡ Turned.Replied → ⊥) × (result ≡ Turned.NoMemory → ⊥) }
    ensures kept { (result ≡ Turned.GoesOn → ⊥) → IsKept run.old run.new }
    ensures capacity { vec_capacity run.new.waiting ≡ vec_capacity run.old.waiting }
{
    if run.taken >= steps {
        return Turned::Spent;
    }
    run.taken += 1;
    run.owed -= 1;
    Turned::GoesOn
}

// A pair is tried: a step. What it comes to first is an entry of its alternative, if that has one.
#[inline(never)]
fn try_pair(run: &mut Run<'_, '_>, steps: u64) -> Turned
    requires owed { run.old.owed ≡ 0 }
    ensures goes { result ≡ Turned.GoesOn → (t : Table) (s : C.Sorting) → run.old.next ≡ Move.Tries s → GoesFrom (language_of t) steps run.old (M.Tries (sorting_view s)) run.new }
    ensures finds { (t : Table) (s : C.Sorting) → run.old.next ≡ Move.Tries s → FindsAt (language_of t) steps run.old (M.Tries (sorting_view s)) (found_in result run.new.next) }
    ensures kind { (result ≡ Turned.Replied → ⊥) × (result ≡ Turned.NoMemory → ⊥) }
    ensures kept { (result ≡ Turned.GoesOn → ⊥) → IsKept run.old run.new }
    ensures capacity { vec_capacity run.new.waiting ≡ vec_capacity run.old.waiting }
{
    if run.taken >= steps {
        return Turned::Spent;
    }
    let next = mem::replace(&mut run.next, Move::Answered(Reply::Fails { far: 0 }));
    let Move::Tries(sorting) = next else {
        return Turned::Spent;
    };
    run.next = next_entry(sorting.entries, sorting);
    run.taken += 1;
    Turned::GoesOn
}

// Where the pair of the next move passes over the entry that it has come to, it comes to the next one that is asked about it,
// at no step. Where there is none its key is stray, and the next move is that of the pair after it, or a reply.
fn pass_over<'t, 'i>(table: &'t Table, run: &mut Run<'t, 'i>)
    ensures comes { (first : M.Question TypeId GroupId) (taken : ℕ) → WaitsAt (language_of table.now) first taken run.old.waiting.items (next_in run.old) → WaitsAt (language_of table.now) first taken run.new.waiting.items (next_in run.new) }
    ensures asked { IsAskedNext (language_of table.now) (next_in run.new) }
    ensures waiting { run.new.waiting ≡ run.old.waiting }
    ensures taken { run.new.taken ≡ run.old.taken }
    ensures owed { run.new.owed ≡ run.old.owed }
{
    let Move::Enters(entering) = &run.next else {
        return;
    };
    if !is_passed_over(table, entering.entry, &entering.sorting.pair.0) {
        return;
    }
    let next = mem::replace(&mut run.next, Move::Answered(Reply::Fails { far: 0 }));
    let Move::Enters(entering) = next else {
        return;
    };
    let Entering {
        others,
        sorting,
        ..
    } = entering;
    let left = asked_from(table, others, &sorting.pair.0);
    run.next = next_entry(left, sorting);
}

// An entry is asked about a pair: a step. The question that it asks, that of its key type, is the next move.
#[inline(never)]
fn ask_entry(run: &mut Run<'_, '_>, steps: u64) -> Turned
    requires owed { run.old.owed ≡ 0 }
    ensures goes { result ≡ Turned.GoesOn → (t : Table) (e : E.Entering) → run.old.next ≡ Move.Enters e → IsAskedNext (language_of t) (entering_move e) → GoesFrom (language_of t) steps run.old (entering_move e) run.new }
    ensures finds { (t : Table) (e : E.Entering) → run.old.next ≡ Move.Enters e → IsAskedNext (language_of t) (entering_move e) → FindsAt (language_of t) steps run.old (entering_move e) (found_in result run.new.next) }
    ensures kind { (result ≡ Turned.Replied → ⊥) × (result ≡ Turned.NoMemory → ⊥) }
    ensures kept { (result ≡ Turned.GoesOn → ⊥) → IsKept run.old run.new }
    ensures capacity { vec_capacity run.new.waiting ≡ vec_capacity run.old.waiting }
{
    let count = run.waiting.len();
    // A question is open, whose pair this is.
    if count == 0 {
        return Turned::Spent;
    }
    if run.taken >= steps {
        return Turned::Spent;
    }
    let next = mem::replace(&mut run.next, Move::Answered(Reply::Fails { far: 0 }));
    let Move::Enters(entering) = next else {
        return Turned::Spent;
    };
    let last = &mut run.waiting[count - 1];
    run.next = enter(entering, &mut last.pending);
    run.taken += 1;
    Turned::GoesOn
}

// The last question has this reply, and the one below it goes on; or the first one has it.
fn reply_to_last<'t, 'i>(run: &mut Run<'t, 'i>, reply: Reply<'i>) -> Turned
    requires owed { run.old.owed ≡ 0 }
    ensures goes { result ≡ Turned.GoesOn → (l : Language TypeId GroupId) (steps : ℕ) → GoesFrom l steps run.old (M.Answered (reply_view reply.entry)) run.new }
    ensures finds { (l : Language TypeId GroupId) (steps : ℕ) → FindsAt l steps run.old (M.Answered (reply_view reply.entry)) (found_in result run.new.next) }
    ensures told { result ≡ Turned.Replied → run.new.next ≡ Move.Answered reply.entry }
    ensures kind { (result ≡ Turned.NoMemory → ⊥) }
    ensures emptied { result ≡ Turned.Replied → asked_in run.new.waiting.items ≡ [] }
    ensures ends { (result ≡ Turned.GoesOn → ⊥) → result ≡ Turned.Replied }
    ensures taken { run.new.taken ≡ run.old.taken }
    ensures capacity { vec_capacity run.new.waiting ≡ vec_capacity run.old.waiting }
{
    let count = run.waiting.len();
    if count < 2 {
        run.waiting.clear();
        run.next = Move::Answered(reply);
        return Turned::Replied;
    }
    run.waiting.truncate(count - 1);
    let last = &mut run.waiting[count - 2];
    run.next = next_move(&mut last.pending, reply);
    Turned::GoesOn
}

// A question is asked: a step. There may be no memory for one question more, or for the tally of an alternative.
fn ask<'t, 'i>(
    alloc: Global,
    table: &'t Table,
    run: &mut Run<'t, 'i>,
    question: Question<'t, 'i>,
    steps: u64,
) -> Turned
    requires owed { run.old.owed ≡ 0 }
    ensures goes { result ≡ Turned.GoesOn → GoesFrom (language_of table.now) steps run.old (asks_in run.old (question_view question.entry)) run.new }
    ensures finds { FindsAt (language_of table.now) steps run.old (asks_in run.old (question_view question.entry)) (found_in result run.new.next) }
    ensures kind { (result ≡ Turned.Replied → ⊥) }
    ensures kept { (result ≡ Turned.GoesOn → ⊥) → IsKept run.old run.new }
    ensures memory { result ≡ Turned.NoMemory → (vec_capacity run.old.waiting ≤ vec_len run.old.waiting) ⊎ (is_alternative (question_view question.entry) ≡ true) }
    ensures capacity { vec_capacity run.old.waiting ≤ vec_capacity run.new.waiting }
{
    if run.taken >= steps {
        return Turned::Spent;
    }
    let count = run.waiting.len();
    let Ok(()) = run.waiting.push(Waiting::new(&question)) else {
        return Turned::NoMemory;
    };
    let last = &mut run.waiting[count];
    match first_of(alloc, table, question, &mut last.pending) {
        Ok(first) => run.next = first,
        Err(_) => {
            run.waiting.truncate(count);
            return Turned::NoMemory;
        }
    }
    run.taken += 1;
    Turned::GoesOn
}

// A byte string is read, and a type is asked of what it holds; if it holds nothing, that is the last question's reply. There
// may be no memory for what it holds, or for one question more.
#[inline(never)]
fn read<'t, 'i>(
    table: &'t Table,
    shelf: &mut Shelf<'i>,
    run: &mut Run<'t, 'i>,
    reading: Reading<'i>,
    steps: u64,
) -> Turned
    requires owed { run.old.owed ≡ 0 }
    ensures goes { result ≡ Turned.GoesOn → GoesFrom (language_of table.now) steps run.old (reading_move reading.entry) run.new }
    ensures finds { FindsAt (language_of table.now) steps run.old (reading_move reading.entry) (found_in result run.new.next) }
    ensures told { result ≡ Turned.Replied → (r : R.Reply) × (run.new.next ≡ Move.Answered r) }
    ensures kept { (result ≡ Turned.GoesOn → ⊥) → (asked_in run.new.waiting.items ≡ asked_in run.old.waiting.items) ⊎ (asked_in run.new.waiting.items ≡ []) }
    ensures left { result ≡ Turned.NoMemory → IsKept run.old run.new }
    ensures taken { (result ≡ Turned.GoesOn → ⊥) → run.new.taken ≡ run.old.taken }
    ensures capacity { vec_capacity run.old.waiting ≤ vec_capacity run.new.waiting }
{
    let Reading {
        node,
        place,
        next,
        ..
    } = reading;
    let subject = match held_on(shelf, reading) {
        Ok(Some(subject)) => subject,
        Ok(None) => return reply_to_last(run, Reply::Fails { far: place }),
        Err(_) => return Turned::NoMemory,
    };
    let count = run.waiting.len();
    // A question is open, which has come to read it.
    if count == 0 {
        return Turned::Spent;
    }
    let last = &mut run.waiting[count - 1];
    last.pending = Pending::Type(PendingType::Held { place, next });
    let question = Question::OfType {
        node,
        place: 0,
        subject,
    };
    ask(shelf.alloc, table, run, question, steps)
}

// Bits that are set are steps: one is taken, and the others are owed. Then the test has its reply. Where they are more than
// the steps that are left, they are not tested.
#[inline(never)]
fn weigh<'t, 'i>(run: &mut Run<'t, 'i>, weighing: Weighing<'t, 'i>, steps: u64) -> Turned
    requires owed { run.old.owed ≡ 0 }
    ensures goes { result ≡ Turned.GoesOn → (l : Language TypeId GroupId) → GoesFrom l steps run.old (weighing_move weighing.entry) run.new }
    ensures finds { (l : Language TypeId GroupId) → FindsAt l steps run.old (weighing_move weighing.entry) (found_in result run.new.next) }
    ensures told { result ≡ Turned.Replied → (r : R.Reply) × (run.new.next ≡ Move.Answered r) }
    ensures kind { result ≡ Turned.NoMemory → ⊥ }
    ensures kept { (result ≡ Turned.GoesOn → ⊥) → (asked_in run.new.waiting.items ≡ asked_in run.old.waiting.items) ⊎ (asked_in run.new.waiting.items ≡ []) }
    ensures taken { (result ≡ Turned.GoesOn → ⊥) → run.new.taken ≡ run.old.taken }
    ensures capacity { vec_capacity run.new.waiting ≡ vec_capacity run.old.waiting }
{
    let free = steps.saturating_sub(run.taken);
    let Some(left) = left_after_bits(weighing.test, weighing.subject, free) else {
        return Turned::Spent;
    };
    let reply = weighed_reply(weighing);
    let bits = free - left;
    if bits == 0 {
        return reply_to_last(run, reply);
    }
    run.next = Move::Answered(reply);
    run.taken += 1;
    run.owed = bits - 1;
    Turned::GoesOn
}

// One turn at a move that passes over no entry: a step, with one question more or none; or the last question has its reply, and
// is taken off. Or the run ends. There may be no memory for one question more, for the tally of a map's pairs, or for what a
// byte string holds.
fn take_turn<'t, 'i>(
    table: &'t Table,
    shelf: &mut Shelf<'i>,
    run: &mut Run<'t, 'i>,
    steps: u64,
) -> Turned
    requires asked { IsAskedNext (language_of table.now) (next_in run.old) }
    ensures goes { result ≡ Turned.GoesOn → Goes (language_of table.now) steps run.old run.new }
    ensures finds { Finds (language_of table.now) steps run.old (found_in result run.new.next) }
    ensures told { result ≡ Turned.Replied → (r : R.Reply) × (run.new.next ≡ Move.Answered r) }
    // After a reply nothing is open, and else the list is as it was.
    ensures kept { (result ≡ Turned.GoesOn → ⊥) → (asked_in run.new.waiting.items ≡ asked_in run.old.waiting.items) ⊎ (asked_in run.new.waiting.items ≡ []) }
    ensures left { result ≡ Turned.NoMemory → asked_in run.new.waiting.items ≡ asked_in run.old.waiting.items }
    ensures taken { (result ≡ Turned.GoesOn → ⊥) → run.new.taken ≡ run.old.taken }
    ensures memory { result ≡ Turned.NoMemory → (vec_capacity run.old.waiting ≤ vec_len run.old.waiting) ⊎ NeedsMore (language_of table.now) run.old (next_in run.old) }
    ensures capacity { vec_capacity run.old.waiting ≤ vec_capacity run.new.waiting }
{
    if run.owed > 0 {
        return take_owed(run, steps);
    }
    match &run.next {
        Move::Asks(question) => {
            let question = question.again();
            return ask(shelf.alloc, table, run, question, steps);
        }
        Move::Answered(reply) => {
            let reply = reply.again();
            return reply_to_last(run, reply);
        }
        Move::Tries(_) => return try_pair(run, steps),
        Move::Enters(_) => return ask_entry(run, steps),
        Move::Reads(reading) => {
            let reading = *reading;
            return read(table, shelf, run, reading, steps);
        }
        Move::Weighs(weighing) => {
            let weighing = *weighing;
            return weigh(run, weighing, steps);
        }
    }
}

// One turn: a step, with one question more or none; or the last question has its reply, and is taken off. Or the run ends.
// There may be no memory for one question more, for the tally of a map's pairs, or for what a byte string holds.
pub(crate) fn step<'t, 'i>(
    table: &'t Table,
    shelf: &mut Shelf<'i>,
    run: &mut Run<'t, 'i>,
    steps: u64,
) -> Turned
    ensures goes { result ≡ Turned.GoesOn → Goes (language_of table.now) steps run.old run.new }
    ensures finds { Finds (language_of table.now) steps run.old (found_in result run.new.next) }
    ensures told { result ≡ Turned.Replied → (r : R.Reply) × (run.new.next ≡ Move.Answered r) }
    // After a reply nothing is open, and else the list is as it was.
    ensures kept { (result ≡ Turned.GoesOn → ⊥) → (asked_in run.new.waiting.items ≡ asked_in run.old.waiting.items) ⊎ (asked_in run.new.waiting.items ≡ []) }
    ensures left { result ≡ Turned.NoMemory → asked_in run.new.waiting.items ≡ asked_in run.old.waiting.items }
    ensures taken { (result ≡ Turned.GoesOn → ⊥) → run.new.taken ≡ run.old.taken }
    ensures memory { result ≡ Turned.NoMemory → (vec_capacity run.old.waiting ≤ vec_len run.old.waiting) ⊎ NeedsMore (language_of table.now) run.old (next_in run.old) }
    ensures capacity { vec_capacity run.old.waiting ≤ vec_capacity run.new.waiting }
{
    pass_over(table, run);
    take_turn(table, shelf, run, steps)
}
