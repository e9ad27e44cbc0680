//! What is asked by turns, since calls are deep enough: a run that begins at that question, so that types may nest as they
//! like.

ghost use Rattle.std.specs.Prelude.{◌≡◌, Ok};
ghost use Rattle.item_nodes.specs.View.{view};
ghost use Rattle.cddl_meaning.specs.Moves as M;
ghost use Rattle.match_moves.specs.Views.{question_view};
ghost use Rattle.cddl_match.specs.Within.{Says, done_view, said_view};
ghost use Rattle.match_moves.specs.declared.questions.Reply as R;
ghost use Rattle.table_nodes.specs.Language.{language_of};

use crate::calls::{Said, Stop};
use crate::means::Means;
use crate::replies::{may_test, may_test_bytes};
use crate::stack::{Run, Turned, step};
use cbor_item::Item;
use match_held::{Allowance, places_of, work_of_keys};
use match_moves::{Move, Question, Reply};
use match_tests::Subject;
use table_nodes::{Node, Table, TypeId};

// The reply that the first question of a run has.
fn reply_of<'i>(run: &Run<'_, 'i>) -> Result<Reply<'i>, Stop>
    ensures { (r : R.Reply) → run.now.next ≡ Move.Answered r → result ≡ Ok r }
{
    match &run.next {
        Move::Answered(reply) => Ok(*reply),
        _ => Err(Stop::NoMemory),
    }
}

// The place of the item that a type is about to be asked of, if that is the next move.
fn place_asked(next: &Move<'_, '_>) -> Option<usize> {
    match next {
        Move::Asks(Question::OfType { place, .. }) => Some(*place),
        _ => None,
    }
}

// Takes for the next move what it may be to make it, and for a reply to a type that was asked at a place just now what it was to
// count the item's places. Says whether so much may be done yet, and whether so many questions may wait.
fn may_go_on(
    allowance: &mut Allowance<'_>,
    table: &Table,
    run: &Run<'_, '_>,
    asked: Option<usize>,
) -> bool {
    if !allowance.may_wait(run.waiting.len()) {
        return false;
    }
    match (&run.next, asked) {
        (Move::Asks(Question::OfType { node, subject, .. }), _) => {
            may_ask(allowance, table, *node, *subject)
        }
        (Move::Asks(Question::OfAlternative { entries, pairs, .. }), _) => {
            allowance.take_for(entries.len())
                && allowance.take_for(entries.len().saturating_mul(work_of_keys(pairs)))
                && allowance.may_count(0, places_of(pairs))
        }
        (Move::Answered(Reply::Takes { next, .. }), Some(place)) => {
            allowance.may_count(place, *next)
        }
        _ => true,
    }
}

// Takes for a question about this, whose type may be a test or have one after another type.
fn may_ask(
    allowance: &mut Allowance<'_>,
    table: &Table,
    node: TypeId,
    subject: Subject<'_>,
) -> bool {
    let test = match table.node(node) {
        Some(Node::Plain(test)) => test,
        Some(Node::Such(_, test)) => test,
        _ => return true,
    };
    match subject {
        Subject::Item(item) => may_test(allowance, test, item),
        Subject::Bytes(bytes) => may_test_bytes(allowance, test, bytes),
        Subject::Number(_) => true,
    }
}

// What a question is replied to by turns. What byte strings hold is put on the shelf.
#[cold]
#[inline(never)]
pub(crate) fn replied_by_turns<'t, 'i>(
    table: &'t Table,
    means: &mut Means<'i>,
    question: Question<'t, 'i>,
) -> Result<Reply<'i>, Stop>
    ensures { Says (language_of table.now) (question_view question.entry) means.old.left means.new.left (done_view result) }
{
    let steps = means.left;
    let mut run = Run {
        waiting: Vec::new(means.shelf.alloc),
        next: Move::Asks(question),
        taken: 0,
        owed: 0,
    };
    let mut asked = None;
    'turns: loop {
        if !may_go_on(&mut means.shelf.allowance, table, &run, asked) {
            return Err(Stop::NoMemory);
        }
        asked = place_asked(&run.next);
        match step(table, &mut means.shelf, &mut run, steps) {
            Turned::GoesOn => {}
            Turned::Replied => {
                means.left = steps - run.taken;
                return reply_of(&run);
            }
            Turned::Spent => return Err(Stop::Spent),
            Turned::NoMemory => return Err(Stop::NoMemory),
        }
    }
}

// What a type says of an item, by turns.
pub(crate) fn type_by_turns<'i>(
    table: &Table,
    means: &mut Means<'i>,
    node: TypeId,
    place: usize,
    item: &'i Item,
) -> Said
    ensures { Says (language_of table.now) (M.OfType node place (view item.now)) means.old.left means.new.left (said_view result) }
{
    let question = Question::OfType {
        node,
        place,
        subject: Subject::Item(item),
    };
    match replied_by_turns(table, means, question) {
        // A type's yes leaves nothing, and tells no trials that failed.
        Ok(reply) => match reply {
            Reply::Takes { next, .. } => Said::Yes { next },
            Reply::Fails { far } => Said::No { far },
        },
        Err(Stop::Spent) => Said::Spent,
        Err(Stop::NoMemory) => Said::NoMemory,
    }
}
