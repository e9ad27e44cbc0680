//! What controls ask next: `.and` and `.within`, tests after a type, and what byte strings hold.

ghost use Rattle.std.specs.Prelude.{◌≡◌};
ghost use Rattle.cddl_meaning.specs.Forms.{Both, Such, Holding, bits_asked, bytes_in, passes};
ghost use Rattle.cddl_meaning.specs.Moves as M;
ghost use Rattle.cddl_meaning.specs.Moves.{InHeld, InHolder, InLeft, InSuch, next_move, read_move, such_reply, tested_move, type_move};
ghost use Rattle.match_moves.specs.Views.{move_view, pending_view, reply_view, weighing_move};
ghost use Rattle.match_tests.specs.Views.{subject_view};
ghost use Rattle.table_nodes.specs.declared.nodes.GroupId.{GroupId};
ghost use Rattle.table_nodes.specs.declared.nodes.TypeId.{TypeId};
ghost use Rattle.table_nodes.specs.Nodes.{content_view, test_view};

use crate::questions::{Move, Pending, PendingType, Question, Reading, Reply, Weighing};
use item_nodes::Item;
use match_tests::{Subject, passes_test};
use table_nodes::{Content, Test, TypeId};

// Of two types the left one is asked first.
pub(crate) fn both_move<'t, 'i>(
    left: TypeId,
    right: TypeId,
    place: usize,
    subject: Subject<'i>,
    pending: &mut Pending<'t, 'i>,
) -> Move<'t, 'i>
    ensures { move_view result (pending_view pending.new) ≡ type_move (Both left right) place (subject_view subject.entry) }
{
    *pending = Pending::Type(PendingType::Left {
        node: right,
        place,
        subject,
    });
    Move::Asks(Question::OfType {
        node: left,
        place,
        subject,
    })
}

// The type is asked before its test.
pub(crate) fn such_move<'t, 'i>(
    node: TypeId,
    test: &'t Test,
    place: usize,
    subject: Subject<'i>,
    pending: &mut Pending<'t, 'i>,
) -> Move<'t, 'i>
    ensures { move_view result (pending_view pending.new) ≡ type_move (Such node (test_view test.now)) place (subject_view subject.entry) }
{
    *pending = Pending::Type(PendingType::Such {
        test,
        place,
        subject,
    });
    Move::Asks(Question::OfType {
        node,
        place,
        subject,
    })
}

// A byte string's own type is asked before what the string holds.
pub(crate) fn holding_move<'t, 'i>(
    of: TypeId,
    content: Content,
    node: TypeId,
    place: usize,
    subject: Subject<'i>,
    pending: &mut Pending<'t, 'i>,
) -> Move<'t, 'i>
    ensures { move_view result (pending_view pending.new) ≡ type_move (Holding of (content_view content) node) place (subject_view subject.entry) }
{
    *pending = Pending::Type(PendingType::Holder {
        content,
        node,
        place,
        subject,
    });
    Move::Asks(Question::OfType {
        node: of,
        place,
        subject,
    })
}

// The left one of two types has said yes, and the right one is asked of the same item; or it has said no, for both.
pub(crate) fn next_in_left<'t, 'i>(
    node: TypeId,
    place: usize,
    subject: Subject<'i>,
    reply: Reply<'i>,
    pending: &mut Pending<'t, 'i>,
) -> Move<'t, 'i>
    ensures { move_view result (pending_view pending.new) ≡ next_move (InLeft node place (subject_view subject.entry)) (reply_view reply.entry) }
{
    match reply {
        Reply::Takes { .. } => {
            *pending = Pending::Ref;
            Move::Asks(Question::OfType {
                node,
                place,
                subject,
            })
        }
        Reply::Fails { far } => Move::Answered(Reply::Fails { far }),
    }
}

// The reply of a test after a type that has said yes.
#[inline(always)]
fn such_reply<'i>(test: &Test, place: usize, next: usize, subject: Subject<'_>) -> Reply<'i>
    ensures { reply_view result ≡ such_reply place next (passes (test_view test.now) (subject_view subject.entry)) }
{
    if passes_test(test, subject) {
        Reply::Takes {
            left: &[],
            next,
            far: 0,
        }
    } else {
        Reply::Fails { far: place }
    }
}

// A type has said yes, and the item has to pass the test. The bits of an item are weighed before that.
#[inline(always)]
fn tested_move<'t, 'i>(
    test: &'t Test,
    place: usize,
    next: usize,
    subject: Subject<'i>,
) -> Move<'t, 'i>
    ensures { (o : M.Pending TypeId GroupId) → move_view result o ≡ tested_move (test_view test.now) place next (subject_view subject.entry) }
{
    match test {
        Test::Bits(_) => Move::Weighs(Weighing {
            test,
            subject,
            place,
            next,
        }),
        _ => Move::Answered(such_reply(test, place, next, subject)),
    }
}

// A type has said yes, and its test is next; or it has said no.
pub(crate) fn next_in_such<'t, 'i>(
    test: &'t Test,
    place: usize,
    subject: Subject<'i>,
    reply: Reply<'i>,
) -> Move<'t, 'i>
    ensures { (o : M.Pending TypeId GroupId) → move_view result o ≡ next_move (InSuch (test_view test.now) place (subject_view subject.entry)) (reply_view reply.entry) }
{
    match reply {
        Reply::Takes { next, .. } => tested_move(test, place, next, subject),
        Reply::Fails { far } => Move::Answered(Reply::Fails { far }),
    }
}

/// The reply of a test whose bits were weighed.
pub fn weighed_reply<'i>(weighing: Weighing<'_, '_>) -> Reply<'i>
    ensures { weighing_move weighing.entry ≡ M.Weighs (bits_asked (test_view weighing.entry.test.now) (subject_view weighing.entry.subject)) (reply_view result) }
{
    such_reply(
        weighing.test,
        weighing.place,
        weighing.next,
        weighing.subject,
    )
}

// A byte string is read. Another item holds nothing.
fn read_move<'t, 'i>(
    content: Content,
    node: TypeId,
    place: usize,
    next: usize,
    subject: Subject<'i>,
) -> Move<'t, 'i>
    ensures { (o : M.Pending TypeId GroupId) → move_view result o ≡ read_move (content_view content) node place next (bytes_in (subject_view subject.entry)) }
{
    let bytes = match subject {
        Subject::Item(Item::Bytes(bytes)) => bytes.as_slice(),
        Subject::Bytes(bytes) => bytes,
        _ => return Move::Answered(Reply::Fails { far: place }),
    };
    Move::Reads(Reading {
        content,
        bytes,
        node,
        place,
        next,
    })
}

// A byte string's own type has said yes, and what the string holds is asked about; or it has said no.
pub(crate) fn next_in_holder<'t, 'i>(
    content: Content,
    node: TypeId,
    place: usize,
    subject: Subject<'i>,
    reply: Reply<'i>,
) -> Move<'t, 'i>
    ensures { (o : M.Pending TypeId GroupId) → move_view result o ≡ next_move (InHolder (content_view content) node place (subject_view subject.entry)) (reply_view reply.entry) }
{
    match reply {
        Reply::Takes { next, .. } => return read_move(content, node, place, next, subject),
        Reply::Fails { far } => return Move::Answered(Reply::Fails { far }),
    }
}

// What a byte string holds is as it has to be; or it is not, which shows at the string.
pub(crate) fn held_reply<'i>(place: usize, next: usize, reply: Reply<'_>) -> Reply<'i>
    ensures { M.Answered (reply_view result) ≡ next_move {N = TypeId} {G = GroupId} (InHeld place next) (reply_view reply.entry) }
{
    match reply {
        Reply::Takes { .. } => Reply::Takes {
            left: &[],
            next,
            far: 0,
        },
        Reply::Fails { .. } => Reply::Fails { far: place },
    }
}
