//! What is asked next, one small step for each form of type and group.

ghost use Rattle.std.specs.Prelude.{◌≡◌, true};
ghost use Rattle.cbor_data.specs.Value.{place_count};
ghost use Rattle.item_nodes.specs.View.{view};
ghost use Rattle.cddl_meaning.specs.Judges.{is_over, one_less};
ghost use Rattle.cddl_meaning.specs.Forms.{members_in, tag_in, simple_in};
ghost use Rattle.cddl_meaning.specs.Moves as M;
ghost use Rattle.cddl_meaning.specs.Moves.{
  InAlternatives,
  InChoice,
  InEntry,
  InHead,
  InSequence,
  InSimple,
  OfGroup,
  OfType,
  array_move,
  array_reply,
  content_move,
  end_of_rounds,
  entry_move,
  first_move,
  group_move,
  next_alternative,
  next_member,
  next_move,
  simple_move,
  tag_move,
  test_reply,
  type_move,
  yes_reply,
};
ghost use Rattle.match_moves.specs.Views.{parts_move, pending_group_view, pending_type_view, pending_view, move_view, reply_view, round_move, rounds_move, values};
ghost use Rattle.match_tests.specs.Views.{subject_view};
ghost use Rattle.match_moves.specs.declared.questions.PendingGroup.TheVariants as P;
ghost use Rattle.match_moves.specs.declared.questions.Rounds.{Rounds};
ghost use Rattle.table_nodes.specs.declared.nodes.GroupId.{GroupId};
ghost use Rattle.table_nodes.specs.declared.nodes.TypeId.{TypeId};
ghost use Rattle.table_nodes.specs.Language.{language_of};
ghost use Rattle.table_nodes.specs.Nodes.{group_view, most_view, tag_number_view, type_view};

use crate::controls::{
    both_move, held_reply, holding_move, next_in_holder, next_in_left, next_in_such, such_move,
};
use crate::places::{place_after, plus};
use crate::questions::{
    Move, Parts, Pending, PendingGroup, PendingType, Question, Reply, Round, Rounds,
};
use crate::sorting::{map_move, next_of_map};
use item_nodes::Item;
use match_tests::{Subject, passes_test};
use std::mem;
use table_nodes::{Group, GroupId, Most, Node, Table, TagNumber, Test, TypeId};

// The place after an item, after one whose number is asked about, or after a byte string.
#[inline]
pub(crate) fn place_behind(place: usize, subject: Subject<'_>) -> usize
    ensures { result ≡ M.plus place (place_count (subject_view subject.entry)) }
{
    match subject {
        Subject::Item(item) => place_after(item, place),
        Subject::Number(_) | Subject::Bytes(_) => plus(place, 1),
    }
}

// A yes. It tells the place after the item, so that nobody counts the item's places a second time.
fn yes_reply<'i>(place: usize, subject: Subject<'i>) -> Reply<'i>
    ensures { reply_view result ≡ yes_reply place (subject_view subject.entry) }
{
    Reply::Takes {
        left: &[],
        next: place_behind(place, subject),
        far: 0,
    }
}

/// What a test replies that says this: it fails at the item.
#[inline]
pub fn said_reply<'i>(place: usize, subject: Subject<'i>, says: bool) -> Reply<'i>
    ensures { reply_view result ≡ test_reply place (subject_view subject.entry) says }
{
    if says {
        yes_reply(place, subject)
    } else {
        Reply::Fails { far: place }
    }
}

// The next member of a choice of types.
fn next_member<'t, 'i>(
    members: &'t [TypeId],
    place: usize,
    subject: Subject<'i>,
    far: usize,
    pending: &mut Pending<'t, 'i>,
) -> Move<'t, 'i>
    ensures { move_view result (pending_view pending.new) ≡ next_member members.now place (subject_view subject.entry) far }
{
    match members {
        [] => Move::Answered(Reply::Fails { far }),
        [member, others @ ..] => {
            *pending = Pending::Type(PendingType::Choice {
                members: others,
                place,
                subject,
                far,
            });
            Move::Asks(Question::OfType {
                node: *member,
                place,
                subject,
            })
        }
    }
}

// The next group of a sequence, with what the one before left.
fn another_part<'t, 'i>(left: Parts<'t, 'i>, pending: &mut Pending<'t, 'i>) -> Move<'t, 'i>
    ensures { move_view result (pending_view pending.new) ≡ parts_move left.entry }
{
    let Parts {
        base,
        place,
        items,
        far,
        ..
    } = left;
    match left.parts {
        [] => Move::Answered(Reply::Takes {
            left: items,
            next: place,
            far,
        }),
        [part, parts @ ..] => {
            *pending = Pending::Group(PendingGroup::Sequence { parts, base, far });
            Move::Asks(Question::OfGroup {
                group: *part,
                base,
                place,
                items,
            })
        }
    }
}

// The next group of a choice of groups, with the items that the ones before failed on.
fn next_alternative<'t, 'i>(
    parts: &'t [GroupId],
    base: usize,
    place: usize,
    items: &'i [Item],
    far: usize,
    pending: &mut Pending<'t, 'i>,
) -> Move<'t, 'i>
    ensures { move_view result (pending_view pending.new) ≡ next_alternative parts.now base place (values items.now) far }
{
    match parts {
        [] => Move::Answered(Reply::Fails { far }),
        [part, others @ ..] => {
            *pending = Pending::Group(PendingGroup::Alternatives {
                parts: others,
                base,
                place,
                items,
                far,
            });
            Move::Asks(Question::OfGroup {
                group: *part,
                base,
                place,
                items,
            })
        }
    }
}

/// Whether no round may follow.
pub fn is_over(most: Most) -> bool
    ensures { result ≡ is_over (most_view most) }
{
    matches!(most, Most::AtMost(0))
}

// The rounds that may follow after one more.
fn one_less(most: Most) -> Most
    ensures { most_view result ≡ one_less (most_view most) }
{
    match most {
        Most::AtMost(count) => Most::AtMost(count.saturating_sub(1)),
        Most::Any => Most::Any,
    }
}

// Another round of a repetition, unless there were as many as may be.
fn another_round<'t, 'i>(rounds: Rounds<'i>, pending: &mut Pending<'t, 'i>) -> Move<'t, 'i>
    ensures { move_view result (pending_view pending.new) ≡ rounds_move rounds.entry }
{
    let Rounds {
        group,
        base,
        place,
        items,
        ..
    } = rounds;
    if is_over(rounds.most) {
        return Move::Answered(Reply::Takes {
            left: items,
            next: place,
            far: rounds.far,
        });
    }
    *pending = Pending::Group(PendingGroup::Repeat(rounds));
    Move::Asks(Question::OfGroup {
        group,
        base,
        place,
        items,
    })
}

// An array asks its group of all of its items, the first of them at the place after its own.
#[tactic(auto, using(crate::proofs::Lists::members_of_values, crate::proofs::Lists::members_of_array))]
fn array_move<'t, 'i>(
    group: GroupId,
    place: usize,
    subject: Subject<'i>,
    pending: &mut Pending<'t, 'i>,
) -> Move<'t, 'i>
    ensures { move_view result (pending_view pending.new) ≡ array_move group place (members_in (subject_view subject.entry)) }
{
    match subject {
        Subject::Item(Item::Array(items)) => {
            *pending = Pending::Type(PendingType::Array);
            Move::Asks(Question::OfGroup {
                group,
                base: place,
                place: plus(place, 1),
                items,
            })
        }
        _ => Move::Answered(Reply::Fails { far: place }),
    }
}

// A tag asks about its content, whose place is after the tag's own.
fn content_move<'t, 'i>(
    node: TypeId,
    place: usize,
    content: &'i Item,
    pending: &mut Pending<'t, 'i>,
) -> Move<'t, 'i>
    ensures { move_view result (pending_view pending.new) ≡ content_move node place (view content.now) true }
{
    let place = plus(place, 1);
    let subject = Subject::Item(content);
    *pending = Pending::Ref;
    Move::Asks(Question::OfType {
        node,
        place,
        subject,
    })
}

// A tag asks about its content if its number is meant, and else fails.
fn content_move_if<'t, 'i>(
    is_meant: bool,
    node: TypeId,
    place: usize,
    content: &'i Item,
    pending: &mut Pending<'t, 'i>,
) -> Move<'t, 'i>
    ensures { move_view result (pending_view pending.new) ≡ content_move node place (view content.now) is_meant }
{
    if is_meant {
        return content_move(node, place, content, pending);
    }
    Move::Answered(Reply::Fails { far: place })
}

// A tag asks about its number first, then about its content.
fn tag_move<'t, 'i>(
    number: TagNumber,
    node: TypeId,
    place: usize,
    subject: Subject<'i>,
    pending: &mut Pending<'t, 'i>,
) -> Move<'t, 'i>
    ensures { move_view result (pending_view pending.new) ≡ tag_move (tag_number_view number) node place (tag_in (subject_view subject.entry)) }
{
    let (found, content) = match subject {
        Subject::Item(Item::Tag(found, content)) => (*found, content),
        _ => return Move::Answered(Reply::Fails { far: place }),
    };
    match number {
        TagNumber::Any => return content_move(node, place, content, pending),
        TagNumber::Exactly(wanted) => {
            return content_move_if(wanted == found, node, place, content, pending)
        }
        TagNumber::SuchAs(head) => {
            *pending = Pending::Type(PendingType::Head {
                node,
                place,
                content,
            });
            return Move::Asks(Question::OfType {
                node: head,
                place,
                subject: Subject::Number(found),
            });
        }
    }
}

// A simple value asks about its number, which has the value's own place.
fn simple_move<'t, 'i>(
    node: TypeId,
    place: usize,
    subject: Subject<'i>,
    pending: &mut Pending<'t, 'i>,
) -> Move<'t, 'i>
    ensures { move_view result (pending_view pending.new) ≡ simple_move node place (simple_in (subject_view subject.entry)) }
{
    match subject {
        Subject::Item(Item::Simple(number)) => {
            *pending = Pending::Type(PendingType::Simple { place });
            Move::Asks(Question::OfType {
                node,
                place,
                subject: Subject::Number(u64::from(*number)),
            })
        }
        _ => Move::Answered(Reply::Fails { far: place }),
    }
}

// What a type asks first, or its reply.
fn type_move<'t, 'i>(
    node: &'t Node,
    place: usize,
    subject: Subject<'i>,
    pending: &mut Pending<'t, 'i>,
) -> Move<'t, 'i>
    ensures { move_view result (pending_view pending.new) ≡ type_move (type_view node.now) place (subject_view subject.entry) }
{
    match node {
        Node::Plain(test) => {
            return Move::Answered(said_reply(place, subject, passes_test(test, subject)))
        }
        Node::Ref(to) => {
            *pending = Pending::Ref;
            return Move::Asks(Question::OfType {
                node: *to,
                place,
                subject,
            });
        }
        Node::Choice(members) => return next_member(members, place, subject, place, pending),
        Node::ArrayOf(group) => return array_move(*group, place, subject, pending),
        Node::TagOf(number, content) => return tag_move(*number, *content, place, subject, pending),
        Node::SimpleBy(head) => return simple_move(*head, place, subject, pending),
        Node::MapOf(alternatives) => return map_move(alternatives, place, subject, pending),
        Node::Both(left, right) => return both_move(*left, *right, place, subject, pending),
        Node::Such(of, test) => return such_move(*of, test, place, subject, pending),
        Node::Holding(of, content, node) => {
            return holding_move(*of, *content, *node, place, subject, pending)
        }
    }
}

// An entry asks about the first item. Where there is none, it fails at the array.
fn entry_move<'t, 'i>(
    node: TypeId,
    base: usize,
    place: usize,
    items: &'i [Item],
    pending: &mut Pending<'t, 'i>,
) -> Move<'t, 'i>
    ensures { move_view result (pending_view pending.new) ≡ entry_move node base place (values items.now) }
{
    match items {
        [] => Move::Answered(Reply::Fails { far: base }),
        [item, rest @ ..] => {
            *pending = Pending::Group(PendingGroup::Entry { base, rest });
            Move::Asks(Question::OfType {
                node,
                place,
                subject: Subject::Item(item),
            })
        }
    }
}

// What a group asks first, or its reply.
fn group_move<'t, 'i>(
    group: &'t Group,
    base: usize,
    place: usize,
    items: &'i [Item],
    pending: &mut Pending<'t, 'i>,
) -> Move<'t, 'i>
    ensures { move_view result (pending_view pending.new) ≡ group_move (group_view group.now) base place (values items.now) }
{
    match group {
        Group::Entry(node) => return entry_move(*node, base, place, items, pending),
        Group::Ref(to) => {
            *pending = Pending::Ref;
            return Move::Asks(Question::OfGroup {
                group: *to,
                base,
                place,
                items,
            });
        }
        Group::Sequence(parts) => {
            return another_part(Parts::new(parts, base, place, items), pending)
        }
        Group::Alternatives(parts) => {
            return next_alternative(parts, base, place, items, base, pending)
        }
        Group::Repeat { least, most, group } => {
            let rounds = Rounds::new(*least, *most, *group, base, place, items);
            return another_round(rounds, pending);
        }
    }
}

/// What a type asks first, or its reply.
pub fn first_of_type<'t, 'i>(
    table: &'t Table,
    node: TypeId,
    place: usize,
    subject: Subject<'i>,
    pending: &mut Pending<'t, 'i>,
) -> Move<'t, 'i>
    ensures { move_view result (pending_view pending.new) ≡ first_move (language_of table.now) (OfType node place (subject_view subject.entry)) }
{
    match table.node(node) {
        Some(node) => type_move(node, place, subject, pending),
        None => Move::Answered(Reply::Fails { far: place }),
    }
}

/// What a group asks first, or its reply.
pub fn first_of_group<'t, 'i>(
    table: &'t Table,
    group: GroupId,
    base: usize,
    place: usize,
    items: &'i [Item],
    pending: &mut Pending<'t, 'i>,
) -> Move<'t, 'i>
    ensures { move_view result (pending_view pending.new) ≡ first_move (language_of table.now) (OfGroup group base place (values items.now)) }
{
    match table.group(group) {
        Some(group) => group_move(group, base, place, items, pending),
        None => Move::Answered(Reply::Fails { far: base }),
    }
}

// An array's reply, by what its group did: the first item that is left shows a no.
fn array_reply(reply: Reply<'_>) -> Reply<'_>
    ensures { reply_view result ≡ array_reply (reply_view reply.entry) }
{
    match reply {
        // A yes tells no trials that failed.
        Reply::Takes { left: [], next, .. } => Reply::Takes {
            left: &[],
            next,
            far: 0,
        },
        Reply::Takes { next, far, .. } => Reply::Fails { far: far.max(next) },
        Reply::Fails { far } => Reply::Fails { far },
    }
}

// A member of a choice of types has replied: a yes is the choice's own, without what failed before.
fn next_in_choice<'t, 'i>(
    members: &'t [TypeId],
    place: usize,
    subject: Subject<'i>,
    far: usize,
    reply: Reply<'i>,
    pending: &mut Pending<'t, 'i>,
) -> Move<'t, 'i>
    ensures { move_view result (pending_view pending.new) ≡ next_move (InChoice members.now place (subject_view subject.entry) far) (reply_view reply.entry) }
{
    match reply {
        Reply::Takes { next, .. } => Move::Answered(Reply::Takes {
            left: &[],
            next,
            far: 0,
        }),
        Reply::Fails { far: later } => next_member(
            members,
            place,
            subject,
            far.max(later),
            pending,
        ),
    }
}

// The number of a tag is known to be meant, or not, which shows at the tag.
fn next_in_head<'t, 'i>(
    node: TypeId,
    place: usize,
    content: &'i Item,
    reply: Reply<'i>,
    pending: &mut Pending<'t, 'i>,
) -> Move<'t, 'i>
    ensures { move_view result (pending_view pending.new) ≡ next_move (InHead node place (view content.now)) (reply_view reply.entry) }
{
    match reply {
        Reply::Takes { .. } => return content_move(node, place, content, pending),
        Reply::Fails { .. } => return Move::Answered(Reply::Fails { far: place }),
    }
}

// The number of a simple value is known to be meant, or not.
fn simple_reply<'i>(place: usize, reply: Reply<'_>) -> Reply<'i>
    ensures { M.Answered (reply_view result) ≡ next_move {N = TypeId} {G = GroupId} (InSimple place) (reply_view reply.entry) }
{
    match reply {
        Reply::Takes { .. } => Reply::Takes {
            left: &[],
            next: plus(place, 1),
            far: 0,
        },
        Reply::Fails { .. } => Reply::Fails { far: place },
    }
}

/// What an entry does whose item has matched, or not.
#[inline]
pub fn entry_reply<'i>(base: usize, rest: &'i [Item], reply: Reply<'i>) -> Reply<'i>
    ensures { M.Answered (reply_view result) ≡ next_move {N = TypeId} {G = GroupId} (InEntry base (values rest.now)) (reply_view reply.entry) }
{
    match reply {
        Reply::Takes { next, .. } => Reply::Takes {
            left: rest,
            next,
            far: base,
        },
        Reply::Fails { far: later } => Reply::Fails {
            far: base.max(later),
        },
    }
}

// A group of a sequence has taken items, or failed: nothing is given back, so the sequence fails with it.
fn next_in_sequence<'t, 'i>(
    parts: &'t [GroupId],
    base: usize,
    far: usize,
    reply: Reply<'i>,
    pending: &mut Pending<'t, 'i>,
) -> Move<'t, 'i>
    ensures { move_view result (pending_view pending.new) ≡ next_move (InSequence parts.now base far) (reply_view reply.entry) }
{
    match reply {
        Reply::Takes {
            left,
            next,
            far: later,
        } => {
            let others = Parts {
                parts,
                base,
                place: next,
                items: left,
                far: far.max(later),
            };
            another_part(others, pending)
        }
        Reply::Fails { far: later } => Move::Answered(Reply::Fails {
            far: far.max(later),
        }),
    }
}

// A group of a choice of groups has taken items, and the choice is made; or it has failed.
fn next_in_alternatives<'t, 'i>(
    parts: &'t [GroupId],
    base: usize,
    place: usize,
    items: &'i [Item],
    far: usize,
    reply: Reply<'i>,
    pending: &mut Pending<'t, 'i>,
) -> Move<'t, 'i>
    ensures { move_view result (pending_view pending.new) ≡ next_move (InAlternatives parts.now base place (values items.now) far) (reply_view reply.entry) }
{
    match reply {
        Reply::Takes {
            left,
            next,
            far: later,
        } => Move::Answered(Reply::Takes {
            left,
            next,
            far: far.max(later),
        }),
        Reply::Fails { far: later } => {
            next_alternative(parts, base, place, items, far.max(later), pending)
        }
    }
}

// A round has failed: so does the repetition, unless there were enough rounds.
fn end_of_rounds<'i>(least: u64, items: &'i [Item], place: usize, far: usize) -> Reply<'i>
    ensures { M.Answered (reply_view result) ≡ end_of_rounds {N = TypeId} {G = GroupId} least (values items.now) place far }
{
    if least > 0 {
        return Reply::Fails { far };
    }
    Reply::Takes {
        left: items,
        next: place,
        far,
    }
}

/// A round has taken items, or failed.
#[inline]
pub fn after_round<'i>(rounds: Rounds<'i>, reply: Reply<'i>) -> Round<'i>
    ensures next { round_move result ≡ next_move (pending_group_view (P.Repeat rounds.entry)) (reply_view reply.entry) }
    ensures group { (others : Rounds) → result ≡ Round.Another others → others.group ≡ rounds.entry.group }
{
    let Rounds { place, items, .. } = rounds;
    let (left, next, far) = match reply {
        Reply::Fails { far } => {
            let far = rounds.far.max(far);
            return Round::Over(end_of_rounds(rounds.least, items, place, far));
        }
        Reply::Takes { left, next, far } => (left, next, rounds.far.max(far)),
    };
    // All rounds from here on would take no item either, so the minimum is met, and the repetition ends.
    if left.len() == items.len() {
        return Round::Over(Reply::Takes {
            left: items,
            next: place,
            far,
        });
    }
    Round::Another(Rounds {
        least: rounds.least.saturating_sub(1),
        most: one_less(rounds.most),
        place: next,
        items: left,
        far,
        ..rounds
    })
}

// What a repetition asks next after a round, or its reply.
fn next_in_repeat<'t, 'i>(
    rounds: Rounds<'i>,
    reply: Reply<'i>,
    pending: &mut Pending<'t, 'i>,
) -> Move<'t, 'i>
    ensures { move_view result (pending_view pending.new) ≡ next_move (pending_group_view (P.Repeat rounds.entry)) (reply_view reply.entry) }
{
    match after_round(rounds, reply) {
        Round::Another(others) => another_round(others, pending),
        Round::Over(reply) => Move::Answered(reply),
    }
}

// What a type that waits asks next, or its reply.
fn next_of_type<'t, 'i>(
    waits: PendingType<'t, 'i>,
    reply: Reply<'i>,
    pending: &mut Pending<'t, 'i>,
) -> Move<'t, 'i>
    ensures { move_view result (pending_view pending.new) ≡ next_move (pending_type_view waits.entry) (reply_view reply.entry) }
{
    match waits {
        PendingType::Choice {
            members,
            place,
            subject,
            far,
        } => return next_in_choice(members, place, subject, far, reply, pending),
        PendingType::Array => return Move::Answered(array_reply(reply)),
        PendingType::Head {
            node,
            place,
            content,
        } => return next_in_head(node, place, content, reply, pending),
        PendingType::Simple { place } => return Move::Answered(simple_reply(place, reply)),
        PendingType::Left {
            node,
            place,
            subject,
        } => return next_in_left(node, place, subject, reply, pending),
        PendingType::Such {
            test,
            place,
            subject,
        } => return next_in_such(test, place, subject, reply),
        PendingType::Holder {
            content,
            node,
            place,
            subject,
        } => return next_in_holder(content, node, place, subject, reply),
        PendingType::Held { place, next } => return Move::Answered(held_reply(place, next, reply)),
    }
}

// What a group that waits asks next, or its reply.
fn next_of_group<'t, 'i>(
    waits: PendingGroup<'t, 'i>,
    reply: Reply<'i>,
    pending: &mut Pending<'t, 'i>,
) -> Move<'t, 'i>
    ensures { move_view result (pending_view pending.new) ≡ next_move (pending_group_view waits.entry) (reply_view reply.entry) }
{
    match waits {
        PendingGroup::Entry { base, rest } => {
            return Move::Answered(entry_reply(base, rest, reply))
        }
        PendingGroup::Sequence { parts, base, far } => {
            return next_in_sequence(parts, base, far, reply, pending)
        }
        PendingGroup::Alternatives {
            parts,
            base,
            place,
            items,
            far,
        } => return next_in_alternatives(parts, base, place, items, far, reply, pending),
        PendingGroup::Repeat(rounds) => return next_in_repeat(rounds, reply, pending),
    }
}

/// What a question that waits asks next, or its reply, once it is told the reply to what it asked. What is to wait next stands
/// in the place of what has waited.
pub fn next_move<'t, 'i>(pending: &mut Pending<'t, 'i>, reply: Reply<'i>) -> Move<'t, 'i>
    ensures { move_view result (pending_view pending.new) ≡ next_move (pending_view pending.old) (reply_view reply.entry) }
{
    match mem::replace(pending, Pending::Ref) {
        Pending::Ref => return Move::Answered(reply),
        Pending::Type(waits) => return next_of_type(waits, reply, pending),
        Pending::Group(waits) => return next_of_group(waits, reply, pending),
        Pending::Map(waits) => return next_of_map(waits, reply, pending),
    }
}
