//! What types say of items and groups do with them, each question by a call of its own.

ghost use Rattle.std.specs.Prelude.{◌≡◌, Some};
ghost use Rattle.item_nodes.specs.View.{view};
ghost use Rattle.cddl_meaning.specs.Forms as F;
ghost use Rattle.cddl_meaning.specs.Moves as M;
ghost use Rattle.match_moves.specs.Views.{parts_move, rounds_move, values};
ghost use Rattle.cddl_match.specs.Choosing.{IsAsking, left_of};
ghost use Rattle.cddl_match.specs.Within.{Ends, Says, done_view, said_view};
ghost use Rattle.table_nodes.specs.Language.{language_of};
ghost use Rattle.table_nodes.specs.Nodes.{content_view, group_view, tag_number_view, test_view, type_view};

use crate::behind::{group_behind, type_behind};
use crate::calls::{Said, Stop};
use crate::choosing::Members;
use crate::deeper::{replied_by_turns, type_by_turns};
use crate::known::{counted_for, said_in, told_of};
use crate::looking::rounds_told;
use crate::mapping::map_says;
use crate::means::Means;
use crate::replies::{
    array_said, entry_done, held_said, may_test, simple_said, test_behind, test_says, tested,
};
use cbor_item::Item;
use match_held::{Cells, Shelf};
use match_moves::{
    Parts, Question, Reply, Round, Rounds, after_round, bytes_of, is_over, items_of, pairs_of,
    plus, simple_of,
};
use table_nodes::{Content, Group, GroupId, Node, Table, TagNumber, Test, Told, TypeId};

// What a type says of an item. Tests are asked where this is called, since most types that are asked in a loop are tests, or
// names of them. Calls are as deep as this, and what is deeper is asked by turns.
#[inline(always)]
#[cycle(saying)]
pub(crate) fn type_says_here<'i>(
    table: &Table,
    means: &mut Means<'i>,
    node: TypeId,
    place: usize,
    item: &'i Item,
    depth: u8,
) -> Said
    ensures { Says (language_of table.now) (M.OfType node place (view item.now)) means.old.left means.new.left (said_view result) }
{
    let told = told_of(table, node, item);
    if let Told::Yes(steps) = told {
        let said = said_in(means, true, steps, place, item);
        return counted_for(&mut means.shelf.allowance, place, said);
    }
    if let Told::No(steps) = told {
        return said_in(means, false, steps, place, item);
    }
    if let Some(Node::Plain(test)) = table.node(node) {
        if !may_test(&mut means.shelf.allowance, test, item) {
            return Said::NoMemory;
        }
        let said = test_says(means, test, place, item);
        return counted_for(&mut means.shelf.allowance, place, said);
    }
    if depth == 0 {
        return type_by_turns(table, means, node, place, item);
    }
    let behind = type_behind(table, node);
    let Some(left) = means.left.checked_sub(u64::from(behind.passed) + 1) else {
        return Said::Spent;
    };
    means.left = left;
    let Some(form) = behind.form else {
        return Said::No { far: place };
    };
    match form {
        Node::Plain(test) => {
            if !may_test(&mut means.shelf.allowance, test, item) {
                return Said::NoMemory;
            }
            let said = tested(test, place, item);
            counted_for(&mut means.shelf.allowance, place, said)
        }
        Node::Choice(members) => {
            let members = Members::of(table, behind.node, members, item);
            choice_says(table, means, members, place, item, depth - 1)
        }
        _ => form_says(table, means, behind.node, form, place, item, depth - 1),
    }
}

// What a type says of an item, by a call.
#[inline(never)]
#[cycle(saying)]
pub(crate) fn type_says<'i>(
    table: &Table,
    means: &mut Means<'i>,
    node: TypeId,
    place: usize,
    item: &'i Item,
    depth: u8,
) -> Said
    ensures { Says (language_of table.now) (M.OfType node place (view item.now)) means.old.left means.new.left (said_view result) }
{
    type_says_here(table, means, node, place, item, depth)
}

// What a type of this form says of an item.
#[inline(never)]
#[cycle(saying)]
fn form_says<'i>(
    table: &Table,
    means: &mut Means<'i>,
    node: TypeId,
    form: &Node,
    place: usize,
    item: &'i Item,
    depth: u8,
) -> Said
    requires { (language_of table.now).type_at node ≡ type_view form.now }
    ensures { Ends (language_of table.now) (M.type_move (type_view form.now) place (view item.now)) means.old.left means.new.left (said_view result) }
{
    match form {
        Node::Plain(test) => tested(test, place, item),
        Node::Ref(to) => type_says(table, means, *to, place, item, depth),
        Node::Choice(all) => choice_says(table, means, Members::all(all), place, item, depth),
        Node::ArrayOf(group) => array_says(table, means, *group, place, item, depth),
        Node::TagOf(number, node) => match item {
            Item::Tag(found, content) => {
                tag_says(table, means, *number, *node, place, *found, content, depth)
            }
            _ => Said::No { far: place },
        },
        Node::SimpleBy(head) => simple_says(table, means, *head, place, item, depth),
        Node::MapOf(alternatives) => match pairs_of(item) {
            Some(pairs) => map_says(table, means, node, alternatives, place, pairs, depth),
            None => Said::No { far: place },
        },
        Node::Both(left, right) => match type_says(table, means, *left, place, item, depth) {
            Said::Yes { .. } => type_says(table, means, *right, place, item, depth),
            said => said,
        },
        Node::Such(of, test) => such_says(table, means, *of, test, place, item, depth),
        Node::Holding(of, content, node) => {
            holding_says(table, means, *of, *content, *node, place, item, depth)
        }
    }
}

// The first yes of these types, asked in order.
#[inline(never)]
#[cycle(saying)]
fn choice_says<'i>(
    table: &Table,
    means: &mut Means<'i>,
    members: Members<'_>,
    place: usize,
    item: &'i Item,
    depth: u8,
) -> Said
    requires { IsAsking (language_of table.now) (view item.now) members }
    ensures { Ends (language_of table.now) (M.next_member (left_of members.entry) place (view item.now) place) means.old.left means.new.left (said_view result) }
{
    let mut far = place;
    let mut left = members;
    while let Some(member) = left.next(means) {
        match type_says_here(table, means, member, place, item, depth) {
            Said::No { far: later } => far = far.max(later),
            said => return said,
        }
    }
    left.said(far)
}

// What an array says by what its group does with all of its items.
#[inline]
#[cycle(saying)]
fn array_says<'i>(
    table: &Table,
    means: &mut Means<'i>,
    group: GroupId,
    place: usize,
    item: &'i Item,
    depth: u8,
) -> Said
    ensures { Ends (language_of table.now) (M.array_move group place (F.members_in (view item.now))) means.old.left means.new.left (said_view result) }
{
    match items_of(item) {
        Some(items) => {
            let first = plus(place, 1);
            array_said(group_does(table, means, group, place, first, items, depth))
        }
        None => Said::No { far: place },
    }
}

// What a simple value says by what is said of its number.
#[cycle(saying)]
fn simple_says(
    table: &Table,
    means: &mut Means<'_>,
    head: TypeId,
    place: usize,
    item: &Item,
    depth: u8,
) -> Said
    ensures { Ends (language_of table.now) (M.simple_move head place (F.simple_in (view item.now))) means.old.left means.new.left (said_view result) }
{
    match simple_of(item) {
        Some(number) => {
            let number = Item::Uint(number);
            simple_said(place, apart_says(table, means, head, place, number, depth))
        }
        None => Said::No { far: place },
    }
}

// A tag, whose number was found, is asked about that first, then about its content.
#[cycle(saying)]
fn tag_says<'i>(
    table: &Table,
    means: &mut Means<'i>,
    number: TagNumber,
    node: TypeId,
    place: usize,
    found: u64,
    content: &'i Item,
    depth: u8,
) -> Said
    ensures { Ends (language_of table.now) (M.tag_move (tag_number_view number) node place (Some (found, view content.now))) means.old.left means.new.left (said_view result) }
{
    let after = plus(place, 1);
    match number {
        TagNumber::Any => type_says(table, means, node, after, content, depth),
        TagNumber::Exactly(wanted) if wanted == found => {
            type_says(table, means, node, after, content, depth)
        }
        TagNumber::Exactly(_) => Said::No { far: place },
        TagNumber::SuchAs(head) => {
            let number = Item::Uint(found);
            match apart_says(table, means, head, place, number, depth) {
                Said::Yes { .. } => type_says(table, means, node, after, content, depth),
                Said::No { .. } => Said::No { far: place },
                said => said,
            }
        }
    }
}

// A type is asked before the test after it.
#[inline]
#[cycle(saying)]
fn such_says<'i>(
    table: &Table,
    means: &mut Means<'i>,
    of: TypeId,
    test: &Test,
    place: usize,
    item: &'i Item,
    depth: u8,
) -> Said
    ensures { Ends (language_of table.now) (M.type_move (F.Such of (test_view test.now)) place (view item.now)) means.old.left means.new.left (said_view result) }
{
    match type_says(table, means, of, place, item, depth) {
        Said::Yes { next } => test_behind(means, test, place, next, item),
        said => said,
    }
}

// A byte string's own type is asked first, then what the string holds.
#[inline]
#[cycle(saying)]
fn holding_says<'i>(
    table: &Table,
    means: &mut Means<'i>,
    of: TypeId,
    content: Content,
    node: TypeId,
    place: usize,
    item: &'i Item,
    depth: u8,
) -> Said
    ensures { Ends (language_of table.now) (M.type_move (F.Holding of (content_view content) node) place (view item.now)) means.old.left means.new.left (said_view result) }
{
    match type_says(table, means, of, place, item, depth) {
        Said::Yes { next } => held_says(table, means, content, node, place, next, item, depth),
        said => said,
    }
}

// What a byte string whose own type has said yes says by what it holds.
#[cycle(saying)]
fn held_says(
    table: &Table,
    means: &mut Means<'_>,
    content: Content,
    node: TypeId,
    place: usize,
    next: usize,
    item: &Item,
    depth: u8,
) -> Said
    ensures { Ends (language_of table.now) (M.read_move (content_view content) node place next (F.bytes_in (view item.now))) means.old.left means.new.left (said_view result) }
{
    let Some(bytes) = bytes_of(item) else {
        return Said::No { far: place };
    };
    match means.shelf.held(content, bytes) {
        Ok(Some(held)) => { held_said(place, next, apart_says(table, means, node, 0, held, depth)) }
        Ok(None) => Said::No { far: place },
        Err(_) => Said::NoMemory,
    }
}

// What a type says of an item that is no part of the stream's, and is let go of then.
#[cycle(saying)]
fn apart_says(
    table: &Table,
    means: &mut Means<'_>,
    node: TypeId,
    place: usize,
    item: Item,
    depth: u8,
) -> Said
    ensures { Says (language_of table.now) (M.OfType node place (view item)) means.old.left means.new.left (said_view result) }
{
    let alloc = means.shelf.alloc;
    let cells = Cells::new(alloc);
    let before = means.shelf.allowance;
    let left = means.left;
    let shelf = Shelf::with(alloc, &cells, before);
    let mut inner = Means { left, shelf };
    let said = type_says(table, &mut inner, node, place, &item, depth);
    means.left = inner.left;
    means.shelf.allowance = before.after(inner.shelf.allowance);
    said
}

// What a group does with items. Entries are asked where this is called, since most groups of a sequence are entries.
#[inline(always)]
#[cycle(saying)]
fn group_does_here<'i>(
    table: &Table,
    means: &mut Means<'i>,
    group: GroupId,
    base: usize,
    place: usize,
    items: &'i [Item],
    depth: u8,
) -> Result<Reply<'i>, Stop>
    ensures { Says (language_of table.now) (M.OfGroup group base place (values items.now)) means.old.left means.new.left (done_view result) }
{
    match table.group(group) {
        Some(Group::Entry(node)) => {
            let Some(left) = means.left.checked_sub(1) else {
                return Err(Stop::Spent);
            };
            means.left = left;
            entry_does(table, means, *node, base, place, items, depth)
        }
        _ => group_does(table, means, group, base, place, items, depth),
    }
}

// What an entry does with items: it takes the first one, if that is of its type.
#[inline(always)]
#[cycle(saying)]
fn entry_does<'i>(
    table: &Table,
    means: &mut Means<'i>,
    node: TypeId,
    base: usize,
    place: usize,
    items: &'i [Item],
    depth: u8,
) -> Result<Reply<'i>, Stop>
    ensures { Ends (language_of table.now) (M.entry_move node base place (values items.now)) means.old.left means.new.left (done_view result) }
{
    match items.split_first() {
        Some((item, rest)) => {
            let said = type_says_here(table, means, node, place, item, depth);
            entry_done(base, rest, said)
        }
        None => Ok(Reply::Fails { far: base }),
    }
}

// What a group does with items. Calls are as deep as this, and what is deeper is asked by turns.
#[cycle(saying)]
fn group_does<'i>(
    table: &Table,
    means: &mut Means<'i>,
    group: GroupId,
    base: usize,
    place: usize,
    items: &'i [Item],
    depth: u8,
) -> Result<Reply<'i>, Stop>
    ensures { Says (language_of table.now) (M.OfGroup group base place (values items.now)) means.old.left means.new.left (done_view result) }
{
    if depth == 0 {
        let question = Question::OfGroup {
            group,
            base,
            place,
            items,
        };
        return replied_by_turns(table, means, question);
    }
    let (behind, passed) = group_behind(table, group);
    let Some(left) = means.left.checked_sub(u64::from(passed) + 1) else {
        return Err(Stop::Spent);
    };
    means.left = left;
    match table.group(behind) {
        Some(form) => group_form_does(table, means, form, base, place, items, depth - 1),
        None => Ok(Reply::Fails { far: base }),
    }
}

// What a group of this form does with items.
#[cycle(saying)]
fn group_form_does<'i>(
    table: &Table,
    means: &mut Means<'i>,
    form: &Group,
    base: usize,
    place: usize,
    items: &'i [Item],
    depth: u8,
) -> Result<Reply<'i>, Stop>
    ensures { Ends (language_of table.now) (M.group_move (group_view form.now) base place (values items.now)) means.old.left means.new.left (done_view result) }
{
    match form {
        Group::Entry(node) => entry_does(table, means, *node, base, place, items, depth),
        Group::Ref(to) => group_does(table, means, *to, base, place, items, depth),
        Group::Sequence(parts) => {
            parts_do(table, means, Parts::new(parts, base, place, items), depth)
        }
        Group::Alternatives(parts) => {
            alternatives_do(table, means, parts, base, place, items, depth)
        }
        Group::Repeat { least, most, group } => {
            let rounds = Rounds::new(*least, *most, *group, base, place, items);
            rounds_do(table, means, rounds, depth)
        }
    }
}

// What a sequence does: each group with what the one before left.
#[cycle(saying)]
fn parts_do<'t, 'i>(
    table: &Table,
    means: &mut Means<'i>,
    parts: Parts<'t, 'i>,
    depth: u8,
) -> Result<Reply<'i>, Stop>
    ensures { Ends (language_of table.now) (parts_move parts.entry) means.old.left means.new.left (done_view result) }
{
    let mut left = parts;
    while let Some((part, others)) = left.parts.split_first() {
        match group_does_here(
            table, means, *part, left.base, left.place, left.items, depth,
        )? {
            Reply::Takes {
                left: items,
                next,
                far,
            } => {
                left = Parts {
                    parts: others,
                    place: next,
                    items,
                    far: left.far.max(far),
                    ..left
                };
            }
            Reply::Fails { far } => {
                return Ok(Reply::Fails {
                    far: left.far.max(far),
                });
            }
        }
    }
    Ok(Reply::Takes {
        left: left.items,
        next: left.place,
        far: left.far,
    })
}

// What a choice of groups does: the first of them that does not fail.
#[cycle(saying)]
fn alternatives_do<'i>(
    table: &Table,
    means: &mut Means<'i>,
    parts: &[GroupId],
    base: usize,
    place: usize,
    items: &'i [Item],
    depth: u8,
) -> Result<Reply<'i>, Stop>
    ensures { Ends (language_of table.now) (M.next_alternative parts.now base place (values items.now) base) means.old.left means.new.left (done_view result) }
{
    let mut far = base;
    let mut parts = parts;
    while let Some((part, others)) = parts.split_first() {
        match group_does(table, means, *part, base, place, items, depth)? {
            Reply::Takes {
                left,
                next,
                far: later,
            } => {
                return Ok(Reply::Takes {
                    left,
                    next,
                    far: far.max(later),
                });
            }
            Reply::Fails { far: later } => far = far.max(later),
        }
        parts = others;
    }
    Ok(Reply::Fails { far })
}

// What a repetition does: rounds until one fails, or as many as may be. Those that tests alone tell are not asked by calls.
#[cycle(saying)]
fn rounds_do<'i>(
    table: &Table,
    means: &mut Means<'i>,
    rounds: Rounds<'i>,
    depth: u8,
) -> Result<Reply<'i>, Stop>
    ensures { Ends (language_of table.now) (rounds_move rounds.entry) means.old.left means.new.left (done_view result) }
{
    let (round, asked) = rounds_told(table, rounds, means.left);
    means.left -= asked;
    let mut rounds = match round {
        Round::Another(rounds) => rounds,
        Round::Over(reply) => return Ok(reply),
    };
    while !is_over(rounds.most) {
        let Rounds {
            group,
            base,
            place,
            items,
            ..
        } = rounds;
        let reply = group_does(table, means, group, base, place, items, depth)?;
        match after_round(rounds, reply) {
            Round::Another(others) => rounds = others,
            Round::Over(reply) => return Ok(reply),
        }
    }
    Ok(Reply::Takes {
        left: rounds.items,
        next: rounds.place,
        far: rounds.far,
    })
}
