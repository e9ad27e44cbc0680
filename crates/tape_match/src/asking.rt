//! What types say of items on a tape, and what groups do with them, each question by a call of its own.
ghost use Rattle.std.specs.Prelude.{◌≡◌, ◌<◌, ◌≤◌, ℕ, IfSome, IsTrue, Option, Some, true};
ghost use Rattle.cbor_data.specs.Value.{Value};
ghost use Rattle.cbor_tape.specs.Places.{IsAt};
ghost use Rattle.cbor_tape.specs.Tape.{IsWholeTape};
ghost use Rattle.cddl_meaning.specs.Forms as F;
ghost use Rattle.cddl_meaning.specs.Judges.{Yes, one_less};
ghost use Rattle.table_nodes.specs.declared.nodes.GroupId.{GroupId as G};
ghost use Rattle.table_nodes.specs.declared.nodes.TypeId.{TypeId as N};
ghost use Rattle.table_nodes.specs.Language.{RootSays, language_of};
ghost use Rattle.table_nodes.specs.Nodes.{group_view, most_view, tag_number_view, test_view, type_view};
ghost use Rattle.tape_match.specs.Says.{DoesAs, FormSays, IsMeant, SaysAs};
ghost use Rattle.tape_match.specs.Told.{IsDoneWithin, IsFormTold, IsFormToldAt, IsGroupToldAt, IsHeldTold, IsWithin};

use crate::leaf::{seen_passes, tested};
use crate::pairs::map_tells;
use crate::told::{
    Asked, Does, Spare, Tells, more_done, more_told, one_more, one_more_done, within,
};
use cbor_tape::{Entry, Seen, Taped, whole_tape};
use match_moves::is_over;
use table_nodes::{Content, Group, GroupId, Most, Node, Table, TagNumber, Test, Told, TypeId};

/// Questions are asked so deep, each by a call of its own.
const MOST_CALLS: u8 = 64;

/// What byte strings hold is read so often, as if each byte of the whole were in one.
const READINGS: usize = 16;

/// What a byte string holds has at most so many levels.
const MOST_HELD_LEVELS: u32 = 256;

/// What a byte string of more bytes holds is not told.
const LONGEST_HELD: usize = 1 << 16;

/// So many names in a row are gone through at once.
const MOST_NAMES: u64 = 16;

/// Choices of so many types are not gone through: a table may have an index of them.
const MANY: usize = 16;

/// Whether the table's root type says yes to the item that the tape stands for, in at most so many judgements. `false` says
/// nothing: that it says yes may only not be told by the tape alone. What byte strings hold has its tape on `spare`.
///
/// No memory is asked for. What is deeper than 64 questions is not told, and neither are sequences in byte strings, strings in
/// chunks, choices of 16 types or more, maps with alternatives of more than 16 entries, and an item with strings of more bytes to
/// read in all, each time anew, than 16 times its own, or with more in each other than two thirds of the entries of `spare`.
#[inline]
pub fn accepts(table: &Table, bytes: &[u8], tape: &[Entry], spare: &mut [Entry], steps: u64) -> bool
    ensures { IsTrue result → (depth n : ℕ) (whole : IsWholeTape depth bytes.now tape.now n) → (w : ℕ) × RootSays table.now whole.value Yes w × (w ≤ steps) }
{
    let on = Asked {
        table,
        taped: Taped::new(bytes, tape),
    };
    let mut spare = Spare {
        tape: spare,
        left: bytes.len().saturating_mul(READINGS),
        fronts: 0,
    };
    match type_tells(&on, &mut spare, table.root(), 0, MOST_CALLS, steps) {
        Tells::Yes(_) => true,
        _ => false,
    }
}

// What a type says of the item at the place.
#[cycle(asking)]
#[inline(always)]
fn type_tells(
    on: &Asked<'_, '_>,
    spare: &mut Spare<'_>,
    node: TypeId,
    place: usize,
    depth: u8,
    most: u64,
) -> Tells
    ensures told { IsFormToldAt (language_of on.now.table.now) ((language_of on.now.table.now).type_at node) on.now.taped place result }
    ensures within { IsWithin most result }
{
    let Some(major) = on.taped.major(place) else {
        return Tells::Nothing;
    };
    match on.table.told(node, major) {
        Told::Yes(asked) => within(true, u64::from(asked), most),
        Told::No(asked) => within(false, u64::from(asked), most),
        Told::Nothing => {
            if depth == 0 || most == 0 {
                return Tells::Nothing;
            }
            form_tells(on, spare, node, place, depth - 1, most)
        }
    }
}

// The same of a key or a value of a map. That need not be part of the code for maps.
#[cycle(asking)]
#[inline]
pub(crate) fn part_tells(
    on: &Asked<'_, '_>,
    spare: &mut Spare<'_>,
    node: TypeId,
    place: usize,
    depth: u8,
    most: u64,
) -> Tells
    ensures told { IsFormToldAt (language_of on.now.table.now) ((language_of on.now.table.now).type_at node) on.now.taped place result }
    ensures within { IsWithin most result }
{
    type_tells(on, spare, node, place, depth, most)
}

// The type that a name or a choice of one type stands for.
#[inline(always)]
fn type_named(form: &Node) -> Option<TypeId>
    ensures says { IfSome result (λ to. (l : F.Language N G) → SaysAs l (type_view form.now) (l.type_at to) 1) }
    ensures keyed { IfSome result (λ to. (next : N → Option Value) → F.key_by next (type_view form.now) ≡ next to) }
{
    match form {
        Node::Ref(to) => Some(*to),
        Node::Choice(members) => match members.as_slice() {
            [member] => Some(*member),
            _ => None,
        },
        _ => None,
    }
}

// The type that a type stands for by its names, and how many these are: through 16 at most.
#[inline(always)]
pub(crate) fn behind_names(table: &Table, node: TypeId) -> (TypeId, u64)
    ensures stands { SaysAs (language_of table.now) ((language_of table.now).type_at node) ((language_of table.now).type_at result.0) result.1 }
    ensures keyed { (v : Value) → (language_of table.now).type_at result.0 ≡ F.Plain (F.equals v) → F.key_in (language_of table.now).type_at F.most_forms node ≡ Some v }
    ensures few { result.1 ≤ 16 }
{
    let mut at = node;
    let mut names = 0;
    while names < MOST_NAMES {
        match table.node(at) {
            Some(form) => match type_named(form) {
                Some(to) => {
                    at = to;
                    names += 1;
                }
                None => return (at, names),
            },
            None => return (at, names),
        }
    }
    (at, names)
}

// The same, by the form of the type that its names stand for, each of which takes a judgement.
#[cycle(asking)]
#[inline(never)]
fn form_tells(
    on: &Asked<'_, '_>,
    spare: &mut Spare<'_>,
    node: TypeId,
    place: usize,
    depth: u8,
    most: u64,
) -> Tells
    requires { 0 < most }
    ensures told { IsFormToldAt (language_of on.now.table.now) ((language_of on.now.table.now).type_at node) on.now.taped place result }
    ensures within { IsWithin most result }
{
    let (named, names) = behind_names(on.table, node);
    if names >= most {
        return Tells::Nothing;
    }
    let left = most - names;
    let told = own_form_tells(on, spare, named, place, depth, left);
    more_told(told, names, left)
}

// The same, by the type's own form.
#[cycle(asking)]
#[inline(always)]
fn own_form_tells(
    on: &Asked<'_, '_>,
    spare: &mut Spare<'_>,
    node: TypeId,
    place: usize,
    depth: u8,
    most: u64,
) -> Tells
    requires { 0 < most }
    ensures told { IsFormToldAt (language_of on.now.table.now) ((language_of on.now.table.now).type_at node) on.now.taped place result }
    ensures within { IsWithin most result }
{
    let Some(form) = on.table.node(node) else {
        return Tells::Nothing;
    };
    let left = most - 1;
    match form {
        Node::Plain(test) => test_tells(test, on, place),
        Node::Ref(to) => one_more(type_tells(on, spare, *to, place, depth, left), left),
        Node::Choice(members) => choice_tells(on, spare, members, place, depth, most),
        Node::ArrayOf(group) => array_tells(on, spare, *group, place, depth, most),
        Node::TagOf(number, content) => {
            tag_tells(on, spare, *number, *content, place, depth, most)
        }
        Node::MapOf(ways) => map_tells(on, spare, node, ways, place, depth, most),
        Node::Both(first, second) => both_tell(on, spare, *first, *second, place, depth, most),
        Node::Such(of, test) => such_tells(on, spare, *of, test, place, depth, most),
        Node::Holding(of, Content::OneItem, held) => {
            holder_tells(on, spare, *of, *held, place, depth, most)
        }
        Node::SimpleBy(_) | Node::Holding(_, Content::Sequence, _) => Tells::Nothing,
    }
}

// What a test says, in one judgement.
#[inline(always)]
fn test_tells(test: &Test, on: &Asked<'_, '_>, place: usize) -> Tells
    ensures told { (l : F.Language N G) → IsFormToldAt l (F.Plain (test_view test.now)) on.now.taped place result }
    ensures within { IsWithin 1 result }
{
    let Some(seen) = on.taped.seen(place) else {
        return Tells::Nothing;
    };
    let Some(says) = seen_passes(test, seen) else {
        return Tells::Nothing;
    };
    within(says, 1, 1)
}

// The first yes of these types, asked in order.
#[cycle(asking)]
#[inline(always)]
fn choice_tells(
    on: &Asked<'_, '_>,
    spare: &mut Spare<'_>,
    members: &[TypeId],
    place: usize,
    depth: u8,
    most: u64,
) -> Tells
    requires { 0 < most }
    ensures told { IsFormToldAt (language_of on.now.table.now) (F.Choice members.now) on.now.taped place result }
    ensures within { IsWithin most result }
{
    if members.len() >= MANY {
        return Tells::Nothing;
    }
    let mut asked = 1;
    let mut left = members;
    while let Some((member, others)) = left.split_first() {
        match type_tells(on, spare, *member, place, depth, most - asked) {
            Tells::Yes(more) => return Tells::Yes(asked + more),
            Tells::No(more) => asked += more,
            Tells::Nothing => return Tells::Nothing,
        }
        left = others;
    }
    Tells::No(asked)
}

// What an array says by what its group does with all of its members.
#[cycle(asking)]
fn array_tells(
    on: &Asked<'_, '_>,
    spare: &mut Spare<'_>,
    group: GroupId,
    place: usize,
    depth: u8,
    most: u64,
) -> Tells
    requires { 0 < most }
    ensures told { IsFormToldAt (language_of on.now.table.now) (F.ArrayOf group) on.now.taped place result }
    ensures within { IsWithin most result }
{
    let Some(Seen::Array { first, end }) = on.taped.seen(place) else {
        return Tells::Nothing;
    };
    match group_does(on, spare, group, first, end, depth, most - 1) {
        Does::Takes { next, asked } => match on.taped.first(next, end) {
            None => Tells::Yes(1 + asked),
            Some(_) => Tells::No(1 + asked),
        },
        Does::Fails(asked) => Tells::No(1 + asked),
        Does::Nothing => Tells::Nothing,
    }
}

// What a tag says by its number and its content.
#[cycle(asking)]
fn tag_tells(
    on: &Asked<'_, '_>,
    spare: &mut Spare<'_>,
    wanted: TagNumber,
    node: TypeId,
    place: usize,
    depth: u8,
    most: u64,
) -> Tells
    requires { 0 < most }
    ensures told { IsFormToldAt (language_of on.now.table.now) (F.TagOf (tag_number_view wanted) node) on.now.taped place result }
    ensures within { IsWithin most result }
{
    let Some(Seen::Tag { number, content }) = on.taped.seen(place) else {
        return Tells::Nothing;
    };
    let left = most - 1;
    match is_meant(wanted, number) {
        Some(true) => one_more(type_tells(on, spare, node, content, depth, left), left),
        Some(false) => Tells::No(1),
        None => Tells::Nothing,
    }
}

// Whether the number of a tag is meant, where no type has to be asked about it.
#[inline(always)]
fn is_meant(wanted: TagNumber, number: u64) -> Option<bool>
    ensures { IfSome result (λ says. IsMeant (tag_number_view wanted) number says) }
{
    match wanted {
        TagNumber::Any => Some(true),
        TagNumber::Exactly(wanted) => Some(wanted == number),
        TagNumber::SuchAs(_) => None,
    }
}

// Two types, of which the left is asked first, and the right where it says yes.
#[cycle(asking)]
fn both_tell(
    on: &Asked<'_, '_>,
    spare: &mut Spare<'_>,
    first: TypeId,
    second: TypeId,
    place: usize,
    depth: u8,
    most: u64,
) -> Tells
    requires { 0 < most }
    ensures told { IsFormToldAt (language_of on.now.table.now) (F.Both first second) on.now.taped place result }
    ensures within { IsWithin most result }
{
    let left = most - 1;
    match type_tells(on, spare, first, place, depth, left) {
        Tells::Yes(asked) => match type_tells(on, spare, second, place, depth, left - asked) {
            Tells::Yes(more) => Tells::Yes(1 + (asked + more)),
            Tells::No(more) => Tells::No(1 + (asked + more)),
            Tells::Nothing => Tells::Nothing,
        },
        Tells::No(asked) => Tells::No(1 + asked),
        Tells::Nothing => Tells::Nothing,
    }
}

// A type, and a test after it.
#[cycle(asking)]
fn such_tells(
    on: &Asked<'_, '_>,
    spare: &mut Spare<'_>,
    of: TypeId,
    test: &Test,
    place: usize,
    depth: u8,
    most: u64,
) -> Tells
    requires { 0 < most }
    ensures told { IsFormToldAt (language_of on.now.table.now) (F.Such of (test_view test.now)) on.now.taped place result }
    ensures within { IsWithin most result }
{
    let left = most - 1;
    match type_tells(on, spare, of, place, depth, left) {
        Tells::Yes(asked) => test_after(on, test, place, asked, most),
        Tells::No(asked) => Tells::No(1 + asked),
        Tells::Nothing => Tells::Nothing,
    }
}

// The same of an item to which the type before the test has said yes, in so many judgements.
#[inline(always)]
fn test_after(on: &Asked<'_, '_>, test: &Test, place: usize, asked: u64, most: u64) -> Tells
    requires { asked < most }
    ensures told { (l : F.Language N G) (of : N) (x : Value) → FormSays l (l.type_at of) x true asked → IsAt on.now.taped place x → IsFormTold l (F.Such of (test_view test.now)) x result }
    ensures within { IsWithin most result }
{
    let Some(seen) = on.taped.seen(place) else {
        return Tells::Nothing;
    };
    let Some(told) = tested(test, seen, most - asked - 1) else {
        return Tells::Nothing;
    };
    within(told.says, 1 + (asked + told.bits), most)
}

// A type, and one of the item that the byte string at the place holds.
#[cycle(asking)]
#[inline(always)]
fn holder_tells(
    on: &Asked<'_, '_>,
    spare: &mut Spare<'_>,
    of: TypeId,
    node: TypeId,
    place: usize,
    depth: u8,
    most: u64,
) -> Tells
    requires { 0 < most }
    ensures told { IsFormToldAt (language_of on.now.table.now) (F.Holding of F.one_item node) on.now.taped place result }
    ensures within { IsWithin most result }
{
    let Some(Seen::Bytes(bytes)) = on.taped.seen(place) else {
        return Tells::Nothing;
    };
    let left = most - 1;
    let asked = match type_tells(on, spare, of, place, depth, left) {
        Tells::Yes(asked) => asked,
        Tells::No(asked) => return Tells::No(1 + asked),
        Tells::Nothing => return Tells::Nothing,
    };
    if bytes.is_empty() {
        return Tells::No(1 + asked);
    }
    match held_tells(on.table, bytes, spare, node, depth, left - asked) {
        Tells::Yes(inner) => Tells::Yes(1 + (asked + inner)),
        Tells::No(inner) => Tells::No(1 + (asked + inner)),
        Tells::Nothing => Tells::Nothing,
    }
}

// What a type says of the item that a byte string of these bytes holds.
#[cycle(asking)]
fn held_tells(
    table: &Table,
    bytes: &[u8],
    spare: &mut Spare<'_>,
    node: TypeId,
    depth: u8,
    most: u64,
) -> Tells
    ensures told { IsHeldTold (language_of table.now) ((language_of table.now).type_at node) bytes.now result }
    ensures within { IsWithin most result }
{
    if bytes.len() > LONGEST_HELD || bytes.len() > spare.left {
        return Tells::Nothing;
    }
    let room = bytes.len() + bytes.len() / 2;
    if room > spare.tape.len() {
        return Tells::Nothing;
    }
    let (front, rest) = spare.tape.split_at_mut(room);
    match whole_tape(bytes, MOST_HELD_LEVELS, front) {
        Some(end) if end == bytes.len() => {}
        _ => return Tells::Nothing,
    }
    let mut inner = Spare {
        tape: rest,
        left: spare.left - bytes.len(),
        fronts: spare.fronts,
    };
    let held = Asked {
        table,
        taped: Taped::new(bytes, front),
    };
    let told = type_tells(&held, &mut inner, node, 0, depth, most);
    spare.left = inner.left;
    spare.fronts = inner.fronts;
    told
}

// The group that a name, or a choice or a sequence of one group, stands for.
#[inline(always)]
fn group_named(form: &Group) -> Option<GroupId>
    ensures { IfSome result (λ to. (l : F.Language N G) → DoesAs l (group_view form.now) (l.group_at to) 1) }
{
    match form {
        Group::Ref(to) => Some(*to),
        Group::Sequence(parts) => match parts.as_slice() {
            [part] => Some(*part),
            _ => None,
        },
        Group::Alternatives(parts) => match parts.as_slice() {
            [part] => Some(*part),
            _ => None,
        },
        _ => None,
    }
}

// The group that a group stands for by its names, and how many these are: through 16 at most.
#[inline(always)]
fn behind_group_names(table: &Table, group: GroupId) -> (GroupId, u64)
    ensures stands { DoesAs (language_of table.now) ((language_of table.now).group_at group) ((language_of table.now).group_at result.0) result.1 }
    ensures few { result.1 ≤ 16 }
{
    let mut at = group;
    let mut names = 0;
    while names < MOST_NAMES {
        match table.group(at) {
            Some(form) => match group_named(form) {
                Some(to) => {
                    at = to;
                    names += 1;
                }
                None => return (at, names),
            },
            None => return (at, names),
        }
    }
    (at, names)
}

// What a group does with the items that have the places from this one up to `end`, by the form of the group that its names stand
// for, each of which takes a judgement.
#[cycle(asking)]
fn group_does(
    on: &Asked<'_, '_>,
    spare: &mut Spare<'_>,
    group: GroupId,
    place: usize,
    end: usize,
    depth: u8,
    most: u64,
) -> Does
    ensures told { IsGroupToldAt (language_of on.now.table.now) ((language_of on.now.table.now).group_at group) on.now.taped place end result }
    ensures within { IsDoneWithin most result }
{
    let (named, names) = behind_group_names(on.table, group);
    if names >= most {
        return Does::Nothing;
    }
    let left = most - names;
    let done = own_group_does(on, spare, named, place, end, depth, left);
    more_done(done, names, left)
}

// The same, by the group's own form.
#[cycle(asking)]
#[inline(always)]
fn own_group_does(
    on: &Asked<'_, '_>,
    spare: &mut Spare<'_>,
    group: GroupId,
    place: usize,
    end: usize,
    depth: u8,
    most: u64,
) -> Does
    ensures told { IsGroupToldAt (language_of on.now.table.now) ((language_of on.now.table.now).group_at group) on.now.taped place end result }
    ensures within { IsDoneWithin most result }
{
    if depth == 0 || most == 0 {
        return Does::Nothing;
    }
    let Some(form) = on.table.group(group) else {
        return Does::Nothing;
    };
    let depth = depth - 1;
    let left = most - 1;
    match form {
        Group::Entry(node) => entry_does(on, spare, *node, place, end, depth, most),
        Group::Ref(to) => {
            one_more_done(group_does(on, spare, *to, place, end, depth, left), left)
        }
        Group::Sequence(parts) => sequence_does(on, spare, parts, place, end, depth, most),
        Group::Alternatives(parts) => alternatives_do(on, spare, parts, place, end, depth, most),
        Group::Repeat {
            least,
            most: times,
            group,
        } => { rounds_do(on, spare, *least, *times, *group, place, end, depth, most) }
    }
}

// An entry takes the first item, if that is of its type.
#[cycle(asking)]
#[inline(always)]
fn entry_does(
    on: &Asked<'_, '_>,
    spare: &mut Spare<'_>,
    node: TypeId,
    place: usize,
    end: usize,
    depth: u8,
    most: u64,
) -> Does
    requires { 0 < most }
    ensures told { IsGroupToldAt (language_of on.now.table.now) (F.Entry node) on.now.taped place end result }
    ensures within { IsDoneWithin most result }
{
    let Some(next) = on.taped.first(place, end) else {
        return Does::Fails(1);
    };
    match type_tells(on, spare, node, place, depth, most - 1) {
        Tells::Yes(asked) => Does::Takes {
            next,
            asked: 1 + asked,
        },
        Tells::No(asked) => Does::Fails(1 + asked),
        Tells::Nothing => Does::Nothing,
    }
}

// What a part of a sequence does. Most are entries.
#[cycle(asking)]
#[inline(always)]
fn part_does(
    on: &Asked<'_, '_>,
    spare: &mut Spare<'_>,
    part: GroupId,
    place: usize,
    end: usize,
    depth: u8,
    most: u64,
) -> Does
    ensures told { IsGroupToldAt (language_of on.now.table.now) ((language_of on.now.table.now).group_at part) on.now.taped place end result }
    ensures within { IsDoneWithin most result }
{
    match on.table.group(part) {
        Some(Group::Entry(node)) if most > 0 => {
            entry_does(on, spare, *node, place, end, depth, most)
        }
        _ => group_does(on, spare, part, place, end, depth, most),
    }
}

// What a group does that stands for this one by so many names.
#[cycle(asking)]
#[inline(always)]
fn named_does(
    on: &Asked<'_, '_>,
    spare: &mut Spare<'_>,
    named: GroupId,
    names: u64,
    place: usize,
    end: usize,
    depth: u8,
    most: u64,
) -> Does
    requires { names ≤ 16 }
    ensures told { (f : F.Group N G) → DoesAs (language_of on.now.table.now) f ((language_of on.now.table.now).group_at named) names → IsGroupToldAt (language_of on.now.table.now) f on.now.taped place end result }
    ensures within { IsDoneWithin most result }
{
    if names >= most {
        return Does::Nothing;
    }
    let left = most - names;
    let done = part_does(on, spare, named, place, end, depth, left);
    more_done(done, names, left)
}

// Each of these groups, with what the one before left.
#[cycle(asking)]
fn sequence_does(
    on: &Asked<'_, '_>,
    spare: &mut Spare<'_>,
    parts: &[GroupId],
    place: usize,
    end: usize,
    depth: u8,
    most: u64,
) -> Does
    requires { 0 < most }
    ensures told { IsGroupToldAt (language_of on.now.table.now) (F.Sequence parts.now) on.now.taped place end result }
    ensures within { IsDoneWithin most result }
{
    let mut asked = 1;
    let mut at = place;
    let mut left = parts;
    while let Some((part, others)) = left.split_first() {
        match part_does(on, spare, *part, at, end, depth, most - asked) {
            Does::Takes { next, asked: more } => {
                at = next;
                asked += more;
            }
            Does::Fails(more) => return Does::Fails(asked + more),
            Does::Nothing => return Does::Nothing,
        }
        left = others;
    }
    Does::Takes { next: at, asked }
}

// The first of these groups that does not fail.
#[cycle(asking)]
fn alternatives_do(
    on: &Asked<'_, '_>,
    spare: &mut Spare<'_>,
    parts: &[GroupId],
    place: usize,
    end: usize,
    depth: u8,
    most: u64,
) -> Does
    requires { 0 < most }
    ensures told { IsGroupToldAt (language_of on.now.table.now) (F.Alternatives parts.now) on.now.taped place end result }
    ensures within { IsDoneWithin most result }
{
    let mut asked = 1;
    let mut left = parts;
    while let Some((part, others)) = left.split_first() {
        match group_does(on, spare, *part, place, end, depth, most - asked) {
            Does::Takes { next, asked: more } => {
                return Does::Takes {
                    next,
                    asked: asked + more,
                }
            }
            Does::Fails(more) => asked += more,
            Does::Nothing => return Does::Nothing,
        }
        left = others;
    }
    Does::Fails(asked)
}

// The rounds that may follow after one more.
fn one_less(times: Most) -> Most
    ensures { most_view result ≡ one_less (most_view times) }
{
    match times {
        Most::AtMost(count) => Most::AtMost(count.saturating_sub(1)),
        Most::Any => Most::Any,
    }
}

// Rounds of a group, until one fails, or as many as may be.
#[cycle(asking)]
fn rounds_do(
    on: &Asked<'_, '_>,
    spare: &mut Spare<'_>,
    least: u64,
    times: Most,
    group: GroupId,
    place: usize,
    end: usize,
    depth: u8,
    most: u64,
) -> Does
    requires { 0 < most }
    ensures told { IsGroupToldAt (language_of on.now.table.now) (F.Repeat least (most_view times) group) on.now.taped place end result }
    ensures within { IsDoneWithin most result }
{
    let mut asked = 1;
    let mut at = place;
    let mut fewest = least;
    let mut rest = times;
    let (named, names) = behind_group_names(on.table, group);
    while !is_over(rest) {
        match named_does(on, spare, named, names, at, end, depth, most - asked) {
            Does::Takes { next, asked: more } => {
                asked += more;
                if next == at {
                    return Does::Takes { next: at, asked };
                }
                // (what is behind the end is no item of these)
                if next < at || next > end {
                    return Does::Nothing;
                }
                at = next;
            }
            Does::Fails(more) => {
                asked += more;
                if fewest > 0 {
                    return Does::Fails(asked);
                }
                return Does::Takes { next: at, asked };
            }
            Does::Nothing => return Does::Nothing,
        }
        fewest = fewest.saturating_sub(1);
        rest = one_less(rest);
    }
    Does::Takes { next: at, asked }
}
