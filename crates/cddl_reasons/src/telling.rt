//! What is reported for a question that has failed.

ghost use Rattle.std.specs.Prelude.{◌≡◌, ◌++◌, ◌∷◌, ℕ, List, [], IfOk, IfSome, false, length, map, nat_eq, nat_lt, reverse};
ghost use Rattle.std.specs.Option.{option_map};
ghost use Rattle.std.specs.List.{list_any};
ghost use Rattle.cbor_data.specs.Value.{Pairs, Value};
ghost use Rattle.cddl_meaning.specs.Forms as F;
ghost use Rattle.cddl_meaning.specs.Judges as J;
ghost use Rattle.cddl_meaning.specs.Moves as M;
ghost use Rattle.cddl_reasons.specs.Opened.{StandsAt, asked_in, waits_in};
ghost use Rattle.cddl_reasons.specs.Optional.{is_optional};
ghost use Rattle.cddl_reasons.specs.Told.{AreSome, EndIn, IsCause, IsCount, IsEntryOf, IsReason, content_in, content_of, holder_view, links_of, part_of, string_of, strings_of, type_of, has_key};
ghost use Rattle.match_moves.specs.Views.{pending_group_view, pending_map_view, pending_view, question_view, reply_view, values};
ghost use Rattle.table_nodes.specs.Language.{language_of};
ghost use Rattle.table_nodes.specs.Nodes.{content_view, entries_view, entry_view, type_view};
ghost use Rattle.table_nodes.specs.declared.nodes.GroupId.{GroupId};
ghost use Rattle.table_nodes.specs.declared.nodes.MapEntry.{MapEntry as AnEntry};
ghost use Rattle.table_nodes.specs.declared.nodes.TypeId.{TypeId};

use crate::aims::{Aim, is_at};
use crate::causes::{Cause, Holder, Reason};
use crate::found::{Deeper, Found};
use crate::greedy::is_greedy;
use crate::optional::is_optional;
use crate::run::{Open, Run, Wanted};
use item_nodes::Item;
use match_moves::{Counts, Pending, PendingGroup, PendingMap, PendingType, Question, Reply};
use std::alloc::{AllocError, Global};
use table_nodes::{Content, Group, GroupId, MapEntry, Most, Node, Table, TypeId};
use type_links::Link;

// The type that is asked, if one is, is put after others.
fn push_type(links: &mut Vec<Link>, question: &Question<'_, '_>) -> Result<(), AllocError>
    ensures { IfOk result (λ _. links.new.items ≡ links.old.items ++ type_of (question_view question.now)) }
{
    match question {
        Question::OfType { node, .. } => {
            links.push(Link::Type(*node))?;
            return Ok(());
        }
        Question::OfGroup { .. } => return Ok(()),
        Question::OfAlternative { .. } => return Ok(()),
    }
}

// The key type of the entry whose value is asked, if one's is, is put after others.
fn push_key(links: &mut Vec<Link>, pending: &PendingMap<'_, '_>) -> Result<(), AllocError>
    ensures { IfOk result (λ _. links.new.items ≡ links.old.items ++ part_of (pending_map_view pending.now)) }
{
    if let PendingMap::Value { entry, .. } = pending {
        links.push(Link::Key(entry.key_type))?;
    }
    Ok(())
}

// The alternative of a group that is asked, or the entry of such an alternative, if one is, is put after others.
fn push_entry(links: &mut Vec<Link>, pending: &PendingGroup<'_, '_>) -> Result<(), AllocError>
    ensures { IfOk result (λ _. links.new.items ≡ links.old.items ++ part_of (pending_group_view pending.now)) }
{
    match pending {
        PendingGroup::Sequence { parts, .. } => {
            links.push(Link::Entry { after: parts.len() })?;
            return Ok(());
        }
        PendingGroup::Alternatives { parts, .. } => {
            links.push(Link::Alternative { after: parts.len() })?;
            return Ok(());
        }
        PendingGroup::Entry { .. } => return Ok(()),
        PendingGroup::Repeat(_) => return Ok(()),
    }
}

// What is asked of a question, if that is reported, is put after others.
fn push_part(links: &mut Vec<Link>, pending: &Pending<'_, '_>) -> Result<(), AllocError>
    ensures { IfOk result (λ _. links.new.items ≡ links.old.items ++ part_of (pending_view pending.now)) }
{
    match pending {
        Pending::Map(map) => push_key(links, map),
        Pending::Group(group) => push_entry(links, group),
        Pending::Type(_) => Ok(()),
        Pending::Ref => Ok(()),
    }
}

// What led to the question after these, the first one first.
fn links_in(alloc: Global, below: &[Open<'_, '_>]) -> Result<Vec<Link>, AllocError>
    ensures { IfOk result (λ links. links.items ≡ links_of (asked_in below.now) (waits_in below.now)) }
{
    let mut links = Vec::new(alloc);
    for waiting in below {
        push_type(&mut links, &waiting.question)?;
        push_part(&mut links, &waiting.pending)?;
    }
    Ok(links)
}

// What the question reads in a byte string, if it reads anything.
fn content_of(table: &Table, question: &Question<'_, '_>) -> Option<Content>
    ensures { option_map content_view result ≡ content_of (language_of table.now) (question_view question.now) }
{
    let Question::OfType { node, .. } = question else {
        return None;
    };
    match table.node(*node) {
        Some(node) => content_in(node),
        None => None,
    }
}

// What a type reads in a byte string, if it reads anything.
fn content_in(node: &Node) -> Option<Content>
    ensures { option_map content_view result ≡ content_in (type_view node.now) }
{
    match node {
        Node::Holding(_, content, _) => Some(*content),
        _ => None,
    }
}

// The byte string whose content the question asks about, if it does so, is put after others.
fn push_string(
    table: &Table,
    strings: &mut Vec<Holder>,
    question: &Question<'_, '_>,
    pending: &Pending<'_, '_>,
) -> Result<(), AllocError>
    ensures { IfOk result (λ _. map holder_view strings.new.items ≡ map holder_view strings.old.items ++ string_of (language_of table.now) (question_view question.now) (pending_view pending.now)) }
{
    let Pending::Type(PendingType::Held { place, .. }) = pending else {
        return Ok(());
    };
    if let Some(content) = content_of(table, question) {
        strings.push(Holder {
            place: *place,
            content,
        })?;
    }
    Ok(())
}

// The byte strings whose content these questions ask about, the outermost first.
fn strings_in(
    alloc: Global,
    table: &Table,
    below: &[Open<'_, '_>],
) -> Result<Vec<Holder>, AllocError>
    ensures { IfOk result (λ strings. map holder_view strings.items ≡ strings_of (language_of table.now) (asked_in below.now) (waits_in below.now)) }
{
    let mut strings = Vec::new(alloc);
    for waiting in below {
        push_string(table, &mut strings, &waiting.question, &waiting.pending)?;
    }
    Ok(strings)
}

// Why a type has failed at `far` that was asked of the item at `place`.
fn type_cause(table: &Table, node: TypeId, place: usize, far: usize) -> Cause
    ensures { (x : Value) → IsCause (language_of table.now) (M.OfType node place x) far result }
{
    match table.node(node) {
        Some(Node::ArrayOf(_)) if far != place => Cause::TooMuch,
        Some(Node::Holding(_, content, _)) => Cause::NothingHeld { content: *content },
        _ => Cause::Value,
    }
}

// Why a group has failed that was asked of no items.
fn missing_cause(table: &Table, group: GroupId) -> Cause
    ensures { (base place far : ℕ) → IsCause (language_of table.now) (M.OfGroup group base place []) far result }
{
    match table.group(group) {
        Some(Group::Entry(member)) => Cause::Missing { member: *member },
        _ => Cause::Value,
    }
}

// Why a group has failed that was asked of these items.
fn group_cause(table: &Table, group: GroupId, items: &[Item]) -> Cause
    ensures { (base place far : ℕ) → IsCause (language_of table.now) (M.OfGroup group base place (values items.now)) far result }
{
    match items {
        [] => missing_cause(table, group),
        _ => Cause::Value,
    }
}

// Why an alternative of the map at `base` has failed at `far`, if that is not for its counts.
fn alternative_cause(base: usize, far: usize) -> Cause
    ensures { (l : F.Language TypeId GroupId) (es : List (F.MapEntry TypeId)) (ps : Pairs) → IsCause l (M.OfAlternative es base ps) far result }
{
    if far != base {
        Cause::Stray
    } else {
        Cause::Value
    }
}

// How many pairs belong to the entry of this number of an alternative.
fn count_at(last: &Open<'_, '_>, number: usize) -> u64 {
    match last.counts.get(number) {
        Some(count) => *count,
        None => 0,
    }
}

// Whether so many pairs are as many as an entry asks for.
fn is_enough(entry: &MapEntry, count: u64) -> bool {
    let fits = match entry.most {
        Most::AtMost(most) => count <= most,
        Most::Any => true,
    };
    fits && entry.least <= count
}

// Whether one of these entries has this key type.
fn any_has_key(entries: &[MapEntry], key: TypeId) -> bool
    ensures { result ≡ list_any (λ (e : AnEntry). nat_eq e.key_type.number key.number) entries.now }
{
    entries
        .iter()
        .any(|entry| entry.key_type.number == key.number)
}

// The same, of entries as contracts see them.
fn has_key(entries: &[MapEntry], key: TypeId) -> bool
    ensures { result ≡ has_key key (entries_view entries.now) }
{
    any_has_key(entries, key)
}

// What is wrong, if something is, where so many pairs belong to an entry with these after it.
fn count_cause(entry: &MapEntry, others: &[MapEntry], count: u64) -> Option<Cause>
    ensures { IfSome result (λ cause. IsCount (entry_view entry.now) (entries_view others.now) cause) }
{
    if count < entry.least {
        return Some(Cause::Few {
            key: entry.key_type,
            count,
            least: entry.least,
        });
    }
    match entry.most {
        Most::AtMost(most) if count > most => Some(Cause::Many {
            key: entry.key_type,
            count,
            most,
            later: has_key(others, entry.key_type),
        }),
        _ => None,
    }
}

// The counts, in the order of the entries.
fn counts_in(counts: &Counts) -> &[u64] {
    match counts.few.get(..counts.entries) {
        Some(few) => few,
        None => counts.many.as_slice(),
    }
}

// The counts of the pairs with one more, which belongs to the entry with so many after it.
fn counts_after(alloc: Global, counts: &[u64], after: usize) -> Result<Vec<u64>, AllocError> {
    let mut all = Vec::from_slice(alloc, counts)?;
    if after < counts.len() {
        let number = counts.len() - after - 1;
        all[number] = all[number].saturating_add(1);
    }
    Ok(all)
}

// An open question is told this reply. Where that is the yes to the last value of a map, it is known then how many pairs belong
// to each entry.
pub(crate) fn note_counts(
    alloc: Global,
    last: &mut Open<'_, '_>,
    reply: &Reply<'_>,
) -> Result<(), AllocError>
    ensures question { last.new.question ≡ last.old.question }
    ensures pending { last.new.pending ≡ last.old.pending }
{
    let Reply::Takes { .. } = reply else {
        return Ok(());
    };
    let Pending::Map(
        PendingMap::Value {
            others,
            sorting,
            ..
        },
    ) = &last.pending
    else {
        return Ok(());
    };
    if sorting.rest.is_empty() && is_at(last.wanted, sorting.base) {
        last.counts = counts_after(alloc, counts_in(&sorting.tally.counts), others.len())?;
    }
    Ok(())
}

// Why a question has failed at this place.
fn cause_of(table: &Table, question: &Question<'_, '_>, far: usize) -> Cause
    ensures { IsCause (language_of table.now) (question_view question.now) far result }
{
    match question {
        Question::OfType { node, place, .. } => type_cause(table, *node, *place, far),
        Question::OfGroup { group, items, .. } => group_cause(table, *group, *items),
        Question::OfAlternative { base, .. } => alternative_cause(*base, far),
    }
}

// Why an open question has failed at this place. Where its own reasons are deeper it is reported by itself.
fn cause_in(table: &Table, last: &Open<'_, '_>, far: usize) -> Cause
    ensures { IsCause (language_of table.now) (question_view last.now.question) far result }
{
    match last.wanted {
        Wanted::Itself => Cause::Value,
        _ => cause_of(table, &last.question, far),
    }
}

// The last question as a reason, since it has failed at this place and is needed.
fn reason_of(
    alloc: Global,
    table: &Table,
    run: &Run<'_, '_>,
    far: usize,
    cause: Cause,
) -> Result<Reason, AllocError>
    ensures { IfOk result (λ reason. (first : M.Question TypeId GroupId) → IsCause (language_of table.now) (question_view run.now.last.question) far cause → StandsAt (language_of table.now) first run.now.below.items run.now.last (M.Answered (J.Fails far)) → is_optional (reverse (asked_in run.now.below.items)) (reverse (waits_in run.now.below.items)) ≡ false → IsReason (language_of table.now) first reason) }
{
    let below = run.below.as_slice();
    let mut links = links_in(alloc, below)?;
    push_type(&mut links, &run.last.question)?;
    let strings = strings_in(alloc, table, below)?;
    let greedy = is_greedy(table, below);
    Ok(Reason {
        links,
        strings,
        place: far,
        cause,
        greedy,
    })
}

// Whether a no of the question at this place is what is looked for.
fn is_wanted(last: &Open<'_, '_>, far: usize) -> bool {
    match last.wanted {
        Wanted::Itself => true,
        wanted => is_at(wanted, far),
    }
}

// What is known of a question of its own reasons, which has failed at this place.
fn deeper_of(last: &Open<'_, '_>, far: usize) -> Option<Deeper> {
    match last.wanted {
        Wanted::Itself => Some(Deeper {
            number: last.number,
            far,
        }),
        _ => None,
    }
}

// Whether the list has room for one reason more.
fn has_room(found: &Found, aim: Aim<'_>) -> bool
    ensures { result ≡ nat_lt (length found.now.list.items) aim.entry.most }
{
    found.list.len() < aim.most
}

// The last question has failed at this place, for this cause: one reason more, in the list if that has room. It is none where it asks
// for what need not be there: the occurrence that asks it says yes without it.
fn tell_cause(
    table: &Table,
    run: &Run<'_, '_>,
    far: usize,
    cause: Cause,
    aim: Aim<'_>,
    found: &mut Found,
) -> Result<(), AllocError>
    ensures { IfOk result (λ _. (first : M.Question TypeId GroupId) → IsCause (language_of table.now) (question_view run.now.last.question) far cause → StandsAt (language_of table.now) first run.now.below.items run.now.last (M.Answered (J.Fails far)) → AreSome (language_of table.now) first aim.entry.most found.old.list.items → AreSome (language_of table.now) first aim.entry.most found.new.list.items) }
{
    if is_optional(run.below.as_slice()) {
        return Ok(());
    }
    if !has_room(found, aim) {
        found.more = found.more.saturating_add(1);
        return Ok(());
    }
    let reason = reason_of(aim.alloc, table, run, far, cause)?;
    found.add(reason, deeper_of(&run.last, far))?;
    Ok(())
}

// An entry of the last question, an alternative of a map that has failed at the map, to which so many pairs belong. Those after it
// are looked at where there is room for the reason.
fn tell_count(
    table: &Table,
    run: &Run<'_, '_>,
    entry: &MapEntry,
    others: &[MapEntry],
    count: u64,
    far: usize,
    aim: Aim<'_>,
    found: &mut Found,
) -> Result<(), AllocError>
    ensures { IfOk result (λ _. (first : M.Question TypeId GroupId) → IsEntryOf (question_view run.now.last.question) far (entry_view entry.now) (entries_view others.now) → StandsAt (language_of table.now) first run.now.below.items run.now.last (M.Answered (J.Fails far)) → AreSome (language_of table.now) first aim.entry.most found.old.list.items → AreSome (language_of table.now) first aim.entry.most found.new.list.items) }
{
    if !is_enough(entry, count) && !has_room(found, aim) {
        found.more = found.more.saturating_add(1);
        return Ok(());
    }
    let Some(cause) = count_cause(entry, others, count) else {
        return Ok(());
    };
    tell_cause(table, run, far, cause, aim, found)?;
    Ok(())
}

// The entries of the last question, an alternative of a map that has failed at the map, to which too few or too many pairs
// belong.
fn tell_entries(
    table: &Table,
    run: &Run<'_, '_>,
    entries: &[MapEntry],
    far: usize,
    aim: Aim<'_>,
    found: &mut Found,
) -> Result<(), AllocError>
    ensures { IfOk result (λ _. (first : M.Question TypeId GroupId) → ((e : F.MapEntry TypeId) (es : List (F.MapEntry TypeId)) → EndIn (entries_view entries.now) (e ∷ es) → IsEntryOf (question_view run.now.last.question) far e es) → StandsAt (language_of table.now) first run.now.below.items run.now.last (M.Answered (J.Fails far)) → AreSome (language_of table.now) first aim.entry.most found.old.list.items → AreSome (language_of table.now) first aim.entry.most found.new.list.items) }
{
    let mut left = entries;
    let mut number: usize = 0;
    'each: while let Some((entry, others)) = left.split_first() {
        let count = count_at(&run.last, number);
        tell_count(table, run, entry, others, count, far, aim, found)?;
        number = number.saturating_add(1);
        left = others;
    }
    Ok(())
}

// The same, where the last question is an alternative that has failed at the map.
fn tell_counts(
    table: &Table,
    run: &Run<'_, '_>,
    far: usize,
    aim: Aim<'_>,
    found: &mut Found,
) -> Result<(), AllocError>
    ensures { IfOk result (λ _. (first : M.Question TypeId GroupId) → StandsAt (language_of table.now) first run.now.below.items run.now.last (M.Answered (J.Fails far)) → AreSome (language_of table.now) first aim.entry.most found.old.list.items → AreSome (language_of table.now) first aim.entry.most found.new.list.items) }
{
    let Question::OfAlternative { entries, base, .. } = run.last.question else {
        return Ok(());
    };
    if far != base {
        return Ok(());
    }
    tell_entries(table, run, entries, far, aim, found)?;
    Ok(())
}

// The last question has failed. Where none that it asked has failed at the place that is looked for, or a key of its own is
// stray there, it is a reason.
fn tell_fault(
    table: &Table,
    run: &Run<'_, '_>,
    far: usize,
    aim: Aim<'_>,
    found: &mut Found,
) -> Result<(), AllocError>
    ensures { IfOk result (λ _. (first : M.Question TypeId GroupId) → StandsAt (language_of table.now) first run.now.below.items run.now.last (M.Answered (J.Fails far)) → AreSome (language_of table.now) first aim.entry.most found.old.list.items → AreSome (language_of table.now) first aim.entry.most found.new.list.items) }
{
    let last = &run.last;
    if !is_wanted(last, far) {
        found.forget(last.mark);
        return Ok(());
    }
    tell_counts(table, run, far, aim, found)?;
    if !last.tried && !found.is_at(last.mark) {
        return Ok(());
    }
    let cause = cause_in(table, last, far);
    tell_cause(table, run, far, cause, aim, found)?;
    Ok(())
}

// The last question has this reply. A yes tells no trials that failed.
pub(crate) fn tell(
    table: &Table,
    run: &Run<'_, '_>,
    reply: Reply<'_>,
    aim: Aim<'_>,
    found: &mut Found,
) -> Result<(), AllocError>
    ensures { IfOk result (λ _. (first : M.Question TypeId GroupId) → StandsAt (language_of table.now) first run.now.below.items run.now.last (M.Answered (reply_view reply.entry)) → AreSome (language_of table.now) first aim.entry.most found.old.list.items → AreSome (language_of table.now) first aim.entry.most found.new.list.items) }
{
    match reply {
        Reply::Fails { far } => {
            tell_fault(table, run, far, aim, found)?;
            return Ok(());
        }
        Reply::Takes { .. } => {
            if let Question::OfGroup { .. } = run.last.question {
                return Ok(());
            }
            found.forget(run.last.mark);
            return Ok(());
        }
    }
}
