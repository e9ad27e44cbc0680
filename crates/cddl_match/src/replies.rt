//! What follows at once from what was asked.

ghost use Rattle.std.specs.Prelude.{◌≡◌, Some, None, MatchOption, if◌then◌else◌};
ghost use Rattle.cbor_data.specs.Value.{Value};
ghost use Rattle.item_nodes.specs.View.{pairs_view, view};
ghost use Rattle.cddl_meaning.specs.Forms as F;
ghost use Rattle.cddl_meaning.specs.Forms.{Language, bytes_in, members_in, pairs_in, passes, simple_in};
ghost use Rattle.cddl_meaning.specs.Judges as J;
ghost use Rattle.cddl_meaning.specs.Moves as M;
ghost use Rattle.match_moves.specs.Views.{values};
ghost use Rattle.cddl_match.specs.Tellings.{KeySays};
ghost use Rattle.cddl_match.specs.Within.{Ends, Replied, Says, array_outcome, done_view, entry_outcome, held_outcome, said_view, simple_outcome};
ghost use Rattle.table_nodes.specs.Language.{language_of};
ghost use Rattle.table_nodes.specs.Nodes.{test_view};
ghost use Rattle.table_nodes.specs.declared.nodes.GroupId.{GroupId};
ghost use Rattle.table_nodes.specs.declared.nodes.TypeId.{TypeId};

use crate::calls::{Said, Stop};
use crate::means::Means;
use cbor_item::Item;
use match_held::Allowance;
use match_moves::{Reply, place_after, plus};
use match_tests::{Subject, left_after_bits, passes};
use table_nodes::{Table, Test};

// Takes for the comparison of a string with a literal of as many bytes, where these are many, and says whether so much may be done
// yet.
#[inline(always)]
pub(crate) fn may_test(allowance: &mut Allowance<'_>, test: &Test, item: &Item) -> bool {
    match test {
        Test::Equals(literal) | Test::Differs(literal) => may_compare(allowance, literal, item),
        _ => true,
    }
}

fn may_compare(allowance: &mut Allowance<'_>, literal: &Item, item: &Item) -> bool {
    match (literal, item) {
        (Item::Bytes(some), Item::Bytes(others)) => {
            may_compare_strings(allowance, some.len(), others.len())
        }
        (Item::Text(some), Item::Text(others)) => {
            may_compare_strings(allowance, some.len(), others.len())
        }
        _ => true,
    }
}

// Strings of different lengths are told apart by these.
fn may_compare_strings(allowance: &mut Allowance<'_>, some: usize, others: usize) -> bool {
    some != others || allowance.may_compare(some)
}

// The same for a byte string of these bytes.
pub(crate) fn may_test_bytes(allowance: &mut Allowance<'_>, test: &Test, bytes: &[u8]) -> bool {
    match test {
        Test::Equals(Item::Bytes(literal)) | Test::Differs(Item::Bytes(literal)) => {
            may_compare_strings(allowance, literal.len(), bytes.len())
        }
        _ => true,
    }
}

// What is said of an item that has passed a test, or not.
#[inline(always)]
pub(crate) fn said_of(says: bool, place: usize, item: &Item) -> Said
    ensures { said_view result ≡ Replied (M.test_reply place (view item.now) says) }
{
    if says {
        Said::Yes {
            next: place_after(item, place),
        }
    } else {
        Said::No { far: place }
    }
}

// What a test says.
#[inline(always)]
pub(crate) fn tested(test: &Test, place: usize, item: &Item) -> Said
    ensures { said_view result ≡ Replied (M.test_reply place (view item.now) (passes (test_view test.now) (view item.now))) }
{
    said_of(passes(test, item), place, item)
}

// What a type says that is a test.
#[inline(always)]
pub(crate) fn test_says(means: &mut Means<'_>, test: &Test, place: usize, item: &Item) -> Said
    ensures { (l : Language TypeId GroupId) (n : TypeId) → l.type_at n ≡ F.Plain (test_view test.now) → Says l (M.OfType n place (view item.now)) means.old.left means.new.left (said_view result) }
{
    let Some(left) = means.left.checked_sub(1) else {
        return Said::Spent;
    };
    means.left = left;
    tested(test, place, item)
}

// How many steps an entry takes whose key type is this test, which a pair's key has passed or not: one for the entry and one
// for the test. Where the test asks for one value, and the key is another, the entry is passed over.
#[inline(always)]
fn steps_for_key(test: &Test, says: bool) -> u64
    ensures { (type_at : TypeId → F.Node TypeId GroupId) (n : TypeId) (k : Value) → type_at n ≡ F.Plain (test_view test.now) → passes (test_view test.now) k ≡ says → result ≡ (if F.is_passed_over (F.by_forms type_at) n k then 0 else 2) }
{
    match test {
        Test::Equals(_) => { if says { 2 } else { 0 } }
        _ => 2,
    }
}

// What an entry says of a pair's key whose key type is a test.
#[inline(always)]
pub(crate) fn key_tested(
    table: &Table,
    means: &mut Means<'_>,
    test: &Test,
    place: usize,
    pair: &(Item, Item),
) -> Said
    ensures { (e : F.MapEntry TypeId) → (language_of table.now).type_at e.key_type ≡ F.Plain (test_view test.now) → KeySays (language_of table.now) place pair.now e means.old.left means.new.left (said_view result) }
{
    let says = passes(test, &pair.0);
    let Some(left) = means.left.checked_sub(steps_for_key(test, says)) else {
        return Said::Spent;
    };
    means.left = left;
    said_of(says, place, &pair.0)
}

// What an array says by what its group did: the first item that is left shows a no.
pub(crate) fn array_said(done: Result<Reply<'_>, Stop>) -> Said
    ensures { said_view result ≡ array_outcome (done_view done.entry) }
{
    match done {
        Ok(Reply::Takes { left: [], next, .. }) => Said::Yes { next },
        Ok(Reply::Takes { next, far, .. }) => Said::No { far: far.max(next) },
        Ok(Reply::Fails { far }) => Said::No { far },
        Err(Stop::Spent) => Said::Spent,
        Err(Stop::NoMemory) => Said::NoMemory,
    }
}

// What an entry does whose item has matched, or not.
pub(crate) fn entry_done<'i>(base: usize, rest: &'i [Item], said: Said) -> Result<Reply<'i>, Stop>
    ensures { done_view result ≡ entry_outcome base (values rest.now) (said_view said) }
{
    match said {
        Said::Yes { next } => Ok(Reply::Takes {
            left: rest,
            next,
            far: base,
        }),
        Said::No { far } => Ok(Reply::Fails { far: base.max(far) }),
        Said::Spent => Err(Stop::Spent),
        Said::NoMemory => Err(Stop::NoMemory),
    }
}

// What a simple value says whose number was asked about.
pub(crate) fn simple_said(place: usize, said: Said) -> Said
    ensures { said_view result ≡ simple_outcome place (said_view said) }
{
    match said {
        Said::Yes { .. } => Said::Yes {
            next: plus(place, 1),
        },
        Said::No { .. } => Said::No { far: place },
        Said::Spent => Said::Spent,
        Said::NoMemory => Said::NoMemory,
    }
}

// What is said where a type has said yes, and an item has passed the test after it or not.
fn such_said(place: usize, next: usize, passes: bool) -> Said
    ensures { said_view result ≡ Replied (M.such_reply place next passes) }
{
    if passes {
        Said::Yes { next }
    } else {
        Said::No { far: place }
    }
}

// What is said where a type has said yes, by the test after it. The bits that it asks about are steps, which are taken
// before they are tested.
pub(crate) fn test_behind(
    means: &mut Means<'_>,
    test: &Test,
    place: usize,
    next: usize,
    item: &Item,
) -> Said
    ensures { (l : Language TypeId GroupId) → Ends l (M.tested_move (test_view test.now) place next (view item.now)) means.old.left means.new.left (said_view result) }
{
    if !may_test(&mut means.shelf.allowance, test, item) {
        return Said::NoMemory;
    }
    let Some(left) = left_after_bits(test, Subject::Item(item), means.left) else {
        return Said::Spent;
    };
    means.left = left;
    such_said(place, next, passes(test, item))
}

// What a byte string, which ends before `next`, says by what is said of what it holds.
pub(crate) fn held_said(place: usize, next: usize, said: Said) -> Said
    ensures { said_view result ≡ held_outcome place next (said_view said) }
{
    match said {
        Said::Yes { .. } => Said::Yes { next },
        Said::No { .. } => Said::No { far: place },
        Said::Spent => Said::Spent,
        Said::NoMemory => Said::NoMemory,
    }
}

// What two alternatives of a map say, of which neither has stopped: yes if one of them does.
pub(crate) fn either_said(sofar: Said, said: Said) -> Said
    ensures { (r s : J.Reply) → said_view sofar ≡ Replied r → said_view said ≡ Replied s → said_view result ≡ Replied (M.either_reply r s) }
{
    match (sofar, said) {
        (Said::No { far }, Said::No { far: later }) => Said::No {
            far: far.max(later),
        },
        (Said::No { .. }, _) => said,
        _ => sofar,
    }
}
