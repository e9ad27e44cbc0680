//! The reasons why an item does not match.

ghost use Rattle.std.specs.Prelude.{◌≡◌, ◌<◌, ℕ, length, IfOk};
ghost use Rattle.cddl_meaning.specs.Judges.{Answer};
ghost use Rattle.cddl_match.specs.Machine.{root_question};
ghost use Rattle.cddl_reasons.specs.Told.{AreReasons, AreSome, HasNone, IsReason};
ghost use Rattle.table_nodes.specs.Language.{RootSays, language_of};

use crate::aims::Aim;
use crate::causes::{Cause, Reason, Reasons};
use crate::found::{Deeper, Found};
use crate::turns::{begin, turn};
use cbor_item::Sound;
use cddl_match::{Verdict, verdict};
use match_held::{Cells, Shelf};
use match_moves::Question;
use match_tests::Subject;
use std::alloc::{AllocError, Global};
use table_nodes::Table;
use type_links::Link;

// So often the questions are asked anew, where reasons are deeper: so many byte strings in byte strings are looked into, and
// values of stray keys in each other.
const MOST_PASSES: usize = 8;

// So many turns for each step a pass may take. An answer takes four at most, and one more for each entry that is passed over.
const TURNS: u64 = 16;

// The reasons that show at this place, and those that are deeper as far as it is known where. Nothing, where that takes more
// turns. What byte strings hold is put into the cells.
fn pass_in<'i>(
    table: &Table,
    item: &'i Sound,
    cells: &'i Cells,
    place: usize,
    aim: Aim<'_>,
    turns: u64,
) -> Result<Found, AllocError>
    ensures { IfOk result (λ found. AreSome (language_of table.now) (root_question table.now item.now) aim.entry.most found.list.items) }
{
    let whole = item.item();
    let mut shelf = Shelf::for_item(aim.alloc, cells, whole);
    let root = Question::OfType {
        node: table.root(),
        place: 0,
        subject: Subject::Item(whole),
    };
    let mut run = begin(aim.alloc, table, root, place)?;
    let mut found = Found::new(aim.alloc);
    'turns: for _ in 0..turns {
        if !turn(table, &mut shelf, &mut run, aim, &mut found)? {
            return Ok(found);
        }
    }
    let none = Found::new(aim.alloc);
    Ok(none)
}

fn pass(
    table: &Table,
    item: &Sound,
    place: usize,
    aim: Aim<'_>,
    turns: u64,
) -> Result<Found, AllocError>
    ensures { IfOk result (λ found. AreSome (language_of table.now) (root_question table.now item.now) aim.entry.most found.list.items) }
{
    let cells = Cells::new(aim.alloc);
    pass_in(table, item, &cells, place, aim, turns)
}

// Takes in where the reasons are that are deeper, and says whether there are any more of them.
fn learn(known: &mut Vec<Deeper>, found: &Found) -> Result<bool, AllocError> {
    let before = known.len();
    for deeper in &found.deeper {
        if let Some(deeper) = deeper {
            known.push(*deeper)?;
        }
    }
    Ok(known.len() > before)
}

// The reasons that show at this place, and those that are deeper.
fn all_reasons(
    alloc: Global,
    table: &Table,
    item: &Sound,
    place: usize,
    most: usize,
    turns: u64,
) -> Result<Found, AllocError>
    ensures { IfOk result (λ found. AreSome (language_of table.now) (root_question table.now item.now) most found.list.items) }
{
    let mut known = Vec::new(alloc);
    let mut found = pass(
        table,
        item,
        place,
        Aim {
            alloc,
            most,
            known: &known,
        },
        turns,
    )?;
    'passes: for _ in 0..MOST_PASSES {
        if !learn(&mut known, &found)? {
            return Ok(found);
        }
        found = pass(
            table,
            item,
            place,
            Aim {
                alloc,
                most,
                known: &known,
            },
            turns,
        )?;
    }
    Ok(found)
}

// The root type as a reason.
fn root_reason(
    alloc: Global,
    table: &Table,
    item: &Sound,
    place: usize,
) -> Result<Reason, AllocError>
    ensures { IfOk result (λ reason. (w : ℕ) → RootSays table.now item.now (Answer.No place) w → IsReason (language_of table.now) (root_question table.now item.now) reason) }
{
    let _sound = item.item();
    let mut links = Vec::new(alloc);
    links.push(Link::Type(table.root()))?;
    let strings = Vec::new(alloc);
    Ok(Reason {
        links,
        strings,
        place,
        cause: Cause::Value,
        greedy: false,
    })
}

// These reasons; and where there are none, though some are asked for, the root type.
fn or_root(
    alloc: Global,
    table: &Table,
    item: &Sound,
    place: usize,
    most: usize,
    mut list: Vec<Reason>,
) -> Result<Vec<Reason>, AllocError>
    ensures each { IfOk result (λ all. (w : ℕ) → RootSays table.now item.now (Answer.No place) w → AreSome (language_of table.now) (root_question table.now item.now) most list.items → AreSome (language_of table.now) (root_question table.now item.now) most all.items) }
    ensures some { IfOk result (λ all. 0 < most → 0 < length all.items) }
{
    if most == 0 {
        return Ok(list);
    }
    if list.is_empty() {
        list.push(root_reason(alloc, table, item, place)?)?;
        return Ok(list);
    }
    Ok(list)
}

// Why the root type says no to the item, which shows at this place.
fn reasons_at(
    alloc: Global,
    table: &Table,
    item: &Sound,
    place: usize,
    steps: u64,
    most: usize,
) -> Result<Reasons, AllocError>
    ensures at { IfOk result (λ reasons. reasons.place ≡ place) }
    ensures each { IfOk result (λ reasons. (w : ℕ) → RootSays table.now item.now (Answer.No place) w → AreSome (language_of table.now) (root_question table.now item.now) most reasons.list.items) }
    ensures some { IfOk result (λ reasons. 0 < most → 0 < length reasons.list.items) }
{
    let turns = steps.saturating_mul(TURNS);
    let found = all_reasons(alloc, table, item, place, most, turns)?;
    let more = found.more;
    let list = or_root(alloc, table, item, place, most, found.list)?;
    Ok(Reasons { place, list, more })
}

/// Why the root type of the table says no to the item: the questions that have failed by themselves at the place where the no
/// shows, the first `most` of them, and how many more there are; nothing, where it says yes, or where so many steps do not
/// tell.
///
/// # Errors
///
/// `AllocError` where there is no memory for it.
pub fn find_reasons(
    alloc: Global,
    table: &Table,
    item: &Sound,
    steps: u64,
    most: usize,
) -> Result<Option<Reasons>, AllocError>
    ensures none { result ≡ Ok None → HasNone table.now item.now steps }
    ensures some { (reasons : _) → result ≡ Ok (Some reasons) → AreReasons table.now item.now steps most reasons }
{
    let said = verdict(alloc, table, item, steps)?;
    match said {
        Verdict::Yes => return Ok(None),
        Verdict::Spent => return Ok(None),
        Verdict::No { place } => {
            let reasons = reasons_at(alloc, table, item, place, steps, most)?;
            return Ok(Some(reasons));
        }
    }
}
