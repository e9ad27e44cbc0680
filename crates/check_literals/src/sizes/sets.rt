//! The members of the controllers of `.size` and `.bits`.

ghost use Rattle.std.specs.Prelude.{◌≡◌, ◌++◌, ◌∷◌, [], ℕ, Bool, IfOk, List, Some, length, set, slice_get};
ghost use Rattle.cddl_language.specs.Controls.{control_of, membership_in};
ghost use Rattle.check_literals.specs.declared.sizes.sources.Source.{Source};
ghost use Rattle.check_instances.specs.Closed.Closed.{IsClosed};
ghost use Rattle.check_names.specs.Kinds.Kinds.{AreKinds};
ghost use Rattle.cddl_language.specs.Literals.{AreRight, Values};
ghost use Rattle.cddl_language.specs.Reading.{definitions_in, rules_of};
ghost use Rattle.cddl_language.specs.Terms.{Ref, Text};
ghost use Rattle.check_literals.specs.Literals.{AreLiterals};
ghost use Rattle.check_literals.specs.Sizes.Controllers.{AreListed, HasList, HaveLists, IsReady, KeepsLists, controller_at, is_free, is_one, is_same_membership, is_wanted, is_such_form, is_such_text};
ghost use Rattle.check_literals.specs.Sizes.Sizes.{AreControllers, AreMembers, AreSizable, AreSizes, flag_at};
ghost use Rattle.check_groups.specs.Causes.Rows.{AreRows};
ghost use Rattle.check_instances.specs.Openings.Openings.{AreOpenings};
ghost use Rattle.check_terms.specs.Texts.Controls.{membership_view};
ghost use Rattle.tree_nodes.specs.Syntax.Syntax.{Cddl};

use crate::Literals;
use crate::sizes::known::{Controllers, Members, Sizes};
use crate::sizes::reach::{Search, no_search, set_of};
use crate::sizes::sources::{Source, sources};
use cddl_language::written::reached_values;
use check_groups::rows::{GroupRow, group_rows};
use check_instances::closed::Closed;
use check_instances::closed::laws::{meaning_at, meanings_are_reached, place_of};
use check_instances::openings::Opening;
use check_instances::openings::laws::part_is_reached;
use check_names::kinds::Kinds;
use check_terms::laws::equal_numbers;
use check_terms::texts::{Control, Membership, control_of};
use check_terms::{Form, Row, Terms};
use rooms::Room;
use std::alloc::{AllocError, Global};
use table_nodes::NumberSet;

/// To how many rows the controllers of one control may lead, each for itself, beside those that the rows give room for.
const REACHED: u64 = 262_144;

/// To how many of them each row gives room.
const REACHED_OF_A_ROW: u64 = 16;

/// The members of the types that are controllers of `.size` or `.bits` (RFC 8610 sections 3.8.1 and 3.8.2), where `controllers`
/// tells which rows may be such. Each row to which a controller leads is looked at once for it, however many ways lead there.
///
/// For each controller it takes a time of n log n for the rows to which it leads, and 16 bytes for each of their ranges that is
/// left when those that overlap or touch are one: a range that belongs to many controllers is kept for each. All controllers of one
/// control lead to 262,144 rows at most, and to 16 more for each row, where a row counts for each that leads to it. An error comes
/// where memory is refused, where they lead to more, or where the table numbers no further row.
pub fn members(
    alloc: Global,
    terms: &Terms<'_>,
    closed: &Closed,
    kinds: &Kinds,
    openings: &[Opening],
    literals: &Literals,
    controllers: &Controllers,
) -> Result<Members, AllocError>
    ensures { IfOk result (λ z. (x : Cddl) (worth : Values) (root : Text) (refs : List Ref) → AreRight x worth → IsClosed (definitions_in (rules_of x)) root refs terms.now closed.now → AreKinds terms.now.texts (definitions_in (rules_of x)) kinds.now → AreOpenings (definitions_in (rules_of x)) terms.now refs openings.now → AreLiterals (definitions_in (rules_of x)) root worth terms.now literals.now → AreControllers (definitions_in (rules_of x)) root worth terms.now controllers.now → AreMembers (definitions_in (rules_of x)) root worth terms.now z) }
{
    let groups = group_rows(alloc, terms, closed, kinds, openings)?;
    let size = Membership::Size;
    let sizes = sizes_of(
        alloc,
        terms,
        closed,
        kinds,
        literals,
        &groups,
        size,
        controllers.of(size),
    )?;
    let bit = Membership::Bits;
    let bits = sizes_of(
        alloc,
        terms,
        closed,
        kinds,
        literals,
        &groups,
        bit,
        controllers.of(bit),
    )?;
    Ok(Members { sizes, bits })
}

// The members of the controllers of one of these controls.
fn sizes_of(
    alloc: Global,
    terms: &Terms<'_>,
    closed: &Closed,
    kinds: &Kinds,
    literals: &Literals,
    groups: &[GroupRow],
    membership: Membership,
    sizable: &[bool],
) -> Result<Sizes, AllocError>
    ensures { IfOk result (λ z. (x : Cddl) (worth : Values) (root : Text) (refs : List Ref) → AreRight x worth → IsClosed (definitions_in (rules_of x)) root refs terms.now closed.now → AreKinds terms.now.texts (definitions_in (rules_of x)) kinds.now → AreLiterals (definitions_in (rules_of x)) root worth terms.now literals.now → AreRows (definitions_in (rules_of x)) root terms.now groups.now → AreSizable (definitions_in (rules_of x)) root worth terms.now (membership_view membership) sizable.now → AreSizes (definitions_in (rules_of x)) root worth terms.now (membership_view membership) z) }
{
    equal_numbers(terms);
    place_of(terms);
    meaning_at();
    meanings_are_reached();
    reached_values();
    part_is_reached();
    let sources = sources(alloc, terms, closed, kinds, literals, groups, membership)?;
    listed(alloc, terms, &sources, membership, sizable)
}

// The lists of all controllers.
fn listed(
    alloc: Global,
    terms: &Terms<'_>,
    sources: &[Source],
    membership: Membership,
    sizable: &[bool],
) -> Result<Sizes, AllocError>
    requires { length sources.now ≡ length terms.now.rows }
    ensures listed { IfOk result (λ z. AreListed sources.now sizable.now z) }
    ensures all { IfOk result (λ z. HaveLists (membership_view membership) terms.now sizable.now (length terms.now.rows) z) }
{
    let count = terms.row_count()?;
    let mut room = Room::new(REACHED, REACHED_OF_A_ROW, sources.len());
    let mut search = no_search(alloc, sources.len())?;
    let mut sizes = no_sizes(alloc, sources.len())?;
    for number in 0..count {
        let controller = controller_at(terms, membership, number);
        add_controller(
            alloc,
            &mut room,
            sources,
            sizable,
            &mut search,
            &mut sizes,
            controller,
        )?;
    }
    Ok(sizes)
}

fn no_sizes(alloc: Global, rows: usize) -> Result<Sizes, AllocError>
    ensures lists { IfOk result (λ z. length z.lists.items ≡ 0) }
    ensures listed { IfOk result (λ z. (ss : List Source) (flags : List Bool) → length ss ≡ rows → AreListed ss flags z) }
{
    let rows = vec![in alloc; None; rows]?;
    Ok(Sizes {
        lists: Vec::new(alloc),
        rows,
    })
}

// The controller, where the row is such a control.
fn controller_at(terms: &Terms<'_>, membership: Membership, number: u32) -> Option<u32>
    ensures { result ≡ controller_at (membership_view membership) terms.now number }
{
    let row = terms.row(number)?;
    if is_such_form(terms, membership, row) {
        row.second
    } else {
        None
    }
}

fn is_such_form(terms: &Terms<'_>, membership: Membership, row: Row) -> bool
    ensures { result ≡ is_such_form (membership_view membership) terms.now.texts row.form row.text }
{
    match row.form {
        Form::Control => is_such_text(terms, membership, row.text),
        _ => false,
    }
}

fn is_such_text(terms: &Terms<'_>, membership: Membership, name: Option<u32>) -> bool
    ensures { result ≡ is_such_text (membership_view membership) terms.now.texts name }
{
    let Some(name) = name else {
        return false;
    };
    match terms.text(name) {
        Some(name) => is_such_name(membership, name),
        None => false,
    }
}

fn is_such_name(membership: Membership, name: &str) -> bool
    ensures { result ≡ is_one (membership_view membership) (membership_in (control_of name.now)) }
{
    match control_of(name) {
        Some(Control::Member(asked)) => is_same(asked, membership),
        _ => false,
    }
}

fn is_same(first: Membership, second: Membership) -> bool
    ensures { result ≡ is_same_membership (membership_view first) (membership_view second) }
{
    match (first, second) {
        (Membership::Size, Membership::Size) | (Membership::Bits, Membership::Bits) => true,
        _ => false,
    }
}

// Adds the list of the controller, if there is one.
fn add_controller(
    alloc: Global,
    room: &mut Room,
    sources: &[Source],
    sizable: &[bool],
    search: &mut Search,
    sizes: &mut Sizes,
    controller: Option<u32>,
) -> Result<(), AllocError>
    requires listed { AreListed sources.now sizable.now sizes.old }
    requires ready { IsReady sources.now sizes.old search.old }
    ensures listed { IfOk result (λ _. AreListed sources.now sizable.now sizes.new) }
    ensures ready { IfOk result (λ _. IsReady sources.now sizes.new search.new) }
    ensures added { IfOk result (λ _. (n : ℕ) → controller ≡ Some n → HasList sizable.now n sizes.new) }
    ensures kept { IfOk result (λ _. KeepsLists sizes.old sizes.new) }
{
    match controller {
        Some(row) => add_list(alloc, room, sources, sizable, search, sizes, row),
        None => Ok(()),
    }
}

// Adds the list of the row, where it may be a controller and has none yet.
fn add_list(
    alloc: Global,
    room: &mut Room,
    sources: &[Source],
    sizable: &[bool],
    search: &mut Search,
    sizes: &mut Sizes,
    row: u32,
) -> Result<(), AllocError>
    requires listed { AreListed sources.now sizable.now sizes.old }
    requires ready { IsReady sources.now sizes.old search.old }
    ensures listed { IfOk result (λ _. AreListed sources.now sizable.now sizes.new) }
    ensures ready { IfOk result (λ _. IsReady sources.now sizes.new search.new) }
    ensures added { IfOk result (λ _. HasList sizable.now row sizes.new) }
    ensures kept { IfOk result (λ _. KeepsLists sizes.old sizes.new) }
{
    if !is_wanted(sizable, &sizes.rows, row) {
        return Ok(());
    }
    search.reach(sources, row, sizes.lists.len() + 1)?;
    room.take(search.reached.len())?;
    let list = set_of(alloc, sources, &search.reached)?;
    put_list(sizes, row, list)
}

fn put_list(sizes: &mut Sizes, row: u32, list: NumberSet) -> Result<(), AllocError>
    ensures rows { IfOk result (λ _. sizes.new.rows.items ≡ set sizes.old.rows.items row (Some (length sizes.old.lists.items))) }
    ensures lists { IfOk result (λ _. sizes.new.lists.items ≡ sizes.old.lists.items ++ list ∷ []) }
{
    let place = sizes.lists.len();
    sizes.lists.push(list)?;
    put_place(&mut sizes.rows, row, place);
    Ok(())
}

fn put_place(rows: &mut Vec<Option<usize>>, row: u32, place: usize)
    ensures { rows.new.items ≡ set rows.old.items row (Some place) }
{
    if (row as usize) < rows.len() {
        rows[row as usize] = Some(place);
    }
}

// Whether the row may be a controller, and has no list.
fn is_wanted(sizable: &[bool], rows: &[Option<usize>], row: u32) -> bool
    ensures { result ≡ is_wanted (flag_at sizable.now row) (slice_get rows.now row) }
{
    flag_at(sizable, row) && is_free(rows, row)
}

fn flag_at(flags: &[bool], row: u32) -> bool
    ensures { result ≡ flag_at flags.now row }
{
    matches!(flags.get(row as usize), Some(true))
}

// Whether the row is there and has no list.
fn is_free(rows: &[Option<usize>], row: u32) -> bool
    ensures { result ≡ is_free (slice_get rows.now row) }
{
    matches!(rows.get(row as usize), Some(None))
}
