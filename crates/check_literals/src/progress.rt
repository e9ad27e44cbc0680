//! What is known of rows, one after another.

ghost use Rattle.std.specs.Prelude.{◌≡◌, ◌<◌, ◌++◌, IfOk, Some, length, map, slice_get};
ghost use Rattle.check_literals.specs.Found.{AreTold, IsBlank, IsOrdered, IsPut, IsSound, IsStep, added, bytes_of, literal_bytes, names_of, outcome_of};
ghost use Rattle.check_literals.specs.Needs.{Need as NeedOf, need_view};

use crate::found::{Found, Progress, found_of};
use crate::known::{Literals, Outcome};
use crate::needs::Need;
use cddl_literal::Literal;
use check_terms::Terms;
use rooms::Room;
use std::alloc::{AllocError, Global};

/// How many bytes the strings among literals may have together, beside those that the rows give room for.
const BYTES: u64 = 4 << 20;

/// For how many of these bytes each row gives room.
const BYTES_OF_A_ROW: u64 = 64;

// What the rows of the order are, each determined from those before it that it needs. Nothing is reported for other rows.
pub(crate) fn progress_of(
    alloc: Global,
    terms: &Terms<'_>,
    needs: &[Need],
    order: &[usize],
) -> Result<Progress, AllocError>
    requires { IsOrdered (map need_view needs.now) order.now }
    ensures { IfOk result (AreTold terms.now (map need_view needs.now) order.now (length order.now)) }
{
    let mut room = Room::new(BYTES, BYTES_OF_A_ROW, needs.len());
    let mut known = nothing_known(alloc, needs.len())?;
    for row in order {
        settle(alloc, &mut room, terms, needs, *row, &mut known)?;
    }
    Ok(known)
}

// What is known of so many rows before any is looked at.
fn nothing_known(alloc: Global, count: usize) -> Result<Progress, AllocError>
    ensures { IfOk result (IsBlank count) }
{
    let rows = vec![in alloc; Outcome::Nothing; count]?;
    let names = vec![in alloc; 0; count]?;
    Ok(Progress {
        literals: Literals {
            values: Vec::new(alloc),
            rows,
        },
        names,
    })
}

// Finds out what the row is, from the rows that it needs.
fn settle(
    alloc: Global,
    room: &mut Room,
    terms: &Terms<'_>,
    needs: &[Need],
    row: usize,
    known: &mut Progress,
) -> Result<(), AllocError>
    requires row { row < length needs.now }
    requires known { IsSound (length needs.now) known.old }
    ensures { IfOk result (λ _. (d : NeedOf) → slice_get (map need_view needs.now) row ≡ Some d → IsStep terms.now (length needs.now) row d known.old known.new) }
{
    let found = found_of(alloc, terms, needs[row], known)?;
    room.take(bytes_of(&found))?;
    put(known, row, found)
}

// How many bytes a new string has.
fn bytes_of(found: &Found) -> usize
    ensures { result ≡ bytes_of found.now }
{
    match found {
        Found::New { literal, .. } => literal_bytes(literal),
        _ => 0,
    }
}

fn literal_bytes(literal: &Literal) -> usize
    ensures { result ≡ literal_bytes literal.now }
{
    match literal {
        Literal::Text(text) => text.len(),
        Literal::Bytes(bytes) => bytes.len(),
        _ => 0,
    }
}

fn put(known: &mut Progress, row: usize, found: Found) -> Result<(), AllocError>
    requires row { row < length known.old.literals.rows.items }
    requires names { row < length known.old.names.items }
    ensures { IfOk result (λ _. IsPut row found known.old known.new) }
{
    let (outcome, names) = stored(&mut known.literals.values, found)?;
    known.literals.rows[row] = outcome;
    known.names[row] = names;
    Ok(())
}

// What the row becomes, and its names, with the value where it is new.
fn stored(values: &mut Vec<Literal>, found: Found) -> Result<(Outcome, usize), AllocError>
    ensures values { IfOk result (λ _. values.new.items ≡ values.old.items ++ added found) }
    ensures outcome { IfOk result (λ p. p.0 ≡ outcome_of (length values.old.items) found) }
    ensures names { IfOk result (λ p. p.1 ≡ names_of found) }
{
    match found {
        Found::Nothing => Ok((Outcome::Nothing, 0)),
        Found::Faulty(fault) => Ok((Outcome::Faulty(fault), 0)),
        Found::Shared { place, names } => Ok((Outcome::Value(place), names)),
        Found::New { literal, names } => {
            let place = values.len();
            values.push(literal)?;
            Ok((Outcome::Value(place), names))
        }
    }
}
