//! A table of terms: rows and texts, each with a number, of which no two are equal.

ghost use Rattle.std.specs.Prelude.{◌≡◌, ◌≢◌, ◌<◌, ℕ, IfNone, IfOk, IfSome, IsTrue, Some, [], slice_get, length, option_map, Option};
ghost use Rattle.cddl_language.specs.Terms.{Text};
ghost use Rattle.check_terms.specs.Numbers.{AreRowNumbers, AreTextNumbers};
ghost use Rattle.check_terms.specs.Table.{Adds, AddsRow, AddsText, Grows, HasParts, Holds, HoldsText, IsPart, IsTable, Tree, node, texts_in};

use crate::row::{Form, Row};
use std::alloc::{AllocError, Global};
use std::collections::HashMap;
use std::marker::Model;
use thiserror::Error;

/// There is no room: memory was refused, or each number of 32 bits is taken.
#[derive(Clone, Copy, Debug, Error)]
#[error("no room for the numbers of terms")]
pub struct NoRoom;

/// Where a number is looked for before its hash is taken. What is read again mostly comes in the order in which it came before.
#[derive(Clone, Copy)]
struct Near {
    /// The number that was told last.
    last: u32,
    /// The number that a hash has told last.
    found: u32,
}

/// A table of rows and texts, each with a number. No two are equal, and the parts of a row stand before it.
#[derive(Drop)]
pub struct Terms<'s> {
    texts: Vec<&'s str>,
    /// The place of each text in `texts`.
    text_numbers: HashMap<&'s str, u32>,
    near_text: Near,
    rows: Vec<Row>,
    /// The place of each row in `rows`.
    row_numbers: HashMap<Row, u32>,
    near_row: Near,
}

impl<'s> Model for Terms<'s> {
    ghost use Rattle.check_terms.specs.Table.{Table, IsTable, texts_in};
    ghost use Rattle.check_terms.specs.Numbers.{AreRowNumbers, AreTextNumbers};

    ghost Value = { Table };

    ghost view = { λ t. record { texts = texts_in t.texts.items; rows = t.rows.items } };

    ghost invariant = { λ t. IsTable (record { texts = texts_in t.texts.items; rows = t.rows.items }) × AreTextNumbers t.text_numbers t.texts.items × AreRowNumbers t.row_numbers t.rows.items };
}

impl<'s> Terms<'s> {
    /// No row and no text. Nothing is allocated until the first is added.
    pub fn new(alloc: Global) -> Self
        ensures { result ≡ record { texts = []; rows = [] } }
    {
        Terms {
            texts: Vec::new(alloc),
            text_numbers: HashMap::new(alloc),
            near_text: Near { last: 0, found: 0 },
            rows: Vec::new(alloc),
            row_numbers: HashMap::new(alloc),
            near_row: Near { last: 0, found: 0 },
        }
    }

    /// The number of the text, which is added if it isn't there. It costs a hash of the text, and one more where it is added;
    /// and none where its number is the one after that of the call before.
    pub fn add_text(&mut self, text: &'s str) -> Result<u32, NoRoom>
        ensures there { IfOk result (λ n. slice_get self.new.texts n ≡ Some text.now) }
        ensures adds { AddsText self.old text.now self.new }
        ensures grows { Grows self.old self.new }
    {
        text_number(
            &mut self.texts,
            &mut self.text_numbers,
            &mut self.near_text,
            text,
        )
    }

    /// The number of the row, which is added if it isn't there. It costs a hash of the row, and one more where it is added,
    /// whatever its parts stand for; and none where its number is the one after that of the call before. So what was read before
    /// is read again without a hash for most of its rows.
    pub fn add(&mut self, row: Row) -> Result<u32, NoRoom>
        requires parts { HasParts self.old row }
        ensures there { IfOk result (λ n. slice_get self.new.rows n ≡ Some row) }
        ensures adds { AddsRow self.old row self.new }
        ensures grows { Grows self.old self.new }
        ensures stands { IfOk result (λ n. (x : Option Text) (a b : Tree) → HoldsText self.old.texts row.text x → Holds self.old row.first a → Holds self.old row.second b → Holds self.new (Some n) (node row.form x a b)) }
    {
        row_number(
            &mut self.rows,
            &mut self.row_numbers,
            &mut self.near_row,
            row,
        )
    }

    /// The number of the row of this form with this text, if any, and with these parts, each added if it isn't there. It
    /// costs what [`Terms::add_text`] and [`Terms::add`] cost.
    pub fn add_node(
        &mut self,
        form: Form,
        text: Option<&'s str>,
        first: Option<u32>,
        second: Option<u32>,
    ) -> Result<u32, NoRoom>
        requires first { IsPart self.old first }
        requires second { IsPart self.old second }
        ensures grows { Grows self.old self.new }
        ensures row { IfOk result (λ n. IsPart self.new (Some n)) }
        ensures stands { IfOk result (λ n. (a b : Tree) → Holds self.old first a → Holds self.old second b → Holds self.new (Some n) (node form (option_map (λ s. s.now) text.entry) a b)) }
    {
        let number = self.number_text(text)?;
        self.add(Row {
            form,
            text: number,
            first,
            second,
        })
    }

    // The number of the text, if one is given.
    fn number_text(&mut self, text: Option<&'s str>) -> Result<Option<u32>, NoRoom>
        ensures grows { Grows self.old self.new }
        ensures there { IfOk result (λ n. HoldsText self.new.texts n (option_map (λ s. s.now) text.entry)) }
    {
        match text {
            Some(text) => Ok(Some(self.add_text(text)?)),
            None => Ok(None),
        }
    }

    /// The number of the text, if it is there. It costs a hash of the text.
    pub fn find_text(&self, text: &str) -> Option<u32>
        ensures found { IfSome result (λ n. slice_get self.now.texts n ≡ Some text.now) }
        ensures missing { IfNone result ((n : ℕ) → n < 4294967296 → slice_get self.now.texts n ≢ Some text.now) }
    {
        self.text_numbers.get(text).copied()
    }

    /// The number of rows.
    pub fn len(&self) -> usize
        ensures value { result ≡ length self.now.rows }
        ensures table { IsTable self.now }
    {
        self.rows.len()
    }

    /// The number of rows. A table of 2^32 rows or more, which numbers no further row, is an error as where memory is refused.
    ///
    /// # Errors
    ///
    /// The table has 2^32 rows or more.
    pub fn row_count(&self) -> Result<u32, AllocError>
        ensures value { IfOk result (λ n. n ≡ length self.now.rows) }
    {
        let Ok(count) = u32::try_from(self.len()) else {
            return Err(AllocError);
        };
        Ok(count)
    }

    /// The row of the number.
    pub fn row(&self, number: u32) -> Option<Row>
        ensures { result ≡ slice_get self.now.rows number }
    {
        self.rows.get(number as usize).copied()
    }

    /// The text of the number.
    pub fn text(&self, number: u32) -> Option<&'s str>
        ensures { option_map (λ t. t.now) result ≡ slice_get self.now.texts number }
    {
        self.texts.get(number as usize).copied()
    }

    /// The number of texts.
    pub fn text_count(&self) -> usize
        ensures value { result ≡ length self.now.texts }
    {
        self.texts.len()
    }

    /// The text at the index, as [`Terms::text`] has it of a number.
    pub fn text_at(&self, index: usize) -> Option<&'s str>
        ensures { option_map (λ t. t.now) result ≡ slice_get self.now.texts index }
    {
        self.texts.get(index).copied()
    }
}

// The number of the text, which is looked for near others first.
fn text_number<'s>(
    texts: &mut Vec<&'s str>,
    numbers: &mut HashMap<&'s str, u32>,
    near: &mut Near,
    text: &'s str,
) -> Result<u32, NoRoom>
    requires numbered { AreTextNumbers numbers.old texts.old.items }
    ensures there { IfOk result (λ n. slice_get (texts_in texts.new.items) n ≡ Some text.now) }
    ensures adds { Adds (texts_in texts.old.items) text.now (texts_in texts.new.items) }
    ensures numbered { AreTextNumbers numbers.new texts.new.items }
{
    if let Some(number) = near_text(texts, *near, text) {
        near.last = number;
        return Ok(number);
    }
    let number = insert_text(texts, numbers, text)?;
    *near = Near {
        last: number,
        found: number,
    };
    Ok(number)
}

// The number of the text, if it comes after the last one, or is the one that a hash has told last.
fn near_text(texts: &[&str], near: Near, text: &str) -> Option<u32>
    ensures { IfSome result (λ n. slice_get (texts_in texts.now) n ≡ Some text.now) }
{
    let next = near.last.saturating_add(1);
    if is_text_at(texts, next, text) {
        return Some(next);
    }
    if is_text_at(texts, near.found, text) {
        return Some(near.found);
    }
    None
}

fn is_text_at(texts: &[&str], number: u32, text: &str) -> bool
    ensures { IsTrue result → slice_get (texts_in texts.now) number ≡ Some text.now }
{
    match text_at(texts, number) {
        Some(found) => found == text,
        None => false,
    }
}

fn text_at<'s>(texts: &[&'s str], number: u32) -> Option<&'s str>
    ensures { option_map (λ t. t.now) result ≡ slice_get (texts_in texts.now) number }
{
    texts.get(number as usize).copied()
}

fn insert_text<'s>(
    texts: &mut Vec<&'s str>,
    numbers: &mut HashMap<&'s str, u32>,
    text: &'s str,
) -> Result<u32, NoRoom>
    requires numbered { AreTextNumbers numbers.old texts.old.items }
    ensures there { IfOk result (λ n. slice_get (texts_in texts.new.items) n ≡ Some text.now) }
    ensures adds { Adds (texts_in texts.old.items) text.now (texts_in texts.new.items) }
    ensures numbered { AreTextNumbers numbers.new texts.new.items }
{
    if let Some(number) = numbers.get(text).copied() {
        return Ok(number);
    }
    let number = next_number(texts.len())?;
    if texts.push(text).is_err() {
        return Err(NoRoom);
    }
    if numbers.insert(text, number).is_err() {
        // No text is to be without its number.
        texts.pop();
        return Err(NoRoom);
    }
    Ok(number)
}

// The number of the row, which is looked for near others first.
fn row_number(
    rows: &mut Vec<Row>,
    numbers: &mut HashMap<Row, u32>,
    near: &mut Near,
    row: Row,
) -> Result<u32, NoRoom>
    requires numbered { AreRowNumbers numbers.old rows.old.items }
    ensures there { IfOk result (λ n. slice_get rows.new.items n ≡ Some row) }
    ensures adds { Adds rows.old.items row rows.new.items }
    ensures numbered { AreRowNumbers numbers.new rows.new.items }
{
    if let Some(number) = near_row(rows, *near, row) {
        near.last = number;
        return Ok(number);
    }
    let number = insert_row(rows, numbers, row)?;
    *near = Near {
        last: number,
        found: number,
    };
    Ok(number)
}

// The number of the row, if it comes after the last one, or is the one that a hash has told last.
fn near_row(rows: &[Row], near: Near, row: Row) -> Option<u32>
    ensures { IfSome result (λ n. slice_get rows.now n ≡ Some row) }
{
    let next = near.last.saturating_add(1);
    if is_row_at(rows, next, row) {
        return Some(next);
    }
    if is_row_at(rows, near.found, row) {
        return Some(near.found);
    }
    None
}

fn is_row_at(rows: &[Row], number: u32, row: Row) -> bool
    ensures { IsTrue result → slice_get rows.now number ≡ Some row }
{
    match rows.get(number as usize) {
        Some(found) => *found == row,
        None => false,
    }
}

fn insert_row(rows: &mut Vec<Row>, numbers: &mut HashMap<Row, u32>, row: Row) -> Result<u32, NoRoom>
    requires numbered { AreRowNumbers numbers.old rows.old.items }
    ensures there { IfOk result (λ n. slice_get rows.new.items n ≡ Some row) }
    ensures adds { Adds rows.old.items row rows.new.items }
    ensures numbered { AreRowNumbers numbers.new rows.new.items }
{
    if let Some(number) = numbers.get(&row).copied() {
        return Ok(number);
    }
    let number = next_number(rows.len())?;
    if rows.push(row).is_err() {
        return Err(NoRoom);
    }
    if numbers.insert(row, number).is_err() {
        // No row is to be without its number.
        rows.pop();
        return Err(NoRoom);
    }
    Ok(number)
}

// The number after so many.
fn next_number(count: usize) -> Result<u32, NoRoom>
    ensures { IfOk result (λ n. n ≡ count) }
{
    match u32::try_from(count) {
        Ok(number) => Ok(number),
        Err(_) => Err(NoRoom),
    }
}
