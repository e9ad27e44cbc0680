//! Where items that were read in byte strings are kept, so that questions may refer to them, and how many bytes may be read.

ghost use Rattle.std.specs.Prelude.{◌≡◌, ◌≤◌, ◌+◌, ◌-◌, ◌*◌, ◌/◌, ◌^◌, length, IfOk, IfSome, OnOk, MatchOption};
ghost use Rattle.cbor_data.specs.Value.{Value};
ghost use Rattle.match_held.specs.Allowance.{most_in};
ghost use Rattle.cddl_meaning.specs.Held.{Holds};
ghost use Rattle.cddl_meaning.specs.Moves.{plus};
ghost use Rattle.cddl_meaning.specs.Size.{size};
ghost use Rattle.item_nodes.specs.View.{view};
ghost use Rattle.table_nodes.specs.Nodes.{content_view};

use crate::allowance::Allowance;
use crate::reading::held_in;
use cbor_item::Item;
use once_cell::race::OnceBox;
use std::alloc::{AllocError, Global};
use table_nodes::Content;

/// So many chunks there may be, each with twice as many cells as the one before it: more than there is memory for.
const MOST_CHUNKS: usize = 48;

/// Cells that are filled one by one. None moves, so an item stays where it is.
type Chunk = Vec<OnceBox<Item>>;

/// Where a machine keeps what byte strings hold, one cell for each that was read. Their memory is asked for when it is needed:
/// where no byte string is read, they take none.
#[derive(Drop)]
pub struct Cells {
    chunks: OnceBox<Vec<OnceBox<Chunk>>>,
}

/// Cells, how many of them are filled, and how many bytes may be read in byte strings.
#[derive(Drop)]
pub struct Shelf<'i> {
    pub alloc: Global,
    cells: &'i Cells,
    filled: usize,
    pub allowance: Allowance<'i>,
}

impl Cells {
    /// No cell is filled yet.
    pub fn new(alloc: Global) -> Cells {
        Cells {
            chunks: OnceBox::new(alloc),
        }
    }

    // The cell of this number, if there may be so many.
    fn cell(&self, alloc: Global, number: usize) -> Result<Option<&OnceBox<Item>>, AllocError> {
        let Some(place) = number.checked_add(1) else {
            return Ok(None);
        };
        let order = place.ilog2();
        let size = 1 << order;
        let chunks = self
            .chunks
            .get_or_try_init(move || boxed_cells(alloc, MOST_CHUNKS))?;
        let Some(chunk) = chunks.get(order as usize) else {
            return Ok(None);
        };
        let cells = chunk.get_or_try_init(move || boxed_cells(alloc, size))?;
        Ok(cells.get(place - size))
    }
}

// So many empty cells.
fn boxed_cells<T: Drop>(alloc: Global, count: usize) -> Result<Box<Vec<OnceBox<T>>>, AllocError> {
    let mut cells = Vec::new(alloc);
    for _ in 0..count {
        cells.push(OnceBox::new(alloc))?;
    }
    Ok(Box::new(alloc, cells)?)
}

// The item, put into a cell, if that was free.
fn put(cell: &OnceBox<Item>, item: Box<Item>) -> Option<&Item>
    ensures { IfSome result (λ kept. kept.now ≡ item.value) }
{
    let mut note = cell.note();
    match cell.set_as(item, &mut note) {
        Ok(()) => cell.get_as(&mut note),
        Err(_) => None,
    }
}

impl<'i> Shelf<'i> {
    /// No cell is filled yet. As many bytes may be read as there is memory for.
    pub fn new(alloc: Global, cells: &'i Cells) -> Shelf<'i>
        ensures most { most_in result.allowance ≡ 2 ^ 64 - 1 }
        ensures nothing { result.allowance.read + result.allowance.kept ≡ 0 }
    {
        Shelf::with(alloc, cells, Allowance::unbounded())
    }

    /// No cell is filled yet. For this item 1 MiB may be read in byte strings, and 64 bytes for each item and each byte of a
    /// string in it, where bytes that are read again count again. An eighth of that may be kept.
    pub fn for_item(alloc: Global, cells: &'i Cells, item: &'i Item) -> Shelf<'i>
        ensures most { most_in result.allowance ≡ plus (2 ^ 20) (64 * size (view item.now)) }
        ensures nothing { result.allowance.read + result.allowance.kept ≡ 0 }
    {
        Shelf::with(alloc, cells, Allowance::of(item))
    }

    /// No cell is filled yet, and so much may be read.
    pub fn with(alloc: Global, cells: &'i Cells, allowance: Allowance<'i>) -> Shelf<'i>
        ensures { result.allowance ≡ allowance.entry }
    {
        Shelf {
            alloc,
            cells,
            filled: 0,
            allowance,
        }
    }

    /// What a byte string of these bytes holds, if it holds something.
    ///
    /// # Errors
    ///
    /// `AllocError` where there is no memory for it, or where no more bytes may be read.
    pub fn held(&mut self, content: Content, bytes: &[u8]) -> Result<Option<Item>, AllocError>
        ensures held { IfOk result (λ held. MatchOption held ((y : Value) → Holds (content_view content) bytes.now y → ⊥) (λ item. Holds (content_view content) bytes.now (view item))) }
        // The bytes are taken from those that may be read.
        ensures within { OnOk result (plus self.old.allowance.read (length bytes.now) ≤ most_in self.old.allowance) }
        ensures taken { OnOk result (self.new.allowance.read ≡ plus self.old.allowance.read (length bytes.now)) }
    {
        if !self.allowance.take_read(bytes.len()) {
            return Err(AllocError);
        }
        held_in(self.alloc, content, bytes)
    }

    /// The item, which so many bytes were, for as long as the cells. It takes these bytes, and four more, from those that may be
    /// kept.
    ///
    /// # Errors
    ///
    /// `AllocError` where there is no memory for it, or where no more may be kept.
    pub fn keep(&mut self, item: Item, bytes: usize) -> Result<&'i Item, AllocError>
        ensures kept { IfOk result (λ kept. kept.now ≡ item) }
        ensures within { OnOk result (plus (plus self.old.allowance.kept bytes) 4 ≤ most_in self.old.allowance / 8) }
        ensures taken { OnOk result (self.new.allowance.kept ≡ plus (plus self.old.allowance.kept bytes) 4) }
    {
        if !self.allowance.take_kept(bytes) {
            return Err(AllocError);
        }
        let cells = self.cells;
        let Some(cell) = cells.cell(self.alloc, self.filled)? else {
            return Err(AllocError);
        };
        self.filled = self.filled.saturating_add(1);
        put(cell, Box::new(self.alloc, item)?).ok_or(AllocError)
    }
}
