//! Sound items: those that can be written, and that a reader may answer.

ghost use Rattle.std.specs.Prelude.{◌≡◌, ◌≤◌, IfOk, IfErr};
ghost use Rattle.cbor_data.specs.Sound.{HasShortSpelling, IsSound};
ghost use Rattle.cbor_data.specs.Value.{depth_of};
ghost use Rattle.cbor_item.specs.Unsound.{IsFirstUnsoundness, IsRepeat};
ghost use Rattle.item_nodes.specs.View.{view};

use crate::duplicates::check_keys;
use crate::length::check_length;
use item_nodes::Item;
use item_nodes::bits::are_bits_fitting;
use item_nodes::depth::is_within;
use item_nodes::ranges::note_ranges;
use item_nodes::simples::are_simples_assignable;
use std::alloc::Global;
use std::marker::Model;
use thiserror::Error;

/// An item that is sound: at most 256 containers deep, with no simple value 24 to 31, float bits that fit their width, a
/// spelling shorter than 2^64 bytes, and no map with two keys that are the same up to the order of pairs in them (RFC 8949
/// sections 4.2.1 and 5.6). Contracts see it as its value.
#[derive(Debug, Drop)]
pub struct Sound {
    item: Item,
}

/// Why an item is not sound: the first of these, in this order, that holds of it.
#[derive(Clone, Copy, Debug, PartialEq, Eq, Error)]
pub enum Unsound {
    /// It has more than 256 containers round or at some place.
    #[error("more than 256 containers deep")]
    TooDeep,
    /// A simple value in it is one of 24 to 31, which RFC 8949 section 3.3 reserves.
    #[error("a reserved simple value")]
    BadSimple,
    /// A float in it has bits that its width does not have.
    #[error("a float's bits do not fit its width")]
    BadBits,
    /// None of its spellings is shorter than 2^64 bytes.
    #[error("no spelling shorter than 2^64 bytes")]
    TooBig,
    /// A map in it has two keys that are the same up to the order of pairs in them (RFC 8949 sections 4.2.1 and 5.6). The
    /// place is the least one of a key that is the same as an earlier key of its map: places number an item and all below it
    /// in preorder, a key before its value, from 0.
    #[error("a repeated key at place {0}")]
    Duplicate(usize),
    /// There was no memory for the test of its length or of its keys. The reasons before these do not hold.
    #[error("out of memory")]
    Memory,
}

impl Model for Sound {
    ghost use Rattle.cbor_data.specs.Value.{Value as ItemValue};
    ghost use Rattle.cbor_data.specs.Codes.{coded_value};
    ghost use Rattle.cbor_data.specs.Sound.{IsSound};

    ghost Value = { ItemValue };

    ghost coded = { coded_value };

    ghost use Rattle.item_nodes.specs.View.{view as item_view};

    ghost view = { λ a. item_view a.item };

    ghost invariant = { λ a. IsSound (item_view a.item) };
}

// How many containers may be round or at a place of a sound item.
const MOST_CONTAINERS: u32 = 256;

impl Sound {
    /// The item, if it is sound.
    ///
    /// # Errors
    ///
    /// The first reason why it is not, in the order of [`Unsound`]; `Memory` where the test of the keys needs memory and
    /// there is none.
    pub fn try_new(alloc: Global, item: Item) -> Result<Sound, Unsound>
        ensures ok { IfOk result (λ sound. (sound ≡ view item) × IsSound (view item)) }
        ensures err { IfErr result (IsFirstUnsoundness (view item)) }
    {
        if !is_within(&item, MOST_CONTAINERS) {
            return Err(Unsound::TooDeep);
        }
        if !are_simples_assignable(&item) {
            return Err(Unsound::BadSimple);
        }
        if !are_bits_fitting(&item) {
            return Err(Unsound::BadBits);
        }
        note_ranges(&item);
        check_length(&item)?;
        Sound::try_spelled(alloc, item)
    }

    /// The item, if no map in it has two keys that are the same, where the rest is known: some spelling of it is shorter than
    /// 2^64 bytes, and it is at most 256 containers deep. That is so of an item that was read.
    ///
    /// # Errors
    ///
    /// `Duplicate` with the least place of a repeated key; `Memory` where the test needs memory and there is none.
    #[inline(always)]
    pub fn try_spelled(alloc: Global, item: Item) -> Result<Sound, Unsound>
        requires spelled { HasShortSpelling (view item) }
        requires shallow { depth_of (view item) ≤ 256 }
        ensures ok { IfOk result (λ sound. (sound ≡ view item) × IsSound (view item)) }
        ensures err { IfErr result (IsRepeat (view item)) }
    {
        check_keys(alloc, &item)?;
        Ok(Sound { item })
    }

    /// The item.
    pub fn item(&self) -> &Item
        ensures same { view result.now ≡ self.now }
        ensures sound { IsSound self.now }
    {
        &self.item
    }

    /// The item, to keep.
    pub fn into_item(self) -> Item
        ensures same { view result ≡ self }
        ensures sound { IsSound self }
    {
        let Sound { item } = self;
        item
    }
}
