//! The places of an item of CBOR (RFC 8949): what is at a place, and the path that leads there. Places number an item
//! and all below it in preorder, a key before its value; the whole is place 0.
ghost use Rattle.std.specs.Prelude.{◌≡◌, ℕ, List, length, slice_get};
ghost use Rattle.cbor_data.specs.Value.{Value, places, place_count};
ghost use Rattle.cbor_item.specs.Place.Leads.{Leads};
ghost use Rattle.cbor_item.specs.Place.Paths.{paths};

mod path;
mod seek;
mod step;

pub use crate::place::path::path_text;
pub use crate::place::seek::item_at;

/// An item has as many paths as places, so a path is there exactly where an item is.
pub fn path_of_each_place()
    ensures paths { (x : Value) → length (paths x) ≡ length (places x) }
    ensures count { (x : Value) → length (places x) ≡ place_count x }
{}

/// The path of a place leads to what is there, step by step, and whatever steps lead to is at a place with that
/// path.
pub fn paths_lead_to_places()
    ensures leads { (x : Value) (place : ℕ) (steps : List ℕ) (y : Value) → slice_get (paths x) place ≡ Some steps → slice_get (places x) place ≡ Some y → Leads x steps y }
    ensures found { (x : Value) (steps : List ℕ) (y : Value) → Leads x steps y → (place : ℕ) × (slice_get (paths x) place ≡ Some steps) × (slice_get (places x) place ≡ Some y) }
{}
