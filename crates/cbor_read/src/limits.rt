//! The limits of the items that a reader takes: the greatest depth, and the most bytes.
ghost use Rattle.std.specs.Prelude.{◌≡◌, ◌≤◌, ◌⊎◌, ◌<◌, IfSome, IfNone};
ghost use Rattle.cbor_read.specs.declared.limits.TheConstants.{MOST_ITEM_BYTES};

use std::marker::Model;

/// The greatest depth of an item that may be allowed.
pub const MOST_DEPTH: u32 = 256;

/// The most bytes of an item that may be allowed.
pub const MOST_ITEM_BYTES: u32 = 67_108_864;

/// What an item may have: its greatest depth, and the most bytes.
#[derive(Clone, Copy, Debug)]
pub struct Limits {
    depth: u32,
    item_bytes: u32,
}

impl Model for Limits {
    ghost use Rattle.std.specs.Prelude.{◌≤◌};
    ghost use Rattle.cbor_data.specs.Faults.{Bounds};
    ghost use Rattle.cbor_read.specs.declared.limits.TheConstants.{MOST_ITEM_BYTES};

    ghost Value = { Bounds };

    ghost view = { λ l. record { depth = l.depth; item_bytes = l.item_bytes } };

    ghost invariant = { λ l. ((1 ≤ l.depth) × (l.depth ≤ 256)) × ((1 ≤ l.item_bytes) × (l.item_bytes ≤ MOST_ITEM_BYTES)) };

    ghost inverse = { λ b. record { depth = b.depth; item_bytes = b.item_bytes } };
}

impl Limits {
    /// A depth of 1 to 256 and 1 to 67,108,864 bytes; `None` outside of these ranges.
    pub fn try_new(depth: u32, item_bytes: u32) -> Option<Limits>
        ensures some { IfSome result (λ limits. limits ≡ record { depth = depth; item_bytes = item_bytes }) }
        ensures inside { IfSome result (λ _. ((1 ≤ depth) × (depth ≤ 256)) × ((1 ≤ item_bytes) × (item_bytes ≤ MOST_ITEM_BYTES))) }
        ensures outside { IfNone result (((depth ≡ 0) ⊎ (256 < depth)) ⊎ ((item_bytes ≡ 0) ⊎ (MOST_ITEM_BYTES < item_bytes))) }
    {
        if depth < 1 || depth > 256 {
            return None;
        }
        if item_bytes < 1 || item_bytes > MOST_ITEM_BYTES {
            return None;
        }
        Some(Limits { depth, item_bytes })
    }

    /// The greatest depth of an item.
    pub fn depth(self) -> u32
        ensures value { result ≡ self.depth }
        ensures range { (1 ≤ result) × (result ≤ 256) }
    {
        self.depth
    }

    /// The most bytes of an item.
    pub fn item_bytes(self) -> u32
        ensures value { result ≡ self.item_bytes }
        ensures range { (1 ≤ result) × (result ≤ MOST_ITEM_BYTES) }
    {
        self.item_bytes
    }
}
