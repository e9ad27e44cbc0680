//! How much may still be made of what does not grow in proportion to a text by itself: it is counted against a room that does.
//! What is here knows nothing of CBOR or CDDL.
#![tactic(auto)]

ghost use Rattle.std.specs.Prelude.{◌≡◌, ◌<◌, ◌+◌, ◌*◌, ◌^◌, ◌≤◌, IfErr, OnOk};

use std::alloc::AllocError;
use std::marker::Model;

/// How much may still be made.
#[derive(Drop)]
pub struct Room {
    left: u64,
}

impl Model for Room {
    ghost use Rattle.std.specs.Prelude.{ℕ};

    ghost Value = { ℕ };

    ghost view = { λ r. r.left };
}

impl Room {
    /// Room for so much besides, and for so much for each of what is counted; for 2^64 - 1 at most.
    pub fn new(besides: u64, each: u64, count: usize) -> Room
        ensures whole { besides + each * count < 2 ^ 64 → result ≡ besides + each * count }
        ensures most { result ≤ besides + each * count }
    {
        Room {
            left: besides.saturating_add(each.saturating_mul(count as u64)),
        }
    }

    /// Takes so much of the room.
    ///
    /// # Errors
    ///
    /// `AllocError` where less is left. Then nothing is taken.
    pub fn take(&mut self, count: usize) -> Result<(), AllocError>
        ensures taken { OnOk result (self.new + count ≡ self.old) }
        ensures refused { IfErr result (λ _. self.old < count) }
        ensures kept { IfErr result (λ _. self.new ≡ self.old) }
    {
        match self.left.checked_sub(count as u64) {
            Some(left) => {
                self.left = left;
                Ok(())
            }
            None => Err(AllocError),
        }
    }
}
