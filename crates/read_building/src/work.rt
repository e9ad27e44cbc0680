//! Takes pieces.
ghost use Rattle.std.specs.Prelude.{◌≡◌, ◌≢◌, ℕ, ◌+◌, ◌<◌, ◌≤◌, ◌^◌, List, [], ◌++◌, length, take, Some, None, IfOk};
ghost use Rattle.cbor_data.specs.Machine.Machine as machine;
ghost use Rattle.read_building.specs.Building.{State};
ghost use Rattle.read_building.specs.Progress.{state_in};
ghost use Rattle.read_building.specs.Working.{IsBuilding, IsInWork, IsNoted, IsStep, IsTaken};

use crate::build::Progress;
use crate::builder::Builder;
use cbor_data::FaultKind;
use item_nodes::Item;
use read_items::form::FormReader;
use std::alloc::{AllocError, Global};

/// What a piece leads to. `used` counts bytes of the piece.
#[derive(Drop)]
pub enum Step {
    /// The whole piece was used, and the item goes on.
    More,
    /// The item ended with byte `used`. What is after it is for the next call.
    Item { used: usize, item: Item },
    /// The item ended with byte `used`, and the first of its text chunks that is not UTF-8 has its head at this offset.
    BadText { used: usize, place: u64 },
    /// The byte after so many cannot be there.
    Refused { used: usize, kind: FaultKind },
    /// The byte after so many opens a container inside as many as may be open.
    TooDeep { used: usize },
}

/// The item in work of a stream: its value so far, or, once a text of it was not UTF-8, its form and where that text is.
#[derive(Drop)]
pub struct Work {
    builder: Builder,
    form: FormReader,
    noted: Option<u64>,
}

impl Work {
    /// No item has begun. Takes no memory.
    pub fn new(alloc: Global) -> Work
        ensures { (depth o : ℕ) → IsInWork depth o [] result }
    {
        Work {
            builder: Builder::new(alloc),
            form: FormReader::new(alloc),
            noted: None,
        }
    }

    /// Takes the next piece, whose first byte is at this offset, up to the end of the item or to a byte that cannot be where
    /// it is, with at most `depth` containers open at a time. After a whole item whose texts are UTF-8 the next one is awaited.
    ///
    /// # Errors
    ///
    /// [`AllocError`] where an allocation was refused. Of what is then in work nothing is known.
    pub fn take(&mut self, depth: u32, at: u64, piece: &[u8]) -> Result<Step, AllocError>
        requires { at + length piece.now ≤ 2 ^ 64 }
        ensures { IfOk result (λ step. (o : ℕ) (fed : List ℕ) → at ≡ o + length fed → IsInWork depth o fed self.old → IsTaken depth o fed piece.now step self.new) }
    {
        match self.noted {
            None => build(
                depth,
                at,
                &mut self.builder,
                &mut self.form,
                &mut self.noted,
                piece,
            ),
            Some(place) => follow(depth, place, &mut self.form, piece, 0),
        }
    }
}

// Builds the value. After a text that is not UTF-8 the form is followed.
fn build(
    depth: u32,
    at: u64,
    builder: &mut Builder,
    form: &mut FormReader,
    noted: &mut Option<u64>,
    piece: &[u8],
) -> Result<Step, AllocError>
    requires placed { at + length piece.now ≤ 2 ^ 64 }
    requires none { noted.old ≡ None }
    ensures { IfOk result (λ step. (o : ℕ) (fed : List ℕ) → at ≡ o + length fed → IsBuilding depth o fed (state_in builder.old) → IsStep depth o fed piece.now step (state_in builder.new) form.new noted.new) }
{
    match builder.build(depth, at, piece)? {
        Progress::More => Ok(Step::More),
        Progress::Whole { used, item } => Ok(Step::Item { used, item }),
        Progress::BadText {
            used,
            place,
            form: after,
        } => match after {
            None => Ok(Step::BadText { used, place }),
            Some(after) => {
                *form = after;
                *noted = Some(place);
                follow(depth, place, form, piece, used)
            }
        },
        Progress::Refused { used, kind } => Ok(Step::Refused { used, kind }),
        Progress::TooDeep { used } => Ok(Step::TooDeep { used }),
    }
}

// Follows the form alone, from so many bytes of the piece on.
fn follow(
    depth: u32,
    place: u64,
    form: &mut FormReader,
    piece: &[u8],
    from: usize,
) -> Result<Step, AllocError>
    requires { from ≤ length piece.now }
    ensures { IfOk result (λ step. (o : ℕ) (fed : List ℕ) (s : State) → IsNoted depth o (fed ++ take from piece.now) form.old place → IsStep depth o fed piece.now step s form.new (Some place)) }
{
    match form.read(depth, &piece[from..])? {
        read_items::form::Progress::More => Ok(Step::More),
        read_items::form::Progress::Whole { used } => Ok(Step::BadText {
            used: from + used,
            place,
        }),
        read_items::form::Progress::Refused { used, kind } => Ok(Step::Refused {
            used: from + used,
            kind,
        }),
        read_items::form::Progress::TooDeep { used } => Ok(Step::TooDeep { used: from + used }),
    }
}
