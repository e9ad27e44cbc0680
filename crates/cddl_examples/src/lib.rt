//! Five short callers of [`cddl`], each proved: an item is decoded, one is written, a text is checked, an item that was built is
//! judged, and a stream is validated as its pieces come.
#![tactic(auto)]

mod checking;
mod decoding;
mod judging;
mod receiving;
mod writing;

pub use crate::checking::print_check;
pub use crate::decoding::{Undecoded, decode};
pub use crate::judging::{Unjudged, judge};
pub use crate::receiving::receive;
pub use crate::writing::{Unwritten, write_reading};
