//! The members of the controllers of `.size` and `.bits` (RFC 8610 sections 3.8.1 and 3.8.2), by rows of a table.
mod chosen;
mod depths;
mod flags;
mod known;
mod reach;
mod sets;
mod sources;

pub use crate::sizes::flags::controllers;
pub use crate::sizes::known::{Controllers, Members, Sizes};
pub use crate::sizes::sets::members;
