//! What is asked of at the sites of a text and of its entries, by rows.
mod listing;
mod nodes;
mod part;

pub(crate) use crate::parts::listing::{entry_parts, site_parts};
pub use crate::parts::part::{Part, Question};
