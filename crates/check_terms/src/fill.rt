//! Arguments in the place of parameters, in terms by the numbers of a table. A template is made once of a body, and is filled
//! once for each of its instances (RFC 8610 section 3.10).
mod arguments;
mod filling;
pub mod laws;
mod making;
mod rows;
mod slots;
mod store;
mod template;

pub use crate::fill::arguments::arguments_of;
pub use crate::fill::slots::Slots;
pub use crate::fill::template::Template;
