//! The line that tells why an item does not match, from plain data: the place and what is there, where in the text of the
//! specification the type stands, and what is wrong. What is here knows nothing of tables and of what types mean.
#![tactic(auto)]

mod causes;
mod floats;
mod lines;
mod paths;
mod reasons;
mod types;
mod values;

pub use crate::causes::Cause;
pub use crate::floats::number_words;
pub use crate::lines::{push_line, told_lines};
pub use crate::paths::path_words;
pub use crate::reasons::{Reason, reason_line, root_line};
pub use crate::types::type_words;
pub use crate::values::{shown_value, value_words};
