//! What is wrong with the rules of a text, whatever its root leads to.
mod arity;
mod duplicates;
mod kinds;
mod root;
mod start;

pub(crate) use crate::rule_faults::arity::other_count;
pub use crate::rule_faults::arity::wrong_arity;
pub use crate::rule_faults::duplicates::duplicate;
pub(crate) use crate::rule_faults::duplicates::{add_number, other_equals, start_again};
pub(crate) use crate::rule_faults::kinds::clash_at;
pub use crate::rule_faults::kinds::kind_clash;
pub use crate::rule_faults::root::{bad_root, no_root, root_of};
