//! What the texts of tokens of CDDL say: numbers, occurrences, tag numbers, forms of `#`, controls, and kinds of names.
//!
//! Each call takes any text. Its answer is that of the definitions of `cddl_language`, which say something of texts that no
//! token has, too.
mod controls;
mod hashes;
mod names;
mod numbers;
mod occurrences;
mod parts;
mod tags;

pub use controls::{Comparison, Computation, Control, Membership, control_of};
pub use hashes::{HashForm, hash_form, is_bad_hash};
pub use names::{is_group_socket, is_socket};
pub use numbers::uint;
pub use occurrences::{Occurrence, occurrence_of};
pub use tags::{TagNumber, tag_number};
