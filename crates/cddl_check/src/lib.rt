//! Checks a specification in CDDL (RFC 8610): all stages from its tree to what a table is made of, or what is wrong with it.
#![tactic(auto)]

mod all_faults;
mod checking;
mod closing;
mod faults;
mod finding;
mod findings;
mod laws;
mod mapping;
mod questioning;
mod reading;
mod spec;
mod splicing;
mod stopped;
mod text;

pub use crate::all_faults::{RootFaults, root_faults};
pub use crate::checking::check;
pub use crate::closing::Meant;
pub use crate::findings::Findings;
pub use crate::laws::trees_are_of_tokens;
pub use crate::spec::Spec;
pub use crate::splicing::Splices;
pub use cddl_token::{Code, Refusal};
