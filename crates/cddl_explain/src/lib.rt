//! What codes of refused specifications and causes of failing items mean, with an example each.
#![tactic(auto)]

mod arity;
mod cases;
mod causes;
mod controls;
mod examples;
mod expected;
mod further;
mod hints;
mod known;
mod laws;
mod meant;
mod names;
mod origins;
mod parts;
mod phrases;
mod places;
mod predicates;
mod refusals;
mod roots;
mod rules;
mod sentences;
mod spots;
mod stops;
mod subjects;

pub use crate::causes::{Cause, meaning, words};
pub use crate::examples::example;
pub use crate::further::further_faults;
pub use crate::laws::{each_kind_is_asked, names_are_printed};
pub use crate::names::{example_at, name, number};
pub use crate::places::place;
pub use crate::refusals::explained_refusal;
pub use crate::sentences::sentence;
pub use crate::subjects::{Subject, explanation, subject_of};
