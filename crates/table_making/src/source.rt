//! What a table is made from: all that is known of the instances of a specification and of the rows of its terms.

use alternatives::{Part, Summary};
use check_instances::closed::Closed;
use check_instances::openings::Opening;
use check_literals::Literals;
use check_literals::sizes::Members;
use check_names::kinds::Kinds;

/// What is known of the instances of a specification and of the rows of its terms.
#[derive(Clone, Copy)]
pub struct Source<'a> {
    /// The instances, and what they mean.
    pub closed: &'a Closed,
    /// Which names are groups'.
    pub kinds: &'a Kinds,
    /// What `~` of each instance unwraps, by its place.
    pub openings: &'a [Opening],
    /// The literals that the rows are, written or computed.
    pub literals: &'a Literals,
    /// The members of the controllers of `.size` and `.bits`, by their rows.
    pub members: &'a Members,
    /// For each row whether `&` can choose from the group that it is.
    pub choosable: &'a [bool],
    /// What each row says in the group of a map.
    pub parts: &'a [Part],
    /// What is reported for the alternatives of each of these parts.
    pub summaries: &'a [Option<Summary>],
}
