//! Runs a sequence of CBOR items (RFC 8742) against a specification: a session over pieces of any size, and its report.
#![tactic(auto)]

mod end;
mod examiner;
mod head;
mod laws;
mod lines;
pub mod meaning;
mod output;
mod owned;
mod pieces;
mod room;
mod running;
mod session;
mod watching;

pub use crate::end::{Cause, End, State, Stopped};
pub use crate::laws::{decisive_end, one_end, same_if_rewritten, some_end, written_is_read_back};
pub use crate::lines::end_line;
pub use crate::output::Mode;
pub use crate::owned::OwnedSession;
pub use crate::pieces::validate_pieces;
pub use crate::running::{RunFault, run, run_watched};
pub use crate::session::{Session, Step};
pub use crate::watching::{Unwatched, Watch};
