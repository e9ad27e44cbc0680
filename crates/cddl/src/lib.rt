//! CDDL (RFC 8610) over CBOR (RFC 8949) and CBOR sequences (RFC 8742), in one crate: items and their bytes, the text of a
//! specification, tables, verdicts and sessions; and [`validate`], which does all of it in one call.
//!
//! Each name is that of the crate that has it, and its contract is there.
#![tactic(auto)]

mod laws;
mod validating;

pub use crate::laws::{accepted_has_table, accepted_or_wrong, table_has_root, text_decides};
pub use crate::validating::{Failure, validate};
pub use cbor_item::{
    Counted, DetFault, Item, Sound, Unsound, Width, WriteFault, diag, item_at, path_text,
    push_notation, write_bytes, write_det, write_item,
};
pub use cbor_read::{
    Fault, FaultKind, Fed, Front, ItemReader, Limits, MOST_DEPTH, MOST_ITEM_BYTES, Stop, embedded,
    embedded_item, read_front,
};
pub use cddl_check::{Spec, check, trees_are_of_tokens};
pub use cddl_match::{Cells, Machine, Verdict, verdict};
pub use cddl_table::{compile, read_specification};
pub use cddl_token::{Code, Kind, Literal, Position, Refusal, Token, position_of, tokens, value};
pub use cddl_tree::{NESTING_LIMIT, Tree, discard, parse};
pub use seq_run::{
    Cause, End, Mode, OwnedSession, RunFault, Session, State, Step, Stopped, end_line, run,
    validate_pieces,
};
pub use table_nodes::Table;
