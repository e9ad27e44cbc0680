//! Answers calls over items and streams: of `cbor_item`, `cbor_read` and `read_items`; and of `table_nodes`, `cddl_match` and
//! `seq_run`.
#![tactic(auto)]

mod desk;
mod form_calls;
mod item_calls;
mod items;
mod match_calls;
mod read_calls;
mod reason_calls;
mod run_calls;
mod session_calls;
mod sessions;
mod table_calls;
mod tables;
mod write_calls;

use crate::desk::Desk;
use call_lines::{run, say_no_memory};
use std::process::ExitCode;

fn main(rt: HostRuntime) -> ExitCode {
    let (mut input, mut out, mut err) = (rt.stdin(), rt.stdout(), rt.stderr());
    match Desk::new(rt.alloc()) {
        Ok(mut desk) => run(rt.alloc(), &mut desk, &mut input, &mut out, &mut err),
        Err(_) => say_no_memory(&mut err),
    }
}
