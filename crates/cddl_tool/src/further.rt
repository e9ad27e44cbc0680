//! What is reported for a refusal to one who wants more than its line.

ghost use Rattle.std.specs.Prelude.{◌≡◌, ◌<◌, IfOk, Some, length, option_map, slice_get, string_bytes};
ghost use Rattle.cddl_explain.specs.Further.{AreFurther};
ghost use Rattle.cddl_tool.specs.Further.{AreBesides, IsReason};

use cddl_explain::{explained_refusal, further_faults};
use cddl_token::Refusal;
use check_faults::{Listed, text_faults};
use check_text::Fault;
use std::alloc::{AllocError, Global};

// How many faults of one code are reported.
pub(crate) const MOST: usize = 20;

// What is reported for the first fault, and then of those besides: in the whole text, or in what its root reaches.
pub(crate) fn explained(
    alloc: Global,
    fault: Fault,
    file: &str,
    text: &[u8],
    root: Option<&str>,
) -> Result<String, AllocError>
    ensures { IfOk result (λ told. IsReason fault file.now text.now (option_map (λ r. r.now) root.entry) (string_bytes told)) }
{
    let first = explained_refusal(alloc, fault.code, fault.at, file, text, root)?;
    let faults = text_faults(alloc, text, root, MOST)?;
    let besides = besides(alloc, fault, &faults, file, text, root)?;
    format!(in alloc; "{first}{besides}")
}

// What is reported for these faults, but for the first one.
fn besides(
    alloc: Global,
    fault: Fault,
    faults: &[Listed],
    file: &str,
    text: &[u8],
    root: Option<&str>,
) -> Result<String, AllocError>
    ensures { IfOk result (λ told. AreBesides fault file.now text.now (option_map (λ r. r.now) root.entry) faults.now (string_bytes told)) }
{
    let mut told = String::new(alloc);
    'fault: for k in 0..faults.len() {
        let part = of_code(alloc, fault, listed_at(faults, k), file, text, root)?;
        told.push_str(part.as_str())?;
    }
    Ok(told)
}

// The faults of the code at this index.
fn listed_at(faults: &[Listed], index: usize) -> &Listed
    requires { index < length faults.now }
    ensures { slice_get faults.now index ≡ Some result.now }
{
    match faults.get(index) {
        Some(listed) => listed,
        None => unreachable!(),
    }
}

// What is reported for the faults of one code.
fn of_code(
    alloc: Global,
    fault: Fault,
    listed: &Listed,
    file: &str,
    text: &[u8],
    root: Option<&str>,
) -> Result<String, AllocError>
    ensures { IfOk result (λ told. AreFurther listed.now.code (Refusal.At fault.code fault.at) listed.now.offsets.items listed.now.further file.now text.now (option_map (λ r. r.now) root.entry) (string_bytes told)) }
{
    let already = Refusal::At(fault.code, fault.at);
    further_faults(
        alloc,
        listed.code,
        already,
        &listed.offsets,
        listed.further,
        file,
        text,
        root,
    )
}
