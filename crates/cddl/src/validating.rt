//! From the text of a specification and a stream to what is reported for it, in one call.

ghost use Rattle.std.specs.Prelude.{◌≡◌, IfErr, IfOk, IsErrAnd, option_map};
ghost use Rattle.cddl_check.specs.Text.{IsWrongText};
ghost use Rattle.check_text.specs.declared.fault.Fault.{Fault};
ghost use Rattle.seq_run.specs.Running.{change_of};
ghost use Rattle.cddl.specs.Rules.{HasRoot, Rule};
ghost use Rattle.cddl.specs.Validated.{IsFailed, IsNoRefusal, IsRefusalFor, IsValidated, LeavesDevices};
ghost use Rattle.cddl.specs.Failures.{failure_of};
ghost use Rattle.cddl.specs.declared.validating.Failure.TheVariants as Why;

use crate::laws::{accepted_or_wrong, table_has_root};
use cbor_item::{Counted, Sound};
use cbor_read::Limits;
use cddl_table::read_specification;
use cddl_token::{Code, Refusal};
use seq_run::meaning::one_end_by_text;
use seq_run::{End, Mode, RunFault, run};
use std::alloc::Global;
use std::io::{Read, Write};
use thiserror::Error;

/// Why [`validate`] tells no end of a stream.
#[derive(Clone, Copy, Debug, PartialEq, Eq, Error)]
pub enum Failure {
    /// The text of the specification is refused: what is wrong, and at which byte. Nothing was read, and nothing went out.
    #[error("refused: {code} at byte {at}")]
    Refused { code: Code, at: usize },
    /// A device failed, or an allocation was refused: how far the run had come. Where memory for the specification was
    /// refused, that is `Memory(0)`.
    #[error("{0}")]
    Stopped(RunFault),
}

impl From<Refusal> for Failure {
    ghost from_gives = { λ why failure. failure ≡ failure_of why };

    fn from(why: Refusal) -> Failure {
        match why {
            Refusal::At(code, at) => Failure::Refused { code, at },
            Refusal::Memory => Failure::Stopped(RunFault::Memory(0)),
        }
    }
}

impl From<RunFault> for Failure {
    ghost from_gives = { λ fault failure. failure ≡ Why.Stopped fault };

    fn from(fault: RunFault) -> Failure {
        Failure::Stopped(fault)
    }
}

/// Reads the specification (RFC 8610) and runs the stream of `input` by its root rule, which is the one that `root` names, or
/// else the first. It writes to `output` what the mode says of each item that the rule accepts and of the end, and answers the
/// end, and for a mismatch the item that failed.
///
/// The items are the longest list that the stream begins with of items that are well-formed, valid, within the limits, and
/// accepted by the rule in no more than so many steps. The end is clean, or has the offset and the cause of the first item that
/// fails. The time and the memory are those of [`read_specification`] and of [`run`].
///
/// # Errors
///
/// [`Failure::Refused`] with the fault that is reported of the text: the devices are as they were. A text that has a root rule
/// is never refused; a wrong one always is, unless memory for it was refused. [`Failure::Stopped`] where a read, a write or an
/// allocation of this call failed, with what [`RunFault`] says of the output.
pub fn validate<R: Read, W: Write>(
    alloc: Global,
    specification: &[u8],
    root: Option<&str>,
    limits: Limits,
    steps: u64,
    mode: Mode,
    input: &mut Counted<R>,
    output: &mut Counted<W>,
) -> Result<(End, Option<Sound>), Failure>
    ensures told { IfOk result (λ r. IsValidated specification.now (option_map (λ t. t.now) root.entry) limits steps mode
        (change_of R.remaining input.old input.new) (change_of W.contents output.old output.new) r.0 r.1) }
    ensures failed { IfErr result (IsFailed specification.now (option_map (λ t. t.now) root.entry) limits steps mode
        (change_of R.remaining input.old input.new) (change_of W.contents output.old output.new)) }
    ensures refused { IfErr result (LeavesDevices input.old input.new output.old output.new) }
    ensures accepted { (rule : Rule) → HasRoot specification.now (option_map (λ t. t.now) root.entry) rule → IfErr result IsNoRefusal }
    ensures wrong { (fault : Fault) → IsWrongText specification.now (option_map (λ t. t.now) root.entry) fault → IsErrAnd result (IsRefusalFor fault) }
{
    accepted_or_wrong();
    table_has_root();
    one_end_by_text();
    let depth = limits.depth();
    prove!(depth <= 256);
    let table = read_specification(alloc, specification, root)?;
    let told = run(alloc, &table, limits, steps, mode, input, output)?;
    Ok(told)
}
