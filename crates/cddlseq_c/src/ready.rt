//! A specification is read, and made ready for streams.

ghost use Rattle.std.specs.Prelude.{◌≡◌, IfErr, IfNone, IfOk, IfSome, option_map};
ghost use Rattle.std.specs.Arc.{arc_value};
ghost use Rattle.cddl_table.specs.Text.{IsTabledText};
ghost use Rattle.cddlseq_c.specs.Answers.{AreOutside, IsReady, IsStop, IsUnread, IsUntabled, root_name};
ghost use Rattle.cddlseq_c.specs.Pieces.{begun_by};
ghost use Rattle.cddlseq_c.specs.Told.{bounds_of};

use crate::feeding::Feeding;
use crate::stop::Stop;
use crate::told::CddlseqLimits;
use cbor_read::Limits;
use cddl_table::read_specification;
use cddl_token::Refusal;
use check_text::Fault;
use seq_run::OwnedSession;
use std::alloc::{AllocError, Global};
use std::marker::Model;
use std::str;
use std::sync::Arc;
use table_nodes::Table;

// The table of a text, which others may own too, and what an item may have. Contracts see the table, and not where it is.
#[derive(Drop)]
pub(crate) struct Ready {
    table: Arc<Table>,
    limits: Limits,
    steps: u64,
}

impl Model for Ready {
    ghost use Rattle.std.specs.Arc.{arc_value};
    ghost use Rattle.cddlseq_c.specs.Held.{Held, coded_held};

    ghost Value = { Held };

    ghost coded = { coded_held };

    ghost view = { λ r. record { table = arc_value r.table; limits = r.limits; steps = r.steps } };
}

impl Ready {
    fn new(table: Arc<Table>, limits: Limits, steps: u64) -> Ready
        ensures { result ≡ record { table = arc_value table; limits = limits; steps = steps } }
    {
        Ready {
            table,
            limits,
            steps,
        }
    }

    pub(crate) fn table(&self) -> &Table
        ensures { result.now ≡ self.now.table }
    {
        &self.table
    }

    pub(crate) fn limits(&self) -> Limits
        ensures { result ≡ self.now.limits }
    {
        self.limits
    }

    pub(crate) fn steps(&self) -> u64
        ensures { result ≡ self.now.steps }
    {
        self.steps
    }

    // The same table once more, which is freed with its last owner.
    pub(crate) fn another(&self) -> Result<Ready, AllocError>
        ensures { IfOk result (λ r. r ≡ self.now) }
    {
        let table = Arc::try_clone(&self.table)?;
        Ok(Ready::new(table, self.limits, self.steps))
    }

    // A stream in pieces, at its first byte.
    pub(crate) fn into_feeding(self, alloc: Global) -> Feeding
        ensures { result ≡ begun_by self }
    {
        Feeding::new(OwnedSession::new(alloc, self.table, self.limits, self.steps))
    }
}

// Reads the text. A root of no bytes is none.
pub(crate) fn table_of(alloc: Global, text: &[u8], root: &[u8]) -> Result<Table, Stop>
    ensures tabled { IfOk result (IsTabledText text.now (root_name root.now)) }
    ensures untabled { IfErr result (IsUntabled text.now root.now) }
{
    if root.is_empty() {
        return read(alloc, text, None);
    }
    match str::from_utf8(root) {
        Ok(name) => read(alloc, text, Some(name)),
        Err(_) => Err(Stop::BadRoot),
    }
}

fn read(alloc: Global, text: &[u8], root: Option<&str>) -> Result<Table, Stop>
    ensures tabled { IfOk result (IsTabledText text.now (option_map (λ name. name.now) root.entry)) }
    ensures unread { IfErr result (IsUnread text.now (option_map (λ name. name.now) root.entry)) }
{
    match read_specification(alloc, text, root) {
        Ok(table) => Ok(table),
        Err(Refusal::At(code, at)) => Err(Stop::Refused(Fault { code, at })),
        Err(Refusal::Memory) => Err(Stop::Memory),
    }
}

// Reads the text, once the limits are looked at.
pub(crate) fn prepare(
    alloc: Global,
    text: &[u8],
    root: &[u8],
    limits: &CddlseqLimits,
) -> Result<Ready, Stop>
    ensures ready { IfOk result (IsReady text.now root.now limits.now) }
    ensures stop { IfErr result (IsStop limits.now text.now root.now) }
{
    let Some(within) = limits_of(limits) else {
        return Err(Stop::BadLimits);
    };
    match table_of(alloc, text, root) {
        Ok(table) => match Arc::new(alloc, table) {
            Ok(table) => Ok(Ready::new(table, within, limits.steps)),
            Err(_) => Err(Stop::Memory),
        },
        Err(why) => Err(why),
    }
}

fn limits_of(limits: &CddlseqLimits) -> Option<Limits>
    ensures within { IfSome result (λ l. l ≡ bounds_of limits.now) }
    ensures outside { IfNone result (AreOutside limits.now) }
{
    Limits::try_new(limits.depth, limits.item_bytes)
}
