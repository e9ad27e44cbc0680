//! The rows that a body is made of, each once, wholes before parts.

ghost use Rattle.std.specs.Prelude.{◌≡◌, IfOk, OnOk};
ghost use Rattle.check_terms.specs.Fill.Rows.{IsUnfolded, with_part, with_parts};

use crate::laws::is_table;
use crate::store::push;
use crate::{NoRoom, Terms};
use std::alloc::Global;
use std::collections::BTreeSet;

// The numbers of the rows that the body is made of, each once, wholes before parts.
pub(crate) fn rows_of(alloc: Global, terms: &Terms<'_>, body: u32) -> Result<Vec<u32>, NoRoom>
    ensures { IfOk result (λ v. IsUnfolded terms.now body v.items) }
{
    is_table(terms);
    let mut rows = Vec::new(alloc);
    let mut parts = BTreeSet::new(alloc);
    add_part(&mut parts, Some(body))?;
    while let Some(number) = parts.pop_last() {
        add_parts(&mut parts, terms, number)?;
        push(&mut rows, number)?;
    }
    Ok(rows)
}

fn add_parts(parts: &mut BTreeSet<u32>, terms: &Terms<'_>, number: u32) -> Result<(), NoRoom>
    ensures { OnOk result (parts.new.keys ≡ with_parts terms.now.rows parts.old.keys number) }
{
    let Some(row) = terms.row(number) else {
        return Ok(());
    };
    add_part(parts, row.first)?;
    add_part(parts, row.second)
}

fn add_part(parts: &mut BTreeSet<u32>, part: Option<u32>) -> Result<(), NoRoom>
    ensures { OnOk result (parts.new.keys ≡ with_part parts.old.keys part) }
{
    let Some(part) = part else {
        return Ok(());
    };
    match parts.insert(part) {
        Ok(_) => Ok(()),
        Err(_) => Err(NoRoom),
    }
}
