//! Rows as origins.

ghost use Rattle.std.specs.Prelude.{◌≡◌, ℕ, IfOk, map};
ghost use Rattle.table_making.specs.declared.origin.GroupOrigin.TheVariants as G;
ghost use Rattle.table_making.specs.declared.origin.TypeOrigin.TheVariants as T;

use crate::origin::{GroupOrigin, TypeOrigin};
use std::alloc::{AllocError, Global};

// The types of the rows.
pub(crate) fn row_origins(alloc: Global, rows: &[u32]) -> Result<Vec<TypeOrigin>, AllocError>
    ensures { IfOk result (λ v. v.items ≡ map (λ (n : ℕ). T.Row n) rows.now) }
{
    rows.iter().map(|row| TypeOrigin::Row(*row)).collect(alloc)
}

// The alternatives of the rows, one for each.
pub(crate) fn sequence_origins(alloc: Global, rows: &[u32]) -> Result<Vec<GroupOrigin>, AllocError>
    ensures { IfOk result (λ v. v.items ≡ map (λ (n : ℕ). G.Sequence n) rows.now) }
{
    rows.iter()
        .map(|row| GroupOrigin::Sequence(*row))
        .collect(alloc)
}

// The entries of the rows.
pub(crate) fn entry_origins(alloc: Global, rows: &[u32]) -> Result<Vec<GroupOrigin>, AllocError>
    ensures { IfOk result (λ v. v.items ≡ map (λ (n : ℕ). G.Entry n) rows.now) }
{
    rows.iter()
        .map(|row| GroupOrigin::Entry(*row))
        .collect(alloc)
}
