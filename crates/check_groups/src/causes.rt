//! What the modules for groups share: what stands at each row, and at which rows a property holds, by what follows from what.
pub(crate) mod cause;
pub(crate) mod flags;
pub(crate) mod rows;
pub(crate) mod rules;
