//! Graphs by numbers, which know nothing of CDDL: where chains of links end, ranks that go down along edges or the nodes on
//! cycles, and what follows from implications.
#![tactic(auto)]

pub mod chains;
pub mod cycles;
pub mod implications;
