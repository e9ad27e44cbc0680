//! What is wrong in what a root reaches: at its sites, with its ranges and controls, with its instances and with its maps.
#![tactic(auto)]

pub mod control_faults;
pub mod range_faults;
pub mod reached_faults;
pub mod root_faults;
pub mod spliced_faults;
