// Pen lines traced across the cells of a grid: Rules 6 and 7.
#![tactic(auto)]

pub mod curve;
pub mod flat;
pub mod samples;
