// The events of a leg between two samples, in order: Rules 6.2 to 6.4.
#![tactic(auto)]

pub mod cell;
pub mod event;
pub mod events;
pub mod point;
pub mod scratch;
mod side;
pub mod sorted;
