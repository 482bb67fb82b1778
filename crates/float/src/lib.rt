// Rules 12: methods of Rust's f64 that Rattle has no operator for, with their IEEE 754 meanings. All are total.
#![tactic(auto)]

pub mod cast;
pub mod consts;
pub mod order;
pub mod sign;
pub mod whole;
