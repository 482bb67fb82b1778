// Rules 1.3: the constants. The bits of each are in specs/Consts.antt.

// A full turn, and the root of 2.
pub use std::f64::consts::{SQRT_2, TAU};

// The f64 nearest to 10^-9.
pub const EPS: f64 = 1e-9;
