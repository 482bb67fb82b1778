// Recorded calls on curves across a surface: each function runs the library on the inputs of a case and says whether it
// does what is recorded.
#![tactic(auto)]

pub mod textures;
pub mod traces;
