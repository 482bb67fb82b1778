// Recorded calls on a surface's points: each function runs the library on the inputs of a case and says whether it does
// what is recorded.
#![tactic(auto)]

pub mod lines;
pub mod meshes;
pub mod seams;
pub mod vectors;
