// The C boundary: one function for each open call, numbers and slices in, a number or a `#[repr(C)]`
// struct out. A slice is passed as two words, its pointer and its length.
#![tactic(auto)]

pub mod floats;
pub mod found;
pub mod given;
pub mod lines;
pub mod meshes;
pub mod samples;
pub mod seams;
pub mod textures;
pub mod tolerances;
pub mod traces;
pub mod vectors;
