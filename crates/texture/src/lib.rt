// Textures: how many rays a texture has and how many samples each, and where a sample lies.
#![tactic(auto)]

pub mod plan;
pub mod sample;
