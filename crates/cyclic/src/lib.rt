// Rules 3: which edges of a grid join. The mapping between two rows of points, and the search for it.
#![tactic(auto)]

pub mod mapping;
pub mod seam;
