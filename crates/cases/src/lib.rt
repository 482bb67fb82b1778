// A recorded case as the words of its fields: numbers, floats by their bits, lists, and the arrays that lists are read
// into.
#![tactic(auto)]

pub mod answers;
pub mod lists;
pub mod rooms;
pub mod words;
