// The joined surface of a grid: definitions (specs/) and the theorem on its sides and flipped pairs (proofs/). No code:
// `mesh` computes these lists.
#![tactic(auto)]
