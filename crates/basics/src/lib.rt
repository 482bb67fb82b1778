// Definitions and laws of Bools and lists that no one layer owns. No code.
#![tactic(auto)]
