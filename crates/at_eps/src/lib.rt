// No code: the answers of before there were tolerances (specs/Before.antt), and the theorem that EPS for every
// tolerance gives them (specs/AtEps.antt).
#![tactic(auto)]
