// Whole lists of calls and power cuts: no function stands here. The statement is specs/Demand3.antt, its proof proofs/.
#![tactic(auto)]
