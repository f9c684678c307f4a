#![tactic(auto)]

// Theory alone, no program: the definitions and the claims stand in specs/, their proofs in proofs/.
