// No code: the definitions of reliefs, levels and lists (specs/), and the laws about them (proofs/).
#![tactic(auto)]
