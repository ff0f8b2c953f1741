// No code: the blocks that document 01 marks M, all of them, hold of the definitions (proofs/).
#![tactic(auto)]
