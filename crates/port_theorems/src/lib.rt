// What document 02 says of every list of writes and events that reaches a press port: statements and proofs, no code.
#![tactic(auto)]
