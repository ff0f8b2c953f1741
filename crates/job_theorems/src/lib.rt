// No code: theorems about calls on files that follow each other (specs/ has their statements, proofs/ the proofs).
#![tactic(auto)]
