// No code: what exchanges come to, over the definitions of both halves. specs/ has the statements, proofs/ the proofs.
#![tactic(auto)]
