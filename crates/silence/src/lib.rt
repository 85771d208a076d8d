// No code: demand 3, over the definitions of the tag and the sheet. specs/ has the statements, proofs/ the proofs.
#![tactic(auto)]
