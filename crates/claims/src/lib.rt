// No code: what holds of the two halves together, over their definitions. specs/ has the statements, proofs/ the
// proofs.
#![tactic(auto)]
