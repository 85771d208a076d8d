// No code: the demands, said of the functions that programs in C and Rust call. specs/ has the statements, proofs/ the
// proofs.
#![tactic(auto)]
