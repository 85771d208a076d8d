// The texts that the bench has of its own: what each number means, the commands, and the demo's script.
#![tactic(auto)]

pub mod explain; // explain.rt: numbers and commands
pub mod demo; // demo.rt: one exchange of each kind
