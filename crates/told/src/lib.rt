// What a message came to, in words: its reply or its number, the state after it, and the Purpose.
#![tactic(auto)]

use console::answer::{Decimal, Hex};
use entry::State;
use offer::{Answer, Outcome};
use std::io;

/// A message's outcome, with the state after it. The reply stands in the room's first bytes.
pub fn outcome(rt: &impl Print, outcome: Outcome, state: State, room: &[u8]) -> io::Result<()> {
    let state = name(state);
    match outcome {
        Ok(Answer::Replied(n)) => {
            println!(rt;
                "reply {} state {state} purpose -",
                Hex(octets::front(room, n))
            )
        }
        Ok(Answer::Entered(purpose)) => {
            println!(rt; "reply - state {state} purpose {}", Decimal(purpose.into()))
        },
        Err(fault) => { println!(rt; "refused {} state {state}", Decimal(u8::from(fault).into())) },
    }
}

// A state as Annex A names it.
fn name(state: State) -> &'static str {
    match state {
        State::Initial => "Initial",
        State::IamInit => "IAM-Init",
        State::MamInit => "MAM-Init",
        State::IaOk => "IA-OK",
    }
}
