// The reader's turns: the first builds the message that opens the exchange; the third judges the tag's challenge and
// builds the message that answers it.
ghost use Rattle.std.specs.Prelude.{◌≡◌};
ghost use Rattle.turns.specs.Turns.{opened, proves, closed, asked};

use super::judging::judged;
use super::standings::{sends, turned};
use super::{Next, Standing};
use frames::sizes::{DATA_ROOM, MESSAGE_ROOM};
use plan::Plan;

// Turn 1.
fn opens(plan: Plan, standing: Standing) -> Standing
    ensures { result ≡ opened plan standing }
{
    let mut room = [0; MESSAGE_ROOM];
    let made = plan::opening(plan, &mut room);
    sends(Next::TagAnswers, standing, made, room)
}

// Turn 3, where the challenge is accepted: it is kept, and no turn is counted by it.
fn prove(plan: Plan, words: &[u8], challenge: [u8; 10], standing: Standing) -> Standing
    ensures { result ≡ proves plan words.now challenge standing }
{
    let mut room = [0; MESSAGE_ROOM];
    let made = plan::closing(plan, challenge, words, &mut room);
    sends(
        Next::TagEnds,
        Standing {
            challenge,
            ..standing
        },
        made,
        room,
    )
}

// Turn 3.
fn closes(plan: Plan, words: &[u8], standing: Standing) -> Standing
    ensures { result ≡ closed plan words.now standing }
{
    let mut room = [0; DATA_ROOM];
    match judged(plan.keys, standing.sent, standing.reply, &mut room) {
        Ok(accepted) => prove(plan, words, accepted.challenge.unwrap_or([0; 10]), standing),
        Err(fault) => turned(Next::RefusedByReader(fault), standing),
    }
}

/// The reader's turn; what stands otherwise stays.
/// Ruled out: a message that is sent in the tag's turn; the opening message sent twice.
#[tactic(auto, unfolding(crate::specs::Turns::asked))]
pub fn act(plan: Plan, words: &[u8], standing: Standing) -> Standing
    ensures { result ≡ asked plan words.now standing standing.next }
{
    match standing.next {
        Next::ReaderOpens => opens(plan, standing),
        Next::ReaderCloses => closes(plan, words, standing),
        Next::TagAnswers
        | Next::TagEnds
        | Next::Done
        | Next::RefusedByTag(_)
        | Next::RefusedByReader(_) => standing,
    }
}
