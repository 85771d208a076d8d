// The tag's turns: it answers, and the reply that ends the exchange is judged in the turn that brings it.
ghost use Rattle.std.specs.Prelude.{◌≡◌};
ghost use Rattle.tag.specs.States.{keyed};
ghost use Rattle.tag.specs.Answers.{answer_of};
ghost use Rattle.tag.specs.Reactions.{lent, Steps};
ghost use Rattle.turns.specs.Standings.{message_in, has_two, ends_with, draws_of};
ghost use Rattle.turns.specs.Turns.{ended, received, replied, answered, table, Plays};

use super::judging::judged;
use super::standings::{concludes, turned, waits};
use super::{Counted, Found, Next, Played, Reply, Sent, Standing};
use frames::sizes::{DATA_ROOM, REPLY_ROOM};
use octets::{front, tail};
use offer::{Answer, Outcome};
use plan::{Method, Plan};
use reader_judge::Worth;
use tag::{Stepped, Tag};

// Has the method two turns?
#[tactic(auto, unfolding(crate::specs::Standings::has_two))]
fn has_two(method: Method) -> bool
    ensures { result ≡ has_two method }
{
    matches!(method, Method::Tam1 | Method::Tam2)
}

// Does the tag's turn end the exchange?
// Ruled out: the reply to TAM1 judged in a third turn; the reply to IAM1 taken for the end.
#[tactic(auto, unfolding(crate::specs::Standings::ends_with))]
fn ends_with(next: Next, method: Method) -> bool
    ensures { result ≡ ends_with next method }
{
    matches!(next, Next::TagEnds) || has_two(method)
}

// The draws of the tag's turn: the first ten bytes, and in its second turn those behind them.
#[tactic(auto, unfolding(crate::specs::Standings::draws_of))]
fn draws_of(next: Next, draws: &[u8]) -> &[u8]
    ensures { result.now ≡ draws_of next draws.now }
{
    if matches!(next, Next::TagEnds) {
        tail(draws, 10)
    } else {
        front(draws, 10)
    }
}

// The reply that ends the exchange, judged. A refusal finds no data.
fn end(plan: Plan, standing: Standing, reply: Reply) -> Standing
    ensures { result ≡ ended plan standing reply }
{
    let mut bytes = [0; DATA_ROOM];
    match judged(plan.keys, standing.sent, reply, &mut bytes) {
        Ok(accepted) => {
            let found = Found {
                bytes,
                count: accepted.data,
                worth: accepted.worth,
            };
            concludes(Next::Done, standing, reply, found)
        }
        Err(fault) => {
            let found = Found {
                bytes,
                count: 0,
                worth: Worth::NoData,
            };
            concludes(Next::RefusedByReader(fault), standing, reply, found)
        }
    }
}

// A reply, by the turn that brings it.
#[tactic(auto, unfolding(crate::specs::Turns::received))]
fn receive(plan: Plan, standing: Standing, reply: Reply) -> Standing
    ensures { result ≡ received plan standing reply }
{
    if ends_with(standing.next, plan.method) {
        end(plan, standing, reply)
    } else {
        waits(standing, reply)
    }
}

// What the tag's outcome makes of what stands, its reply in the room.
#[tactic(auto, unfolding(crate::specs::Turns::replied))]
fn reply_in(plan: Plan, standing: Standing, outcome: Outcome, bytes: [u8; REPLY_ROOM]) -> Standing
    ensures { result ≡ replied plan standing bytes outcome }
{
    match outcome {
        Ok(Answer::Replied(count)) => receive(plan, standing, Counted { bytes, count }),
        Ok(Answer::Entered(_)) => receive(plan, standing, Counted { bytes, count: 0 }),
        Err(fault) => turned(Next::RefusedByTag(fault), standing),
    }
}

// The tag's step with the message that was sent, and the draws of its turn.
fn step_sent(
    next: Next,
    tag: Tag,
    keys: &[u8],
    sent: Sent,
    draws: &[u8],
    room: &mut [u8],
    identity: &mut [u8],
    user: &mut [u8],
) -> Stepped
    ensures { Steps (answer_of (lent (message_in sent) (draws_of next draws.now) room.old
        identity.old user.old) (keyed tag keys.now)) room.old result
        room.new identity.new user.new }
{
    tag::step(
        tag,
        keys,
        sent.held(),
        draws_of(next, draws),
        room,
        identity,
        user,
    )
}

/// The tag's turn. Ruled out: the draws of its first turn used again; the tag kept as it was.
pub fn act(
    plan: Plan,
    keys: &[u8],
    draws: &[u8],
    standing: Standing,
    tag: Tag,
    identity: &mut [u8],
    user: &mut [u8],
) -> Played
    ensures { Plays (answered plan keys.now draws.now
        (table standing tag identity.old user.old)) result identity.new
        user.new }
{
    let mut room = [0; REPLY_ROOM];
    let stepped = step_sent(
        standing.next,
        tag,
        keys,
        standing.sent,
        draws,
        &mut room,
        identity,
        user,
    );
    Played {
        standing: reply_in(plan, standing, stepped.outcome, room),
        tag: stepped.tag,
    }
}
