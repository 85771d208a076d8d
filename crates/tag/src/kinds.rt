// What is sent, put over the first bytes of the room.
ghost use Rattle.std.specs.Prelude.{◌≡◌, ◌≤◌, length, Ok};
ghost use Rattle.offer.specs.declared.Answer.TheVariants.{Replied};
ghost use Rattle.frames.specs.Lengths.{reply_room};
ghost use Rattle.modes.specs.Room.{over};
ghost use Rattle.sheet.specs.Setups.{setup_of};
ghost use Rattle.tag.specs.Answers.{tam2_answer};
ghost use Rattle.tag.specs.Reactions.{lent, Reacts, Sends};

use entry::{Reacted, Session, cleared, refused};
use offer::{Answer, TagFault};
use sheet::Terms;

// A reply over the first bytes of the room.
fn send(reply: &[u8], session: Session, room: &mut [u8]) -> Reacted
    requires { length reply.now ≤ length room.old }
    ensures { (result.outcome ≡ Ok (Replied (length reply.now))) × (result.session ≡ session)
        × (room.new ≡ over reply.now room.old) }
{
    room[..reply.len()].copy_from_slice(reply);
    Reacted {
        outcome: Ok(Answer::Replied(reply.len())),
        session,
    }
}

/// A reply of N bytes over the first bytes of the room; a refusal sends nothing.
/// Ruled out: a reply that is not sent, and a room that a refusal changes.
pub fn answered<const N: usize>(
    reply: Result<[u8; N], TagFault>,
    session: Session,
    room: &mut [u8],
) -> Reacted
    requires { N ≤ length room.old }
    ensures { Sends reply.entry session room.old result room.new }
{
    match reply {
        Ok(bytes) => send(&bytes, session, room),
        Err(fault) => Reacted {
            outcome: Err(fault),
            session,
        },
    }
}

/// TAM2: nothing is held afterwards (9.4.5, 9.4.6).
/// Ruled out: a challenge that survives it, and a reply that is not sent.
pub fn tam2(
    terms: Terms,
    keys: &[u8],
    m: &[u8],
    draws: [u8; 10],
    room: &mut [u8],
    identity: &[u8],
    user: &[u8],
) -> Reacted
    requires { reply_room ≤ length room.old }
    ensures { Reacts (tam2_answer
        (lent m.now draws room.old identity.now user.now)
        (setup_of terms keys.now))
        room.old result room.new }
{
    match tam::tam2(terms, keys, m, draws, identity, user) {
        Ok(reply) => send(&reply.room[..reply.length], cleared(), room),
        Err(fault) => refused(fault),
    }
}
