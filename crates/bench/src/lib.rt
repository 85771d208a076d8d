// The bench: it keeps one tag, and steps it where it is stored. What a step does is said once, of the tag by value, in
// crate tag.
#![tactic(auto)]

pub mod cursor; // cursor.rt: a sheet, and a place in it

ghost use Rattle.std.specs.Prelude.{◌≡◌};
ghost use Rattle.tag.specs.States.{awake, keyed};
ghost use Rattle.tag.specs.Answers.{answer_of};
ghost use Rattle.tag.specs.Reactions.{lent, Steps};
ghost use Rattle.bench.specs.Kept.{left};

use offer::Outcome;
use tag::{Stepped, Tag};

/// The tag powers up again where it is kept: the terms on which it serves stay, and nothing is held (clause 8).
///
/// Ruled out: a challenge that outlives the power; a tag that comes up with another's terms.
pub fn power_up(tag: &mut Tag)
    ensures { tag.new ≡ awake tag.old.terms }
{
    *tag = tag::power_up(tag.terms);
}

/// A tag that is kept here for one power-up, and powered up where it is kept.
///
/// Ruled out: a tag that is returned as it came; a tag that comes up with another's terms.
pub fn woken(tag: Tag) -> Tag
    ensures { result ≡ awake tag.terms }
{
    let mut place = tag;
    power_up(&mut place);
    place
}

/// One message to the tag that is kept, its key table lent: what `tag::step` returns of the tag is stored in its place,
/// and the outcome is returned. Room and areas are left as that step leaves them.
///
/// Ruled out: a bench that answers and keeps the tag as it was, so that every message meets it at power-up; a bench
/// that stores the tag of an accepted message only, so that a challenge outlives a refusal.
pub fn step(
    tag: &mut Tag,
    keys: &[u8],
    message: &[u8],
    draws: &[u8],
    room: &mut [u8],
    identity: &mut [u8],
    user: &mut [u8],
) -> Outcome
    ensures { Steps (answer_of (lent message.now draws.now room.old
        identity.old user.old) (keyed tag.old keys.now)) room.old
        (left result tag.new) room.new identity.new user.new }
{
    let stepped = tag::step(*tag, keys, message, draws, room, identity, user);
    *tag = stepped.tag;
    stepped.outcome
}

/// A tag that is kept here for one message, and stepped where it is kept.
///
/// Ruled out: a tag that is returned as it came; the outcome of one message with the tag after another.
pub fn kept(
    tag: Tag,
    keys: &[u8],
    message: &[u8],
    draws: &[u8],
    room: &mut [u8],
    identity: &mut [u8],
    user: &mut [u8],
) -> Stepped
    ensures { Steps (answer_of (lent message.now draws.now room.old
        identity.old user.old) (keyed tag keys.now)) room.old result
        room.new identity.new user.new }
{
    let mut place = tag;
    let outcome = step(&mut place, keys, message, draws, room, identity, user);
    Stepped {
        outcome,
        tag: place,
    }
}
