// The soft tag of ISO/IEC 29167-10: one message in, a reply or a number out.
#![tactic(auto)]

ghost use Rattle.std.specs.Prelude.{◌≡◌};
ghost use Rattle.sheet.specs.KeyTable.{keys_in};
ghost use Rattle.tag.specs.States.{awake, keyed, at_rest, key_fits};
ghost use Rattle.tag.specs.Answers.{answer_of};
ghost use Rattle.tag.specs.Reactions.{lent, Steps};

use entry::{Session, State};
use offer::Outcome;
use sheet::Terms;

mod kinds; // kinds.rt: what is sent, in the room
mod turns; // turns.rt: the checks before a message's kind counts, and what it comes to

/// A tag, but for its key table, which is lent with each call: the terms on which it serves, and what it holds.
#[derive(Clone, Copy)]
pub struct Tag {
    pub terms: Terms,
    pub session: Session,
}

/// The outcome, and the tag afterwards.
#[derive(Clone, Copy)]
pub struct Stepped {
    pub outcome: Outcome,
    pub tag: Tag,
}

/// A tag at power-up, and after a reset: nothing is held (clause 8).
///
/// Ruled out: a tag that wakes up in IA-OK; a challenge that outlives the power.
pub fn power_up(terms: Terms) -> Tag
    ensures { result ≡ awake terms }
{
    Tag {
        terms,
        session: entry::cleared(),
    }
}

/// Does a record have the KeyID that is held, where a challenge waits for its answer? Of a tag from power-up on it does
/// (`Holding`); a host that stores tags asks it of what it takes up again.
///
/// Ruled out: a KeyID that no record has, taken with the key of zeros; a tag in Initial refused for the KeyID 0 that
/// stands there.
#[tactic(auto, unfolding(crate::specs::States::key_fits))]
pub fn key_held(session: Session, keys: &[u8]) -> bool
    ensures { result ≡ key_fits (keys_in keys.now) session.state session.keyid }
{
    match session.state {
        State::Initial | State::IaOk => true,
        State::IamInit | State::MamInit => keytable::find(keys, session.keyid).is_some(),
    }
}

/// Does no challenge wait for its answer in this state (Table A.1)?
///
/// Ruled out: MAM-Init taken for a state at rest; IA-OK taken for one in which a challenge waits.
#[tactic(auto, unfolding(crate::specs::States::at_rest))]
pub fn at_rest(state: State) -> bool
    ensures { result ≡ at_rest state }
{
    matches!(state, State::Initial | State::IaOk)
}

/// One message: the tag by value; its key table, message, draws, reply room and both areas lent. The outcome and the
/// next tag are returned, the reply stands in the room's first bytes, and an accepted IAM3 has written its words.
///
/// A refusal changes no byte of room or areas; numbers 1 to 6 leave the tag in Initial, number 7 leaves it as it was.
///
/// Ruled out: the tag that refuses everything; the tag with one fixed reply; the tag that never stores; the tag that
/// answers its first message truly and later ones for show; a made-up reply length.
pub fn step(
    tag: Tag,
    keys: &[u8],
    message: &[u8],
    draws: &[u8],
    room: &mut [u8],
    identity: &mut [u8],
    user: &mut [u8],
) -> Stepped
    ensures { Steps (answer_of (lent message.now draws.now room.old
        identity.old user.old) (keyed tag keys.now)) room.old result
        room.new identity.new user.new }
{
    let verdict = offer::judged::lending(
        tag.terms.sizes,
        draws.len(),
        room.len(),
        identity.len(),
        user.len(),
    );
    if let Err(fault) = verdict {
        return Stepped {
            outcome: Err(fault),
            tag,
        };
    }
    let terms = tag.terms;
    let drawn = octets::bytes_at(draws, 0);
    let reacted = turns::take(
        terms,
        keys,
        tag.session,
        message,
        drawn,
        room,
        identity,
        user,
    );
    Stepped {
        outcome: reacted.outcome,
        tag: Tag {
            terms,
            session: reacted.session,
        },
    }
}
