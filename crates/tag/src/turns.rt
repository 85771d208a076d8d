// A message before its kind counts: is it there, is it offered, is it in its turn (Annex A)?
ghost use Rattle.std.specs.Prelude.{◌≡◌, ◌≤◌, length};
ghost use Rattle.frames.specs.Lengths.{reply_room};
ghost use Rattle.sheet.specs.Setups.{setup_of};
ghost use Rattle.tag.specs.States.{in_turn, kind_taken};
ghost use Rattle.tag.specs.Answers.{of_message};
ghost use Rattle.tag.specs.Reactions.{lent, ReactsIn};

use super::{at_rest, kinds};
use entry::{Reacted, Session, State, cleared, refused};
use frames::Kind;
use offer::{TagFault, records};
use sheet::{Features, Terms};

// Whether the state takes the message (Table A.1).
// Ruled out: IAM1 taken between a challenge and its answer; MAM2 taken after IAM1.
#[tactic(auto, unfolding(crate::specs::States::in_turn))]
fn in_turn(state: State, kind: Kind) -> bool
    ensures { result ≡ in_turn state kind }
{
    match kind {
        Kind::Tam1 | Kind::Tam2 => true,
        Kind::Iam1 | Kind::Mam1 => at_rest(state),
        Kind::Iam2 | Kind::Iam3 => matches!(state, State::IamInit),
        Kind::Mam2 => matches!(state, State::MamInit),
        Kind::Unsupported => false,
    }
}

// The kind of a message that is there, that the tag offers, and that its state takes.
// Ruled out: an empty message taken for a TAM1; an IAM2 out of turn told Not Supported.
#[tactic(auto, unfolding(crate::specs::States::kind_taken))]
fn kind_taken(features: Features, state: State, m: &[u8]) -> Result<Kind, TagFault>
    ensures { result ≡ kind_taken features state m.now }
{
    let first = m.first().ok_or(TagFault::OtherError)?;
    let kind = frames::first::kind_of(*first);
    if !records::offered(features, kind) {
        return Err(TagFault::NotSupported);
    }
    if !in_turn(state, kind) {
        return Err(TagFault::OutOfTurn);
    }
    Ok(kind)
}

/// A message that the bench lent all it needs.
/// Ruled out: a refusal that leaves the tag as it was; a TAM1 after which a challenge is held.
pub fn take(
    terms: Terms,
    keys: &[u8],
    held: Session,
    m: &[u8],
    draws: [u8; 10],
    room: &mut [u8],
    identity: &mut [u8],
    user: &mut [u8],
) -> Reacted
    requires { reply_room ≤ length room.old }
    ensures { ReactsIn (of_message
        (lent m.now draws room.old identity.old user.old)
        (setup_of terms keys.now) held m.now)
        room.old result room.new identity.new user.new }
{
    let kind = match kind_taken(terms.features, held.state, m) {
        Ok(kind) => kind,
        Err(fault) => return refused(fault),
    };
    match kind {
        Kind::Tam1 => kinds::answered(tam::tam1(keys, m, draws), cleared(), room),
        Kind::Tam2 => kinds::tam2(terms, keys, m, draws, room, identity, user),
        Kind::Iam1 => {
            let given = entry::iam1(keys, m, draws);
            kinds::answered(given.reply, given.session, room)
        }
        Kind::Iam2 => entry::iam2(keys, held, m),
        Kind::Iam3 => entry::iam3(terms, keys, held, m, identity, user),
        Kind::Mam1 => {
            let given = entry::mam1(keys, m, draws);
            kinds::answered(given.reply, given.session, room)
        }
        Kind::Mam2 => entry::mam2(keys, held, m),
        Kind::Unsupported => refused(TagFault::NotSupported),
    }
}
