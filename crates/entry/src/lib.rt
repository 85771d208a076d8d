// Entry: how a reader is let in by IAM (9.5) and MAM (9.6), and the words that an IAM3 writes. Each message for any
// input: whether it is offered and in its turn is not judged here.
#![tactic(auto)]

ghost use Rattle.std.specs.Prelude.{◌≡◌, Ok, Err};
ghost use Rattle.aes.specs.AesEnc.{aes_enc};
ghost use Rattle.sheet.specs.KeyTable.{keys_in};
ghost use Rattle.sheet.specs.Setups.{setup_of};
ghost use Rattle.keytable.specs.Named.{key_with};
ghost use Rattle.offer.specs.Checks.{judged};
ghost use Rattle.entry.specs.Judged.{closing_checks};
ghost use Rattle.entry.specs.Opened.{purpose_in};
ghost use Rattle.entry.specs.Sessions.{cleared, entered, nothing_held};
ghost use Rattle.entry.specs.Given.{Challenges, LetsIn, Writes};
ghost use Rattle.entry.specs.Given.{iam1_checked, iam1_held, iam2_checked, iam2_purpose, iam3_checked, iam3_purpose};
ghost use Rattle.entry.specs.Given.{iam3_stored, mam1_checked, mam1_sent, mam1_held, mam2_checked, mam2_purpose};

use frames::Kind;
use frames::fields::{iam1_of, iam2_of, iam3_of, mam1_of, mam2_of};
use message::Sent;
use offer::{Answer, Outcome, TagFault, records};
use sheet::{Key, Terms};

mod judged; // judged.rt: the checks of IAM2, MAM2 and IAM3, in their order
mod replies; // replies.rt: what the tag sends
mod message; // message.rt: an IAM3 as it was sent
mod opened; // opened.rt: what is judged of what the reader sent

/// The states of Annex A.
#[derive(Clone, Copy, Debug, PartialEq, Eq)]
pub enum State {
    Initial,
    IamInit,
    MamInit,
    IaOk,
}

/// What the tag holds from one message to the next: its state, the KeyID that was named, its own challenge, and the
/// last 32 bits of the reader's.
#[derive(Clone, Copy)]
pub struct Session {
    pub state: State,
    pub keyid: u8,
    pub tchallenge: [u8; 10],
    pub ichallenge: [u8; 4],
}

/// The outcome, and what the tag holds afterwards.
#[derive(Clone, Copy)]
pub struct Reacted {
    pub outcome: Outcome,
    pub session: Session,
}

/// What a message that asks for a challenge comes to: the reply, of N bytes, or a refusal; and what the tag holds
/// afterwards.
#[derive(Clone, Copy)]
pub struct Challenged<const N: usize> {
    pub reply: Result<[u8; N], TagFault>,
    pub session: Session,
}

// A state in which no challenge and no KeyID is of use.
fn nothing_held(state: State) -> Session
    ensures { result ≡ nothing_held state }
{
    Session {
        state,
        keyid: 0,
        tchallenge: [0u8; 10],
        ichallenge: [0u8; 4],
    }
}

/// A state in which nothing is held: Initial.
///
/// Ruled out: a KeyID that stays; a challenge that stays.
#[tactic(auto, unfolding(crate::specs::Sessions::cleared))]
pub fn cleared() -> Session
    ensures { result ≡ cleared }
{
    nothing_held(State::Initial)
}

/// Numbers 1 to 6 end in Initial.
///
/// Ruled out: another number; a state that stays.
pub fn refused(fault: TagFault) -> Reacted
    ensures { (result.outcome ≡ Err fault) × (result.session ≡ cleared) }
{
    Reacted {
        outcome: Err(fault),
        session: cleared(),
    }
}

// The reader is let in (9.5.6, 9.5.9, 9.6.6): IA-OK.
#[tactic(auto, unfolding(crate::specs::Sessions::entered))]
fn let_in(purpose: u8) -> Reacted
    ensures { (result.outcome ≡ Ok (Answer.Entered purpose)) × (result.session ≡ entered) }
{
    Reacted {
        outcome: Ok(Answer::Entered(purpose)),
        session: nothing_held(State::IaOk),
    }
}

// No challenge for a message that is refused.
fn unchallenged<const N: usize>(fault: TagFault) -> Challenged<N>
    ensures { (result.reply ≡ Err fault) × (result.session ≡ cleared) }
{
    Challenged {
        reply: Err(fault),
        session: cleared(),
    }
}

/// IAM1 (9.5.2, 9.5.3).
///
/// Ruled out: a challenge that is sent and not kept; a KeyID that is not kept.
pub fn iam1(keys: &[u8], message: &[u8], draws: [u8; 10]) -> Challenged<10>
    ensures { Challenges (iam1_checked (keys_in keys.now) message.now) draws
        (iam1_held message.now draws) result.reply result.session }
{
    let f = iam1_of(message);
    if let Err(fault) = offer::judged::opening(keys, Kind::Iam1, f.rfu, f.keyid, message) {
        return unchallenged(fault);
    }
    Challenged {
        reply: Ok(draws),
        session: Session {
            state: State::IamInit,
            keyid: f.keyid,
            tchallenge: draws,
            ichallenge: [0u8; 4],
        },
    }
}

/// MAM1 (9.6.2, 9.6.3).
///
/// Ruled out: the first 32 bits of the reader's challenge kept; the state of IAM1.
#[tactic(auto, using(crate::proofs::Mam1Reply::challenge_kept))]
pub fn mam1(keys: &[u8], message: &[u8], draws: [u8; 10]) -> Challenged<22>
    ensures { Challenges (mam1_checked (keys_in keys.now) message.now)
        (mam1_sent (keys_in keys.now) message.now draws)
        (mam1_held message.now draws) result.reply result.session }
{
    let f = mam1_of(message);
    match offer::judged::opening(keys, Kind::Mam1, f.rfu, f.keyid, message) {
        Ok(key) => Challenged {
            reply: Ok(replies::mam1_reply(key, f, draws)),
            session: Session {
                state: State::MamInit,
                keyid: f.keyid,
                tchallenge: draws,
                ichallenge: octets::bytes_at(&f.ichallenge, 6),
            },
        },
        Err(fault) => unchallenged(fault),
    }
}

// The record of the KeyID that is held; a key of zeros where there is none.
fn key_held(keys: &[u8], held: Session) -> Key
    ensures { result ≡ key_with held.keyid (keys_in keys.now) }
{
    keytable::find(keys, held.keyid).unwrap_or(keytable::no_key())
}

// What IAM2 and MAM2 come to: b is the block that the reader sent, opened.
fn closed(b: [u8; 16], proof: bool, rfu: u8, kind: Kind, message: &[u8]) -> Reacted
    ensures { LetsIn (judged (closing_checks proof rfu kind message.now)) (purpose_in b) result }
{
    match judged::closing(proof, rfu, kind, message) {
        Ok(()) => let_in(opened::purpose(b)),
        Err(fault) => refused(fault),
    }
}

/// IAM2 (9.5.5, 9.5.6).
///
/// Ruled out: AES-DEC at the tag; a Purpose that is not handed on.
#[tactic(auto, unfolding(crate::specs::Judged::iam2_checks))]
pub fn iam2(keys: &[u8], held: Session, message: &[u8]) -> Reacted
    ensures { LetsIn (iam2_checked (keys_in keys.now) held message.now)
        (iam2_purpose (keys_in keys.now) held message.now) result }
{
    let f = iam2_of(message);
    let b = aes::encrypt(key_held(keys, held).enc, f.iresponse);
    closed(
        b,
        opened::iam_proof(0xDA8, held, b),
        f.rfu,
        Kind::Iam2,
        message,
    )
}

/// MAM2 (9.6.5, 9.6.6).
///
/// Ruled out: the last 32 bits of the reader's challenge not looked at; three RFU bits of four.
#[tactic(auto, unfolding(crate::specs::Judged::mam2_checks))]
pub fn mam2(keys: &[u8], held: Session, message: &[u8]) -> Reacted
    ensures { LetsIn (mam2_checked (keys_in keys.now) held message.now)
        (mam2_purpose (keys_in keys.now) held message.now) result }
{
    let f = mam2_of(message);
    let b = aes::encrypt(key_held(keys, held).enc, f.iresponse);
    closed(b, opened::mam_proof(held, b), f.rfu, Kind::Mam2, message)
}

/// IAM3 (9.5.8, 9.5.9): where nothing is refused, its words are written into the areas.
///
/// Ruled out: words written before all is judged; words that are never written.
pub fn iam3(
    terms: Terms,
    keys: &[u8],
    held: Session,
    message: &[u8],
    identity: &mut [u8],
    user: &mut [u8],
) -> Reacted
    ensures { Writes (iam3_checked (setup_of terms keys.now) held message.now)
        (iam3_purpose (setup_of terms keys.now) held message.now)
        (iam3_stored (setup_of terms keys.now) held message.now)
        identity.old user.old result identity.new user.new }
{
    let key = key_held(keys, held);
    if let Err(fault) = judged::iam3_fields(terms, key, message) {
        return refused(fault);
    }
    let f = iam3_of(message);
    let block = records::words_asked(terms.profiles, f.custom);
    opened::iam3(key, held, &Sent { f, m: message }, block, identity, user)
}
