// What an image says, by the sheet's own definitions of a body.
ghost use Rattle.std.specs.Prelude.{◌≡◌, drop};
ghost use Rattle.sheet.specs.Limits.{profile_limit, lock_limit};
ghost use Rattle.sheet.specs.Records.{lock_of};
ghost use Rattle.image.specs.Places.{profiles_at, locks_at};
ghost use Rattle.image.specs.Image.{state_of, session_in, slot_in, said_in, terms_in, table_in, rests, is_tag};

use crate::{
    FEATURES_AT, IMAGE, KEY_COUNT_AT, KEY_TABLE_AT, LOCK_COUNT_AT, LOCKS_AT, PROFILES_AT, SIZES_AT,
};
use entry::{Session, State};
use memory::Lock;
use octets::{byte, bytes_at, front, tail, word_at, zeros};
use sheet::bodies::{features_of, lock_of, sizes_of, slot_of};
use sheet::{
    KEY_LIMIT, KEY_RECORD, LOCK_BODY, LOCK_LIMIT, Locks, PROFILE_BODY, PROFILE_LIMIT, Sizes, Slot,
    Terms,
};

// The state of a number; of one that no state has, the last.
fn state_of(n: u8) -> State
    ensures { result ≡ state_of n }
{
    match n {
        0 => State::Initial,
        1 => State::IamInit,
        2 => State::MamInit,
        _ => State::IaOk,
    }
}

/// What the tag of an image holds.
///
/// Ruled out: IChallenge before TChallenge; the KeyID taken for the state.
#[tactic(auto, unfolding(crate::specs::Image::session_in))]
pub fn session(image: &[u8; IMAGE]) -> Session
    ensures { result ≡ session_in image.now }
{
    Session {
        state: state_of(image[0]),
        keyid: image[1],
        tchallenge: bytes_at(image, 2),
        ichallenge: bytes_at(image, 12),
    }
}

/// The sizes of its areas, in words.
///
/// Ruled out: the two areas exchanged; the least significant byte first.
#[tactic(auto, unfolding(crate::specs::Image::terms_in))]
pub fn sizes(image: &[u8; IMAGE]) -> Sizes
    ensures { result ≡ (terms_in image.now).sizes }
{
    sizes_of(&image[SIZES_AT..PROFILES_AT])
}

#[tactic(auto, unfolding(crate::specs::Image::slot_in))]
fn slot_in(b: &[u8]) -> Slot
    ensures { result ≡ slot_in b.now }
{
    Slot {
        present: byte(b, 0) == 1,
        profile: slot_of(b).profile,
    }
}

fn profiles(image: &[u8; IMAGE]) -> [Slot; PROFILE_LIMIT]
    ensures { result ≡ said_in slot_in 6 profile_limit (drop profiles_at image.now) }
{
    std::array::from_fn(|i: usize| {
        let at = PROFILES_AT + PROFILE_BODY * i;
        slot_in(&image[at..at + PROFILE_BODY])
    })
}

fn locks(image: &[u8; IMAGE]) -> [Lock; LOCK_LIMIT]
    ensures { result ≡ said_in lock_of 5 lock_limit (drop locks_at image.now) }
{
    std::array::from_fn(|i: usize| {
        let at = LOCKS_AT + LOCK_BODY * i;
        lock_of(&image[at..at + LOCK_BODY])
    })
}

/// The terms on which it serves.
///
/// Ruled out: a profile that is not there taken for one of no words; fifteen locks of sixteen.
#[tactic(auto, unfolding(crate::specs::Image::terms_in))]
pub fn terms(image: &[u8; IMAGE]) -> Terms
    ensures { result ≡ terms_in image.now }
{
    Terms {
        features: features_of(&image[FEATURES_AT..SIZES_AT]),
        sizes: sizes(image),
        profiles: profiles(image),
        locks: Locks {
            count: usize::from(image[LOCK_COUNT_AT]),
            table: locks(image),
        },
    }
}

/// Its key table: as many records as the image says, as far as it goes.
///
/// Ruled out: the room of all records lent where there are fewer; a table that starts with its own number.
#[tactic(auto, unfolding(crate::specs::Image::table_in))]
pub fn key_table(image: &[u8; IMAGE]) -> &[u8]
    ensures { result.now ≡ table_in image.now }
{
    let records = usize::from(word_at(image, KEY_COUNT_AT));
    front(tail(image, KEY_TABLE_AT), KEY_RECORD * records)
}

// Is nothing held where no challenge waits?
fn rests(image: &[u8; IMAGE]) -> bool
    ensures { result ≡ rests (session_in image.now) }
{
    !tag::at_rest(state_of(image[0])) || zeros(&image[1..16])
}

/// Are the bytes a tag's?
///
/// Ruled out: a fifth state taken for IA-OK; a held KeyID that no record has; a challenge that is held in Initial.
#[tactic(auto, unfolding(crate::specs::Image::is_tag, sheet::specs::Limits::lock_limit, sheet::specs::Limits::key_limit))]
pub fn is_tag(image: &[u8; IMAGE]) -> bool
    ensures { result ≡ is_tag image.now }
{
    image[0] < 4
        && usize::from(image[LOCK_COUNT_AT]) <= LOCK_LIMIT
        && usize::from(word_at(image, KEY_COUNT_AT)) <= KEY_LIMIT
        && tag::key_held(session(image), key_table(image))
        && rests(image)
}
