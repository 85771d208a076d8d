// How an image is written, by the sheet's own definitions of a body.
ghost use Rattle.std.specs.Prelude.{◌≡◌, ◌++◌, ◌+◌, ◌*◌, ◌≤◌, ◌<◌, length, take, drop};
ghost use Rattle.ground.specs.Bytes.{bit_of};
ghost use Rattle.modes.specs.Room.{over};
ghost use Rattle.sheet.specs.Limits.{profile_limit, lock_limit};
ghost use Rattle.sheet.specs.Writer.{features_body, sizes_body, lock_body};
ghost use Rattle.entry.specs.Sessions.{cleared};
ghost use Rattle.image.specs.Places.{features_at, profiles_at, locks_at, key_room};
ghost use Rattle.image.specs.Image.{state_number, kept, slot_body, bodies, terms_bytes, image_of};

use crate::{
    FEATURES_AT, IMAGE, KEY_COUNT_AT, KEY_TABLE_AT, LOCK_COUNT_AT, LOCKS_AT, PROFILES_AT, SIZES_AT,
};
use entry::{Session, State};
use memory::Lock;
use payload::put;
use sheet::{
    Features, KEY_RECORD, LOCK_BODY, LOCK_LIMIT, PROFILE_BODY, PROFILE_LIMIT, Sizes, Slot, Terms,
};

// The number of a state.
fn state_number(state: State) -> u8
    ensures { result ≡ state_number state }
{
    match state {
        State::Initial => 0,
        State::IamInit => 1,
        State::MamInit => 2,
        State::IaOk => 3,
    }
}

/// Keeps a session in an image: its first sixteen bytes.
///
/// Ruled out: IChallenge before TChallenge; a byte of the terms changed.
pub fn keep(image: &mut [u8; IMAGE], session: Session)
    ensures { image.new ≡ kept session image.old }
{
    image[0] = state_number(session.state);
    image[1] = session.keyid;
    image[2..12].copy_from_slice(&session.tchallenge);
    image[12..16].copy_from_slice(&session.ichallenge);
}

// A flag, and above it the bits that were laid before.
fn bit(flag: bool, above: u8) -> u8
    requires { above < 128 }
    ensures { (result ≡ bit_of flag + 2 * above) × (result ≤ 2 * above + 1) }
{
    u8::from(flag) + 2 * above
}

#[tactic(auto, unfolding(sheet::specs::Writer::features_body))]
fn features_body(f: Features) -> [u8; 2]
    ensures { result ≡ features_body f }
{
    let entry = bit(f.iam, bit(f.iam3, bit(f.mam, 0)));
    let offered = bit(f.blocksize1, bit(f.rev0, bit(f.rev1, entry)));
    let modes = bit(f.mode0, bit(f.mode1, bit(f.mode2, bit(f.mode3, 0))));
    [offered, modes]
}

#[tactic(auto, unfolding(sheet::specs::Writer::sizes_body))]
fn sizes_body(z: Sizes) -> [u8; 4]
    ensures { result ≡ sizes_body z }
{
    let [identity_high, identity_low] = z.identity.to_be_bytes();
    let [user_high, user_low] = z.user.to_be_bytes();
    [identity_high, identity_low, user_high, user_low]
}

#[tactic(auto, unfolding(sheet::specs::Writer::profile_body))]
fn slot_body(s: Slot) -> [u8; 6]
    ensures { result ≡ slot_body s }
{
    let p = s.profile;
    let [base_high, base_low] = p.base.0.to_be_bytes();
    let [words_high, words_low] = p.words.to_be_bytes();
    [
        u8::from(s.present),
        u8::from(p.area),
        base_high,
        base_low,
        words_high,
        words_low,
    ]
}

#[tactic(auto, unfolding(sheet::specs::Writer::lock_body))]
fn lock_body(l: Lock) -> [u8; 5]
    ensures { result ≡ lock_body l }
{
    let [first_high, first_low] = l.first.0.to_be_bytes();
    let [words_high, words_low] = l.words.to_be_bytes();
    [
        u8::from(l.area),
        first_high,
        first_low,
        words_high,
        words_low,
    ]
}

// The bodies of the profiles and of the locks, one behind the other.
fn lay_profiles(image: &mut [u8; IMAGE], profiles: [Slot; PROFILE_LIMIT])
    ensures image_after { image.new
        ≡ take profiles_at image.old
        ++ over (bodies slot_body profiles) (drop profiles_at image.old) }
    ensures profiles_len { length profiles ≡ profile_limit }
{
    for (i, slot) in profiles.iter().enumerate() {
        put(image, PROFILES_AT + PROFILE_BODY * i, &slot_body(*slot));
    }
}

fn lay_locks(image: &mut [u8; IMAGE], table: [Lock; LOCK_LIMIT])
    ensures image_after { image.new
        ≡ take locks_at image.old ++ over (bodies lock_body table) (drop locks_at image.old) }
    ensures table_len { length table ≡ lock_limit }
{
    for (i, lock) in table.iter().enumerate() {
        put(image, LOCKS_AT + LOCK_BODY * i, &lock_body(*lock));
    }
}

// The terms, behind the session.
fn lay_terms(image: &mut [u8; IMAGE], terms: Terms)
    requires { terms.locks.count ≤ lock_limit }
    ensures image_after { image.new
        ≡ take features_at image.old ++ over (terms_bytes terms) (drop features_at image.old) }
    ensures terms_len { length (terms_bytes terms) ≡ 183 }
{
    let count = [terms.locks.count as u8];
    put(image, FEATURES_AT, &features_body(terms.features));
    put(image, SIZES_AT, &sizes_body(terms.sizes));
    lay_profiles(image, terms.profiles);
    put(image, LOCK_COUNT_AT, &count);
    lay_locks(image, terms.locks.table);
}

/// The image of a tag with these terms and this key table, powered up.
pub fn made(terms: Terms, table: &[u8]) -> [u8; IMAGE]
    requires { (terms.locks.count ≤ lock_limit) × (length table.now ≤ key_room) }
    ensures { result ≡ image_of cleared terms table.now }
{
    let mut image = [0u8; IMAGE];
    lay_terms(&mut image, terms);
    let records = (table.len() / KEY_RECORD) as u16;
    put(&mut image, KEY_COUNT_AT, &records.to_be_bytes());
    put(&mut image, KEY_TABLE_AT, table);
    image
}
