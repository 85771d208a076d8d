// The body of each kind of record: whether its rule holds, and what it says.
ghost use Rattle.std.specs.Prelude.{◌≡◌, ◌<◌, length};
ghost use Rattle.sheet.specs.Records.{feature, area_of, words_in, inside};
ghost use Rattle.sheet.specs.Records.{features_rule, features_of, sizes_rule, sizes_of, key_rule};
ghost use Rattle.sheet.specs.Records.{profile_rule, slot_of, lock_rule, lock_of};

use crate::{Features, KEY_BODY, PROFILE_LIMIT, Sizes, Slot, WORD_LIMIT};
use memory::{Area, Lock, Profile, Word};
use octets::{byte, word_at};

// Feature i of a byte of features.
fn feature(f: u8, i: u8) -> bool
    requires { i < 8 }
    ensures { result ≡ feature i f }
{
    (f >> i) & 1 == 1
}

#[tactic(auto, unfolding(crate::specs::Records::features_rule))]
pub(crate) fn features_fit(b: &[u8]) -> bool
    requires { length b.now ≡ 2 }
    ensures { result ≡ features_rule b.now }
{
    b[0] < 64 && b[1] < 16 && (!feature(b[0], 4) || feature(b[0], 3))
}

/// What a body of record 01 says. A byte past its end counts as 0.
///
/// Ruled out: IAM3 read from the bit of MAM; the ProtModes read from the byte of features.
#[tactic(auto, unfolding(crate::specs::Records::features_of))]
pub fn features_of(b: &[u8]) -> Features
    ensures { result ≡ features_of b.now }
{
    let f = byte(b, 0);
    let m = byte(b, 1);
    Features {
        blocksize1: feature(f, 0),
        rev0: feature(f, 1),
        rev1: feature(f, 2),
        iam: feature(f, 3),
        iam3: feature(f, 4),
        mam: feature(f, 5),
        mode0: feature(m, 0),
        mode1: feature(m, 1),
        mode2: feature(m, 2),
        mode3: feature(m, 3),
    }
}

#[tactic(auto, unfolding(crate::specs::Records::sizes_rule, crate::specs::Limits::word_limit))]
pub(crate) fn sizes_fit(b: &[u8]) -> bool
    requires { length b.now ≡ 4 }
    ensures { result ≡ sizes_rule b.now }
{
    word_at(b, 0) <= WORD_LIMIT && word_at(b, 2) <= WORD_LIMIT
}

/// What a body of record 02 says. A byte past its end counts as 0.
///
/// Ruled out: the two areas exchanged; the least significant byte first.
#[tactic(auto, unfolding(crate::specs::Records::sizes_of))]
pub fn sizes_of(b: &[u8]) -> Sizes
    ensures { result ≡ sizes_of b.now }
{
    Sizes {
        identity: word_at(b, 0),
        user: word_at(b, 2),
    }
}

#[tactic(auto, unfolding(crate::specs::Records::area_of))]
fn area_of(a: u8) -> Area
    ensures { result ≡ area_of a }
{
    if a == 1 { Area::User } else { Area::Identity }
}

#[tactic(auto, unfolding(crate::specs::Records::words_in))]
fn words_in(z: Sizes, a: u8) -> u16
    ensures { result ≡ words_in z a }
{
    if a == 1 { z.user } else { z.identity }
}

#[tactic(auto, unfolding(crate::specs::Records::inside))]
fn is_inside(z: Sizes, a: u8, first: u16, count: u16) -> bool
    ensures { result ≡ inside z a first count }
{
    a <= 1 && 1 <= count && u32::from(first) + u32::from(count) <= u32::from(words_in(z, a))
}

#[tactic(auto, unfolding(crate::specs::Records::key_rule))]
pub(crate) fn key_fits(b: &[u8], id: u16) -> bool
    requires { length b.now ≡ 36 }
    ensures { result ≡ key_rule id b.now }
{
    id <= u16::from(b[0]) && b[1] <= 1 && (b[1] != 0 || octets::zeros(&b[20..KEY_BODY]))
}

#[tactic(auto, unfolding(crate::specs::Records::profile_rule, crate::specs::Limits::profile_limit))]
pub(crate) fn profile_fits(b: &[u8], number: u8, z: Sizes) -> bool
    requires { length b.now ≡ 6 }
    ensures { result ≡ profile_rule number z b.now }
{
    number <= b[0]
        && usize::from(b[0]) < PROFILE_LIMIT
        && is_inside(z, b[1], word_at(b, 2), word_at(b, 4))
}

/// What a body of record 04 says, whatever its number. A byte past its end counts as 0.
///
/// Ruled out: the number taken for the area; base and words exchanged.
#[tactic(auto, unfolding(crate::specs::Records::slot_of))]
pub fn slot_of(b: &[u8]) -> Slot
    ensures { result ≡ slot_of b.now }
{
    let area = area_of(byte(b, 1));
    let base = word_at(b, 2);
    let words = word_at(b, 4);
    let profile = Profile {
        area,
        base: Word(base),
        words,
    };
    Slot {
        present: true,
        profile,
    }
}

#[tactic(auto, unfolding(crate::specs::Records::lock_rule))]
pub(crate) fn lock_fits(b: &[u8], area: u8, word: usize, z: Sizes) -> bool
    requires { length b.now ≡ 5 }
    ensures { result ≡ lock_rule area word z b.now }
{
    let first = word_at(b, 1);
    is_inside(z, b[0], first, word_at(b, 3))
        && area <= b[0]
        && (b[0] != area || word <= usize::from(first))
}

/// What a body of record 05 says. A byte past its end counts as 0.
///
/// Ruled out: the user area taken for the identity area; a lock from word 0 on, whatever its first word.
#[tactic(auto, unfolding(crate::specs::Records::lock_of))]
pub fn lock_of(b: &[u8]) -> Lock
    ensures { result ≡ lock_of b.now }
{
    let area = area_of(byte(b, 0));
    let first = word_at(b, 1);
    let words = word_at(b, 3);
    Lock {
        area,
        first: Word(first),
        words,
    }
}
