// The terms before the first record.
ghost use Rattle.std.specs.Prelude.{◌≡◌};
ghost use Rattle.sheet.specs.Setups.{empty_terms};

use crate::{Features, LOCK_LIMIT, Locks, PROFILE_LIMIT, Sizes, Slot, Terms};
use memory::{Area, Lock, Profile, Word};

pub(crate) fn empty() -> Terms
    ensures { result ≡ empty_terms }
{
    let p = Profile {
        area: Area::Identity,
        base: Word(0),
        words: 0,
    };
    let s = Slot {
        present: false,
        profile: p,
    };
    let l = Lock {
        area: Area::Identity,
        first: Word(0),
        words: 0,
    };
    Terms {
        features: Features::default(),
        sizes: Sizes::default(),
        profiles: [s; PROFILE_LIMIT],
        locks: Locks {
            count: 0,
            table: [l; LOCK_LIMIT],
        },
    }
}
