// Checks in their order: the first that does not hold decides. Number 7, and the line that TAM1, IAM1 and MAM1 share.
ghost use Rattle.std.specs.Prelude.{◌≡◌, Ok, Err};
ghost use Rattle.sheet.specs.KeyTable.{keys_in};
ghost use Rattle.keytable.specs.Named.{key_with};
ghost use Rattle.offer.specs.Outcomes.{settled};
ghost use Rattle.offer.specs.Checks.{judged};
ghost use Rattle.offer.specs.Judged.{lending_checks, opening_checks};

use super::TagFault;
use frames::Kind;
use frames::sizes::{REPLY_ROOM, length_fits};
use sheet::{Key, Sizes};

/// The draws that each call brings.
const DRAWS: usize = 10;

/// Number 7: the draws, the room and the areas that the bench lends, by their lengths in bytes.
///
/// Ruled out: a room of exactly 172 bytes refused; an area measured in words.
#[tactic(auto, unfolding(crate::specs::Judged::lending_checks, ground::specs::Checks::judged_to))]
pub fn lending(
    sizes: Sizes,
    draws: usize,
    room: usize,
    identity: usize,
    user: usize,
) -> Result<(), TagFault>
    ensures { result ≡ judged (lending_checks sizes draws room identity user) }
{
    if draws != DRAWS
        || room < REPLY_ROOM
        || identity != sizes.identity as usize * 2
        || user != sizes.user as usize * 2
    {
        return Err(TagFault::BenchFault);
    }
    Ok(())
}

/// TAM1, IAM1, MAM1: length, RFU, key. Where nothing is refused: the record that the message named.
///
/// Ruled out: a missing record told before a wrong length; RFU bits that are not looked at.
#[tactic(auto, unfolding(crate::specs::Judged::opening_checks, ground::specs::Checks::judged_to))]
pub fn opening(keys: &[u8], kind: Kind, rfu: u8, keyid: u8, m: &[u8]) -> Result<Key, TagFault>
    ensures { result ≡ settled (judged (opening_checks kind rfu keyid (keys_in keys.now) m.now))
        (Ok (key_with keyid (keys_in keys.now))) Err }
{
    if !length_fits(kind, m) {
        return Err(TagFault::OtherError);
    }
    if rfu != 0 { // each of its bits
        return Err(TagFault::NotSupported);
    }
    keytable::find(keys, keyid).ok_or(TagFault::NotSupported)
}
