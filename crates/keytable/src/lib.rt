// The key table of a tag, lent as it stands in its sheet: key records one after the other, found by KeyID in place.
#![tactic(auto)]

ghost use Rattle.std.specs.Prelude.{◌≡◌, length, is_some, unwrap_or, true, false, MatchOption};
ghost use Rattle.sheet.specs.Kinds.{body_length};
ghost use Rattle.sheet.specs.Records.{key_of};
ghost use Rattle.sheet.specs.KeyTable.{keys_in};
ghost use Rattle.sheet.specs.declared.Kind.TheVariants.{KeyRecord};
ghost use Rattle.keytable.specs.Named.{no_key, has_key, key_with};

use octets::{bytes_at, word_at};
use sheet::{KEY_RECORD, Key};

// Where the second, the third and the fourth of four records start, and where they end.
const SECOND: usize = KEY_RECORD;

const THIRD: usize = SECOND + KEY_RECORD;

const FOURTH: usize = THIRD + KEY_RECORD;

const FOUR_RECORDS: usize = FOURTH + KEY_RECORD;

// What the body of a record says.
fn key_of(b: &[u8]) -> Key
    requires { length b.now ≡ body_length KeyRecord }
    ensures { result ≡ key_of b.now }
{
    let enc = bytes_at(b, 4);
    let mackey = bytes_at(b, 20);
    Key {
        id: b[0],
        mac: b[1] == 1,
        mpi: word_at(b, 2),
        enc,
        mackey,
    }
}

/// What stands for a record that is not there: the KeyID 0, no right to any profile, and keys of zeros.
///
/// Ruled out: a right to profile 0; a record that has a MAC key.
pub fn no_key() -> Key
    ensures { result ≡ no_key }
{
    Key {
        id: 0,
        mac: false,
        mpi: 0,
        enc: [0u8; 16],
        mackey: [0u8; 16],
    }
}

// The body of the first whole record that has the KeyID: one byte of each record is looked at, four records a turn and
// then what is left one by one. (One record a turn takes twice as long and more.)
fn body_of(keys: &[u8], keyid: u8) -> Option<&[u8]>
    ensures { MatchOption result (has_key keyid (keys_in keys.now) ≡ false)
        (λ b. (length b.now ≡ body_length KeyRecord) × (has_key keyid (keys_in keys.now) ≡ true)
        × (key_of b.now ≡ key_with keyid (keys_in keys.now))) }
{
    let mut left = keys;
    for four in left.chunks_exact(FOUR_RECORDS) {
        if four[1] == keyid {
            return Some(&four[1..SECOND]);
        }
        if four[SECOND + 1] == keyid {
            return Some(&four[SECOND + 1..THIRD]);
        }
        if four[THIRD + 1] == keyid {
            return Some(&four[THIRD + 1..FOURTH]);
        }
        if four[FOURTH + 1] == keyid {
            return Some(&four[FOURTH + 1..FOUR_RECORDS]);
        }
        left = &left[FOUR_RECORDS..];
    }
    for record in left.chunks_exact(KEY_RECORD) {
        if record[1] == keyid {
            return Some(&record[1..]);
        }
    }
    None
}

/// The first whole record that has the KeyID, where there is one. Any bytes are a key table.
///
/// Ruled out: a last record that is never found; the bytes behind the last whole record taken for one; a record's MAC
/// key given for its ENC key.
pub fn find(keys: &[u8], keyid: u8) -> Option<Key>
    ensures { (is_some result ≡ has_key keyid (keys_in keys.now))
        × (unwrap_or result no_key ≡ key_with keyid (keys_in keys.now)) }
{
    let body = body_of(keys, keyid)?;
    Some(key_of(body))
}
