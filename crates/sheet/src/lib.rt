// The tag sheet of the scope paper: what a soft tag is set up from. What each function means stands in specs/.
#![tactic(auto)]

mod blank;
pub mod bodies; // bodies.rt: what a record's body says
mod kinds;
pub mod places; // places.rt: a sheet from a place on
mod records;

ghost use Rattle.std.specs.Prelude.{◌≡◌};
ghost use Rattle.sheet.specs.Limits.{key_limit};
ghost use Rattle.sheet.specs.Kinds.{number_of};
ghost use Rattle.sheet.specs.KeyTable.{key_table};
ghost use Rattle.sheet.specs.Setups.{nothing_gathered};
ghost use Rattle.sheet.specs.Judgement.{judged_of, finding_number, judged_number, IsJudgement};
ghost use Rattle.sheet.specs.Sheet.{read_of, verdict_of, verdict_number, verdict_place, read_number, read_place};

use memory::{Lock, Profile};
use octets::{front, tail};

// How many records there may be of the kinds 03, 04 and 05, and how many words an area may have.
pub const KEY_LIMIT: usize = 16;

pub const PROFILE_LIMIT: usize = 16;

pub const LOCK_LIMIT: usize = 16;

pub const WORD_LIMIT: u16 = 1024;

// How many bytes follow the kind byte of a record of the kinds 01 to 05.
pub const FEATURE_BODY: usize = 2;

pub const SIZE_BODY: usize = 4;

pub const KEY_BODY: usize = 36;

pub const PROFILE_BODY: usize = 6;

pub const LOCK_BODY: usize = 5;

// A record is its kind byte and its body.
pub const FEATURE_RECORD: usize = 1 + FEATURE_BODY;

pub const SIZE_RECORD: usize = 1 + SIZE_BODY;

pub const KEY_RECORD: usize = 1 + KEY_BODY;

pub const PROFILE_RECORD: usize = 1 + PROFILE_BODY;

pub const LOCK_RECORD: usize = 1 + LOCK_BODY;

// Where the key records start: behind 01 and 02, which come first.
pub const KEYS_AT: usize = FEATURE_RECORD + SIZE_RECORD;

// Why a sheet is refused.
#[derive(Clone, Copy, Debug, PartialEq, Eq)]
pub enum SheetFault {
    Cut,
    Unknown,
    Order,
    Value,
    Many,
    Tail,
}

// The kind of a record, by its first byte: 01 to 06.
#[derive(Clone, Copy, Debug, PartialEq, Eq)]
pub enum Kind {
    FeatureRecord,
    SizeRecord,
    KeyRecord,
    ProfileRecord,
    LockRecord,
    EndRecord,
}

// Record 01: BlockSize 1, Rev 0, Rev 1, IAM1 and IAM2, IAM3, MAM, and the ProtModes.
#[derive(Clone, Copy, Default)]
pub struct Features {
    pub blocksize1: bool,
    pub rev0: bool,
    pub rev1: bool,
    pub iam: bool,
    pub iam3: bool,
    pub mam: bool,
    pub mode0: bool,
    pub mode1: bool,
    pub mode2: bool,
    pub mode3: bool,
}

// Record 02: the words of the two areas.
#[derive(Clone, Copy, Default)]
pub struct Sizes {
    pub identity: u16,
    pub user: u16,
}

// Record 03: KeyID, whether there is a MAC key, MPI, ENC_key, MAC_key. `mackey` is no Option: `key_of` gives the bytes
// of a record that has no MAC key too, and `KeyFine` asks that they are zeros.
#[derive(Clone, Copy)]
pub struct Key {
    pub id: u8,
    pub mac: bool,
    pub mpi: u16,
    pub enc: [u8; 16],
    pub mackey: [u8; 16],
}

// Record 04, at the place of its number. It is no Option: `image::terms` (its `slot_in`), `offer::slot` and
// `offer::words_asked` promise the profile of a slot that isn't present too.
#[derive(Clone, Copy)]
pub struct Slot {
    pub present: bool,
    pub profile: Profile,
}

// Record 05. The first `count` entries are used.
#[derive(Clone, Copy)]
pub struct Locks {
    pub count: usize,
    pub table: [Lock; LOCK_LIMIT],
}

// The terms on which a tag serves: what a sheet says beside its keys, which stay in the sheet (`key_table`). An entry
// that no record filled is zero, so that equal meanings are equal values.
#[derive(Clone, Copy)]
pub struct Terms {
    pub features: Features,
    pub sizes: Sizes,
    pub profiles: [Slot; PROFILE_LIMIT],
    pub locks: Locks,
}

// What the next record is held against: the kind byte of the record before (0 where there is none; kinds and areas are
// numbers here, since the rules compare them), how many keys and how many profiles there are, the least KeyID and the
// least profile number that may come, and the area and the end of the lock before (0 where there is none).
#[derive(Clone, Copy, Default)]
pub struct Marks {
    pub last: u8,
    pub keys: usize,
    pub profiles: usize,
    pub id: u16,
    pub number: u8,
    pub area: u8,
    pub word: usize,
}

// What is gathered of the records so far.
#[derive(Clone, Copy)]
pub struct Gathered {
    pub marks: Marks,
    pub terms: Terms,
}

// What stands at a place of a sheet: a record that is taken, with this many bytes, or the end record.
#[derive(Clone, Copy, Debug, PartialEq, Eq)]
pub enum Finding {
    Taken(usize),
    Ended,
}

// The finding on a record, and what is gathered after it.
#[derive(Clone, Copy)]
pub struct Judged {
    pub finding: Result<Finding, SheetFault>,
    pub gathered: Gathered,
}

// Why a sheet is refused, and at which of its places.
#[derive(Clone, Copy, Debug, PartialEq, Eq)]
pub struct SheetRefusal {
    pub fault: SheetFault,
    pub at: usize,
}

// The terms of a sheet and how many key records it has.
#[derive(Clone, Copy)]
pub struct Reading {
    pub terms: Terms,
    pub keys: usize,
}

/// The paper's number of a refusal.
///
/// Ruled out: one number for all refusals; 33 and 34 exchanged.
impl From<SheetFault> for u8 {
    ghost from_gives = { λ f n. n ≡ number_of f };

    fn from(f: SheetFault) -> u8 {
        match f {
            SheetFault::Cut => 30,
            SheetFault::Unknown => 31,
            SheetFault::Order => 32,
            SheetFault::Value => 33,
            SheetFault::Many => 34,
            SheetFault::Tail => 35,
        }
    }
}

/// The same, for a caller that names it.
///
/// Ruled out: one number for all refusals; 33 and 34 exchanged.
pub fn number(f: SheetFault) -> u8
    ensures { result ≡ number_of f }
{
    u8::from(f)
}

/// What is gathered before the first record.
///
/// Ruled out: a start that takes 02 first; one that counts a key.
#[tactic(auto, unfolding(crate::specs::Setups::nothing_gathered, crate::specs::Setups::no_marks))]
pub fn start() -> Gathered
    ensures { result ≡ nothing_gathered }
{
    Gathered {
        marks: Marks::default(),
        terms: blank::empty(),
    }
}

// The record with which these bytes start, judged against what was gathered of those before it: its finding, and in the
// same place what is gathered after it.
pub(crate) fn judge_in(rest: &[u8], gathered: &mut Gathered) -> Result<Finding, SheetFault>
    ensures { IsJudgement result gathered.new (judged_of key_limit rest.now gathered.old) }
{
    let Some(first) = rest.first() else {
        return Err(SheetFault::Cut);
    };
    match kinds::opening(*first, rest.len() - 1, gathered) {
        Err(fault) => Err(fault),
        Ok(q) => {
            let e = 1 + kinds::body_length(q);
            records::judge_body(q, &rest[1..e], gathered)
        }
    }
}

/// The record with which these bytes start, judged against what was gathered of those before it.
///
/// Ruled out: a judgement that calls a seventeenth key record 33 for its values; one that takes a record whose KeyID
/// doesn't rise.
pub fn judge(rest: &[u8], gathered: Gathered) -> Judged
    ensures value { result ≡ judged_of key_limit rest.now gathered }
    ensures finding_value { finding_number result.finding ≡ judged_number key_limit rest.now gathered }
{
    let mut gathered = gathered;
    let finding = judge_in(rest, &mut gathered);
    Judged { finding, gathered }
}

/// A whole sheet, record by record: its terms and how many key records it has, or the first refusal with its place.
///
/// Ruled out: a reader that takes every sheet; one that keeps part of a sheet it refuses.
pub fn read(s: &[u8]) -> Result<Reading, SheetRefusal>
    ensures value { result ≡ read_of key_limit s.now }
    ensures verdict_value { (verdict_number (verdict_of result) ≡ read_number key_limit s.now)
        × (verdict_place (verdict_of result) ≡ read_place key_limit s.now) }
{
    places::read_from(s, 0, start())
}

/// The part of a sheet where so many key records stand, as far as the sheet goes. For the number that `read` gives, it
/// is the sheet's key table.
///
/// Ruled out: a table that starts with the size record; one that leaves the last record out.
#[tactic(auto, unfolding(crate::specs::KeyTable::key_table))]
pub fn key_table(sheet: &[u8], keys: usize) -> &[u8]
    ensures { result.now ≡ key_table sheet.now keys }
{
    front(tail(sheet, KEYS_AT), keys.saturating_mul(KEY_RECORD))
}
