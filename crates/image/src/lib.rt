// A tag in the memory of its caller: an image of bytes that is taken apart by copying (specs/Image.antt).
#![tactic(auto)]

ghost use Rattle.image.specs.Kept.{Laid};

use sheet::{
    FEATURE_BODY, KEY_LIMIT, KEY_RECORD, LOCK_BODY, LOCK_LIMIT, PROFILE_BODY, PROFILE_LIMIT,
    SIZE_BODY, SheetRefusal,
};

mod read; // read.rt: what an image says
mod write; // write.rt: how one is written

pub use read::{is_tag, key_table, session, sizes, terms};
pub use write::keep;

// Where each part stands (specs/Places.antt).
pub const FEATURES_AT: usize = 16;

pub const SIZES_AT: usize = FEATURES_AT + FEATURE_BODY;

pub const PROFILES_AT: usize = SIZES_AT + SIZE_BODY;

pub const LOCK_COUNT_AT: usize = PROFILES_AT + PROFILE_LIMIT * PROFILE_BODY;

pub const LOCKS_AT: usize = LOCK_COUNT_AT + 1;

pub const KEY_COUNT_AT: usize = LOCKS_AT + LOCK_LIMIT * LOCK_BODY;

pub const KEY_TABLE_AT: usize = KEY_COUNT_AT + 2;

/// The bytes of an image: 793.
pub const IMAGE: usize = KEY_TABLE_AT + KEY_LIMIT * KEY_RECORD;

/// Lays the tag of a sheet into an image, powered up. One that is refused changes no byte.
///
/// Ruled out: a tag made of a refused sheet; bytes of an older tag left behind a shorter key table.
pub fn lay(sheet: &[u8], image: &mut [u8; IMAGE]) -> Result<(), SheetRefusal>
    ensures { Laid sheet.now image.old result image.new }
{
    let reading = sheet::read(sheet)?;
    *image = write::made(reading.terms, sheet::key_table(sheet, reading.keys));
    Ok(())
}
