// A cursor that keeps the sheet and its place. What stands at a place is said once, of slice and number, in
// sheet::places.
ghost use Rattle.std.specs.Prelude.{◌≡◌};
ghost use Rattle.sheet.specs.Limits.{key_limit};
ghost use Rattle.sheet.specs.Sheet.{read_from, read_of, ReadAs};

use sheet::{Gathered, Reading, SheetRefusal, places};

/// A lent sheet, and a place in it.
#[derive(Clone, Copy)]
pub struct Cursor<'a> {
    pub sheet: &'a [u8],
    pub at: usize,
}

/// A sheet opened at its first byte.
///
/// Ruled out: a cursor that starts behind the first record; a cursor over a part of the sheet.
pub fn open<'a>(sheet: &'a [u8]) -> Cursor<'a>
    ensures { (result.sheet ≡ sheet.entry) × (result.at ≡ 0) }
{
    Cursor { sheet, at: 0 }
}

/// What the sheet says from the cursor's place on, or the first refusal with its place. From a cursor behind the end
/// that is the sheet's length.
///
/// Ruled out: a reader that starts again at the sheet's first byte; a refusal at a place past the sheet.
pub fn rest<'a>(cursor: Cursor<'a>, gathered: Gathered) -> Result<Reading, SheetRefusal>
    ensures { ReadAs result (read_from key_limit cursor.entry.sheet.now cursor.entry.at gathered) }
{
    places::read_from(cursor.sheet, cursor.at, gathered)
}

/// A whole sheet through a cursor: what it says, or the first refusal with its place.
///
/// Ruled out: a reader that takes every sheet; one that keeps part of a sheet it refuses.
pub fn read(sheet: &[u8]) -> Result<Reading, SheetRefusal>
    ensures { ReadAs result (read_of key_limit sheet.now) }
{
    rest(open(sheet), sheet::start())
}
