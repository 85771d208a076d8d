// Each message that the reader's side sends, from its fields and keys, over the first bytes of a lent room
// (9.4.2, 9.4.5, 9.5.2, 9.5.5, 9.5.8, 9.6.2, 9.6.5).
// A message that is not of the table, or a room of under 176 bytes: 24, and no byte of the room changes.
#![tactic(auto)]

mod sent; // sent.rt: what only a reader that has the keys can send

ghost use Rattle.std.specs.Prelude.{◌≡◌, true, leb, length};
ghost use Rattle.ground.specs.Choice.{pick, both};
ghost use Rattle.frames.specs.Fields.{custom_fits};
ghost use Rattle.frames.specs.Lengths.{message_room};
ghost use Rattle.reader.specs.Own.{mode_fits};
ghost use Rattle.reader_build.specs.Builds.{purpose_fits, data_fits, iam3_fits, iam3_made};
ghost use Rattle.reader_build.specs.Builds.{tam1_made, tam2_made, iam1_made, mam1_made, iam2_made, mam2_made};
ghost use Rattle.reader_build.specs.Makes.{Makes};

use frames::build::{iam1_into, iam2_into, mam1_into, mam2_into, tam1_into, tam2_into};
use frames::constants::{iam2_constant, iam3_constant, mam2_constant};
use frames::protection::prot_mode;
use frames::sizes::{DATA_ROOM, MESSAGE_ROOM, data_length};
use frames::{Custom, Iam1, Iam2, Mam1, Mam2, Tam1, Tam2};
use payload::carried_into;
use reader::own::mode_fits;
use reader::{Keys, ReaderFault};
use sent::{iam3_whole, response};

// Number 24 where what a message says is not fit, or the room has fewer bytes than the longest message.
fn taken(fit: bool, room: usize) -> Result<(), ReaderFault>
    ensures { result ≡ pick (both fit (leb message_room room)) (Ok tt) (Err ReaderFault.OwnMessage) }
{
    if fit && MESSAGE_ROOM <= room {
        Ok(())
    } else {
        Err(ReaderFault::OwnMessage)
    }
}

// Is what an IAM3 with n bytes of data says fit to be sent, its Profile, Offset and BlockCount aside?
#[tactic(auto, unfolding(crate::specs::Builds::purpose_fits, crate::specs::Builds::data_fits))]
fn iam3_fits(keys: Keys, custom: Custom, protmode: u8, purpose: u8, n: usize) -> bool
    ensures { result ≡ both (mode_fits keys protmode) (both (purpose_fits purpose) (data_fits custom n)) }
{
    mode_fits(keys, protmode)
        && purpose < 16
        && n == data_length(custom.blocksize, custom.blockcount)
}

/// TAM1 (9.4.2). Ruled out: a message in a room of 12 bytes; the KeyID of another record.
pub fn tam1(keyid: u8, ichallenge: [u8; 10], room: &mut [u8]) -> Result<usize, ReaderFault>
    ensures { Makes true (tam1_made keyid ichallenge) room.old result room.new }
{
    taken(true, room.len())?;
    let message = Tam1 {
        rfu: 0,
        keyid,
        ichallenge,
    };
    tam1_into(message, room).ok_or(ReaderFault::OwnMessage)
}

/// TAM2 (9.4.5). Ruled out: ProtMode 2 asked for without a MAC key; ProtMode 4.
pub fn tam2(
    keys: Keys,
    keyid: u8,
    ichallenge: [u8; 10],
    rev: bool,
    custom: Custom,
    protmode: u8,
    room: &mut [u8],
) -> Result<usize, ReaderFault>
    ensures { Makes (both (mode_fits keys protmode) (custom_fits custom))
        (tam2_made keyid ichallenge rev custom protmode) room.old result room.new }
{
    taken(mode_fits(keys, protmode), room.len())?;
    let message = Tam2 {
        rev,
        rfu: 0,
        keyid,
        ichallenge,
        custom,
        protmode,
    };
    tam2_into(message, room).ok_or(ReaderFault::OwnMessage)
}

/// IAM1 (9.5.2). Ruled out: the first byte of MAM1; a room of 175 bytes taken.
pub fn iam1(keyid: u8, room: &mut [u8]) -> Result<usize, ReaderFault>
    ensures { Makes true (iam1_made keyid) room.old result room.new }
{
    taken(true, room.len())?;
    iam1_into(Iam1 { rfu: 0, keyid }, room).ok_or(ReaderFault::OwnMessage)
}

/// MAM1 (9.6.2). Ruled out: the first byte of TAM1; a byte of the room changed where it has under 176.
pub fn mam1(keyid: u8, ichallenge: [u8; 10], room: &mut [u8]) -> Result<usize, ReaderFault>
    ensures { Makes true (mam1_made keyid ichallenge) room.old result room.new }
{
    taken(true, room.len())?;
    let message = Mam1 {
        rfu: 0,
        keyid,
        ichallenge,
    };
    mam1_into(message, room).ok_or(ReaderFault::OwnMessage)
}

/// IAM2 (9.5.4, 9.5.5). Ruled out: IResponse by AES-ENC; a Purpose of five bits carried into the constant.
#[tactic(auto, unfolding(crate::specs::Builds::purpose_fits))]
pub fn iam2(
    keys: Keys,
    purpose: u8,
    irnd: [u8; 4],
    tchallenge: [u8; 10],
    room: &mut [u8],
) -> Result<usize, ReaderFault>
    ensures { Makes (purpose_fits purpose) (iam2_made keys purpose irnd tchallenge) room.old result
        room.new }
{
    taken(purpose < 16, room.len())?;
    let iresponse = response(keys.enc, iam2_constant(purpose), irnd, tchallenge);
    iam2_into(Iam2 { rfu: 0, iresponse }, room).ok_or(ReaderFault::OwnMessage)
}

/// MAM2 (9.6.5). Ruled out: the first four bytes of IChallenge in place of its last; the tag's challenge left out.
#[tactic(auto, unfolding(crate::specs::Builds::purpose_fits))]
pub fn mam2(
    keys: Keys,
    purpose: u8,
    ichallenge: [u8; 10],
    tchallenge: [u8; 10],
    room: &mut [u8],
) -> Result<usize, ReaderFault>
    ensures { Makes (purpose_fits purpose) (mam2_made keys purpose ichallenge tchallenge) room.old result
        room.new }
{
    taken(purpose < 16, room.len())?;
    let last = [ichallenge[6], ichallenge[7], ichallenge[8], ichallenge[9]];
    let iresponse = response(keys.enc, mam2_constant(purpose), last, tchallenge);
    mam2_into(Mam2 { rfu: 0, iresponse }, room).ok_or(ReaderFault::OwnMessage)
}

/// IAM3 (9.5.4, 9.5.8). Ruled out: the MAC over the data before they are chained; fewer bytes of data than BlockCount
/// says, filled up.
pub fn iam3(
    keys: Keys,
    custom: Custom,
    protmode: u8,
    purpose: u8,
    irnd: [u8; 4],
    tchallenge: [u8; 10],
    words: &[u8],
    room: &mut [u8],
) -> Result<usize, ReaderFault>
    ensures { Makes (iam3_fits keys custom protmode purpose (length words.now))
        (iam3_made keys custom protmode purpose irnd tchallenge words.now) room.old result
        room.new }
{
    taken(
        iam3_fits(keys, custom, protmode, purpose, words.len()),
        room.len(),
    )?;
    let Some(mode) = prot_mode(protmode) else {
        return Err(ReaderFault::OwnMessage);
    };
    let mut blocks = [0u8; DATA_ROOM];
    let Some(n) = carried_into(true, custom, words, &mut blocks) else {
        return Err(ReaderFault::OwnMessage);
    };
    let a = response(keys.enc, iam3_constant(mode, purpose), irnd, tchallenge);
    Ok(iam3_whole(keys, custom, protmode, mode, a, &blocks[..n], room))
}
