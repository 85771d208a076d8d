// The seven messages of the reader's side, from plain numbers, over the first bytes of a lent room. Each answers 0 and
// tells the message's length; or 24, where a field is out of its range, ProtMode is 2 or 3 with no MAC key, or the room
// has under 176 bytes. Then the length is 0, and no byte of the room changes.
ghost use Rattle.std.specs.Prelude.{true, length};
ghost use Rattle.ground.specs.Bytes.{flag};
ghost use Rattle.ground.specs.Choice.{both};
ghost use Rattle.frames.specs.Fields.{custom_fits};
ghost use Rattle.reader.specs.Own.{mode_fits};
ghost use Rattle.reader_build.specs.Builds.{
  purpose_fits,
  tam1_made,
  tam2_made,
  iam1_made,
  mam1_made,
  iam2_made,
  mam2_made,
  iam3_made,
  iam3_fits,
};
ghost use Rattle.capi.specs.Reader.{mac_given, size_given, bits_given, keys_of, custom_of, Builds};

use super::given;
use reader::ReaderFault;

/// TAM1. Ruled out: a message in a room of 175 bytes; the challenge cut.
pub fn roualint_build_tam1(
    keyid: u8,
    ichallenge: &[u8; 10],
    room: &mut [u8],
    told: &mut usize,
) -> u8
    ensures { Builds true (tam1_made keyid ichallenge.now) room.old result told.new
        room.new }
{
    given::told_of(reader_build::tam1(keyid, *ichallenge, room), told)
}

/// TAM2, by the reader's keys: BlockSize 0 (64-bit blocks) or 1 (16-bit blocks), Rev 0 or 1.
/// Ruled out: BlockSize 2; ProtMode 2 with no MAC key.
pub fn roualint_build_tam2(
    enc: &[u8; 16],
    mac: &[u8],
    blocksize: u8,
    rev: u8,
    keyid: u8,
    ichallenge: &[u8; 10],
    profile: u8,
    offset: u16,
    blockcount: u8,
    protmode: u8,
    room: &mut [u8],
    told: &mut usize,
) -> u8
    ensures { Builds (both (bits_given mac.now blocksize rev)
        (both (mode_fits (keys_of enc.now mac.now) protmode)
        (custom_fits (custom_of blocksize profile offset blockcount))))
        (tam2_made keyid ichallenge.now (flag rev) (custom_of blocksize profile offset blockcount) protmode)
        room.old result told.new room.new }
{
    if !given::bits_given(mac, blocksize, rev) {
        return given::told_of(Err(ReaderFault::OwnMessage), told);
    }
    let keys = given::keys_of(*enc, mac);
    let custom = given::custom_of(blocksize, profile, offset, blockcount);
    let made = reader_build::tam2(keys, keyid, *ichallenge, rev == 1, custom, protmode, room);
    given::told_of(made, told)
}

/// IAM1. Ruled out: the first byte of MAM1; bytes behind the message cleared.
pub fn roualint_build_iam1(keyid: u8, room: &mut [u8], told: &mut usize) -> u8
    ensures { Builds true (iam1_made keyid) room.old result told.new room.new }
{
    given::told_of(reader_build::iam1(keyid, room), told)
}

/// IAM2, by the reader's keys: the answer to the challenge of an IAM1.
/// Ruled out: IResponse by AES-ENC; Purpose 16.
pub fn roualint_build_iam2(
    enc: &[u8; 16],
    mac: &[u8],
    purpose: u8,
    irnd: &[u8; 4],
    tchallenge: &[u8; 10],
    room: &mut [u8],
    told: &mut usize,
) -> u8
    ensures { Builds (both (mac_given mac.now) (purpose_fits purpose))
        (iam2_made (keys_of enc.now mac.now) purpose irnd.now tchallenge.now)
        room.old result told.new room.new }
{
    let keys = match given::keys_given(*enc, mac) {
        Ok(keys) => keys,
        Err(fault) => return given::told_of(Err(fault), told),
    };
    let made = reader_build::iam2(keys, purpose, *irnd, *tchallenge, room);
    given::told_of(made, told)
}

/// IAM3, by the reader's keys: the same answer, and data to be written.
/// Ruled out: fewer bytes of data than BlockCount says, filled up; BlockSize 2 taken for 1.
pub fn roualint_build_iam3(
    enc: &[u8; 16],
    mac: &[u8],
    blocksize: u8,
    profile: u8,
    offset: u16,
    blockcount: u8,
    protmode: u8,
    purpose: u8,
    irnd: &[u8; 4],
    tchallenge: &[u8; 10],
    words: &[u8],
    room: &mut [u8],
    told: &mut usize,
) -> u8
    ensures { Builds (both (size_given mac.now blocksize)
        (iam3_fits (keys_of enc.now mac.now) (custom_of blocksize profile offset blockcount) protmode
        purpose (length words.now))) (iam3_made (keys_of enc.now mac.now)
        (custom_of blocksize profile offset blockcount) protmode purpose irnd.now tchallenge.now
        words.now) room.old result told.new room.new }
{
    if !given::size_given(mac, blocksize) {
        return given::told_of(Err(ReaderFault::OwnMessage), told);
    }
    let keys = given::keys_of(*enc, mac);
    let custom = given::custom_of(blocksize, profile, offset, blockcount);
    let made = reader_build::iam3(
        keys,
        custom,
        protmode,
        purpose,
        *irnd,
        *tchallenge,
        words,
        room,
    );
    given::told_of(made, told)
}

/// MAM1. Ruled out: the first byte of TAM1; a room of 175 bytes taken.
pub fn roualint_build_mam1(
    keyid: u8,
    ichallenge: &[u8; 10],
    room: &mut [u8],
    told: &mut usize,
) -> u8
    ensures { Builds true (mam1_made keyid ichallenge.now) room.old result told.new
        room.new }
{
    given::told_of(reader_build::mam1(keyid, *ichallenge, room), told)
}

/// MAM2, by the reader's keys: the answer to the challenge of a MAM1.
/// Ruled out: the two challenges exchanged; a MAC key of fifteen bytes.
pub fn roualint_build_mam2(
    enc: &[u8; 16],
    mac: &[u8],
    purpose: u8,
    ichallenge: &[u8; 10],
    tchallenge: &[u8; 10],
    room: &mut [u8],
    told: &mut usize,
) -> u8
    ensures { Builds (both (mac_given mac.now) (purpose_fits purpose))
        (mam2_made (keys_of enc.now mac.now) purpose ichallenge.now
        tchallenge.now) room.old result told.new room.new }
{
    let keys = match given::keys_given(*enc, mac) {
        Ok(keys) => keys,
        Err(fault) => return given::told_of(Err(fault), told),
    };
    let made = reader_build::mam2(keys, purpose, *ichallenge, *tchallenge, room);
    given::told_of(made, told)
}
