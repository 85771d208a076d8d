// The seven messages of the reader's side, from plain numbers, over the first bytes of a lent room: the exports.
ghost use Rattle.std.specs.Prelude.{true, length};
ghost use Rattle.ground.specs.Bytes.{flag};
ghost use Rattle.ground.specs.Choice.{both};
ghost use Rattle.frames.specs.Fields.{custom_fits};
ghost use Rattle.reader.specs.Own.{mode_fits};
ghost use Rattle.reader_build.specs.Builds.{
  purpose_fits,
  tam1_made,
  tam2_made,
  iam1_made,
  mam1_made,
  iam2_made,
  mam2_made,
  iam3_made,
  iam3_fits,
};
ghost use Rattle.capi.specs.Reader.{mac_given, size_given, bits_given, keys_of, custom_of, Builds};

#[unsafe(no_mangle)]
pub extern "C" fn roualint_build_tam1(
    keyid: u8,
    ichallenge: &[u8; 10],
    room: &mut [u8],
    told: &mut usize,
) -> u8
    ensures { Builds true (tam1_made keyid ichallenge.now) room.old result told.new
        room.new }
{
    capi::build::roualint_build_tam1(keyid, ichallenge, room, told)
}

#[unsafe(no_mangle)]
pub extern "C" fn roualint_build_tam2(
    enc: &[u8; 16],
    mac: &[u8],
    blocksize: u8,
    rev: u8,
    keyid: u8,
    ichallenge: &[u8; 10],
    profile: u8,
    offset: u16,
    blockcount: u8,
    protmode: u8,
    room: &mut [u8],
    told: &mut usize,
) -> u8
    ensures { Builds (both (bits_given mac.now blocksize rev)
        (both (mode_fits (keys_of enc.now mac.now) protmode)
        (custom_fits (custom_of blocksize profile offset blockcount))))
        (tam2_made keyid ichallenge.now (flag rev) (custom_of blocksize profile offset blockcount) protmode)
        room.old result told.new room.new }
{
    capi::build::roualint_build_tam2(
        enc, mac, blocksize, rev, keyid, ichallenge, profile, offset, blockcount, protmode, room,
        told,
    )
}

#[unsafe(no_mangle)]
pub extern "C" fn roualint_build_iam1(keyid: u8, room: &mut [u8], told: &mut usize) -> u8
    ensures { Builds true (iam1_made keyid) room.old result told.new room.new }
{
    capi::build::roualint_build_iam1(keyid, room, told)
}

#[unsafe(no_mangle)]
pub extern "C" fn roualint_build_iam2(
    enc: &[u8; 16],
    mac: &[u8],
    purpose: u8,
    irnd: &[u8; 4],
    tchallenge: &[u8; 10],
    room: &mut [u8],
    told: &mut usize,
) -> u8
    ensures { Builds (both (mac_given mac.now) (purpose_fits purpose))
        (iam2_made (keys_of enc.now mac.now) purpose irnd.now tchallenge.now)
        room.old result told.new room.new }
{
    capi::build::roualint_build_iam2(enc, mac, purpose, irnd, tchallenge, room, told)
}

#[unsafe(no_mangle)]
pub extern "C" fn roualint_build_iam3(
    enc: &[u8; 16],
    mac: &[u8],
    blocksize: u8,
    profile: u8,
    offset: u16,
    blockcount: u8,
    protmode: u8,
    purpose: u8,
    irnd: &[u8; 4],
    tchallenge: &[u8; 10],
    words: &[u8],
    room: &mut [u8],
    told: &mut usize,
) -> u8
    ensures { Builds (both (size_given mac.now blocksize)
        (iam3_fits (keys_of enc.now mac.now) (custom_of blocksize profile offset blockcount) protmode
        purpose (length words.now))) (iam3_made (keys_of enc.now mac.now)
        (custom_of blocksize profile offset blockcount) protmode purpose irnd.now tchallenge.now
        words.now) room.old result told.new room.new }
{
    capi::build::roualint_build_iam3(
        enc, mac, blocksize, profile, offset, blockcount, protmode, purpose, irnd, tchallenge,
        words, room, told,
    )
}

#[unsafe(no_mangle)]
pub extern "C" fn roualint_build_mam1(
    keyid: u8,
    ichallenge: &[u8; 10],
    room: &mut [u8],
    told: &mut usize,
) -> u8
    ensures { Builds true (mam1_made keyid ichallenge.now) room.old result told.new
        room.new }
{
    capi::build::roualint_build_mam1(keyid, ichallenge, room, told)
}

#[unsafe(no_mangle)]
pub extern "C" fn roualint_build_mam2(
    enc: &[u8; 16],
    mac: &[u8],
    purpose: u8,
    ichallenge: &[u8; 10],
    tchallenge: &[u8; 10],
    room: &mut [u8],
    told: &mut usize,
) -> u8
    ensures { Builds (both (mac_given mac.now) (purpose_fits purpose))
        (mam2_made (keys_of enc.now mac.now) purpose ichallenge.now
        tchallenge.now) room.old result told.new room.new }
{
    capi::build::roualint_build_mam2(enc, mac, purpose, ichallenge, tchallenge, room, told)
}
