// What the tag sends (9.4.3, 9.4.6).
ghost use Rattle.std.specs.Prelude.{◌≡◌, true, ◌++◌, ◌+◌, ◌%◌, ◌≤◌, length, replicate};
ghost use Rattle.ground.specs.Choice.{pick};
ghost use Rattle.modes.specs.Cbc.{cbc_enc_aes};
ghost use Rattle.modes.specs.Room.{over};
ghost use Rattle.frames.specs.Blocks.{data_length};
ghost use Rattle.frames.specs.Fields.{custom_fits};
ghost use Rattle.frames.specs.Modes.{encrypts};
ghost use Rattle.payload.specs.Data.{carried_data};
ghost use Rattle.tam.specs.Replies.{tam_block, tam1_reply, tam2_in_mode, tam2_reply};

use frames::protection::{encrypts, prot_mode};
use frames::sizes::{DATA_MOST, DATA_ROOM, REPLY_ROOM, data_length};
use frames::{Custom, ProtMode, Tam1, Tam2};
use sheet::Key;

/// The authentication block (9.4.3, 9.4.6.1).
/// Ruled out: the last four draws as TRnd, and IChallenge before TRnd.
pub fn tam_block(
    enc: [u8; 16],
    constant: [u8; 2],
    draws: [u8; 10],
    ichallenge: [u8; 10],
) -> [u8; 16]
    ensures { result ≡ tam_block enc constant draws ichallenge }
{
    let trnd = [draws[0], draws[1], draws[2], draws[3]];
    aes::encrypt(enc, payload::block_of(constant, trnd, ichallenge))
}

/// The reply to TAM1 (9.4.3). Ruled out: the MAC's key, and the constant of TAM2 Rev 1.
pub fn tam1_reply(key: Key, m: Tam1, draws: [u8; 10]) -> [u8; 16]
    ensures { result ≡ tam1_reply key m draws }
{
    tam_block(
        key.enc,
        frames::constants::tam1_constant(),
        draws,
        m.ichallenge,
    )
}

// The data as they are sent: chained to the block a, or as they are (Table 3).
fn body(enc: [u8; 16], mode: ProtMode, a: [u8; 16], p: &[u8], room: &mut [u8])
    requires { (length p.now % 16 ≡ 0) × (length p.now ≤ length room.old) }
    ensures { room.new ≡
        over (pick (encrypts mode) (cbc_enc_aes a enc p.now) p.now) room.old }
{
    if encrypts(mode) {
        modes::cbc_enc_aes(a, enc, p, room).unwrap();
    } else {
        room[..p.len()].copy_from_slice(p);
    }
}

// The block a, and behind it the data as they are sent.
fn authenticated(enc: [u8; 16], mode: ProtMode, a: [u8; 16], p: &[u8], room: &mut [u8])
    requires { (length p.now % 16 ≡ 0) × (16 + length p.now ≤ length room.old) }
    ensures { room.new ≡
        over (a ++ pick (encrypts mode) (cbc_enc_aes a enc p.now) p.now) room.old }
{
    payload::put(&mut *room, 0, &a);
    body(enc, mode, a, p, &mut room[16..]);
}

// Header, words and zeros (9.2), with zeros behind. A block past the end of its area, which no sheet allows, has no
// words: zeros stand in their place.
fn carried(rev: bool, custom: Custom, words: &[u8]) -> [u8; DATA_ROOM]
    requires { (custom_fits custom ≡ true)
        × (length words.now ≤ data_length custom.blocksize custom.blockcount) }
    ensures { result ≡ over (carried_data rev custom words.now) (replicate 144 0) }
{
    let mut whole = [0u8; DATA_MOST];
    whole[..words.len()].copy_from_slice(words);
    let n = data_length(custom.blocksize, custom.blockcount);
    let mut p = [0u8; DATA_ROOM];
    payload::carried_into(rev, custom, &whole[..n], &mut p);
    p
}

// The reply to TAM2 in its mode (9.4.6.2 to 9.4.6.9) into the first bytes of the room; its length.
fn tam2_in_mode(
    key: Key,
    m: Tam2,
    words: &[u8],
    draws: [u8; 10],
    mode: ProtMode,
    room: &mut [u8; REPLY_ROOM],
) -> usize
    requires { (custom_fits m.custom ≡ true)
        × (length words.now ≤ data_length m.custom.blocksize m.custom.blockcount) }
    ensures { (result ≡ length (tam2_in_mode key m words.now draws mode))
        × (room.new ≡ over (tam2_in_mode key m words.now draws mode) room.old) }
{
    let n = frames::sizes::blocks_length(m.custom.blocksize, m.rev, m.custom.blockcount);
    let p = carried(m.rev, m.custom, words);
    let constant = frames::constants::tam2_constant(m.rev, mode);
    let a = tam_block(key.enc, constant, draws, m.ichallenge);
    authenticated(key.enc, mode, a, &p[..n], &mut *room);
    payload::mac_behind(key.mackey, mode, 16 + n, room);
    frames::sizes::tam2_reply_length(m.custom.blocksize, m.rev, m.custom.blockcount, mode)
}

/// The reply to TAM2 (9.4.6) into the first bytes of the room; its length.
/// Ruled out: the MAC of the data before they are chained, and a header in Rev 0.
pub fn tam2_reply(
    key: Key,
    m: Tam2,
    words: &[u8],
    draws: [u8; 10],
    room: &mut [u8; REPLY_ROOM],
) -> usize
    requires { (custom_fits m.custom ≡ true)
        × (length words.now ≤ data_length m.custom.blocksize m.custom.blockcount) }
    ensures { (result ≡ length (tam2_reply key m words.now draws))
        × (room.new ≡ over (tam2_reply key m words.now draws) room.old) }
{
    match prot_mode(m.protmode) {
        Some(mode) => tam2_in_mode(key, m, words, draws, mode, room),
        None => 0,
    }
}
