// What only a reader that has the keys can send: the block that the tag opens by encryption, and behind it, in IAM3,
// data and MAC.
ghost use Rattle.std.specs.Prelude.{◌≡◌, true, ◌+◌, ◌%◌, ◌≤◌, length, take};
ghost use Rattle.aes_inverse.specs.AesDec.{aes_dec};
ghost use Rattle.modes.specs.Room.{over};
ghost use Rattle.frames.specs.Blocks.{blocks_length};
ghost use Rattle.frames.specs.Lengths.{message_room};
ghost use Rattle.frames.specs.Messages.{select_fits};
ghost use Rattle.reader_build.specs.Builds.{response, sent_data, iam3_response, iam3_whole};

use frames::build::iam3_into;
use frames::protection::encrypts;
use frames::sizes::iam3_length;
use frames::{Custom, Iam3, ProtMode};
use payload::{block_of, mac_behind};
use reader::Keys;

/// The block that the tag opens by encryption: the reader makes it by decryption (9.5.5, 9.5.8.1 a, 9.6.5).
/// Ruled out: AES-ENC; the challenge before the four bytes.
#[tactic(auto, unfolding(crate::specs::Builds::response))]
pub fn response(enc: [u8; 16], constant: [u8; 2], middle: [u8; 4], tchallenge: [u8; 10]) -> [u8; 16]
    ensures { result ≡ response enc constant middle tchallenge }
{
    way(enc, block_of(constant, middle, tchallenge))
}

// The way of the cipher that the reader sends by; the tag reads by the other.
fn way(key: [u8; 16], block: [u8; 16]) -> [u8; 16]
    ensures { result ≡ aes_dec key block }
{
    aes_inverse::decrypt(key, block)
}

// Header, data and filler as they are sent: chained to the block a by AES-DEC, or as they are (Table 3).
fn sent_data(enc: [u8; 16], mode: ProtMode, a: [u8; 16], p: &[u8], room: &mut [u8])
    requires { (length p.now % 16 ≡ 0) × (length p.now ≤ length room.old) }
    ensures { room.new ≡ over (sent_data enc mode a p.now) room.old }
{
    if encrypts(mode) {
        modes_inverse::cbc_enc_aes_inv(a, enc, p, room).unwrap();
        return;
    }
    room[..p.len()].copy_from_slice(p);
}

// IResponse of IAM3 into a room that starts with the block a already: the data behind it, and the MAC over both
// (9.5.8.1).
fn iam3_response(keys: Keys, mode: ProtMode, a: [u8; 16], p: &[u8], room: &mut [u8])
    requires { (take 16 room.old ≡ a) × (length p.now % 16 ≡ 0) × (28 + length p.now ≤ length room.old) }
    ensures { room.new ≡ over (iam3_response keys mode a p.now) room.old }
{
    sent_data(keys.enc, mode, a, p, &mut room[16..]);
    mac_behind(keys.mackey, mode, 16 + p.len(), room);
}

/// IAM3 with the block a and the D blocks p, over the room's first bytes; its length (9.5.8, Table 18).
/// Ruled out: the MAC over the data before they are chained; the chain started at another block than a.
pub fn iam3_whole(
    keys: Keys,
    custom: Custom,
    protmode: u8,
    mode: ProtMode,
    a: [u8; 16],
    p: &[u8],
    room: &mut [u8],
) -> usize
    requires { (select_fits 0 custom protmode ≡ true)
        × (length p.now ≡ blocks_length custom.blocksize true custom.blockcount)
        × (message_room ≤ length room.old) }
    ensures { (result ≡ length (iam3_whole keys custom protmode mode a p.now))
        × (room.new ≡ over (iam3_whole keys custom protmode mode a p.now) room.old) }
{
    let f = Iam3 {
        rfu: 0,
        custom,
        protmode,
        iresponse: a,
    };
    iam3_into(f, &mut *room);
    iam3_response(keys, mode, a, p, &mut room[4..]);
    iam3_length(custom.blocksize, custom.blockcount, mode)
}
