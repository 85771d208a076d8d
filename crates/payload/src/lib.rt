// Custom data as both halves make and judge them (9.2, Table 3): header, data, filler, and the MAC behind.
#![tactic(auto)]

ghost use Rattle.std.specs.Prelude.{◌≡◌, true, ◌++◌, ◌+◌, ◌≤◌, eqb, length, take};
ghost use Rattle.ground.specs.Choice.{both};
ghost use Rattle.frames.specs.Blocks.{data_length, blocks_length};
ghost use Rattle.frames.specs.Built.{Built};
ghost use Rattle.frames.specs.Fields.{custom_fits};
ghost use Rattle.frames.specs.Lengths.{mac_length};
ghost use Rattle.payload.specs.Data.{filled, carried_data, header_fits, words_in, filler_fits};
ghost use Rattle.payload.specs.Protected.{mac_takes, with_mac, mac_fits};

use frames::build::header_into;
use frames::protection::has_mac;
use frames::sizes::{blocks_length, data_length, header_part};
use frames::{Custom, ProtMode};
use octets::{front, same, tail};

/// Puts src behind the first bytes of a room, from place at on; where src ends. Where it does not fit, the answer is
/// None and no byte changes.
///
/// Ruled out: a part of src put where there is no room for all; bytes behind src cleared.
pub fn put(room: &mut [u8], at: usize, src: &[u8]) -> Option<usize>
    ensures { Built true (at + length src.now) (take at room.old ++ src.now)
        room.old result room.new }
{
    if at <= room.len() && src.len() <= room.len() - at {
        let end = at + src.len();
        room[at..end].copy_from_slice(src);
        Some(end)
    } else {
        None
    }
}

/// A block of a constant, four bytes and a challenge (9.4.3, 9.5.5, 9.6.3, 9.6.5).
///
/// Ruled out: the challenge before the four bytes; a constant cut to one byte.
pub fn block_of(constant: [u8; 2], middle: [u8; 4], challenge: [u8; 10]) -> [u8; 16]
    ensures { result ≡ constant ++ (middle ++ challenge) }
{
    let mut block = [0u8; 16];
    put(&mut block, 0, &constant);
    put(&mut block, 2, &middle);
    put(&mut block, 6, &challenge);
    block
}

// Two parts into a room, and zeros in the rest of it.
#[tactic(auto, unfolding(crate::specs::Data::filled))]
fn lay(room: &mut [u8], a: &[u8], b: &[u8])
    requires { length a.now + length b.now ≤ length room.old }
    ensures { room.new ≡ filled (length room.old) (a.now ++ b.now) }
{
    let i = a.len();
    let j = i + b.len();
    room[..i].copy_from_slice(a);
    room[i..j].copy_from_slice(b);
    room[j..].fill(0);
}

/// Header (in Rev 1), data and zeros up to D blocks, into the first bytes of a room (9.2); how many bytes these are.
/// Where a field does not fit its bits, the data are not as long as BlockSize and BlockCount say, or the room is too
/// short, the answer is None and no byte changes.
///
/// Ruled out: a header in Rev 0; a last block that is filled with what the room held; too few data filled up with
/// zeros.
pub fn carried_into(rev: bool, custom: Custom, words: &[u8], room: &mut [u8]) -> Option<usize>
    ensures { Built (both (custom_fits custom) (eqb (length words.now)
        (data_length custom.blocksize custom.blockcount)))
        (blocks_length custom.blocksize rev custom.blockcount) (carried_data rev custom words.now)
        room.old result room.new }
{
    let mut header = [0u8; 8];
    header_into(custom, &mut header)?;
    let size = custom.blocksize;
    if words.len() != data_length(size, custom.blockcount) {
        return None;
    }
    let n = blocks_length(size, rev, custom.blockcount);
    if room.len() < n {
        return None;
    }
    let header_end = header_part(size, rev);
    lay(&mut room[..n], &header[..header_end], words);
    Some(n)
}

/// Does the header, where there is one, say what the message's fields say (9.2)?
///
/// Ruled out: a header of another Profile; one of which only the first three bytes are looked at.
pub fn header_fits(rev: bool, custom: Custom, p: &[u8]) -> bool
    ensures { result ≡ header_fits rev custom p.now }
{
    if !rev {
        return true;
    }
    let mut header = [0u8; 8];
    let Some(n) = header_into(custom, &mut header) else {
        return false;
    };
    same(front(p, n), &header[..n])
}

/// The data between header and filler (9.2).
///
/// Ruled out: the header taken for data in Rev 1; the filler taken along.
pub fn words_in(rev: bool, custom: Custom, p: &[u8]) -> &[u8]
    ensures { result.now ≡ words_in rev custom p.now }
{
    let size = custom.blocksize;
    let h = header_part(size, rev);
    let n = data_length(size, custom.blockcount);
    front(tail(p, h), n)
}

/// Is everything behind header and data zeros (9.2)?
///
/// Ruled out: a filler that is not looked at; one that starts with the data.
pub fn filler_fits(rev: bool, custom: Custom, p: &[u8]) -> bool
    ensures { result ≡ filler_fits rev custom p.now }
{
    let size = custom.blocksize;
    let h = header_part(size, rev);
    let n = data_length(size, custom.blockcount);
    octets::zeros(tail(tail(p, h), n))
}

/// Where the ProtMode has a MAC, the MAC of the room's first n bytes behind them; how many bytes these are with it.
/// Where they are no whole blocks, or there is no room for the MAC, the answer is None and no byte changes. Without a
/// MAC no byte changes, and the answer is n where the room has n bytes.
///
/// Ruled out: a MAC of 16 bytes; a MAC put in ProtMode 1.
pub fn mac_behind(mackey: [u8; 16], mode: ProtMode, n: usize, room: &mut [u8]) -> Option<usize>
    ensures { Built (mac_takes mode n) (n + mac_length mode)
        (with_mac mackey mode (take n room.old)) room.old result room.new }
{
    if room.len() < n {
        return None;
    }
    if !has_mac(mode) {
        return Some(n);
    }
    let mut mac = [0u8; 12];
    if modes::cmac_96(mackey, &room[..n], &mut mac).is_err() {
        return None;
    }
    put(room, n, &mac)
}

/// Where the ProtMode has a MAC, is it that of the bytes it covers? They are whole blocks, at least one.
///
/// Ruled out: a MAC of which only the first bytes count; a MAC that is asked for in ProtMode 1.
pub fn mac_fits(mackey: [u8; 16], mode: ProtMode, covered: &[u8], mac: &[u8]) -> bool
    ensures { result ≡ mac_fits mackey mode covered.now mac.now }
{
    if !has_mac(mode) {
        return true;
    }
    let mut made = [0u8; 12];
    if modes::cmac_96(mackey, covered, &mut made).is_err() {
        return false;
    }
    same(&made, mac)
}
