// Each message, and the header, into the first bytes of a lent room. Where the room is too short, RFU is not zero or a
// field does not fit its bits, the answer is None and no byte of the room changes; else it is how many were built.
ghost use Rattle.std.specs.Prelude.{◌≡◌, true, ◌++◌, ◌+◌, ◌*◌, ◌<◌, length};
ghost use Rattle.ground.specs.Bytes.{bit_of};
ghost use Rattle.frames.specs.Blocks.{header_length};
ghost use Rattle.frames.specs.Built.{Built};
ghost use Rattle.frames.specs.Fields.{size_bit, custom_fits, select_bytes};
ghost use Rattle.frames.specs.Header.{header_start, header_of};
ghost use Rattle.frames.specs.Lengths.{
  tam1_length,
  tam2_length,
  iam1_length,
  iam2_length,
  iam3_head_length,
  mam1_length,
  mam2_length,
};
ghost use Rattle.frames.specs.Messages.{
  rfu_fits,
  select_fits,
  tam1_message,
  tam2_message,
  iam1_message,
  iam2_message,
  iam3_head,
  mam1_message,
  mam2_message,
};

use super::parts::join;
use super::sizes::header_length;
use super::{Custom, Iam1, Iam2, Iam3, Mam1, Mam2, Tam1, Tam2};
use memory::BlockSize;

// Does each field have a value of its bits?
#[tactic(auto, unfolding(crate::specs::Fields::custom_fits))]
fn custom_fits(custom: Custom) -> bool
    ensures { result ≡ custom_fits custom }
{
    custom.profile < 16 && custom.offset.0 < 4096 && custom.blockcount < 16
}

// The same, with RFU and ProtMode.
#[tactic(auto, unfolding(crate::specs::Messages::select_fits))]
fn select_fits(rfu: u8, custom: Custom, protmode: u8) -> bool
    ensures { result ≡ select_fits rfu custom protmode }
{
    rfu == 0 && protmode < 16 && custom_fits(custom)
}

// Profile, Offset, BlockCount and ProtMode in the three bytes that TAM2 and IAM3 share.
fn select(custom: Custom, protmode: u8) -> [u8; 3]
    requires { select_fits 0 custom protmode ≡ true }
    ensures { result ≡ select_bytes custom protmode }
{
    let o = custom.offset.0;
    [
        custom.profile * 16 + (o / 256) as u8,
        (o % 256) as u8,
        custom.blockcount * 16 + protmode,
    ]
}

// A message that has a challenge after its first two bytes.
fn with_challenge(
    room: &mut [u8],
    head: [u8; 2],
    ichallenge: [u8; 10],
    rest: &[u8],
) -> Option<usize>
    ensures { Built true (12 + length rest.now) (head ++ (ichallenge ++ rest.now))
        room.old result room.new }
{
    join(room, &head, &ichallenge, rest)
}

// Two parts, one after the other.
fn pair(room: &mut [u8], a: &[u8], b: &[u8]) -> Option<usize>
    ensures { Built true (length a.now + length b.now) (a.now ++ b.now)
        room.old result room.new }
{
    join(room, a, b, &b[0..0])
}

// A message that ends with a block of IResponse.
fn with_response(room: &mut [u8], head: &[u8], iresponse: [u8; 16]) -> Option<usize>
    ensures { Built true (length head.now + 16) (head.now ++ iresponse) room.old result
        room.new }
{
    pair(room, head, &iresponse)
}

// The first byte of TAM2.
fn tam2_first(blocksize: BlockSize, rev: bool) -> u8
    ensures { result ≡ 0x20 + size_bit blocksize * 16 + bit_of rev * 8 }
{
    0x20 + u8::from(blocksize) * 16 + u8::from(rev) * 8
}

// The header's bytes before the zeros.
#[tactic(auto, using(crate::proofs::Range::custom_range), unfolding(crate::specs::Header::header_start))]
fn header_start(custom: Custom) -> [u8; 3]
    requires { custom_fits custom ≡ true }
    ensures { result ≡ header_start custom }
{
    let b = u8::from(custom.blocksize);
    let o = custom.offset.0;
    [
        b * 128 + custom.profile * 8 + (o / 512) as u8,
        (o / 2 % 256) as u8,
        (o % 2) as u8 * 128 + custom.blockcount * 8,
    ]
}

// Table 4. Ruled out: a KeyID behind the challenge, and a byte of the room changed where it is too short.
#[tactic(auto, unfolding(crate::specs::Messages::tam1_message))]
pub fn tam1_into(f: Tam1, room: &mut [u8]) -> Option<usize>
    ensures { Built (rfu_fits f.rfu) tam1_length (tam1_message f) room.old result room.new }
{
    if f.rfu != 0 {
        return None;
    }
    let none = [0u8; 0];
    with_challenge(room, [0x00, f.keyid], f.ichallenge, &none)
}

// Table 6. Ruled out: BlockSize 1 for 64-bit blocks, and an Offset of 4096 cut to 12 bits.
pub fn tam2_into(f: Tam2, room: &mut [u8]) -> Option<usize>
    ensures { Built (select_fits f.rfu f.custom f.protmode) tam2_length (tam2_message f)
        room.old result room.new }
{
    if !select_fits(f.rfu, f.custom, f.protmode) {
        return None;
    }
    let first = tam2_first(f.custom.blocksize, f.rev);
    let rest = select(f.custom, f.protmode);
    with_challenge(room, [first, f.keyid], f.ichallenge, &rest)
}

// Table 15. Ruled out: RFU bits sent on, and the first byte of MAM1.
#[tactic(auto, unfolding(crate::specs::Messages::iam1_message))]
pub fn iam1_into(f: Iam1, room: &mut [u8]) -> Option<usize>
    ensures { Built (rfu_fits f.rfu) iam1_length (iam1_message f) room.old result room.new }
{
    if f.rfu != 0 {
        return None;
    }
    let first = [0x40];
    let second = [f.keyid];
    pair(room, &first, &second)
}

// Table 17. Ruled out: the first byte of IAM3, and a room of 16 bytes taken.
#[tactic(auto, unfolding(crate::specs::Messages::iam2_message))]
pub fn iam2_into(f: Iam2, room: &mut [u8]) -> Option<usize>
    ensures { Built (rfu_fits f.rfu) iam2_length (iam2_message f) room.old result room.new }
{
    if f.rfu != 0 {
        return None;
    }
    let head = [0x50];
    with_response(room, &head, f.iresponse)
}

// Table 18, up to the first block of IResponse; the data blocks and the MAC are the caller's.
// Ruled out: BlockSize in the place of CustomData, and a room filled past its first 20 bytes.
pub fn iam3_into(f: Iam3, room: &mut [u8]) -> Option<usize>
    ensures { Built (select_fits f.rfu f.custom f.protmode) iam3_head_length (iam3_head f)
        room.old result room.new }
{
    if !select_fits(f.rfu, f.custom, f.protmode) {
        return None;
    }
    let b = u8::from(f.custom.blocksize);
    let s = select(f.custom, f.protmode);
    let head = [0x58 + b * 4, s[0], s[1], s[2]];
    with_response(room, &head, f.iresponse)
}

// Table 23. Ruled out: the first byte of TAM1, and a challenge of nine bytes.
#[tactic(auto, unfolding(crate::specs::Messages::mam1_message))]
pub fn mam1_into(f: Mam1, room: &mut [u8]) -> Option<usize>
    ensures { Built (rfu_fits f.rfu) mam1_length (mam1_message f) room.old result room.new }
{
    if f.rfu != 0 {
        return None;
    }
    let none = [0u8; 0];
    with_challenge(room, [0x80, f.keyid], f.ichallenge, &none)
}

// Table 25. Ruled out: an RFU of 8 taken, and the first byte of IAM2.
#[tactic(auto, unfolding(crate::specs::Messages::mam2_message))]
pub fn mam2_into(f: Mam2, room: &mut [u8]) -> Option<usize>
    ensures { Built (rfu_fits f.rfu) mam2_length (mam2_message f) room.old result room.new }
{
    if f.rfu != 0 {
        return None;
    }
    let head = [0x90];
    with_response(room, &head, f.iresponse)
}

// HEADER (9.2). Ruled out: Offset before Profile, and eight bytes for 16-bit blocks.
pub fn header_into(custom: Custom, room: &mut [u8]) -> Option<usize>
    ensures { Built (custom_fits custom) (header_length custom.blocksize) (header_of custom) room.old
        result room.new }
{
    if !custom_fits(custom) {
        return None;
    }
    let zeros = header_length(custom.blocksize) - 3;
    let start = header_start(custom);
    let padding = [0u8; 5];
    pair(room, &start, &padding[..zeros])
}
