// The fields of each message. The length is not judged here: a byte past the end reads as 0.
ghost use Rattle.std.specs.Prelude.{◌≡◌};
ghost use Rattle.frames.specs.Fields.{select_custom};
ghost use Rattle.frames.specs.Messages.{tam1_of, tam2_of, iam1_of, iam2_of, iam3_of, mam1_of, mam2_of};

use super::{Custom, Iam1, Iam2, Iam3, Mam1, Mam2, Tam1, Tam2};
use memory::{BlockSize, Offset};
use octets::{byte, bytes_at};

// Profile, Offset and BlockCount of the three bytes that TAM2 and IAM3 share.
#[tactic(auto, unfolding(crate::specs::Fields::select_custom))]
fn custom_of(blocksize: BlockSize, x: u8, y: u8, z: u8) -> Custom
    ensures { result ≡ select_custom blocksize x y z }
{
    let offset = Offset(octets::word(x % 16, y));
    Custom {
        blocksize,
        profile: x / 16,
        offset,
        blockcount: z / 16,
    }
}

// Table 4. Ruled out: an RFU bit left out, and a challenge that starts at the KeyID.
#[tactic(auto, unfolding(crate::specs::Messages::tam1_of))]
pub fn tam1_of(m: &[u8]) -> Tam1
    ensures { result ≡ tam1_of m.now }
{
    let ichallenge = bytes_at(m, 2);
    Tam1 {
        rfu: byte(m, 0) % 32,
        keyid: byte(m, 1),
        ichallenge,
    }
}

// Table 6. Ruled out: BlockSize and Rev exchanged, and Offset taken for Profile.
#[tactic(auto, unfolding(crate::specs::Messages::tam2_of))]
pub fn tam2_of(m: &[u8]) -> Tam2
    ensures { result ≡ tam2_of m.now }
{
    let head = byte(m, 0);
    let last = byte(m, 14);
    let blocksize = BlockSize::from(head / 16 % 2);
    let custom = custom_of(blocksize, byte(m, 12), byte(m, 13), last);
    let ichallenge = bytes_at(m, 2);
    Tam2 {
        rev: head / 8 % 2 == 1,
        rfu: head % 8,
        keyid: byte(m, 1),
        ichallenge,
        custom,
        protmode: last % 16,
    }
}

// Table 15. Ruled out: three RFU bits in place of four, and a KeyID out of the first byte.
#[tactic(auto, unfolding(crate::specs::Messages::iam1_of))]
pub fn iam1_of(m: &[u8]) -> Iam1
    ensures { result ≡ iam1_of m.now }
{
    Iam1 {
        rfu: byte(m, 0) % 16,
        keyid: byte(m, 1),
    }
}

// Table 17. Ruled out: CustomData counted as a bit of RFU, and an IResponse of 15 bytes.
#[tactic(auto, unfolding(crate::specs::Messages::iam2_of))]
pub fn iam2_of(m: &[u8]) -> Iam2
    ensures { result ≡ iam2_of m.now }
{
    let iresponse = bytes_at(m, 1);
    Iam2 {
        rfu: byte(m, 0) % 8,
        iresponse,
    }
}

// Table 18, up to the first block of IResponse. Ruled out: BlockSize read from a bit of RFU, and BlockCount and
// ProtMode exchanged.
#[tactic(auto, unfolding(crate::specs::Messages::iam3_of))]
pub fn iam3_of(m: &[u8]) -> Iam3
    ensures { result ≡ iam3_of m.now }
{
    let head = byte(m, 0);
    let last = byte(m, 3);
    let blocksize = BlockSize::from(head / 4 % 2);
    let custom = custom_of(blocksize, byte(m, 1), byte(m, 2), last);
    let iresponse = bytes_at(m, 4);
    Iam3 {
        rfu: head % 4,
        custom,
        protmode: last % 16,
        iresponse,
    }
}

// Table 23. Ruled out: five RFU bits in place of four, and a challenge cut to its first bytes.
#[tactic(auto, unfolding(crate::specs::Messages::mam1_of))]
pub fn mam1_of(m: &[u8]) -> Mam1
    ensures { result ≡ mam1_of m.now }
{
    let ichallenge = bytes_at(m, 2);
    Mam1 {
        rfu: byte(m, 0) % 16,
        keyid: byte(m, 1),
        ichallenge,
    }
}

// Table 25: all four bits of RFU. Ruled out: three of them, by which 98 would pass, and an IResponse that starts at the
// first byte.
#[tactic(auto, unfolding(crate::specs::Messages::mam2_of))]
pub fn mam2_of(m: &[u8]) -> Mam2
    ensures { result ≡ mam2_of m.now }
{
    let iresponse = bytes_at(m, 1);
    Mam2 {
        rfu: byte(m, 0) % 16, // four bits, by Table 25
        iresponse,
    }
}
