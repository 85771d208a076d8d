// How long things are, in bytes (9.2, and the tables of clause 9).
ghost use Rattle.std.specs.Prelude.{◌≡◌};
ghost use Rattle.frames.specs.Asked.{block_asked};
ghost use Rattle.frames.specs.Blocks.{header_length, header_part, data_length, d_of, blocks_length};
ghost use Rattle.frames.specs.Lengths.{
  mac_length,
  iam3_mac_at,
  iam3_length,
  tam2_mac_at,
  tam2_reply_length,
  iam3_length_fits,
  length_fits,
};

use super::fields::iam3_of;
use super::protection::{has_mac, prot_mode};
use super::{Custom, Kind, ProtMode};
use memory::{Block, BlockSize, Profile, address};

// The scope paper's rooms: for any reply, for any message, and for header and data of nine blocks; and the most data
// that a message asks for (9.2).
pub const REPLY_ROOM: usize = 172;

pub const MESSAGE_ROOM: usize = 176;

pub const DATA_ROOM: usize = 144;

pub const DATA_MOST: usize = 128;

// H (9.2). Ruled out: 8 for 16-bit blocks, and H counted in bits.
#[tactic(auto, unfolding(crate::specs::Blocks::header_length))]
pub fn header_length(size: BlockSize) -> usize
    ensures { result ≡ header_length size }
{
    match size {
        BlockSize::Bits64 => 8,
        BlockSize::Bits16 => 4,
    }
}

// The bytes before the data: H where there is a header, as in TAM2 Rev 1 and IAM3 (9.2).
// Ruled out: a header in TAM2 Rev 0, and H of the other block size.
#[tactic(auto, unfolding(crate::specs::Blocks::header_part))]
pub fn header_part(size: BlockSize, header: bool) -> usize
    ensures { result ≡ header_part size header }
{
    if header { header_length(size) } else { 0 }
}

// The bytes of the data (9.2). Ruled out: BlockCount taken for the number of blocks, and the two block sizes exchanged.
#[tactic(auto, unfolding(crate::specs::Blocks::data_length, crate::specs::Blocks::block_bytes))]
pub fn data_length(size: BlockSize, blockcount: u8) -> usize
    ensures { result ≡ data_length size blockcount }
{
    let n = blockcount as usize + 1;
    match size {
        BlockSize::Bits64 => n * 8,
        BlockSize::Bits16 => n * 2,
    }
}

// The block of memory that a message asks for (9.2). The data are its bytes, and it is never without words.
// Ruled out: BlockCount taken for the number of blocks, and an Offset of 64-bit blocks taken as one of words.
#[tactic(auto, unfolding(crate::specs::Asked::block_asked))]
pub fn block_asked(profile: Profile, custom: Custom) -> Block
    ensures { result ≡ block_asked profile custom }
{
    let size = custom.blocksize;
    let count = custom.blockcount as u16 + 1;
    address(profile, size, custom.offset, count)
}

// D (9.2): the least number of 128-bit blocks that holds the header, where there is one, and the data.
// Ruled out: a last block that is not full left out, and a header counted where there is none.
pub fn d_of(size: BlockSize, header: bool, blockcount: u8) -> usize
    ensures { result ≡ d_of size header blockcount }
{
    (header_part(size, header) + data_length(size, blockcount)).div_ceil(16)
}

// The bytes of all D blocks. Ruled out: D itself, and D of the other block size.
#[tactic(auto, using(crate::proofs::Least::blocks_bound), unfolding(crate::specs::Blocks::blocks_length))]
pub fn blocks_length(size: BlockSize, header: bool, blockcount: u8) -> usize
    ensures { result ≡ blocks_length size header blockcount }
{
    16 * d_of(size, header, blockcount)
}

// The bytes of a MAC (Table 3). Ruled out: a MAC in ProtMode 1, and one of 16 bytes.
#[tactic(auto, unfolding(crate::specs::Lengths::mac_length))]
pub fn mac_length(mode: ProtMode) -> usize
    ensures { result ≡ mac_length mode }
{
    if has_mac(mode) { 12 } else { 0 }
}

// Where the MAC of IAM3 stands, behind the data blocks (9.5.8). Ruled out: 16 + 16D, and a place without the header.
#[tactic(auto, using(crate::proofs::Least::blocks_bound), unfolding(crate::specs::Lengths::iam3_mac_at))]
pub fn iam3_mac_at(size: BlockSize, blockcount: u8) -> usize
    ensures { result ≡ iam3_mac_at size blockcount }
{
    20 + blocks_length(size, true, blockcount)
}

// The bytes of IAM3 (9.5.8). Ruled out: no MAC counted in ProtModes 2 and 3, and one counted in every ProtMode.
pub fn iam3_length(size: BlockSize, blockcount: u8, mode: ProtMode) -> usize
    ensures { result ≡ iam3_length size blockcount mode }
{
    iam3_mac_at(size, blockcount) + mac_length(mode)
}

// Where the MAC of a TAM2 reply stands (Tables 9, 10, 13, 14). Ruled out: a header counted in Rev 0, and 20 + 16D.
#[tactic(auto, using(crate::proofs::Least::blocks_bound), unfolding(crate::specs::Lengths::tam2_mac_at))]
pub fn tam2_mac_at(size: BlockSize, rev: bool, blockcount: u8) -> usize
    ensures { result ≡ tam2_mac_at size rev blockcount }
{
    16 + blocks_length(size, rev, blockcount)
}

// The bytes of a TAM2 reply (Tables 7 to 14). Ruled out: the authentication block left out, and Rev 0 and Rev 1
// exchanged.
pub fn tam2_reply_length(size: BlockSize, rev: bool, blockcount: u8, mode: ProtMode) -> usize
    ensures { result ≡ tam2_reply_length size rev blockcount mode }
{
    tam2_mac_at(size, rev, blockcount) + mac_length(mode)
}

// Is an IAM3 message as long as its own fields say?
#[tactic(auto, unfolding(crate::specs::Lengths::iam3_length_fits))]
fn iam3_length_fits(m: &[u8]) -> bool
    ensures { result ≡ iam3_length_fits m.now }
{
    if m.len() < 4 {
        return false;
    }
    let f = iam3_of(m);
    let size = f.custom.blocksize;
    match prot_mode(f.protmode) {
        Some(mode) => m.len() == iam3_length(size, f.custom.blockcount, mode),
        None => true,
    }
}

// Is a message as long as its kind asks? Ruled out: an empty message let through, and IAM3 of ProtMode 4 refused here.
#[tactic(auto, unfolding(crate::specs::Lengths::length_fits))]
pub fn length_fits(kind: Kind, m: &[u8]) -> bool
    ensures { result ≡ length_fits kind m.now }
{
    match kind {
        Kind::Tam1 => m.len() == 12,
        Kind::Tam2 => m.len() == 15,
        Kind::Iam1 => m.len() == 2,
        Kind::Iam2 => m.len() == 17,
        Kind::Iam3 => iam3_length_fits(m),
        Kind::Mam1 => m.len() == 12,
        Kind::Mam2 => m.len() == 17,
        Kind::Unsupported => false,
    }
}
