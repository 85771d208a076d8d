// Where a tag's words are: ISO/IEC 29167-10, 9.2 and clause 11, and the scope paper, "Memory".
#![tactic(auto)]

ghost use Rattle.std.specs.Prelude.{◌≡◌, ◌<◌, not, ◌+◌, leb};
ghost use Rattle.memory.specs.Address.{area_number, block_size_bit, size_of, step_of, address_of, overruns};
ghost use Rattle.memory.specs.Areas.{first_byte, byte_count, part_of, window_of, written, stored_in};
ghost use Rattle.memory.specs.Rights.{meets, some_locked, permitted};

/// The two areas of a tag's memory.
#[derive(Clone, Copy, Debug, PartialEq, Eq)]
pub enum Area {
    Identity,
    User,
}

/// The number of an area, as a sheet and a stored tag have it.
///
/// Ruled out: the numbers of the two areas exchanged; one number for both.
impl From<Area> for u8 {
    ghost from_gives = { λ area n. n ≡ area_number area };

    #[tactic(auto, unfolding(crate::specs::Address::area_number))]
    fn from(area: Area) -> u8 {
        match area {
            Area::Identity => 0,
            Area::User => 1,
        }
    }
}

/// The size of a data block.
#[derive(Clone, Copy, Debug, PartialEq, Eq)]
pub enum BlockSize {
    Bits64,
    Bits16,
}

/// BlockSize of its bit (9.2). A number that is no bit is read as 1.
///
/// Ruled out: 0 for 16-bit blocks; 2 taken for 0.
impl From<u8> for BlockSize {
    ghost from_gives = { λ bit size. size ≡ size_of bit };

    #[tactic(auto, unfolding(crate::specs::Address::size_of))]
    fn from(bit: u8) -> BlockSize {
        match bit {
            0 => BlockSize::Bits64,
            _ => BlockSize::Bits16,
        }
    }
}

/// BlockSize as its bit (9.2).
///
/// Ruled out: the bits of the two sizes exchanged; a number that is no bit.
impl From<BlockSize> for u8 {
    ghost from_gives = { λ size bit. (bit ≡ block_size_bit size) × (bit < 2) };

    #[tactic(auto, unfolding(crate::specs::Address::block_size_bit))]
    fn from(size: BlockSize) -> u8 {
        match size {
            BlockSize::Bits64 => 0,
            BlockSize::Bits16 => 1,
        }
    }
}

/// The address of a 16-bit word in its area.
#[derive(Clone, Copy, Debug, PartialEq, Eq)]
pub struct Word(pub u16);

/// A count of data blocks from a profile's first word. It becomes a word address only by the step of the block size.
#[derive(Clone, Copy, Debug, PartialEq, Eq)]
pub struct Offset(pub u16);

/// A word address that may lie past its area: wide enough for every base and Offset.
#[derive(Clone, Copy, Debug, PartialEq, Eq)]
pub struct FarWord(pub usize);

/// The words that a key record may be given the right to: so many from a base word of an area.
#[derive(Clone, Copy, Debug, PartialEq, Eq)]
pub struct Profile {
    pub area: Area,
    pub base: Word,
    pub words: u16,
}

/// Words that may not be written: so many from a first word of an area.
#[derive(Clone, Copy, Debug, PartialEq, Eq)]
pub struct Lock {
    pub area: Area,
    pub first: Word,
    pub words: u16,
}

/// The words that a message asks for.
#[derive(Clone, Copy, Debug, PartialEq, Eq)]
pub struct Block {
    pub area: Area,
    pub first: FarWord,
    pub words: usize,
}

/// A word has two bytes.
const WORD_BYTES: usize = 2;

/// The words of one data block.
///
/// Ruled out: the two sizes exchanged; a step of one word for both.
#[tactic(auto, unfolding(crate::specs::Address::step_of))]
pub fn step(size: BlockSize) -> usize
    ensures { result ≡ step_of size }
{
    match size {
        BlockSize::Bits64 => 4,
        BlockSize::Bits16 => 1,
    }
}

/// The words of `count` data blocks, `offset` data blocks after the profile's first word.
///
/// Ruled out: an Offset of 64-bit blocks taken as one of words; a sum that is cut to 16 bits.
#[tactic(auto, unfolding(crate::specs::Address::address_of))]
pub fn address(profile: Profile, size: BlockSize, offset: Offset, count: u16) -> Block
    ensures { result ≡ address_of profile size offset count }
{
    let base = profile.base.0 as usize;
    let blocks = offset.0 as usize;
    let each = step(size);
    Block {
        area: profile.area,
        first: FarWord(base + blocks * each),
        words: (count as usize) * each,
    }
}

/// Whether the block ends at or before the profile's end; a block of no words always does. The two ends are compared
/// and nothing else: not the areas, and not the block's start with the profile's base. `address` gives both from the
/// profile.
///
/// Ruled out: one word past the end allowed; a block of no words behind the end refused.
pub fn fits(profile: Profile, block: Block) -> bool
    ensures { result ≡ not (overruns profile block) }
{
    let end = profile.base.0 as usize + profile.words as usize;
    block.words <= end.saturating_sub(block.first.0)
}

// Whether an area of `len` bytes has every byte of the block. No sum here wraps, however far the block lies.
fn inside(block: Block, len: usize) -> bool
    ensures { result ≡ leb (first_byte block + byte_count block) len }
{
    let all = len / WORD_BYTES;
    let first = block.first.0;
    first <= all && block.words <= all - first
}

// The block's bytes in its area.
#[tactic(auto, unfolding(crate::specs::Areas::part_of, crate::specs::Areas::within))]
fn part(area: &[u8], block: Block) -> &[u8]
    ensures { result.now ≡ part_of block area.now }
{
    if inside(block, area.len()) {
        let start = block.first.0 * WORD_BYTES;
        let end = start + block.words * WORD_BYTES;
        return &area[start..end];
    }
    &area[0..0]
}

/// The block's bytes, as a part of the one of the two areas in which it lies. The part is empty where the block
/// runs past the area.
///
/// Ruled out: a part of the other area; a part that starts a word too late.
#[tactic(auto, unfolding(crate::specs::Areas::window_of, crate::specs::Areas::area_of))]
pub fn window<'a>(identity: &'a [u8], user: &'a [u8], block: Block) -> &'a [u8]
    ensures { result.now ≡ window_of identity.now user.now block }
{
    match block.area {
        Area::Identity => part(identity, block),
        Area::User => part(user, block),
    }
}

// `bytes` over the block's bytes in its area, where they are as many and the block lies in the area.
#[tactic(auto, unfolding(crate::specs::Areas::written, crate::specs::Areas::within))]
fn put(area: &mut [u8], block: Block, bytes: &[u8])
    ensures { area.new ≡ written block bytes.now area.old }
{
    if inside(block, area.len()) && bytes.len() == block.words * WORD_BYTES {
        let from = block.first.0 * WORD_BYTES;
        area[from..from + bytes.len()].copy_from_slice(bytes);
    }
}

/// `bytes` over the block's bytes in the one of the two areas in which it lies; every other byte of both stays.
/// Nothing is stored where the bytes are not as many as the block's, or the block runs past the area.
///
/// Ruled out: a store into the other area; a store that also writes filler past the block.
pub fn store(identity: &mut [u8], user: &mut [u8], block: Block, bytes: &[u8])
    ensures { (identity.new ≡ stored_in Area.Identity block bytes.now identity.old)
        × (user.new ≡ stored_in Area.User block bytes.now user.old) }
{
    match block.area {
        Area::Identity => put(identity, block, bytes),
        Area::User => put(user, block, bytes),
    }
}

// Whether the lock holds a word of the block. Where it holds any, it holds the first that is not before either of them.
fn overlaps(block: Block, lock: Lock) -> bool
    ensures { result ≡ meets block lock }
{
    if lock.area != block.area {
        return false;
    }
    let from = lock.first.0 as usize;
    let end = from + lock.words as usize;
    let first = block.first.0;
    let word = first.max(from);
    word < end && word - first < block.words
}

/// Whether some word of the block is locked. The first `used` of the locks are in use.
///
/// Ruled out: a lock's last word left out; a lock of the other area that is taken for one of this.
pub fn locked(locks: [Lock; 16], used: usize, block: Block) -> bool
    ensures { result ≡ some_locked locks used block }
{
    locks[..used.min(16)]
        .iter()
        .any(|lock| overlaps(block, *lock))
}

/// Whether a key record with this MPI may use the profile of this number.
///
/// Ruled out: bits counted from the most significant; a number of 16 or more that is taken modulo 16.
#[tactic(auto, using(crate::proofs::Masks::permitted_high), unfolding(crate::specs::Rights::permitted))]
pub fn permits(mpi: u16, profile: u8) -> bool
    ensures { result ≡ permitted mpi profile }
{
    profile < 16 && (mpi >> profile) % 2 == 1
}
