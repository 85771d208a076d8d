// What a setup offers (9.2, 9.4.5, the house rules), and the slot and the words that a message names.
ghost use Rattle.std.specs.Prelude.{◌≡◌, get_or};
ghost use Rattle.frames.specs.Asked.{block_asked as block_in};
ghost use Rattle.sheet.specs.Setups.{no_slot};
ghost use Rattle.offer.specs.Records.{offered, size_offered, rev_offered, mode_offered, mode_served};
ghost use Rattle.offer.specs.Records.{mode_supported, block_asked};

use frames::protection::{has_mac, prot_mode};
use frames::{Custom, Kind, ProtMode};
use memory::{Area, Block, BlockSize, Profile, Word};
use sheet::{Features, Key, Slot};

/// Whether the tag has the message's method, step and feature.
///
/// Ruled out: IAM3 offered by the bit of IAM1 and IAM2; a message that is none of the seven offered.
#[tactic(auto, unfolding(crate::specs::Records::offered))]
pub fn offered(f: Features, kind: Kind) -> bool
    ensures { result ≡ offered f kind }
{
    match kind {
        Kind::Tam1 | Kind::Tam2 => true,
        Kind::Iam1 | Kind::Iam2 => f.iam,
        Kind::Iam3 => f.iam3,
        Kind::Mam1 | Kind::Mam2 => f.mam,
        Kind::Unsupported => false,
    }
}

/// Whether the tag has blocks of this size (9.4.5).
///
/// Ruled out: 64-bit blocks refused; 16-bit blocks taken in every tag.
#[tactic(auto, unfolding(crate::specs::Records::size_offered))]
pub fn size_offered(f: Features, size: BlockSize) -> bool
    ensures { result ≡ size_offered f size }
{
    match size {
        BlockSize::Bits64 => true,
        BlockSize::Bits16 => f.blocksize1,
    }
}

/// Whether the tag has this TAM2_Rev.
///
/// Ruled out: the two revisions exchanged; Rev 1 taken in every tag.
#[tactic(auto, unfolding(crate::specs::Records::rev_offered))]
pub fn rev_offered(f: Features, rev: bool) -> bool
    ensures { result ≡ rev_offered f rev }
{
    if rev { f.rev1 } else { f.rev0 }
}

// Whether the ProtMode is one of the sheet's.
#[tactic(auto, unfolding(crate::specs::Records::mode_offered))]
fn mode_offered(f: Features, mode: ProtMode) -> bool
    ensures { result ≡ mode_offered f mode }
{
    match mode {
        ProtMode::Plaintext => f.mode0,
        ProtMode::Cbc => f.mode1,
        ProtMode::Cmac => f.mode2,
        ProtMode::CbcCmac => f.mode3,
    }
}

// The same, and where it has a MAC there is a key for it.
#[tactic(auto, unfolding(crate::specs::Records::mode_served))]
fn mode_served(f: Features, key: Key, mode: ProtMode) -> bool
    ensures { result ≡ mode_served f key mode }
{
    mode_offered(f, mode) && (!has_mac(mode) || key.mac)
}

/// Whether the ProtMode is offered, and the record has the key for its MAC (9.2).
///
/// Ruled out: ProtMode 3 with a record that has no MAC key; ProtMode 4 taken for 0.
#[tactic(auto, unfolding(crate::specs::Records::mode_supported))]
pub fn mode_supported(f: Features, key: Key, protmode: u8) -> bool
    ensures { result ≡ mode_supported f key protmode }
{
    prot_mode(protmode).is_some_and(|mode| mode_served(f, key, mode))
}

// The slot that no record filled.
#[tactic(auto, unfolding(sheet::specs::Setups::no_slot))]
fn no_slot() -> Slot
    ensures { result ≡ no_slot }
{
    Slot {
        present: false,
        profile: Profile {
            area: Area::Identity,
            base: Word(0),
            words: 0,
        },
    }
}

/// The slot of a profile's number, an empty one for 16 and more.
///
/// Ruled out: a number taken modulo 16; the slot of the next number.
pub fn slot(profiles: [Slot; 16], profile: u8) -> Slot
    ensures { result ≡ get_or profiles profile no_slot }
{
    profiles.get(profile as usize).copied().unwrap_or(no_slot())
}

/// The words that a message asks for in its slot (9.2).
///
/// Ruled out: the words of another slot; BlockCount taken for the number of blocks.
pub fn block_asked(slot: Slot, custom: Custom) -> Block
    ensures { result ≡ block_in slot.profile custom }
{
    frames::sizes::block_asked(slot.profile, custom)
}

/// The words that a message asks for in the profile of its number (9.2).
///
/// Ruled out: the words of the next profile; an address that starts at the area and not at the profile.
#[tactic(auto, unfolding(crate::specs::Records::block_asked, crate::specs::Records::slot_named))]
pub fn words_asked(profiles: [Slot; 16], custom: Custom) -> Block
    ensures { result ≡ block_asked profiles custom }
{
    block_asked(slot(profiles, custom.profile), custom)
}
