// The checks of IAM2, MAM2 and IAM3 in their order, as 9.5, 9.6 and the scope paper have them: the first that does not
// hold decides.
ghost use Rattle.std.specs.Prelude.{◌≡◌};
ghost use Rattle.offer.specs.Checks.{judged};
ghost use Rattle.entry.specs.Judged.{closing_checks, iam3_block_checks, iam3_middle_checks, iam3_field_checks};

use frames::fields::iam3_of;
use frames::sizes::length_fits;
use frames::{Iam3, Kind};
use memory::Block;
use offer::{TagFault, records};
use sheet::{Key, Slot, Terms};

/// IAM2, MAM2: length, RFU, and the proof, which the caller worked out.
///
/// Ruled out: a wrong proof told before an RFU bit; a message of another length let in by its proof.
#[tactic(auto, unfolding(ground::specs::Checks::judged_to))]
pub fn closing(proof: bool, rfu: u8, kind: Kind, m: &[u8]) -> Result<(), TagFault>
    ensures { result ≡ judged (closing_checks proof rfu kind m.now) }
{
    if !length_fits(kind, m) {
        return Err(TagFault::OtherError);
    }
    if rfu != 0 {
        return Err(TagFault::NotSupported);
    }
    if !proof {
        return Err(TagFault::ProofWrong);
    }
    Ok(())
}

// IAM3: profile, right, memory, lock. A block size that is not offered counts as memory.
#[tactic(auto, unfolding(ground::specs::Checks::judged_to))]
fn iam3_block(terms: Terms, key: Key, f: Iam3, slot: Slot, block: Block) -> Result<(), TagFault>
    ensures { result ≡ judged (iam3_block_checks terms key f slot block) }
{
    if !slot.present || !memory::permits(key.mpi, f.custom.profile) {
        return Err(TagFault::NotSupported);
    }
    if !records::size_offered(terms.features, f.custom.blocksize)
        || !memory::fits(slot.profile, block)
    {
        return Err(TagFault::MemoryOverrun);
    }
    if memory::locked(terms.locks.table, terms.locks.count, block) {
        return Err(TagFault::MemoryWriteError);
    }
    Ok(())
}

// IAM3, all between the length and the proof: ProtMode, RFU, and the block.
#[tactic(auto, unfolding(ground::specs::Checks::judged_to, offer::specs::Records::slot_named))]
fn iam3_middle(terms: Terms, key: Key, f: Iam3) -> Result<(), TagFault>
    ensures { result ≡ judged (iam3_middle_checks terms key f) }
{
    if !records::mode_supported(terms.features, key, f.protmode) || f.rfu != 0 {
        return Err(TagFault::NotSupported);
    }
    let slot = records::slot(terms.profiles, f.custom.profile);
    iam3_block(
        terms,
        key,
        f,
        slot,
        records::words_asked(terms.profiles, f.custom),
    )
}

/// IAM3, all but its proof, with the record that is held: length, ProtMode, RFU, profile, right, memory, lock.
///
/// Ruled out: a locked word told before a block past its profile; ProtMode 4 refused for its length.
#[tactic(auto, unfolding(ground::specs::Checks::judged_to))]
pub fn iam3_fields(terms: Terms, key: Key, m: &[u8]) -> Result<(), TagFault>
    ensures { result ≡ judged (iam3_field_checks terms key m.now) }
{
    if !length_fits(Kind::Iam3, m) {
        return Err(TagFault::OtherError);
    }
    iam3_middle(terms, key, iam3_of(m))
}
