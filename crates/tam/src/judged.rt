// The checks of TAM2 in their order, as 9.4.5 and the scope paper have them: the first that does not hold decides.
ghost use Rattle.std.specs.Prelude.{◌≡◌, Ok, Err};
ghost use Rattle.sheet.specs.Setups.{setup_of};
ghost use Rattle.sheet.specs.KeyTable.{keys_in};
ghost use Rattle.keytable.specs.Named.{key_with};
ghost use Rattle.offer.specs.Checks.{judged};
ghost use Rattle.offer.specs.Outcomes.{settled};
ghost use Rattle.frames.specs.Messages.{tam2_of};
ghost use Rattle.tam.specs.Judged.{tam2_block_checks, tam2_field_checks, tam2_checks};

use frames::fields::tam2_of;
use frames::sizes::length_fits;
use frames::{Kind, Tam2};
use memory::Block;
use offer::{TagFault, records};
use sheet::{Features, Key, Slot, Terms};

// TAM2, the end of its line: profile, right, memory, ProtMode.
#[tactic(auto, unfolding(ground::specs::Checks::judged_to))]
fn tam2_block(
    features: Features,
    key: Key,
    f: Tam2,
    slot: Slot,
    block: Block,
) -> Result<(), TagFault>
    ensures { result ≡ judged (tam2_block_checks features key f slot block) }
{
    if !slot.present || !memory::permits(key.mpi, f.custom.profile) {
        return Err(TagFault::NotSupported);
    }
    if !memory::fits(slot.profile, block) {
        return Err(TagFault::MemoryOverrun);
    }
    if !records::mode_supported(features, key, f.protmode) {
        return Err(TagFault::NotSupported);
    }
    Ok(())
}

// TAM2, all but the length: BlockSize, Rev, RFU, key, and the block. Where nothing is refused: the record that the
// message named.
#[tactic(auto, unfolding(ground::specs::Checks::judged_to, offer::specs::Records::slot_named))]
fn tam2_fields(terms: Terms, keys: &[u8], f: Tam2) -> Result<Key, TagFault>
    ensures { result ≡ settled (judged (tam2_field_checks (setup_of terms keys.now) f))
        (Ok (key_with f.keyid (keys_in keys.now))) Err }
{
    if !records::size_offered(terms.features, f.custom.blocksize)
        || !records::rev_offered(terms.features, f.rev)
        || f.rfu != 0
    {
        return Err(TagFault::NotSupported);
    }
    let key = keytable::find(keys, f.keyid).ok_or(TagFault::NotSupported)?;
    let slot = records::slot(terms.profiles, f.custom.profile);
    tam2_block(
        terms.features,
        key,
        f,
        slot,
        records::words_asked(terms.profiles, f.custom),
    )?;
    Ok(key)
}

// TAM2: length, BlockSize, Rev, RFU, key, profile, right, memory, ProtMode. Where nothing is refused: the record that
// the message named.
// Ruled out: a ProtMode told before a block past its profile; a record that may not use the profile.
#[tactic(auto, unfolding(crate::specs::Judged::tam2_checks, ground::specs::Checks::judged_to))]
pub fn tam2(terms: Terms, keys: &[u8], m: &[u8]) -> Result<Key, TagFault>
    ensures { result ≡ settled (judged (tam2_checks (setup_of terms keys.now) m.now))
        (Ok (key_with (tam2_of m.now).keyid (keys_in keys.now))) Err }
{
    if !length_fits(Kind::Tam2, m) {
        return Err(TagFault::OtherError);
    }
    tam2_fields(terms, keys, tam2_of(m))
}
