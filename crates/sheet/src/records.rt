// A record of each kind, whole and in order: refused for its values, or taken into what is gathered, in its place.
ghost use Rattle.std.specs.Prelude.{◌≡◌, false, ◌<◌, length};
ghost use Rattle.ground.specs.Bytes.{byte_at};
ghost use Rattle.sheet.specs.Limits.{key_limit, profile_limit, lock_limit};
ghost use Rattle.sheet.specs.Kinds.{body_length};
ghost use Rattle.sheet.specs.Judgement.{too_many, record_of, IsJudgement};
ghost use Rattle.sheet.specs.Judgement.{with_features, with_sizes, with_key, with_profile, with_lock};
ghost use Rattle.sheet.specs.PaperNumbers.{keeps_rule};

use crate::kinds::body_length;
use crate::{Finding, Gathered, Kind, SheetFault, bodies};
use octets::{byte, word_at};

// Do the values of a body keep the rule of its kind?
fn keeps_rule(q: Kind, b: &[u8], gathered: &Gathered) -> bool
    requires { length b.now ≡ body_length q }
    ensures { result ≡ keeps_rule q b.now gathered.now }
{
    let Gathered { marks, terms } = gathered;
    match q {
        Kind::FeatureRecord => bodies::features_fit(b),
        Kind::SizeRecord => bodies::sizes_fit(b),
        Kind::KeyRecord => bodies::key_fits(b, marks.id),
        Kind::ProfileRecord => bodies::profile_fits(b, marks.number, terms.sizes),
        Kind::LockRecord => bodies::lock_fits(b, marks.area, marks.word, terms.sizes),
        Kind::EndRecord => true,
    }
}

// What is gathered after a record of each kind, in the same place: its tables are not copied for each record.
#[tactic(auto, unfolding(crate::specs::Judgement::with_features))]
fn with_features(k: &mut Gathered, b: &[u8])
    ensures { k.new ≡ with_features k.old b.now }
{
    k.marks.last = 1;
    k.terms.features = bodies::features_of(b);
}

#[tactic(auto, unfolding(crate::specs::Judgement::with_sizes))]
fn with_sizes(k: &mut Gathered, b: &[u8])
    ensures { k.new ≡ with_sizes k.old b.now }
{
    k.marks.last = 2;
    k.terms.sizes = bodies::sizes_of(b);
}

#[tactic(auto, unfolding(crate::specs::Judgement::with_key, crate::specs::Limits::key_limit))]
fn with_key(k: &mut Gathered, b: &[u8])
    requires { k.old.marks.keys < key_limit }
    ensures { k.new ≡ with_key k.old b.now }
{
    k.marks.last = 3;
    k.marks.keys += 1;
    k.marks.id = u16::from(byte(b, 0)) + 1;
}

#[tactic(auto, unfolding(crate::specs::Judgement::with_profile, crate::specs::Limits::profile_limit))]
fn with_profile(k: &mut Gathered, b: &[u8])
    requires { (k.old.marks.profiles < profile_limit) × (byte_at b.now 0 < profile_limit) }
    ensures { k.new ≡ with_profile k.old b.now }
{
    let number = byte(b, 0);
    k.marks.last = 4;
    k.marks.profiles += 1;
    k.marks.number = number + 1;
    k.terms.profiles[usize::from(number)] = bodies::slot_of(b);
}

#[tactic(auto, unfolding(crate::specs::Judgement::with_lock, crate::specs::Limits::lock_limit))]
fn with_lock(k: &mut Gathered, b: &[u8])
    requires { k.old.terms.locks.count < lock_limit }
    ensures { k.new ≡ with_lock k.old b.now }
{
    k.marks.last = 5;
    k.marks.area = byte(b, 0);
    k.marks.word = usize::from(word_at(b, 1)) + usize::from(word_at(b, 3));
    let locks = &mut k.terms.locks;
    locks.table[locks.count] = bodies::lock_of(b);
    locks.count += 1;
}

// The body b of a record of kind q: the finding, and what is gathered after it.
pub(crate) fn judge_body(q: Kind, b: &[u8], gathered: &mut Gathered) -> Result<Finding, SheetFault>
    requires { (length b.now ≡ body_length q) × (too_many key_limit q gathered.old ≡ false) }
    ensures { IsJudgement result gathered.new (record_of q b.now gathered.old) }
{
    if !keeps_rule(q, b, gathered) {
        return Err(SheetFault::Value);
    }
    match q {
        Kind::FeatureRecord => with_features(gathered, b),
        Kind::SizeRecord => with_sizes(gathered, b),
        Kind::KeyRecord => with_key(gathered, b),
        Kind::ProfileRecord => with_profile(gathered, b),
        Kind::LockRecord => with_lock(gathered, b),
        Kind::EndRecord => return Ok(Finding::Ended),
    }
    Ok(Finding::Taken(1 + body_length(q)))
}
