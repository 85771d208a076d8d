// The kinds of records, and the four checks before a record's values.
ghost use Rattle.std.specs.Prelude.{◌≡◌};
ghost use Rattle.sheet.specs.Limits.{key_limit};
ghost use Rattle.sheet.specs.Kinds.{kind_of, body_length, in_order};
ghost use Rattle.sheet.specs.Judgement.{too_many, opened_of};

use crate::{
    FEATURE_BODY, Gathered, KEY_BODY, KEY_LIMIT, Kind, LOCK_BODY, LOCK_LIMIT, PROFILE_BODY,
    PROFILE_LIMIT, SIZE_BODY, SheetFault,
};

#[tactic(auto, unfolding(crate::specs::Kinds::kind_of))]
fn kind_of(b: u8) -> Option<Kind>
    ensures { result ≡ kind_of b }
{
    match b {
        1 => Some(Kind::FeatureRecord),
        2 => Some(Kind::SizeRecord),
        3 => Some(Kind::KeyRecord),
        4 => Some(Kind::ProfileRecord),
        5 => Some(Kind::LockRecord),
        6 => Some(Kind::EndRecord),
        _ => None,
    }
}

pub(crate) fn body_length(k: Kind) -> usize
    ensures { result ≡ body_length k }
{
    match k {
        Kind::FeatureRecord => FEATURE_BODY,
        Kind::SizeRecord => SIZE_BODY,
        Kind::KeyRecord => KEY_BODY,
        Kind::ProfileRecord => PROFILE_BODY,
        Kind::LockRecord => LOCK_BODY,
        Kind::EndRecord => 0,
    }
}

#[tactic(auto, unfolding(crate::specs::Kinds::in_order))]
fn in_order(last: u8, b: u8) -> bool
    ensures { result ≡ in_order last b }
{
    match last {
        0 => b == 1,
        1 => b == 2,
        _ => 3 <= b && last <= b,
    }
}

#[tactic(auto, unfolding(crate::specs::Judgement::too_many))]
fn too_many(q: Kind, gathered: &Gathered) -> bool
    ensures { result ≡ too_many key_limit q gathered.now }
{
    match q {
        Kind::KeyRecord => KEY_LIMIT <= gathered.marks.keys,
        Kind::ProfileRecord => PROFILE_LIMIT <= gathered.marks.profiles,
        Kind::LockRecord => LOCK_LIMIT <= gathered.terms.locks.count,
        Kind::FeatureRecord | Kind::SizeRecord | Kind::EndRecord => false,
    }
}

// The four checks before the body's values, in the paper's order.
#[tactic(auto, unfolding(crate::specs::Judgement::opened_of))]
pub(crate) fn opening(b: u8, left: usize, gathered: &Gathered) -> Result<Kind, SheetFault>
    ensures { result ≡ opened_of key_limit b left gathered.now }
{
    let Some(q) = kind_of(b) else {
        return Err(SheetFault::Unknown);
    };
    if !in_order(gathered.marks.last, b) {
        return Err(SheetFault::Order);
    }
    if too_many(q, gathered) {
        return Err(SheetFault::Many);
    }
    if left < body_length(q) {
        return Err(SheetFault::Cut);
    }
    Ok(q)
}
