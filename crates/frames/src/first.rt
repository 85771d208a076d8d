// Which message a first byte begins.
ghost use Rattle.std.specs.Prelude.{◌≡◌};
ghost use Rattle.frames.specs.Kinds.{kind_of, tam_kind, iam_kind, mam_kind};

use super::Kind;

// By CustomData (9.4.1).
#[tactic(auto, unfolding(crate::specs::Kinds::tam_kind))]
fn tam(first: u8) -> Kind
    ensures { result ≡ tam_kind first }
{
    match first / 32 % 2 {
        0 => Kind::Tam1,
        _ => Kind::Tam2,
    }
}

// By Step and CustomData (9.5.1).
#[tactic(auto, unfolding(crate::specs::Kinds::iam_kind))]
fn iam(first: u8) -> Kind
    ensures { result ≡ iam_kind first }
{
    match (first / 16 % 4, first / 8 % 2) {
        (0, _) => Kind::Iam1,
        (1, 0) => Kind::Iam2,
        (1, _) => Kind::Iam3,
        _ => Kind::Unsupported,
    }
}

// By Step (9.6.1).
#[tactic(auto, unfolding(crate::specs::Kinds::mam_kind))]
fn mam(first: u8) -> Kind
    ensures { result ≡ mam_kind first }
{
    match first / 16 % 4 {
        0 => Kind::Mam1,
        1 => Kind::Mam2,
        _ => Kind::Unsupported,
    }
}

// The kind of a message, by its first byte alone; RFU bits do not change it (9.3).
// Ruled out: method 11 taken for MAM, and a message of IAM or MAM with Step 10 taken for one with Step 00.
#[tactic(auto, unfolding(crate::specs::Kinds::kind_of))]
pub fn kind_of(first: u8) -> Kind
    ensures { result ≡ kind_of first }
{
    match first / 64 {
        0 => tam(first),
        1 => iam(first),
        2 => mam(first),
        _ => Kind::Unsupported,
    }
}
