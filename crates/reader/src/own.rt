// Number 24: what the judge asks of the data room and of the reader's own message.
ghost use Rattle.std.specs.Prelude.{◌≡◌};
ghost use Rattle.ground.specs.Choice.{both};
ghost use Rattle.frames.specs.Messages.{rfu_fits};
ghost use Rattle.reader.specs.Own.{mode_served, mode_fits, fields_fit, own_fits};

use super::Keys;
use frames::fields::{iam1_of, iam2_of, iam3_of, mam1_of, mam2_of, tam1_of, tam2_of};
use frames::protection::{has_mac, prot_mode};
use frames::sizes::{DATA_ROOM, length_fits};
use frames::{Kind, ProtMode};

// Where the mode has a MAC, is there a key for it?
#[tactic(auto, unfolding(crate::specs::Own::mode_served))]
fn mode_served(keys: Keys, mode: ProtMode) -> bool
    ensures { result ≡ mode_served keys mode }
{
    !has_mac(mode) || keys.mac
}

/// Is the ProtMode one that the reader can judge? Ruled out: ProtMode 4 taken; ProtMode 2 taken without a key for the
/// MAC.
#[tactic(auto, unfolding(crate::specs::Own::mode_fits))]
pub fn mode_fits(keys: Keys, protmode: u8) -> bool
    ensures { result ≡ mode_fits keys protmode }
{
    prot_mode(protmode).is_some_and(|mode| mode_served(keys, mode))
}

// RFU and ProtMode of TAM2 and IAM3.
fn select_fits(keys: Keys, rfu: u8, protmode: u8) -> bool
    ensures { result ≡ both (rfu_fits rfu) (mode_fits keys protmode) }
{
    rfu == 0 && mode_fits(keys, protmode)
}

// The fields that a judge asks for.
#[tactic(auto, unfolding(crate::specs::Own::fields_fit))]
fn fields_fit(keys: Keys, kind: Kind, m: &[u8]) -> bool
    ensures { result ≡ fields_fit keys kind m.now }
{
    match kind {
        Kind::Tam1 => tam1_of(m).rfu == 0,
        Kind::Tam2 => {
            let f = tam2_of(m);
            select_fits(keys, f.rfu, f.protmode)
        }
        Kind::Iam1 => iam1_of(m).rfu == 0,
        Kind::Iam2 => iam2_of(m).rfu == 0,
        Kind::Iam3 => {
            let f = iam3_of(m);
            select_fits(keys, f.rfu, f.protmode)
        }
        Kind::Mam1 => mam1_of(m).rfu == 0,
        Kind::Mam2 => mam2_of(m).rfu == 0,
        Kind::Unsupported => false,
    }
}

/// The data room has room, and the message is one of the table. Ruled out: a room of exactly 144 bytes refused; RFU
/// bits that are not looked at.
#[tactic(auto, unfolding(crate::specs::Own::own_fits))]
pub fn own_fits(keys: Keys, kind: Kind, m: &[u8], room: usize) -> bool
    ensures { result ≡ own_fits keys kind m.now room }
{
    DATA_ROOM <= room && length_fits(kind, m) && fields_fit(keys, kind, m)
}
