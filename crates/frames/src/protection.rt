// ProtMode (Table 3): read here alone.
ghost use Rattle.std.specs.Prelude.{◌≡◌};
ghost use Rattle.frames.specs.Modes.{prot_mode_of, encrypts, has_mac};

use super::ProtMode;

// The mode of a field ProtMode. Table 3 leaves 4 to 15 to later editions and to makers: no mode of this suite.
// Ruled out: 1 and 2 exchanged, and 4 taken for a mode.
#[tactic(auto, unfolding(crate::specs::Modes::prot_mode_of))]
pub fn prot_mode(protmode: u8) -> Option<ProtMode>
    ensures { result ≡ prot_mode_of protmode }
{
    match protmode {
        0 => Some(ProtMode::Plaintext),
        1 => Some(ProtMode::Cbc),
        2 => Some(ProtMode::Cmac),
        3 => Some(ProtMode::CbcCmac),
        _ => None,
    }
}

// Are the data chained? Ruled out: ProtMode 2 chained, and ProtMode 3 not.
#[tactic(auto, unfolding(crate::specs::Modes::encrypts))]
pub fn encrypts(mode: ProtMode) -> bool
    ensures { result ≡ encrypts mode }
{
    matches!(mode, ProtMode::Cbc | ProtMode::CbcCmac)
}

// Is there a MAC? Ruled out: a MAC in ProtMode 1, and none in ProtMode 2.
#[tactic(auto, unfolding(crate::specs::Modes::has_mac))]
pub fn has_mac(mode: ProtMode) -> bool
    ensures { result ≡ has_mac mode }
{
    matches!(mode, ProtMode::Cmac | ProtMode::CbcCmac)
}
