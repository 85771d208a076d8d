// The constants of Table 1, as the first two bytes of the block that carries them.
ghost use Rattle.std.specs.Prelude.{◌≡◌, ◌<◌};
ghost use Rattle.ground.specs.Bytes.{two_bytes};
ghost use Rattle.frames.specs.Constants.{c_tam1, c_mam1, c_mam2, c_iam2, by_mode, tam2_constant, iam3_constant};
ghost use Rattle.frames.specs.Constants.{with_purpose};

use super::ProtMode;

// A constant of 16 bits.
fn two_bytes(c: u16) -> [u8; 2]
    ensures { result ≡ two_bytes c }
{
    c.to_be_bytes()
}

// A constant of 12 bits, then Purpose.
#[tactic(auto, unfolding(crate::specs::Constants::with_purpose))]
fn with_purpose(c: u16, purpose: u8) -> [u8; 2]
    requires { c < 4096 }
    ensures { result ≡ with_purpose c purpose }
{
    (c * 16 + (purpose % 16) as u16).to_be_bytes()
}

// One of four by ProtMode.
#[tactic(auto, unfolding(crate::specs::Constants::by_mode))]
fn by_mode(a: u16, b: u16, c: u16, d: u16, mode: ProtMode) -> u16
    ensures { result ≡ by_mode a b c d mode }
{
    match mode {
        ProtMode::Plaintext => a,
        ProtMode::Cbc => b,
        ProtMode::Cmac => c,
        ProtMode::CbcCmac => d,
    }
}

// C_TAM1. Ruled out: 96C0, and the two bytes exchanged.
pub fn tam1_constant() -> [u8; 2]
    ensures { result ≡ two_bytes c_tam1 }
{
    two_bytes(0x96C5)
}

// C_TAM2, or C_TAM2_0 to C_TAM2_3. Ruled out: 96C5 in Rev 1, and a constant by ProtMode in Rev 0.
#[tactic(auto, unfolding(crate::specs::Constants::tam2_constant))]
pub fn tam2_constant(rev: bool, mode: ProtMode) -> [u8; 2]
    ensures { result ≡ two_bytes (tam2_constant rev mode) }
{
    if rev {
        return two_bytes(by_mode(0x96C0, 0x96C1, 0x96C2, 0x96C3, mode));
    }
    two_bytes(0x96C5)
}

// C_MAM1. Ruled out: DA80, and the constant of MAM2.
pub fn mam1_constant() -> [u8; 2]
    ensures { result ≡ two_bytes c_mam1 }
{
    two_bytes(0xDA83)
}

// C_MAM2 and Purpose. Ruled out: Purpose before the constant, and the digit 3 of MAM1.
pub fn mam2_constant(purpose: u8) -> [u8; 2]
    ensures { result ≡ with_purpose c_mam2 purpose }
{
    with_purpose(0xDA8, purpose)
}

// C_IAM2 and Purpose. Ruled out: Purpose left out, and a Purpose of five bits carried into the constant.
pub fn iam2_constant(purpose: u8) -> [u8; 2]
    ensures { result ≡ with_purpose c_iam2 purpose }
{
    with_purpose(0xDA8, purpose)
}

// C_IAM3_0 to C_IAM3_3 and Purpose. Ruled out: DA8 in every ProtMode, and DA9 and DAA exchanged.
#[tactic(auto, unfolding(crate::specs::Constants::iam3_constant))]
pub fn iam3_constant(mode: ProtMode, purpose: u8) -> [u8; 2]
    ensures { result ≡ with_purpose (iam3_constant mode) purpose }
{
    with_purpose(by_mode(0xDA8, 0xDA9, 0xDAA, 0xDAB, mode), purpose)
}
