// What is built on AES-DEC: the two forms of chaining that the reader's side needs (ISO/IEC 29167-10 3.1.9 and 3.1.10).
#![tactic(auto)]

ghost use Rattle.std.specs.Prelude.{◌≡◌, length};
ghost use Rattle.field.specs.Block.{xor};
ghost use Rattle.aes_inverse.specs.AesDec.{aes_dec};
ghost use Rattle.modes.specs.Forms.{enc_out, dec_out, xor_sixteen};
ghost use Rattle.modes.specs.Room.{Into, chains};
ghost use Rattle.modes_inverse.specs.CbcInv.{cbc_dec_aes_inv, cbc_enc_aes_inv, aes_dec_sixteen};

use modes::{ChainingFault, Form};

// Each block is chained to the input block before it.
struct CbcDecAesInv;

impl Form for CbcDecAesInv {
    ghost out = { dec_out aes_dec };

    ghost on = { λ key chained b. b };

    ghost sixteen = { λ key chained b. xor_sixteen (aes_dec key b) chained };

    fn output(key: &[u8; 16], chained: &[u8; 16], block: &[u8; 16]) -> [u8; 16] {
        field::xor(way(*key, *block), *chained)
    }

    fn next<'a>(block: &'a [u8; 16], _output: &'a [u8; 16]) -> &'a [u8; 16] {
        block
    }
}

// Each block is chained to the output block before it.
struct CbcEncAesInv;

impl Form for CbcEncAesInv {
    ghost out = { enc_out aes_dec };

    ghost on = { enc_out aes_dec };

    ghost sixteen = { λ key chained b. aes_dec_sixteen key (xor b chained) };

    fn output(key: &[u8; 16], chained: &[u8; 16], block: &[u8; 16]) -> [u8; 16] {
        way(*key, field::xor(*block, *chained))
    }

    fn next<'a>(_block: &'a [u8; 16], output: &'a [u8; 16]) -> &'a [u8; 16] {
        output
    }
}

// CBC_DEC_AES_INV (IV, key, data) into the first bytes of the room. Refused as modes::cbc_enc_aes is.
// Ruled out: the chain taken from the output block; AES-ENC in place of AES-DEC.
pub fn cbc_dec_aes_inv(
    iv: [u8; 16],
    key: [u8; 16],
    input: &[u8],
    room: &mut [u8],
) -> Result<(), ChainingFault>
    ensures { Into (chains (length input.now) (length room.old))
        (cbc_dec_aes_inv iv key input.now) room.old result room.new }
{
    modes::chain_into::<CbcDecAesInv>(key, iv, input, room)
}

// CBC_ENC_AES_INV (IV, key, data) into the first bytes of the room. Refused as modes::cbc_enc_aes is.
// Ruled out: AES-ENC in place of AES-DEC; the chain taken from the input block.
pub fn cbc_enc_aes_inv(
    iv: [u8; 16],
    key: [u8; 16],
    input: &[u8],
    room: &mut [u8],
) -> Result<(), ChainingFault>
    ensures { Into (chains (length input.now) (length room.old))
        (cbc_enc_aes_inv iv key input.now) room.old result room.new }
{
    modes::chain_into::<CbcEncAesInv>(key, iv, input, room)
}

// The way of the cipher that both forms take: all that tells them from the forms over AES-ENC.
fn way(key: [u8; 16], block: [u8; 16]) -> [u8; 16]
    ensures { result ≡ aes_dec key block }
{
    aes_inverse::decrypt(key, block)
}
