// Chaining and the MAC, into a room that the caller lends.
ghost use Rattle.std.specs.Prelude.{length};
ghost use Rattle.modes.specs.Cbc.{cbc_enc_aes, cbc_dec_aes};
ghost use Rattle.modes.specs.Cmac.{cmac96};
ghost use Rattle.modes.specs.Room.{chains, macs};
ghost use Rattle.modes_inverse.specs.CbcInv.{cbc_dec_aes_inv, cbc_enc_aes_inv};
ghost use Rattle.capi.specs.Chain.{Chains};

/// CBC_ENC_AES (3.1.8) into the room's first bytes: 0. An input of no whole number of blocks, or a shorter room: 8, and
/// the room as it was. Ruled out: AES-DEC in place of AES-ENC; a byte written behind the output.
pub fn roualint_cbc_enc_aes(iv: &[u8; 16], key: &[u8; 16], input: &[u8], room: &mut [u8]) -> u8
    ensures { Chains (chains (length input.now) (length room.old))
        (cbc_enc_aes iv.now key.now input.now)
        room.old result room.new }
{
    modes::number(modes::cbc_enc_aes(*iv, *key, input, room))
}

/// CBC_DEC_AES (3.1.11), by AES-ENC; refused as roualint_cbc_enc_aes is.
/// Ruled out: the chain taken from the output; AES-DEC in place of AES-ENC.
pub fn roualint_cbc_dec_aes(iv: &[u8; 16], key: &[u8; 16], input: &[u8], room: &mut [u8]) -> u8
    ensures { Chains (chains (length input.now) (length room.old))
        (cbc_dec_aes iv.now key.now input.now)
        room.old result room.new }
{
    modes::number(modes::cbc_dec_aes(*iv, *key, input, room))
}

/// CBC_ENC_AES_INV (3.1.10), by AES-DEC; refused as roualint_cbc_enc_aes is.
/// Ruled out: AES-ENC in place of AES-DEC; key and IV exchanged.
pub fn roualint_cbc_enc_aes_inv(iv: &[u8; 16], key: &[u8; 16], input: &[u8], room: &mut [u8]) -> u8
    ensures { Chains (chains (length input.now) (length room.old))
        (cbc_enc_aes_inv iv.now key.now input.now) room.old result
        room.new }
{
    modes::number(modes_inverse::cbc_enc_aes_inv(*iv, *key, input, room))
}

/// CBC_DEC_AES_INV (3.1.9); refused as roualint_cbc_enc_aes is.
/// Ruled out: the two forms over AES-DEC exchanged; a short room filled as far as it goes.
pub fn roualint_cbc_dec_aes_inv(iv: &[u8; 16], key: &[u8; 16], input: &[u8], room: &mut [u8]) -> u8
    ensures { Chains (chains (length input.now) (length room.old))
        (cbc_dec_aes_inv iv.now key.now input.now) room.old result
        room.new }
{
    modes::number(modes_inverse::cbc_dec_aes_inv(*iv, *key, input, room))
}

/// CMAC-96 (3.1.13), twelve bytes into the room's first: 0. An input of no whole number of blocks, or of none, or a
/// room of under 12: 8, and the room as it was. Ruled out: sixteen bytes written; the MAC of no block.
pub fn roualint_cmac_96(key: &[u8; 16], input: &[u8], room: &mut [u8]) -> u8
    ensures { Chains (macs (length input.now) (length room.old))
        (cmac96 key.now input.now) room.old result room.new }
{
    modes::number(modes::cmac_96(*key, input, room))
}
