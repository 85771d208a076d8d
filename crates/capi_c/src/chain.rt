// Chaining and the MAC, into a room that the caller lends: the exports.
ghost use Rattle.std.specs.Prelude.{length};
ghost use Rattle.modes.specs.Cbc.{cbc_enc_aes, cbc_dec_aes};
ghost use Rattle.modes.specs.Cmac.{cmac96};
ghost use Rattle.modes.specs.Room.{chains, macs};
ghost use Rattle.modes_inverse.specs.CbcInv.{cbc_dec_aes_inv, cbc_enc_aes_inv};
ghost use Rattle.capi.specs.Chain.{Chains};

#[unsafe(no_mangle)]
pub extern "C" fn roualint_cbc_enc_aes(
    iv: &[u8; 16],
    key: &[u8; 16],
    input: &[u8],
    room: &mut [u8],
) -> u8
    ensures { Chains (chains (length input.now) (length room.old))
        (cbc_enc_aes iv.now key.now input.now)
        room.old result room.new }
{
    capi::chain::roualint_cbc_enc_aes(iv, key, input, room)
}

#[unsafe(no_mangle)]
pub extern "C" fn roualint_cbc_dec_aes(
    iv: &[u8; 16],
    key: &[u8; 16],
    input: &[u8],
    room: &mut [u8],
) -> u8
    ensures { Chains (chains (length input.now) (length room.old))
        (cbc_dec_aes iv.now key.now input.now)
        room.old result room.new }
{
    capi::chain::roualint_cbc_dec_aes(iv, key, input, room)
}

#[unsafe(no_mangle)]
pub extern "C" fn roualint_cbc_enc_aes_inv(
    iv: &[u8; 16],
    key: &[u8; 16],
    input: &[u8],
    room: &mut [u8],
) -> u8
    ensures { Chains (chains (length input.now) (length room.old))
        (cbc_enc_aes_inv iv.now key.now input.now) room.old result
        room.new }
{
    capi::chain::roualint_cbc_enc_aes_inv(iv, key, input, room)
}

#[unsafe(no_mangle)]
pub extern "C" fn roualint_cbc_dec_aes_inv(
    iv: &[u8; 16],
    key: &[u8; 16],
    input: &[u8],
    room: &mut [u8],
) -> u8
    ensures { Chains (chains (length input.now) (length room.old))
        (cbc_dec_aes_inv iv.now key.now input.now) room.old result
        room.new }
{
    capi::chain::roualint_cbc_dec_aes_inv(iv, key, input, room)
}

#[unsafe(no_mangle)]
pub extern "C" fn roualint_cmac_96(key: &[u8; 16], input: &[u8], room: &mut [u8]) -> u8
    ensures { Chains (macs (length input.now) (length room.old))
        (cmac96 key.now input.now) room.old result room.new }
{
    capi::chain::roualint_cmac_96(key, input, room)
}
