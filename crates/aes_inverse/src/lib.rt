// AES-128 decryption (FIPS 197, section 5.3). Only the reader's side has it: the reader decrypts to send.
#![tactic(auto)]

ghost use Rattle.std.specs.Prelude.{◌≡◌};
ghost use Rattle.field.specs.Field.{times};
ghost use Rattle.aes.specs.Cipher.{add_round_key};
ghost use Rattle.aes_inverse.specs.InvSbox.{inv_sbox_table};
ghost use Rattle.aes_inverse.specs.InvCipher.{inv_shift_rows, inv_sub_bytes, inv_mix_columns, inv_cipher};
ghost use Rattle.aes_inverse.specs.AesDec.{aes_dec};

static INVERSE_SBOX: [u8; 256] = *b"\
    \x52\x09\x6a\xd5\x30\x36\xa5\x38\xbf\x40\xa3\x9e\x81\xf3\xd7\xfb\
    \x7c\xe3\x39\x82\x9b\x2f\xff\x87\x34\x8e\x43\x44\xc4\xde\xe9\xcb\
    \x54\x7b\x94\x32\xa6\xc2\x23\x3d\xee\x4c\x95\x0b\x42\xfa\xc3\x4e\
    \x08\x2e\xa1\x66\x28\xd9\x24\xb2\x76\x5b\xa2\x49\x6d\x8b\xd1\x25\
    \x72\xf8\xf6\x64\x86\x68\x98\x16\xd4\xa4\x5c\xcc\x5d\x65\xb6\x92\
    \x6c\x70\x48\x50\xfd\xed\xb9\xda\x5e\x15\x46\x57\xa7\x8d\x9d\x84\
    \x90\xd8\xab\x00\x8c\xbc\xd3\x0a\xf7\xe4\x58\x05\xb8\xb3\x45\x06\
    \xd0\x2c\x1e\x8f\xca\x3f\x0f\x02\xc1\xaf\xbd\x03\x01\x13\x8a\x6b\
    \x3a\x91\x11\x41\x4f\x67\xdc\xea\x97\xf2\xcf\xce\xf0\xb4\xe6\x73\
    \x96\xac\x74\x22\xe7\xad\x35\x85\xe2\xf9\x37\xe8\x1c\x75\xdf\x6e\
    \x47\xf1\x1a\x71\x1d\x29\xc5\x89\x6f\xb7\x62\x0e\xaa\x18\xbe\x1b\
    \xfc\x56\x3e\x4b\xc6\xd2\x79\x20\x9a\xdb\xc0\xfe\x78\xcd\x5a\xf4\
    \x1f\xdd\xa8\x33\x88\x07\xc7\x31\xb1\x12\x10\x59\x27\x80\xec\x5f\
    \x60\x51\x7f\xa9\x19\xb5\x4a\x0d\x2d\xe5\x7a\x9f\x93\xc9\x9c\xef\
    \xa0\xe0\x3b\x4d\xae\x2a\xf5\xb0\xc8\xeb\xbb\x3c\x83\x53\x99\x61\
    \x17\x2b\x04\x7e\xba\x77\xd6\x26\xe1\x69\x14\x63\x55\x21\x0c\x7d";

// AES-DEC(key, data) of one block.
// Ruled out: the forward cipher; the round keys taken upwards.
pub fn decrypt(key: [u8; 16], block: [u8; 16]) -> [u8; 16]
    ensures { result ≡ aes_dec key block }
{
    decipher(aes::key_expansion(key), block)
}

fn inverse_sbox_table() -> &'static [u8; 256]
    ensures { result.now ≡ inv_sbox_table }
{
    &INVERSE_SBOX
}

// InvShiftRows (5.3.1): row r is turned to the right by r places.
fn inv_shift_rows(s: [u8; 16]) -> [u8; 16]
    ensures { result ≡ inv_shift_rows s }
{
    std::array::from_fn(|i: usize| s[i % 4 + 4 * ((i / 4 + (4 - i % 4)) % 4)])
}

// InvMixColumns, as MixColumns of a column to which 4(s0 + s2) is added in the even rows and 4(s1 + s3) in the odd
// ones: to each byte, 4 times the sum of it and of the byte two rows below.
fn inv_mix_columns(s: [u8; 16]) -> [u8; 16]
    ensures { result ≡ inv_mix_columns s }
{
    aes::mix_columns(std::array::from_fn(|i: usize| {
        s[i] ^ times4(s[i] ^ s[4 * (i / 4) + (i + 2) % 4])
    }))
}

fn times4(b: u8) -> u8
    ensures { result ≡ times 2 (times 2 b) }
{
    field::times2(field::times2(b))
}

// InvSubBytes (5.3.2).
fn inv_sub_bytes(s: [u8; 16]) -> [u8; 16]
    ensures { result ≡ inv_sub_bytes s }
{
    field::substitute(inverse_sbox_table(), s)
}

fn inv_round(s: [u8; 16], k: [u8; 16]) -> [u8; 16]
    ensures { result ≡ inv_mix_columns (add_round_key (inv_sub_bytes (inv_shift_rows s)) k) }
{
    inv_mix_columns(field::xor(inv_sub_bytes(inv_shift_rows(s)), k))
}

fn decipher(w: [[u8; 16]; 11], block: [u8; 16]) -> [u8; 16]
    ensures { result ≡ inv_cipher w block }
{
    let mut s = field::xor(block, w[10]);
    for k in w[1..10].iter().rev() {
        // By way of a local: the borrow checker covers no call whose result is laid in an array that is there.
        let t = inv_round(s, *k);
        s = t;
    }
    field::xor(inv_sub_bytes(inv_shift_rows(s)), w[0])
}
