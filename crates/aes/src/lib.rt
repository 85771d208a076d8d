// AES-128 encryption (FIPS 197). There is no inverse cipher here: a tag has none.
#![tactic(auto)]

ghost use Rattle.std.specs.Prelude.{◌≡◌, [], ◌∷◌};
ghost use Rattle.aes.specs.Cipher.{mixed, sub_bytes, shift_rows, mix_columns, add_round_key, cipher};
ghost use Rattle.aes.specs.KeyExpansion.{key_expansion};
ghost use Rattle.aes.specs.NextRoundKey.{next_round_key};
ghost use Rattle.aes.specs.AesEnc.{aes_enc};

// The first byte of Rcon[1] to Rcon[10] (5.2).
static ROUND_CONSTANTS: [u8; 10] = [0x01, 0x02, 0x04, 0x08, 0x10, 0x20, 0x40, 0x80, 0x1b, 0x36];

// AES-ENC(key, data) of one block.
// Ruled out: the inverse cipher; nine rounds; the round keys in another order.
pub fn encrypt(key: [u8; 16], block: [u8; 16]) -> [u8; 16]
    ensures { result ≡ aes_enc key block }
{
    encipher(key_expansion(key), block)
}

// KeyExpansion (5.2): the round keys of the rounds 0 to 10.
// Ruled out: a round constant that is not doubled in the field after 0x80; RotWord to the right.
pub fn key_expansion(key: [u8; 16]) -> [[u8; 16]; 11]
    ensures { result ≡ key_expansion key }
{
    let mut w = [key; 11];
    for (i, c) in ROUND_CONSTANTS.iter().enumerate() {
        let k = next_round_key(w[i], *c);
        w[i + 1] = k;
    }
    w
}

// MixColumns (5.1.3).
// Ruled out: the rows taken upwards; 3 and 2 exchanged.
pub fn mix_columns(s: [u8; 16]) -> [u8; 16]
    ensures { result ≡ mix_columns s }
{
    // A column at a time: as bytes at computed places it costs a quarter more.
    let [s00, s10, s20, s30] = mix_column(s[0], s[1], s[2], s[3]);
    let [s01, s11, s21, s31] = mix_column(s[4], s[5], s[6], s[7]);
    let [s02, s12, s22, s32] = mix_column(s[8], s[9], s[10], s[11]);
    let [s03, s13, s23, s33] = mix_column(s[12], s[13], s[14], s[15]);
    [
        s00, s10, s20, s30, s01, s11, s21, s31, s02, s12, s22, s32, s03, s13, s23, s33,
    ]
}

// A column mixed, its four bytes being those of the rows 0 to 3.
fn mix_column(a: u8, b: u8, c: u8, d: u8) -> [u8; 4]
    ensures { result ≡ mixed a b c d ∷ mixed b c d a ∷ mixed c d a b ∷ mixed d a b c ∷ [] }
{
    [
        mix(a, b, c, d),
        mix(b, c, d, a),
        mix(c, d, a, b),
        mix(d, a, b, c),
    ]
}

// A byte of a mixed column: a stands in its own row, b, c and d in the rows below it.
fn mix(a: u8, b: u8, c: u8, d: u8) -> u8
    ensures { result ≡ mixed a b c d }
{
    (field::times2(a) ^ (field::times2(b) ^ b)) ^ (c ^ d)
}

// ShiftRows (5.1.2): row r is turned to the left by r places.
fn shift_rows(s: [u8; 16]) -> [u8; 16]
    ensures { result ≡ shift_rows s }
{
    std::array::from_fn(|i: usize| s[i % 4 + 4 * ((i / 4 + i % 4) % 4)])
}

// SubBytes (5.1.1).
fn sub_bytes(s: [u8; 16]) -> [u8; 16]
    ensures { result ≡ sub_bytes s }
{
    field::substitute(field::sbox_table(), s)
}

fn round(s: [u8; 16], k: [u8; 16]) -> [u8; 16]
    ensures { result ≡ add_round_key (mix_columns (shift_rows (sub_bytes s))) k }
{
    field::xor(mix_columns(shift_rows(sub_bytes(s))), k)
}

fn encipher(w: [[u8; 16]; 11], block: [u8; 16]) -> [u8; 16]
    ensures { result ≡ cipher w block }
{
    let mut s = field::xor(block, w[0]);
    for k in &w[1..10] {
        // By way of a local: the borrow checker covers no call whose result is laid in an array that is there.
        let t = round(s, *k);
        s = t;
    }
    field::xor(shift_rows(sub_bytes(s)), w[10])
}

// The round key that follows k, at the round constant c.
fn next_round_key(k: [u8; 16], c: u8) -> [u8; 16]
    ensures { result ≡ next_round_key c k }
{
    let s = sub_bytes(k);
    let a0 = k[0] ^ (s[13] ^ c);
    let a1 = k[1] ^ s[14];
    let a2 = k[2] ^ s[15];
    let a3 = k[3] ^ s[12];
    let b0 = k[4] ^ a0;
    let b1 = k[5] ^ a1;
    let b2 = k[6] ^ a2;
    let b3 = k[7] ^ a3;
    let c0 = k[8] ^ b0;
    let c1 = k[9] ^ b1;
    let c2 = k[10] ^ b2;
    let c3 = k[11] ^ b3;
    [
        a0,
        a1,
        a2,
        a3,
        b0,
        b1,
        b2,
        b3,
        c0,
        c1,
        c2,
        c3,
        k[12] ^ c0,
        k[13] ^ c1,
        k[14] ^ c2,
        k[15] ^ c3,
    ]
}
