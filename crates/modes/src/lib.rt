// What is built on AES-ENC: chaining (ISO/IEC 29167-10 3.1.8 and 3.1.11; SP 800-38A) and the MAC (3.1.1 and 3.1.13; SP
// 800-38B).
#![tactic(auto)]

ghost use Rattle.std.specs.Prelude.{◌≡◌, ◌≤◌, ◌%◌, ℕ, List, Err, length};
ghost use Rattle.field.specs.Block.{xor};
ghost use Rattle.aes.specs.AesEnc.{aes_enc};
ghost use Rattle.modes.specs.Blocks.{whole_blocks, joined};
ghost use Rattle.modes.specs.Forms.{outputs, handed, enc_out, dec_out, aes_enc_sixteen, xor_sixteen};
ghost use Rattle.modes.specs.Cbc.{cbc_enc_aes, cbc_dec_aes};
ghost use Rattle.modes.specs.Cmac.{doubled, subkey1, mac_chain, cmac, cmac96};
ghost use Rattle.modes.specs.Room.{Into, chains, macs, over, number_of};

// The bytes of a part: sixteen blocks, and the suite's longest input has ten. A chain calls itself for each block of
// one part, and a loop goes from part to part, so that no input takes more stack than the frames of sixteen blocks.
pub const PART: usize = 256;

// Why a call that writes into a lent room writes nothing: the house's number 8.
#[derive(Clone, Copy, Debug, PartialEq, Eq)]
pub enum ChainingFault {
    BlocksOrRoom,
}

// The house's number of a refusal.
// Ruled out: 0; the number of another half's refusal.
impl From<ChainingFault> for u8 {
    ghost from_gives = { λ fault n. n ≡ number_of (Err fault) };

    fn from(fault: ChainingFault) -> u8 {
        match fault {
            ChainingFault::BlocksOrRoom => 8,
        }
    }
}

// The house's number of an answer: 8 for a refusal, 0 for none.
// Ruled out: the two exchanged; another number for the refusal.
pub fn number(answer: Result<(), ChainingFault>) -> u8
    ensures { result ≡ number_of answer }
{
    match answer {
        Ok(()) => 0,
        Err(fault) => u8::from(fault),
    }
}

// Whether so many bytes are chained into a room of so many: they are whole blocks, and there is room for them.
// Ruled out: one byte too little room taken; no block refused.
pub fn takes(input: usize, room: usize) -> bool
    ensures { result ≡ chains input room }
{
    input % 16 == 0 && input <= room
}

// A form of chaining (3.1.8 to 3.1.11), block by block. What is lent stays where it lies: a copy would count sixteen
// times on the stack.
pub trait Form {
    // The output block, under a key, of what a block is chained to and of the block itself.
    ghost out: { List ℕ → List ℕ → List ℕ → List ℕ };

    // What the next block is chained to.
    ghost on: { List ℕ → List ℕ → List ℕ → List ℕ };

    fn output(key: &[u8; 16], chained: &[u8; 16], block: &[u8; 16]) -> [u8; 16]
        ensures { result ≡ out key.now chained.now block.now };

    fn next<'a>(block: &'a [u8; 16], output: &'a [u8; 16]) -> &'a [u8; 16]
        ensures { (key chained : List ℕ) → output.now ≡ out key chained block.now
            → result.now ≡ on key chained block.now };

    ghost sixteen: { (key chained b : List ℕ) → length (out key chained b) ≡ 16 };
}

// Each block is chained to the output block before it.
struct CbcEncAes;

impl Form for CbcEncAes {
    ghost out = { enc_out aes_enc };

    ghost on = { enc_out aes_enc };

    ghost sixteen = { λ key chained b. aes_enc_sixteen key (xor b chained) };

    fn output(key: &[u8; 16], chained: &[u8; 16], block: &[u8; 16]) -> [u8; 16] {
        aes::encrypt(*key, field::xor(*block, *chained))
    }

    fn next<'a>(_block: &'a [u8; 16], output: &'a [u8; 16]) -> &'a [u8; 16] {
        output
    }
}

// Each block is chained to the input block before it.
struct CbcDecAes;

impl Form for CbcDecAes {
    ghost out = { dec_out aes_enc };

    ghost on = { λ key chained b. b };

    ghost sixteen = { λ key chained b. xor_sixteen (aes_enc key b) chained };

    fn output(key: &[u8; 16], chained: &[u8; 16], block: &[u8; 16]) -> [u8; 16] {
        field::xor(aes::encrypt(*key, *block), *chained)
    }

    fn next<'a>(block: &'a [u8; 16], _output: &'a [u8; 16]) -> &'a [u8; 16] {
        block
    }
}

// CBC_ENC_AES (IV, key, data) into the first bytes of the room. Refused where the input is no whole number of blocks,
// or the room is shorter than it. Ruled out: the chain taken from the input block; a byte written past the output.
pub fn cbc_enc_aes(
    iv: [u8; 16],
    key: [u8; 16],
    input: &[u8],
    room: &mut [u8],
) -> Result<(), ChainingFault>
    ensures { Into (chains (length input.now) (length room.old))
        (cbc_enc_aes iv key input.now) room.old result room.new }
{
    chain_into::<CbcEncAes>(key, iv, input, room)
}

// CBC_DEC_AES (IV, key, data) into the first bytes of the room. Refused as cbc_enc_aes is.
// Ruled out: the chain taken from the output block; AES-DEC in place of AES-ENC.
pub fn cbc_dec_aes(
    iv: [u8; 16],
    key: [u8; 16],
    input: &[u8],
    room: &mut [u8],
) -> Result<(), ChainingFault>
    ensures { Into (chains (length input.now) (length room.old))
        (cbc_dec_aes iv key input.now) room.old result room.new }
{
    chain_into::<CbcDecAes>(key, iv, input, room)
}

// The form's chain over an input into the first bytes of the room. Refused as cbc_enc_aes is.
// Ruled out: another form's chain; a refused input's blocks written.
pub fn chain_into<F: Form>(
    key: [u8; 16],
    iv: [u8; 16],
    input: &[u8],
    room: &mut [u8],
) -> Result<(), ChainingFault>
    ensures { Into (chains (length input.now) (length room.old))
        (joined (outputs (F.out key) (F.on key) iv (whole_blocks input.now))) room.old result room.new }
{
    if !takes(input.len(), room.len()) {
        return Err(ChainingFault::BlocksOrRoom);
    }
    in_parts::<F>(&key, iv, input, room);
    Ok(())
}

// AES-CMAC-96 (key, data) into the first 12 bytes of the room. Refused where the input is no whole number of blocks or
// none, or the room has under 12 bytes. Ruled out: the second subkey; all 16 bytes written; an input of no block
// accepted.
pub fn cmac_96(key: [u8; 16], input: &[u8], room: &mut [u8]) -> Result<(), ChainingFault>
    ensures { Into (macs (length input.now) (length room.old))
        (cmac96 key input.now) room.old result room.new }
{
    if input.is_empty() || input.len() % 16 != 0 || room.len() < 12 {
        return Err(ChainingFault::BlocksOrRoom);
    }
    let mac = cmac(key, input);
    room[..12].copy_from_slice(&mac[..12]);
    Ok(())
}

// Chains an input of any length, part by part: the first block of each is chained to what the part before it handed on.
fn in_parts<F: Form>(key: &[u8; 16], iv: [u8; 16], input: &[u8], room: &mut [u8])
    requires { length input.now ≤ length room.old }
    ensures { room.new ≡ over (joined (outputs (F.out key.now) (F.on key.now) iv (whole_blocks input.now))) room.old }
{
    let mut chained = iv;
    let mut at = 0;
    // The place cuts input and room alike: nothing is known to a proof of what an adapter of `chunks_mut` writes.
    while PART < input.len() - at {
        let end = at + PART;
        // By way of a local: the borrow checker covers no call whose result is laid in an array that is there.
        let handed = chain::<F>(key, &chained, &input[at..end], &mut room[at..end]);
        chained = handed;
        at = end;
    }
    chain::<F>(key, &chained, &input[at..], &mut room[at..]);
}

// Chains the blocks of the input into the room, until none is left, and hands on what a block behind them is chained
// to.
fn chain<F: Form>(key: &[u8; 16], iv: &[u8; 16], input: &[u8], room: &mut [u8]) -> [u8; 16]
    requires { length input.now ≤ length room.old }
    ensures written { room.new ≡ over (joined (outputs (F.out key.now) (F.on key.now) iv.now (whole_blocks input.now)))
        room.old }
    ensures handed { result ≡ handed (F.on key.now) iv.now (whole_blocks input.now) }
{
    if input.len() < 16 {
        return *iv;
    }
    let block = field::first_block(input);
    let output = F::output(key, iv, &block);
    room[..16].copy_from_slice(&output);
    chain::<F>(key, F::next(&block, &output), &input[16..], &mut room[16..])
}

// The CMAC of whole blocks, at least one: the chain over all but the last, and then the last with K1 added to it.
fn cmac(key: [u8; 16], input: &[u8]) -> [u8; 16]
    requires { (16 ≤ length input.now) × (length input.now % 16 ≡ 0) }
    ensures { result ≡ cmac key input.now }
{
    let at = input.len() - 16;
    let c = mac_parts(key, [0u8; 16], &input[..at]);
    let last = field::first_block(&input[at..]);
    aes::encrypt(key, field::xor(c, field::xor(first_subkey(key), last)))
}

// The MAC's chain over an input of any length, part by part: the first block of each is chained to what the part before
// it gave.
fn mac_parts(key: [u8; 16], c: [u8; 16], input: &[u8]) -> [u8; 16]
    ensures { result ≡ mac_chain key c (whole_blocks input.now) }
{
    let mut chained = c;
    for part in input.chunks(PART) {
        // By way of a local: the borrow checker covers no call whose result is laid in an array that is there.
        let given = mac_chain(key, chained, part);
        chained = given;
    }
    chained
}

// The MAC's chain over the blocks of the input, until none is left.
fn mac_chain(key: [u8; 16], c: [u8; 16], input: &[u8]) -> [u8; 16]
    ensures { result ≡ mac_chain key c (whole_blocks input.now) }
{
    if input.len() < 16 {
        return c;
    }
    let block = field::first_block(input);
    mac_chain(key, aes::encrypt(key, field::xor(c, block)), &input[16..])
}

// K1 of SP 800-38B, section 6.1.
fn first_subkey(key: [u8; 16]) -> [u8; 16]
    ensures { result ≡ subkey1 key }
{
    double(aes::encrypt(key, [0u8; 16]))
}

// The doubling of a block.
fn double(l: [u8; 16]) -> [u8; 16]
    ensures { result ≡ doubled l }
{
    let mut r = [0u8; 16];
    for i in 0..15 {
        r[i] = (l[i] << 1) ^ (l[i + 1] >> 7);
    }
    r[15] = (l[15] << 1) ^ ((l[0] >> 7) * 0x87);
    r
}
