// What the tag judges of what the reader sent (9.5.5, 9.5.8, 9.6.5), and the words that an IAM3 writes.
ghost use Rattle.std.specs.Prelude.{◌≡◌, true, ◌+◌, ◌*◌, ◌/◌, ◌%◌, ◌≤◌, length};
ghost use Rattle.aes.specs.AesEnc.{aes_enc};
ghost use Rattle.modes.specs.Room.{over};
ghost use Rattle.frames.specs.Blocks.{blocks_length};
ghost use Rattle.frames.specs.Constants.{iam3_constant};
ghost use Rattle.frames.specs.Modes.{prot_mode_of};
ghost use Rattle.memory.specs.Areas.{stored_in};
ghost use Rattle.entry.specs.Opened.{iam_proof, mam_proof, proved_in, purpose_in, purpose_allowed, sent_block};
ghost use Rattle.entry.specs.Opened.{opened_in, sent_mac_fits, words_in};
ghost use Rattle.entry.specs.Decided.{ProofDecides};

use super::message::Sent;
use super::{Reacted, Session, let_in, refused};
use frames::constants::iam3_constant;
use frames::protection::{encrypts, prot_mode};
use frames::sizes::{DATA_ROOM, blocks_length};
use frames::{Custom, ProtMode};
use memory::{Area, Block};
use offer::TagFault;
use sheet::Key;

// The twelve bits that two bytes start with.
fn constant_in(x: u8, y: u8) -> u16
    ensures { result ≡ x * 16 + y / 16 }
{
    (x as u16) * 16 + (y / 16) as u16
}

// The four bits of Purpose in an opened block. Ruled out: the four bits before them, and the whole byte.
pub fn purpose(b: [u8; 16]) -> u8
    ensures { result ≡ purpose_in b }
{
    b[1] % 16
}

// Does the tag support the Purpose? Ruled out: a tag that supports none, and one that supports 0 alone.
#[tactic(auto, unfolding(crate::specs::Opened::purpose_allowed))]
fn purpose_allowed(p: u8) -> bool
    ensures { result ≡ purpose_allowed p }
{
    true
}

// The proof of IAM2, and of IAM3's first block: the constant, the Purpose, and the challenge that the tag issued
// (9.5.5, 9.5.8). Each check is completed before it is told: a cryptographic error is told only after all of them
// (9.5.5, 9.6.5). So the proofs of this file are joined by `&`, and not by `&&`.
// Ruled out: a constant that is not looked at, and a challenge of which only the first bytes count.
#[tactic(auto, unfolding(crate::specs::Opened::iam_proof))]
pub fn iam_proof(constant: u16, held: Session, b: [u8; 16]) -> bool
    ensures { result ≡ iam_proof constant held b }
{
    let known = constant_in(b[0], b[1]) == constant;
    let allowed = purpose_allowed(purpose(b));
    let issued = octets::same(&b[6..16], &held.tchallenge);
    known & allowed & issued
}

// The proof of MAM2: also the last 32 bits of the reader's own challenge (9.6.5).
// Ruled out: the reader's own bits left out, and the tag's challenge looked for in their place.
#[tactic(auto, unfolding(crate::specs::Opened::mam_proof))]
pub fn mam_proof(held: Session, b: [u8; 16]) -> bool
    ensures { result ≡ mam_proof held b }
{
    let proof = iam_proof(0xDA8, held, b);
    let own = octets::same(&b[2..6], &held.ichallenge);
    proof & own
}

// C_IAM3 of a ProtMode, without a Purpose.
fn constant_of(mode: ProtMode) -> u16
    ensures { result ≡ iam3_constant mode }
{
    let two = iam3_constant(mode, 0);
    constant_in(two[0], two[1])
}

// IAM3's first block, opened (9.5.8).
fn first_opened(key: Key, sent: &Sent) -> [u8; 16]
    ensures { result ≡ aes_enc key.enc (sent_block sent.now.m.now) }
{
    aes::encrypt(key.enc, field::first_block(&sent.m[4..]))
}

// Header, data and filler of an IAM3 in the clear, over the first bytes of `out` (9.5.8.2 to 9.5.8.5).
// Ruled out: the chain started at another block than A, and data that are opened in ProtMode 2.
fn open_data(key: Key, mode: ProtMode, sent: &Sent, out: &mut [u8])
    requires { blocks_length sent.now.f.custom.blocksize true sent.now.f.custom.blockcount ≤ length out.old }
    ensures { out.new ≡ over (opened_in key mode sent.now.f sent.now.m.now) out.old }
{
    let m = sent.m;
    let end = 20 + blocks_length(sent.f.custom.blocksize, true, sent.f.custom.blockcount);
    if encrypts(mode) {
        let iv = field::first_block(&m[4..]);
        modes::cbc_dec_aes(iv, key.enc, &m[20..end], out).unwrap();
    } else {
        out[..end - 20].copy_from_slice(&m[20..end]);
    }
}

// Where the ProtMode has a MAC: is it that of A and the data blocks as they were sent (9.5.8.4, 9.5.8.5)?
// Ruled out: a MAC over the data in the clear, and one that leaves A out.
fn mac_fits(key: Key, mode: ProtMode, sent: &Sent) -> bool
    ensures { result ≡ sent_mac_fits key mode sent.now.f sent.now.m.now }
{
    let m = sent.m;
    let end = 20 + blocks_length(sent.f.custom.blocksize, true, sent.f.custom.blockcount);
    payload::mac_fits(key.mackey, mode, &m[4..end], &m[end..])
}

// The data's words over the block that the message names; every other byte of both areas stays.
// Ruled out: the header written, and the filler.
fn write(block: Block, c: Custom, p: &[u8], identity: &mut [u8], user: &mut [u8])
    ensures { (identity.new ≡ stored_in Area.Identity block (words_in c p.now) identity.old)
        × (user.new ≡ stored_in Area.User block (words_in c p.now) user.old) }
{
    memory::store(identity, user, block, payload::words_in(true, c, p));
}

// Everything of an IAM3 that a key proves, after its fields were judged: b is its first block opened, p its data in the
// clear.
// Ruled out: a MAC that is not asked for in ProtModes 2 and 3, and a header that may name other words than the message.
#[tactic(auto, unfolding(crate::specs::Opened::proved_in))]
fn proved(key: Key, held: Session, mode: ProtMode, sent: &Sent, b: [u8; 16], p: &[u8]) -> bool
    requires { (b ≡ aes_enc key.enc (sent_block sent.now.m.now))
        × (p.now ≡ opened_in key mode sent.now.f sent.now.m.now) }
    ensures { result ≡ proved_in key held mode sent.now.f sent.now.m.now }
{
    let custom = sent.f.custom;
    let first = iam_proof(constant_of(mode), held, b);
    let mac = mac_fits(key, mode, sent);
    let header = payload::header_fits(true, custom, p);
    let filler = payload::filler_fits(true, custom, p);
    first & mac & header & filler
}

// An IAM3 in its mode.
fn iam3_in_mode(
    key: Key,
    held: Session,
    mode: ProtMode,
    sent: &Sent,
    block: Block,
    identity: &mut [u8],
    user: &mut [u8],
) -> Reacted
    requires { prot_mode_of sent.now.f.protmode ≡ Some mode }
    ensures { ProofDecides key held sent.now.f block sent.now.m.now identity.old user.old result
        identity.new user.new }
{
    let b = first_opened(key, sent);
    let mut room = [0u8; DATA_ROOM];
    open_data(key, mode, sent, &mut room);
    let n = blocks_length(sent.f.custom.blocksize, true, sent.f.custom.blockcount);
    if !proved(key, held, mode, sent, b, &room[..n]) {
        return refused(TagFault::ProofWrong);
    }
    write(block, sent.f.custom, &room[..n], identity, user);
    let_in(purpose(b))
}

// An IAM3 whose fields were judged (9.5.8, 9.5.9): where the proof holds, the words are written and the reader is let
// in.
// Ruled out: words written before the MAC is judged, and a Purpose taken from another block.
pub fn iam3(
    key: Key,
    held: Session,
    sent: &Sent,
    block: Block,
    identity: &mut [u8],
    user: &mut [u8],
) -> Reacted
    ensures { ProofDecides key held sent.now.f block sent.now.m.now identity.old user.old result
        identity.new user.new }
{
    match prot_mode(sent.f.protmode) {
        Some(mode) => iam3_in_mode(key, held, mode, sent, block, identity, user),
        None => refused(TagFault::ProofWrong),
    }
}
