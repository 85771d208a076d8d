// The block that a reply starts with, as the reader opens it (9.4.4, 9.4.7, 9.6.4).
ghost use Rattle.std.specs.Prelude.{◌≡◌, ◌≤◌, length};
ghost use Rattle.reader_judge.specs.Opened.{opened_block, block_fits, challenge_in};

use octets::same;
use reader::Keys;

/// The block that a reply starts with, opened. Ruled out: AES-ENC in place of AES-DEC; the MAC's key.
pub fn opened_block(keys: Keys, reply: &[u8]) -> [u8; 16]
    requires { 16 ≤ length reply.now }
    ensures { result ≡ opened_block keys reply.now }
{
    aes_inverse::decrypt(keys.enc, field::first_block(reply))
}

/// Does it start with the constant and end with the reader's own challenge? Ruled out: a constant that is not looked
/// at; a challenge of which only the first bytes count.
#[tactic(auto, unfolding(crate::specs::Opened::block_fits))]
pub fn block_fits(constant: [u8; 2], ichallenge: [u8; 10], b: [u8; 16]) -> bool
    ensures { result ≡ block_fits constant ichallenge b }
{
    same(&b[..2], &constant) && same(&b[6..], &ichallenge)
}

/// The tag's challenge in the reply to MAM1 (9.6.4). Ruled out: the clear part alone; the opened bits before it.
pub fn challenge_in(b: [u8; 16], reply: &[u8]) -> [u8; 10]
    requires { length reply.now ≡ 22 }
    ensures { result ≡ challenge_in b reply.now }
{
    [
        reply[16], reply[17], reply[18], reply[19], reply[20], reply[21], b[2], b[3], b[4], b[5],
    ]
}
