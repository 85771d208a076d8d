// What the tag sends (9.6.3).
ghost use Rattle.std.specs.Prelude.{◌≡◌, ◌++◌, take};
ghost use Rattle.entry.specs.Replies.{mam1_reply};

use frames::Mam1;
use sheet::Key;

// A block, and the first six draws behind it.
fn with_clear(block: [u8; 16], draws: [u8; 10]) -> [u8; 22]
    ensures { result ≡ block ++ take 6 draws }
{
    let mut reply = [0u8; 22];
    payload::put(&mut reply, 0, &block);
    payload::put(&mut reply, 16, &draws[..6]);
    reply
}

/// The reply to MAM1 (9.6.3, Table 24).
/// Ruled out: the first 32 bits of TChallenge in the block, and all of TChallenge in the clear.
pub fn mam1_reply(key: Key, m: Mam1, draws: [u8; 10]) -> [u8; 22]
    ensures { result ≡ mam1_reply key m draws }
{
    let last = [draws[6], draws[7], draws[8], draws[9]];
    let block = payload::block_of(frames::constants::mam1_constant(), last, m.ichallenge);
    with_clear(aes::encrypt(key.enc, block), draws)
}
