// TAM: checks and replies of TAM1 and TAM2 (9.4), for any message. A tag that offers nothing else needs no more than
// this.
#![tactic(auto)]

ghost use Rattle.std.specs.Prelude.{◌≡◌, Ok, Err};
ghost use Rattle.sheet.specs.KeyTable.{keys_in};
ghost use Rattle.sheet.specs.Setups.{setup_of};
ghost use Rattle.offer.specs.Outcomes.{settled};
ghost use Rattle.tam.specs.Given.{reply_of, tam1_checked, tam1_sent, tam2_checked, tam2_sent};

use frames::Kind;
use frames::fields::{tam1_of, tam2_of};
use frames::sizes::REPLY_ROOM;
use offer::{TagFault, records};
use sheet::Terms;

mod judged; // judged.rt: the checks of TAM2, in their order
mod replies; // replies.rt: what the tag sends

/// A reply to TAM2, whose length the message asks for: its bytes are the room's first, with zeros behind them.
#[derive(Clone, Copy)]
pub struct Reply {
    pub room: [u8; REPLY_ROOM],
    pub length: usize,
}

/// TAM1 (9.4.2, 9.4.3). A refusal sends nothing.
///
/// Ruled out: one fixed reply; a reply to a message that is refused.
pub fn tam1(keys: &[u8], message: &[u8], draws: [u8; 10]) -> Result<[u8; 16], TagFault>
    ensures { result ≡ settled (tam1_checked (keys_in keys.now) message.now)
        (Ok (tam1_sent (keys_in keys.now) message.now draws)) Err }
{
    let f = tam1_of(message);
    let key = offer::judged::opening(keys, Kind::Tam1, f.rfu, f.keyid, message)?;
    Ok(replies::tam1_reply(key, f, draws))
}

/// TAM2 (9.4.5, 9.4.6). A refusal sends nothing.
///
/// Ruled out: words of the other area; a made-up length.
pub fn tam2(
    terms: Terms,
    keys: &[u8],
    message: &[u8],
    draws: [u8; 10],
    identity: &[u8],
    user: &[u8],
) -> Result<Reply, TagFault>
    ensures { result ≡ settled (tam2_checked (setup_of terms keys.now) message.now)
        (Ok (reply_of (tam2_sent (setup_of terms keys.now) message.now draws identity.now user.now))) Err }
{
    let key = judged::tam2(terms, keys, message)?;
    let f = tam2_of(message);
    let words = memory::window(
        identity,
        user,
        records::words_asked(terms.profiles, f.custom),
    );
    let mut room = [0u8; REPLY_ROOM];
    let length = replies::tam2_reply(key, f, words, draws, &mut room);
    Ok(Reply { room, length })
}
