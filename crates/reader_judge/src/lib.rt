// The judge of a reply to the reader's own message.
#![tactic(auto)]

mod opened; // opened.rt: what is opened of a reply
mod said; // said.rt: a finding as the judge says it
mod kinds; // kinds.rt: the replies that carry no data, by kind
mod tam2; // tam2.rt: the reply to TAM2

ghost use Rattle.std.specs.Prelude.{length};
ghost use Rattle.reader_judge.specs.Findings.{Judges};
ghost use Rattle.reader_judge.specs.Judged.{by_kind, judgement_of};

use frames::Kind;
use frames::fields::{mam1_of, tam1_of};
use frames::first::kind_of;
use frames::sizes::DATA_ROOM;
use reader::own::own_fits;
use reader::{Keys, ReaderFault};

/// What a reply's data are worth: none came; no MAC proves them (ProtModes 0 and 1); the MAC proves them (2 and 3).
/// In TAM2 Rev 0 what is proved is the blocks as they were sent: neither their address and number nor the ProtMode
/// that the tag saw.
#[derive(Clone, Copy, Debug, PartialEq, Eq)]
pub enum Worth {
    NoData,
    Unproved,
    Proved,
}

/// What the judge accepts: how many bytes of data stand in the data room's first bytes, what they are worth, and the
/// challenge where the tag issued one.
#[derive(Clone, Copy)]
pub struct Accepted {
    pub data: usize,
    pub worth: Worth,
    pub challenge: Option<[u8; 10]>,
}

// A reply to a message that is one of the table, by its kind.
fn by_kind(
    keys: Keys,
    kind: Kind,
    message: &[u8],
    reply: &[u8],
    room: &mut [u8; DATA_ROOM],
) -> Result<Accepted, ReaderFault>
    ensures { Judges (by_kind keys message.now reply.now kind) room.old result
        room.new }
{
    match kind {
        Kind::Tam1 => kinds::tam1(keys, tam1_of(message), reply),
        Kind::Tam2 => tam2::tam2(keys, message, reply, room),
        Kind::Iam1 => kinds::iam1(reply),
        Kind::Mam1 => kinds::mam1(keys, mam1_of(message), reply),
        Kind::Iam2 | Kind::Iam3 | Kind::Mam2 => kinds::empty(reply),
        Kind::Unsupported => Err(ReaderFault::OwnMessage),
    }
}

/// The judgement of a reply to the reader's own message, which has the first bytes of the room for the data of TAM2.
/// Where the reply is refused, or carries no data, no byte of the room changes.
///
/// Ruled out: data that are handed over though the MAC is wrong; a reply to one message taken as the reply to another.
pub fn judge(
    keys: Keys,
    message: &[u8],
    reply: &[u8],
    room: &mut [u8],
) -> Result<Accepted, ReaderFault>
    ensures { Judges (judgement_of keys message.now reply.now (length room.old))
        room.old result room.new }
{
    let Some(first) = message.first() else {
        return Err(ReaderFault::OwnMessage);
    };
    let kind = kind_of(*first);
    if !own_fits(keys, kind, message, room.len()) {
        return Err(ReaderFault::OwnMessage);
    }
    by_kind(keys, kind, message, reply, room.first_chunk_mut().unwrap())
}
