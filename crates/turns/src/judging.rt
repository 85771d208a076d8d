// The reader's side judges the reply that stands.
ghost use Rattle.std.specs.Prelude.{length};
ghost use Rattle.reader_judge.specs.Findings.{Judges};
ghost use Rattle.reader_judge.specs.Judged.{judgement_of};
ghost use Rattle.turns.specs.Standings.{message_in, reply_in};

use super::{Reply, Sent};
use reader::{Keys, ReaderFault};
use reader_judge::{Accepted, judge};

/// The judgement of a reply to the message that was sent.
/// Ruled out: the zeros behind a reply judged with it; the message of another turn.
pub fn judged(
    keys: Keys,
    sent: Sent,
    reply: Reply,
    room: &mut [u8],
) -> Result<Accepted, ReaderFault>
    ensures { Judges (judgement_of keys (message_in sent) (reply_in reply) (length room.old))
        room.old result room.new }
{
    judge(keys, sent.held(), reply.held(), room)
}
