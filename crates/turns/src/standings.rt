// What a turn makes of what stands: one turn fewer is left, and what the turn brought is kept.
ghost use Rattle.std.specs.Prelude.{◌≡◌};
ghost use Rattle.turns.specs.Standings.{fresh, turned, waits, concludes};
ghost use Rattle.turns.specs.Sends.{sends_made};

use super::{Counted, Found, Next, Reply, Standing};
use frames::sizes::{DATA_ROOM, MESSAGE_ROOM, REPLY_ROOM};
use reader::ReaderFault;
use reader_judge::Worth;

/// Before the first turn. Ruled out: a limit that is not kept; bytes that stand there already.
pub fn fresh(limit: u8) -> Standing
    ensures { result ≡ fresh limit }
{
    Standing {
        next: Next::ReaderOpens,
        left: limit,
        sent: Counted {
            bytes: [0; MESSAGE_ROOM],
            count: 0,
        },
        reply: Counted {
            bytes: [0; REPLY_ROOM],
            count: 0,
        },
        challenge: [0; 10],
        found: Found {
            bytes: [0; DATA_ROOM],
            count: 0,
            worth: Worth::NoData,
        },
    }
}

/// A turn that brings neither message nor reply. Ruled out: a turn that is not counted; a message that is forgotten.
pub fn turned(next: Next, standing: Standing) -> Standing
    ensures { result ≡ turned next standing }
{
    Standing {
        next,
        left: standing.left.saturating_sub(1),
        ..standing
    }
}

/// A message that was built is sent; one that was refused ends the exchange.
/// Ruled out: a refused message sent; a turn that is not counted.
#[tactic(auto, unfolding(crate::specs::Sends::sends_made))]
pub fn sends(
    next: Next,
    standing: Standing,
    made: Result<usize, ReaderFault>,
    room: [u8; MESSAGE_ROOM],
) -> Standing
    ensures { result ≡ sends_made next standing made room }
{
    match made {
        Ok(n) => Standing {
            next,
            left: standing.left.saturating_sub(1),
            sent: Counted {
                bytes: room,
                count: n,
            },
            ..standing
        },
        Err(fault) => turned(Next::RefusedByReader(fault), standing),
    }
}

/// A reply that the reader answers. Ruled out: a reply that is not kept; the tag's turn once more.
pub fn waits(standing: Standing, reply: Reply) -> Standing
    ensures { result ≡ waits standing reply }
{
    Standing {
        next: Next::ReaderCloses,
        left: standing.left.saturating_sub(1),
        reply,
        ..standing
    }
}

/// A reply that ends the exchange, with what was found in it. Ruled out: the data of another reply; a turn that is not
/// counted.
pub fn concludes(next: Next, standing: Standing, reply: Reply, found: Found) -> Standing
    ensures { result ≡ concludes next standing reply found }
{
    Standing {
        next,
        left: standing.left.saturating_sub(1),
        reply,
        found,
        ..standing
    }
}
