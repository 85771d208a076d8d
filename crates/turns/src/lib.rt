// A turn of an exchange (M-100), the reader's and the tag's, and what stands between two: a value, so that any turn may
// be the last that is played for now. Crate exchange plays turn after turn.
#![tactic(auto)]

ghost use Rattle.std.specs.Prelude.{◌≡◌, take};
ghost use Rattle.turns.specs.Standings.{begun_of, number_of, reader_next, tag_next};

use frames::sizes::{DATA_ROOM, MESSAGE_ROOM, REPLY_ROOM};
use offer::TagFault;
use reader::ReaderFault;
use reader_judge::Worth;
use tag::Tag;

mod standings; // standings.rt: what a turn makes of what stands
mod judging; // judging.rt: the reader's side judges a reply
pub mod asks; // asks.rt: the reader's turns
pub mod answers; // answers.rt: the tag's turns

/// Whose turn is next, or how the exchange ended. TAM has the first two turns, IAM and MAM all four.
#[derive(Clone, Copy, Debug, PartialEq, Eq)]
pub enum Next {
    ReaderOpens,
    TagAnswers,
    ReaderCloses,
    TagEnds,
    Done,
    RefusedByTag(TagFault),
    RefusedByReader(ReaderFault),
}

/// The first `count` bytes of a room; zeros stand behind them.
#[derive(Clone, Copy)]
pub struct Counted<const N: usize> {
    pub bytes: [u8; N],
    pub count: usize,
}

impl<const N: usize> Counted<N> {
    // Those bytes.
    pub(crate) fn held(&self) -> &[u8]
        ensures { result.now ≡ take self.now.count self.now.bytes }
    {
        octets::front(&self.bytes, self.count)
    }
}

/// The last message that was sent.
pub type Sent = Counted<MESSAGE_ROOM>;

/// The last reply that came.
pub type Reply = Counted<REPLY_ROOM>;

/// The data that the reader's side found in the reply that ended the exchange: so many of the bytes, and their worth.
#[derive(Clone, Copy)]
pub struct Found {
    pub bytes: [u8; DATA_ROOM],
    pub count: usize,
    pub worth: Worth,
}

/// What stands between two turns: whose turn is next, how many turns are left, the last message, the last reply, the
/// challenge that the tag issued (zeros before), and what was found.
#[derive(Clone, Copy)]
pub struct Standing {
    pub next: Next,
    pub left: u8,
    pub sent: Sent,
    pub reply: Reply,
    pub challenge: [u8; 10],
    pub found: Found,
}

/// What an exchange begins with, or 40 and an exchange without a turn.
#[derive(Clone, Copy)]
pub struct Begun {
    pub number: u8,
    pub standing: Standing,
}

/// What stands after the turns that were played, and the tag.
#[derive(Clone, Copy)]
pub struct Played {
    pub standing: Standing,
    pub tag: Tag,
}

/// An exchange with a limit of turns, before its first: 40 for a limit of 0 or over 64.
///
/// Ruled out: a limit of 65 taken; an exchange that begins with the tag's turn.
#[tactic(auto, unfolding(crate::specs::Standings::begun_of, crate::specs::Standings::limit_fits))]
pub fn begin(limit: usize) -> Begun
    ensures { result ≡ begun_of limit }
{
    if limit == 0 || 64 < limit {
        Begun {
            number: 40,
            standing: standings::fresh(0),
        }
    } else {
        Begun {
            number: 0,
            standing: standings::fresh(limit as u8),
        }
    }
}

/// The number of what stands: that of the half that refused; 41 where the limit is used up and the exchange is neither
/// done nor ended by a refusal; else 0.
///
/// Ruled out: 41 where the last turn of the limit ended the exchange; the tag's number for a refusal of the reader.
#[tactic(auto, unfolding(crate::specs::Standings::number_of, crate::specs::Standings::waiting))]
pub fn number(next: Next, left: u8) -> u8
    ensures { result ≡ number_of next left }
{
    match next {
        Next::Done => 0,
        Next::RefusedByTag(fault) => u8::from(fault),
        Next::RefusedByReader(fault) => u8::from(fault),
        Next::ReaderOpens | Next::TagAnswers | Next::ReaderCloses | Next::TagEnds => {
            if left == 0 { 41 } else { 0 }
        }
    }
}

/// Is a turn left, and is it the reader's?
///
/// Ruled out: a turn after the last of the limit; a turn after the exchange ended.
#[tactic(auto, unfolding(crate::specs::Standings::readers))]
pub fn reader_next(standing: Standing) -> bool
    ensures { result ≡ reader_next standing }
{
    standing.left != 0 && matches!(standing.next, Next::ReaderOpens | Next::ReaderCloses)
}

/// Is a turn left, and is it the tag's?
///
/// Ruled out: a turn after the last of the limit; the reader's turn taken for the tag's.
#[tactic(auto, unfolding(crate::specs::Standings::tags))]
pub fn tag_next(standing: Standing) -> bool
    ensures { result ≡ tag_next standing }
{
    standing.left != 0 && matches!(standing.next, Next::TagAnswers | Next::TagEnds)
}
