// What a tag's setup offers, what a message names in it, and the checks that stand before a message's kind: the leaf
// that the TAM half and the entry half share.
#![tactic(auto)]

ghost use Rattle.std.specs.Prelude.{◌≡◌};
ghost use Rattle.offer.specs.Outcomes.{number_of, number_given, reply_length};

pub mod records; // records.rt: what a setup offers, and what a message names
pub mod judged; // judged.rt: the bench's check, and the line that opens TAM1, IAM1 and MAM1

/// Why a message is refused: the scope paper's numbers 1 to 7.
#[derive(Clone, Copy, Debug, PartialEq, Eq)]
pub enum TagFault {
    OtherError,
    NotSupported,
    MemoryOverrun,
    MemoryWriteError,
    OutOfTurn,
    ProofWrong,
    BenchFault,
}

/// What a tag answers: a reply of so many bytes, or a reader is let in with its Purpose (the reply is empty).
#[derive(Clone, Copy, Debug, PartialEq, Eq)]
pub enum Answer {
    Replied(usize),
    Entered(u8),
}

/// What a message comes to.
pub type Outcome = Result<Answer, TagFault>;

/// The scope paper's number of a refusal.
///
/// Ruled out: 2 for a wrong length; the numbers of the reader's side.
impl From<TagFault> for u8 {
    ghost from_gives = { λ fault n. n ≡ number_of fault };

    fn from(fault: TagFault) -> u8 {
        match fault {
            TagFault::OtherError => 1,
            TagFault::NotSupported => 2,
            TagFault::MemoryOverrun => 3,
            TagFault::MemoryWriteError => 4,
            TagFault::OutOfTurn => 5,
            TagFault::ProofWrong => 6,
            TagFault::BenchFault => 7,
        }
    }
}

/// The scope paper's number of an outcome, 0 where nothing is refused.
///
/// Ruled out: 2 for a wrong length; a reply's length in the place of a number.
pub fn number(outcome: Outcome) -> u8
    ensures { result ≡ number_given outcome }
{
    match outcome {
        Ok(_) => 0,
        Err(fault) => u8::from(fault),
    }
}

/// The length of the reply.
///
/// Ruled out: a length given with a refusal; a Purpose given as a length.
pub fn reply_length(outcome: Outcome) -> usize
    ensures { result ≡ reply_length outcome }
{
    match outcome {
        Ok(Answer::Replied(n)) => n,
        Ok(Answer::Entered(_)) | Err(_) => 0,
    }
}
