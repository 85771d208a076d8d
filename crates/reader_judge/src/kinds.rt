// The replies that carry no data, each judged by its kind.
ghost use Rattle.std.specs.Prelude.{◌≡◌};
ghost use Rattle.reader_judge.specs.Findings.{said_of};
ghost use Rattle.reader_judge.specs.Judged.{tam1_finding, iam1_finding, mam1_finding, empty_finding};

use super::Accepted;
use super::opened::{block_fits, challenge_in, opened_block};
use super::said::{issues, nothing_more};
use frames::constants::{mam1_constant, tam1_constant};
use frames::{Mam1, Tam1};
use reader::{Keys, ReaderFault};

/// TAM1 (9.4.4): length, then constant and challenge. Ruled out: the constant of MAM1; a reply of 22 bytes taken.
#[tactic(auto, unfolding(crate::specs::Judged::tam1_finding, ground::specs::Checks::judged_to))]
pub fn tam1(keys: Keys, f: Tam1, reply: &[u8]) -> Result<Accepted, ReaderFault>
    ensures { result ≡ said_of (tam1_finding keys f reply.now) }
{
    if reply.len() != 16 {
        return Err(ReaderFault::ReplyLength);
    }
    if !block_fits(tam1_constant(), f.ichallenge, opened_block(keys, reply)) {
        return Err(ReaderFault::ChallengeWrong);
    }
    Ok(nothing_more())
}

/// IAM1 (9.5.3): the reply is the challenge. Ruled out: a challenge of nine bytes taken; the bytes in turned order.
#[tactic(auto, unfolding(crate::specs::Judged::iam1_finding, ground::specs::Checks::judged_to))]
pub fn iam1(reply: &[u8]) -> Result<Accepted, ReaderFault>
    ensures { result ≡ said_of (iam1_finding reply.now) }
{
    if reply.len() != 10 {
        return Err(ReaderFault::ReplyLength);
    }
    Ok(issues(octets::bytes_at(reply, 0)))
}

/// MAM1 (9.6.4): length, then constant and challenge. Ruled out: the challenge out of the clear part alone; another
/// reader's IChallenge.
#[tactic(auto, unfolding(crate::specs::Judged::mam1_finding, ground::specs::Checks::judged_to))]
pub fn mam1(keys: Keys, f: Mam1, reply: &[u8]) -> Result<Accepted, ReaderFault>
    ensures { result ≡ said_of (mam1_finding keys f reply.now) }
{
    if reply.len() != 22 {
        return Err(ReaderFault::ReplyLength);
    }
    let b = opened_block(keys, reply);
    if !block_fits(mam1_constant(), f.ichallenge, b) {
        return Err(ReaderFault::ChallengeWrong);
    }
    Ok(issues(challenge_in(b, reply)))
}

/// IAM2, IAM3, MAM2 (9.5.6, 9.5.9, 9.6.6): the reply is empty. Ruled out: a reply of one byte taken; an empty reply
/// refused.
#[tactic(auto, unfolding(crate::specs::Judged::empty_finding, ground::specs::Checks::judged_to))]
pub fn empty(reply: &[u8]) -> Result<Accepted, ReaderFault>
    ensures { result ≡ said_of (empty_finding reply.now) }
{
    if reply.len() != 0 {
        return Err(ReaderFault::ReplyLength);
    }
    Ok(nothing_more())
}
