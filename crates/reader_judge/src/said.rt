// What the judge accepts, as it says it.
ghost use Rattle.std.specs.Prelude.{◌≡◌, Result, Ok};
ghost use Rattle.reader.specs.declared.ReaderFault.{ReaderFault};
ghost use Rattle.reader_judge.specs.declared.Accepted.{Accepted};
ghost use Rattle.reader_judge.specs.Findings.{nothing_more, issues, carries, worth_of, said_of};

use super::{Accepted, Worth};
use frames::ProtMode;
use frames::protection::has_mac;

/// Nothing but that it is accepted. Ruled out: data that are counted where none came; a challenge.
pub fn nothing_more() -> Accepted
    ensures { ◌≡◌ {A = Result Accepted ReaderFault} (Ok result) (said_of nothing_more) }
{
    Accepted {
        data: 0,
        worth: Worth::NoData,
        challenge: None,
    }
}

/// A challenge that the tag issued. Ruled out: a challenge that is not reported; data.
pub fn issues(challenge: [u8; 10]) -> Accepted
    ensures { ◌≡◌ {A = Result Accepted ReaderFault} (Ok result) (said_of (issues challenge)) }
{
    Accepted {
        challenge: Some(challenge),
        ..nothing_more()
    }
}

// What data are worth: only a MAC proves them (Table 3).
#[tactic(auto, unfolding(crate::specs::Findings::worth_of))]
fn worth_of(mode: ProtMode) -> Worth
    ensures { result ≡ worth_of mode }
{
    if has_mac(mode) {
        Worth::Proved
    } else {
        Worth::Unproved
    }
}

/// Data, and what they are worth. Ruled out: data of ProtMode 1 called proved; one byte fewer counted.
pub fn carries(mode: ProtMode, words: &[u8]) -> Accepted
    ensures { ◌≡◌ {A = Result Accepted ReaderFault} (Ok result) (said_of (carries (worth_of mode) words.now)) }
{
    Accepted {
        data: words.len(),
        worth: worth_of(mode),
        challenge: None,
    }
}
