// What the trainee plans of an exchange (M-100), and the messages that the reader sends by it.
#![tactic(auto)]

ghost use Rattle.reader_build.specs.Makes.{Makes};
ghost use Rattle.plan.specs.Drafts.{opening, closing};

use frames::Custom;
use reader::{Keys, ReaderFault};

/// What the trainee picks.
#[derive(Clone, Copy, Debug, PartialEq, Eq)]
pub enum Method {
    Tam1,
    Tam2,
    Iam2,
    Iam3,
    Mam,
}

/// The method, the reader's keys, the fields of its messages, and its random bytes: a message reads those that it has.
#[derive(Clone, Copy)]
pub struct Plan {
    pub method: Method,
    pub keys: Keys,
    pub keyid: u8,
    pub ichallenge: [u8; 10],
    pub rev: bool,
    pub custom: Custom,
    pub protmode: u8,
    pub purpose: u8,
    pub irnd: [u8; 4],
}

/// The message that opens an exchange. Ruled out: MAM1 for an IAM; a TAM1 where the trainee picked TAM2.
#[tactic(auto, unfolding(crate::specs::Drafts::opening))]
pub fn opening(plan: Plan, room: &mut [u8]) -> Result<usize, ReaderFault>
    ensures { Makes (opening plan plan.method).fit (opening plan plan.method).message
        room.old result room.new }
{
    match plan.method {
        Method::Tam1 => reader_build::tam1(plan.keyid, plan.ichallenge, room),
        Method::Tam2 => reader_build::tam2(
            plan.keys,
            plan.keyid,
            plan.ichallenge,
            plan.rev,
            plan.custom,
            plan.protmode,
            room,
        ),
        Method::Iam2 | Method::Iam3 => reader_build::iam1(plan.keyid, room),
        Method::Mam => reader_build::mam1(plan.keyid, plan.ichallenge, room),
    }
}

/// The message that proves the reader to the tag, of the tag's challenge. TAM has none.
/// Ruled out: an IAM2 where the trainee picked IAM3; a message that is sent in TAM.
#[tactic(auto, unfolding(crate::specs::Drafts::closing))]
pub fn closing(
    plan: Plan,
    tchallenge: [u8; 10],
    words: &[u8],
    room: &mut [u8],
) -> Result<usize, ReaderFault>
    ensures { Makes (closing plan words.now tchallenge plan.method).fit
        (closing plan words.now tchallenge plan.method).message room.old result
        room.new }
{
    match plan.method {
        Method::Tam1 | Method::Tam2 => Err(ReaderFault::OwnMessage),
        Method::Iam2 => reader_build::iam2(plan.keys, plan.purpose, plan.irnd, tchallenge, room),
        Method::Iam3 => reader_build::iam3(
            plan.keys,
            plan.custom,
            plan.protmode,
            plan.purpose,
            plan.irnd,
            tchallenge,
            words,
            room,
        ),
        Method::Mam => reader_build::mam2(
            plan.keys,
            plan.purpose,
            plan.ichallenge,
            tchallenge,
            room,
        ),
    }
}
