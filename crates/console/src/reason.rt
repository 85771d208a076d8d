// What a line is refused for.
ghost use Rattle.std.specs.Prelude.{◌≡◌};
ghost use Rattle.console.specs.Reasons.{decimal_reason, hex_reason};
ghost use Rattle.console.specs.declared.reason.Fault.TheVariants.{Refused, Unwritten};

use std::{fmt, io};
use text::{DecimalFault, HexFault};

/// What is said of a line that is refused, behind `error: `.
#[derive(Clone, Copy, Debug, PartialEq, Eq)]
pub enum Reason {
    LineOver,
    UnknownCommand,
    UnknownForm,
    UnknownMessage,
    WordMissing,
    WordTooMany,
    NotNumber,
    NumberOver,
    NotHex,
    OddDigits,
    BytesOver,
    NotSixteen,
    NoArea,
    RoomOver,
    NoTag,
    NoRandom,
    NoKeys,
    NoSuchNumber,
}

impl fmt::Display for Reason {
    fn fmt<W: fmt::Write>(&self, f: &mut fmt::Formatter<W>) -> fmt::Result {
        f.write_str(match self {
            Reason::LineOver => "line over 65536 bytes",
            Reason::UnknownCommand => "unknown command",
            Reason::UnknownForm => "unknown form",
            Reason::UnknownMessage => "unknown message",
            Reason::WordMissing => "word missing",
            Reason::WordTooMany => "word too many",
            Reason::NotNumber => "not a number",
            Reason::NumberOver => "number over 65535",
            Reason::NotHex => "not hex",
            Reason::OddDigits => "odd number of hex digits",
            Reason::BytesOver => "over 4096 bytes",
            Reason::NotSixteen => "not 16 bytes",
            Reason::NoArea => "area 0 or 1",
            Reason::RoomOver => "room over 4096",
            Reason::NoTag => "no tag yet",
            Reason::NoRandom => "no random bytes",
            Reason::NoKeys => "no keys yet",
            Reason::NoSuchNumber => "no such number",
        })
    }
}

/// What is said of a word that is not read as a number. Ruled out: the two exchanged; one for both.
impl From<DecimalFault> for Reason {
    ghost from_gives = { λ fault reason. reason ≡ decimal_reason fault };

    fn from(fault: DecimalFault) -> Reason {
        match fault {
            DecimalFault::NotNumber => Reason::NotNumber,
            DecimalFault::Over => Reason::NumberOver,
        }
    }
}

/// What is said of a word that is not read as bytes. Ruled out: an odd number of digits told as no hex; two exchanged.
impl From<HexFault> for Reason {
    ghost from_gives = { λ fault reason. reason ≡ hex_reason fault };

    fn from(fault: HexFault) -> Reason {
        match fault {
            HexFault::NotHex => Reason::NotHex,
            HexFault::Odd => Reason::OddDigits,
            HexFault::Over => Reason::BytesOver,
        }
    }
}

/// Why a line has no answer: it is refused, or its answer can't be written.
#[derive(Debug, Drop)]
pub enum Fault {
    Refused(Reason),
    Unwritten(io::Error),
}

/// A line that is refused. Ruled out: another reason than the line's; an answer that can't be written.
impl From<Reason> for Fault {
    ghost from_gives = { λ reason fault. fault ≡ Refused reason };

    fn from(reason: Reason) -> Fault {
        Fault::Refused(reason)
    }
}

/// An answer that can't be written. Ruled out: another error than the writer's; a line that is refused.
impl From<io::Error> for Fault {
    ghost from_gives = { λ error fault. fault ≡ Unwritten error };

    fn from(error: io::Error) -> Fault {
        Fault::Unwritten(error)
    }
}
