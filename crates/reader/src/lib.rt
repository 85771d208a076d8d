// What the reader's side stands on (ISO/IEC 29167-10, the Interrogator): its keys, its numbers, and what it asks of its
// own message.
// reader_build makes the messages, reader_judge judges the replies.
#![tactic(auto)]

pub mod own; // own.rt: number 24, of the reader's own message

ghost use Rattle.std.specs.Prelude.{◌≡◌};
ghost use Rattle.reader.specs.Keys.{keys_of};
ghost use Rattle.reader.specs.Numbers.{number_of};

/// The keys that the reader has of one record.
#[derive(Clone, Copy)]
pub struct Keys {
    pub enc: [u8; 16],
    // Two fields, no Option: iam3_response, tam2_in_mode and Shares are over mackey, whatever mac says.
    pub mac: bool,
    pub mackey: [u8; 16],
}

/// The keys of a record with that MAC key, or with none: then it is zeros.
///
/// Ruled out: ENC_key in the place of a MAC key that is not there; a MAC key that does not count.
pub fn keys_of(enc: [u8; 16], mackey: Option<[u8; 16]>) -> Keys
    ensures { result ≡ keys_of enc mackey }
{
    Keys {
        enc,
        mac: mackey.is_some(),
        mackey: mackey.unwrap_or([0u8; 16]),
    }
}

/// Why the reader's side refuses: the scope paper's numbers 20 to 24.
#[derive(Clone, Copy, Debug, PartialEq, Eq)]
pub enum ReaderFault {
    ReplyLength,
    ChallengeWrong,
    MacWrong,
    HeaderWrong,
    OwnMessage,
}

/// The scope paper's number of a refusal.
///
/// Ruled out: the MAC's number for a wrong challenge; the tag's numbers.
impl From<ReaderFault> for u8 {
    ghost from_gives = { λ fault n. n ≡ number_of fault };

    fn from(fault: ReaderFault) -> u8 {
        match fault {
            ReaderFault::ReplyLength => 20,
            ReaderFault::ChallengeWrong => 21,
            ReaderFault::MacWrong => 22,
            ReaderFault::HeaderWrong => 23,
            ReaderFault::OwnMessage => 24,
        }
    }
}

/// The scope paper's number of a refusal.
///
/// Ruled out: the MAC's number for a wrong challenge; the tag's numbers.
pub fn number(fault: ReaderFault) -> u8
    ensures { result ≡ number_of fault }
{
    u8::from(fault)
}
