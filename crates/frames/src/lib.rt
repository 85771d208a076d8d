// What a message says: the seven messages of ISO/IEC 29167-10, their fields, lengths, header and constants.
// Both halves, the tag and the reader's side, read and write messages here.
#![tactic(auto)]

use memory::{BlockSize, Offset};

pub mod first; // first.rt: which message a first byte begins
pub mod sizes; // sizes.rt: D, and the lengths of messages and replies
mod parts; // parts.rt: bytes into a room
pub mod protection; // protection.rt: the modes of Table 3
pub mod fields; // fields.rt: the fields of each message
pub mod build; // build.rt: each message, and the header, into a room
pub mod constants; // constants.rt: the constants of Table 1

// The seven messages, and what is none of them: a Step or a method that nothing uses.
#[derive(Clone, Copy, Debug, PartialEq, Eq)]
pub enum Kind {
    Tam1,
    Tam2,
    Iam1,
    Iam2,
    Iam3,
    Mam1,
    Mam2,
    Unsupported,
}

// The four modes of operation that ProtMode selects (Table 3): data as they are, encrypted, with a MAC, and both.
#[derive(Clone, Copy, Debug, PartialEq, Eq)]
pub enum ProtMode {
    Plaintext,
    Cbc,
    Cmac,
    CbcCmac,
}

// The custom data that a message names (9.2). Profile has 4 bits, Offset 12, BlockCount 4.
#[derive(Clone, Copy, Debug, PartialEq, Eq)]
pub struct Custom {
    pub blocksize: BlockSize,
    pub profile: u8,
    pub offset: Offset,
    pub blockcount: u8,
}

// Table 4. RFU has 5 bits.
#[derive(Clone, Copy, Debug, PartialEq, Eq)]
pub struct Tam1 {
    pub rfu: u8,
    pub keyid: u8,
    pub ichallenge: [u8; 10],
}

// Table 6. RFU has 3 bits, ProtMode 4.
#[derive(Clone, Copy, Debug, PartialEq, Eq)]
pub struct Tam2 {
    pub rev: bool,
    pub rfu: u8,
    pub keyid: u8,
    pub ichallenge: [u8; 10],
    pub custom: Custom,
    pub protmode: u8,
}

// Table 15. RFU has 4 bits.
#[derive(Clone, Copy, Debug, PartialEq, Eq)]
pub struct Iam1 {
    pub rfu: u8,
    pub keyid: u8,
}

// Table 17. RFU has 3 bits.
#[derive(Clone, Copy, Debug, PartialEq, Eq)]
pub struct Iam2 {
    pub rfu: u8,
    pub iresponse: [u8; 16],
}

// Table 18, up to the first block of IResponse. RFU has 2 bits, ProtMode 4.
#[derive(Clone, Copy, Debug, PartialEq, Eq)]
pub struct Iam3 {
    pub rfu: u8,
    pub custom: Custom,
    pub protmode: u8,
    pub iresponse: [u8; 16],
}

// Table 23. RFU has 4 bits.
#[derive(Clone, Copy, Debug, PartialEq, Eq)]
pub struct Mam1 {
    pub rfu: u8,
    pub keyid: u8,
    pub ichallenge: [u8; 10],
}

// Table 25. RFU has 4 bits.
#[derive(Clone, Copy, Debug, PartialEq, Eq)]
pub struct Mam2 {
    pub rfu: u8,
    pub iresponse: [u8; 16],
}
