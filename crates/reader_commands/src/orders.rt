// A message to build: its fields as they stand in the line, and the call that builds it. A field out of its range is
// the reader's own refusal.
use console::bytes::{Bytes, FIELD_LIMIT};
use console::fields::Fields;
use console::reason::Reason;
use console::words::Words;
use frames::Custom;
use memory::{BlockSize, Offset};
use reader::{Keys, ReaderFault};

/// A message to build. Of its fields numbers are of any size, and bytes are there where they are as many as they must
/// be.
#[derive(Clone, Copy)]
pub enum Order {
    Open(Open),
    Keyed(Keyed),
}

/// A message that is made without a key.
#[derive(Clone, Copy)]
pub enum Open {
    Tam1(Challenge),
    Iam1 { keyid: u16 },
    Mam1(Challenge),
}

/// What TAM1 and MAM1 are made of.
#[derive(Clone, Copy)]
pub struct Challenge {
    keyid: u16,
    ichallenge: Option<[u8; 10]>,
}

/// A message that is made with the reader's keys.
#[derive(Clone, Copy)]
pub enum Keyed {
    Tam2 {
        blocksize: u16,
        rev: u16,
        keyid: u16,
        ichallenge: Option<[u8; 10]>,
        place: Place,
        protmode: u16,
    },
    Iam2 {
        purpose: u16,
        irnd: Option<[u8; 4]>,
        tchallenge: Option<[u8; 10]>,
    },
    Iam3 {
        blocksize: u16,
        place: Place,
        protmode: u16,
        purpose: u16,
        irnd: Option<[u8; 4]>,
        tchallenge: Option<[u8; 10]>,
        data: Bytes<FIELD_LIMIT>,
    },
    Mam2 {
        purpose: u16,
        ichallenge: Option<[u8; 10]>,
        tchallenge: Option<[u8; 10]>,
    },
}

/// Profile, Offset and BlockCount, which stand side by side.
#[derive(Clone, Copy)]
pub struct Place {
    profile: u16,
    offset: u16,
    blockcount: u16,
}

/// The order of a line, behind the word build.
pub fn read(words: Words<'_>) -> Result<Order, Reason> {
    let mut words = words;
    match words.next().ok_or(Reason::WordMissing)? {
        b"tam1" => Ok(Order::Open(Open::Tam1(Challenge::read(words)?))),
        b"tam2" => Ok(Order::Keyed(tam2(words)?)),
        b"iam1" => Ok(Order::Open(iam1(words)?)),
        b"iam2" => Ok(Order::Keyed(iam2(words)?)),
        b"iam3" => Ok(Order::Keyed(iam3(words)?)),
        b"mam1" => Ok(Order::Open(Open::Mam1(Challenge::read(words)?))),
        b"mam2" => Ok(Order::Keyed(mam2(words)?)),
        _ => Err(Reason::UnknownMessage),
    }
}

impl Challenge {
    fn read(words: Words<'_>) -> Result<Challenge, Reason> {
        let mut fields = Fields::exactly(words, 2)?;
        Ok(Challenge {
            keyid: fields.number()?,
            ichallenge: fields.array()?,
        })
    }
}

fn iam1(words: Words<'_>) -> Result<Open, Reason> {
    let mut fields = Fields::exactly(words, 1)?;
    Ok(Open::Iam1 {
        keyid: fields.number()?,
    })
}

fn tam2(words: Words<'_>) -> Result<Keyed, Reason> {
    let mut fields = Fields::exactly(words, 8)?;
    Ok(Keyed::Tam2 {
        blocksize: fields.number()?,
        rev: fields.number()?,
        keyid: fields.number()?,
        ichallenge: fields.array()?,
        place: Place::read(&mut fields)?,
        protmode: fields.number()?,
    })
}

fn iam2(words: Words<'_>) -> Result<Keyed, Reason> {
    let mut fields = Fields::exactly(words, 3)?;
    Ok(Keyed::Iam2 {
        purpose: fields.number()?,
        irnd: fields.array()?,
        tchallenge: fields.array()?,
    })
}

fn iam3(words: Words<'_>) -> Result<Keyed, Reason> {
    let mut fields = Fields::exactly(words, 9)?;
    Ok(Keyed::Iam3 {
        blocksize: fields.number()?,
        place: Place::read(&mut fields)?,
        protmode: fields.number()?,
        purpose: fields.number()?,
        irnd: fields.array()?,
        tchallenge: fields.array()?,
        data: fields.bytes()?,
    })
}

fn mam2(words: Words<'_>) -> Result<Keyed, Reason> {
    let mut fields = Fields::exactly(words, 3)?;
    Ok(Keyed::Mam2 {
        purpose: fields.number()?,
        ichallenge: fields.array()?,
        tchallenge: fields.array()?,
    })
}

impl Place {
    fn read(fields: &mut Fields<'_>) -> Result<Place, Reason> {
        Ok(Place {
            profile: fields.number()?,
            offset: fields.number()?,
            blockcount: fields.number()?,
        })
    }
}

impl Open {
    /// The message in the room's first bytes; its length.
    pub fn made(self, room: &mut [u8]) -> Result<usize, ReaderFault> {
        match self {
            Open::Tam1(fields) => reader_build::tam1(
                byte(fields.keyid)?,
                whole(fields.ichallenge)?,
                room,
            ),
            Open::Iam1 { keyid } => reader_build::iam1(byte(keyid)?, room),
            Open::Mam1(fields) => reader_build::mam1(
                byte(fields.keyid)?,
                whole(fields.ichallenge)?,
                room,
            ),
        }
    }
}

impl Keyed {
    /// The message in the room's first bytes; its length.
    pub fn made(self, keys: Keys, room: &mut [u8]) -> Result<usize, ReaderFault> {
        match self {
            Keyed::Tam2 {
                blocksize,
                rev,
                keyid,
                ichallenge,
                place,
                protmode,
            } => {
                let keyid = byte(keyid)?;
                let ichallenge = whole(ichallenge)?;
                let custom = custom(blocksize, place)?;
                reader_build::tam2(
                    keys,
                    keyid,
                    ichallenge,
                    bit(rev)?,
                    custom,
                    byte(protmode)?,
                    room,
                )
            }
            Keyed::Iam2 {
                purpose,
                irnd,
                tchallenge,
            } => reader_build::iam2(keys, byte(purpose)?, whole(irnd)?, whole(tchallenge)?, room),
            Keyed::Iam3 {
                blocksize,
                place,
                protmode,
                purpose,
                irnd,
                tchallenge,
                data,
            } => {
                let custom = custom(blocksize, place)?;
                let protmode = byte(protmode)?;
                let purpose = byte(purpose)?;
                let irnd = whole(irnd)?;
                let tchallenge = whole(tchallenge)?;
                reader_build::iam3(
                    keys,
                    custom,
                    protmode,
                    purpose,
                    irnd,
                    tchallenge,
                    data.as_slice(),
                    room,
                )
            }
            Keyed::Mam2 {
                purpose,
                ichallenge,
                tchallenge,
            } => reader_build::mam2(
                keys,
                byte(purpose)?,
                whole(ichallenge)?,
                whole(tchallenge)?,
                room,
            ),
        }
    }
}

// A field that must be there.
fn whole<const N: usize>(field: Option<[u8; N]>) -> Result<[u8; N], ReaderFault> {
    field.ok_or(ReaderFault::OwnMessage)
}

// A number of one byte.
fn byte(number: u16) -> Result<u8, ReaderFault> {
    u8::try_from(number).map_err(|_| ReaderFault::OwnMessage)
}

// A number of one bit.
fn bit(number: u16) -> Result<bool, ReaderFault> {
    match number {
        0 => Ok(false),
        1 => Ok(true),
        _ => Err(ReaderFault::OwnMessage),
    }
}

fn custom(blocksize: u16, place: Place) -> Result<Custom, ReaderFault> {
    Ok(Custom {
        blocksize: size(blocksize)?,
        profile: byte(place.profile)?,
        offset: Offset(place.offset),
        blockcount: byte(place.blockcount)?,
    })
}

// BlockSize 0 asks for 64-bit blocks, 1 for 16-bit blocks.
fn size(blocksize: u16) -> Result<BlockSize, ReaderFault> {
    Ok(BlockSize::from(u8::from(bit(blocksize)?)))
}
