// The soft tag's commands: sheet, area, areas, power, message.
#![tactic(auto)]

use console::answer::{Decimal, Hex, at_once};
use console::bytes::{Bytes, FIELD_LIMIT};
use console::fields::{Fields, room};
use console::reason::{Fault, Reason};
use console::words::Words;
use frames::sizes::REPLY_ROOM;
use sheet::{SheetRefusal, Terms};
use std::random::RandomSource;
use tag::Tag;

// The bytes of the longest key table.
const KEY_TABLE: usize = sheet::KEY_LIMIT * sheet::KEY_RECORD;

/// The tag's place on the bench from one command to the next: a tag, where a sheet was accepted, and the bytes lent of
/// its key table and of each area.
#[derive(Clone, Copy)]
pub struct Place {
    tag: Option<Tag>,
    keys: Bytes<KEY_TABLE>,
    identity: Bytes<FIELD_LIMIT>,
    user: Bytes<FIELD_LIMIT>,
}

impl Place {
    /// Before the first command.
    pub fn empty() -> Place {
        Place {
            tag: None,
            keys: Bytes::zeros(0),
            identity: Bytes::zeros(0),
            user: Bytes::zeros(0),
        }
    }

    // A tag at its power-up, with areas of zeros in the sheet's sizes.
    fn set_up(terms: Terms, keys: &[u8]) -> Place {
        Place {
            tag: Some(tag::power_up(terms)),
            keys: Bytes::of(keys),
            identity: Bytes::zeros(2 * usize::from(terms.sizes.identity)),
            user: Bytes::zeros(2 * usize::from(terms.sizes.user)),
        }
    }

    pub fn sheet(&mut self, rt: &impl Print, words: Words<'_>) -> Result<(), Fault> {
        let sheet = Fields::exactly(words, 1)?.bytes()?;
        match bench::cursor::read(sheet.as_slice()) {
            Err(SheetRefusal { fault, at }) => {
                let number = Decimal(u8::from(fault).into());
                // (No place in a field's bytes is as far as 65,536.)
                println!(rt; "refused {number} at {}", Decimal((at % 65536) as u16))?
            }
            Ok(reading) => {
                *self = Place::set_up(
                    reading.terms,
                    sheet::key_table(sheet.as_slice(), reading.keys),
                );
                println!(rt; "ok")?;
            }
        }
        Ok(())
    }

    pub fn area(&mut self, rt: &impl Print, words: Words<'_>) -> Result<(), Fault> {
        let mut fields = Fields::exactly(words, 2)?;
        let area = match fields.number()? {
            0 => &mut self.identity,
            1 => &mut self.user,
            _ => return Err(Fault::from(Reason::NoArea)),
        };
        *area = fields.bytes()?;
        println!(rt; "ok")?;
        Ok(())
    }

    pub fn areas(&self, rt: &impl Print, words: Words<'_>) -> Result<(), Fault> {
        Fields::exactly(words, 0)?;
        at_once(
            rt,
            format_args!(
                "area 0 {} area 1 {}",
                Hex(self.identity.as_slice()),
                Hex(self.user.as_slice())
            ),
        )?;
        Ok(())
    }

    pub fn power(&mut self, rt: &impl Print, words: Words<'_>) -> Result<(), Fault> {
        Fields::exactly(words, 0)?;
        bench::power_up(self.tag.as_mut().ok_or(Reason::NoTag)?);
        println!(rt; "ok")?;
        Ok(())
    }

    pub fn message(
        &mut self,
        rt: &(impl Print + RandomSource),
        words: Words<'_>,
    ) -> Result<(), Fault> {
        let mut fields = Fields::between(words, 1, 3)?;
        let message = fields.bytes()?;
        let given = given_draws(fields.word())?;
        let room = reply_room(fields.word())?;
        if self.tag.is_none() {
            return Err(Fault::from(Reason::NoTag));
        }
        self.sent(rt, message.as_slice(), given, room)
    }

    // (A function of its own, so that its rooms are made where there is a tag alone.)
    fn sent(
        &mut self,
        rt: &(impl Print + RandomSource),
        message: &[u8],
        given: Option<Bytes<FIELD_LIMIT>>,
        room: usize,
    ) -> Result<(), Fault> {
        let tag = self.tag.as_mut().ok_or(Reason::NoTag)?;
        let mut drawn = [0; 10];
        let draws = match &given {
            Some(draws) => draws.as_slice(),
            None => {
                drawn = random_draws(rt)?;
                &drawn
            }
        };
        let mut room = Bytes::<FIELD_LIMIT>::zeros(room);
        let outcome = bench::step(
            tag,
            self.keys.as_slice(),
            message,
            draws,
            room.as_mut_slice(),
            self.identity.as_mut_slice(),
            self.user.as_mut_slice(),
        );
        told::outcome(rt, outcome, tag.session.state, room.as_slice())?;
        Ok(())
    }
}

// The draws of a field; none, where they are those of the system's random source.
fn given_draws(field: Option<&[u8]>) -> Result<Option<Bytes<FIELD_LIMIT>>, Reason> {
    match field {
        None | Some(b"*") => Ok(None),
        Some(word) => Ok(Some(Bytes::read(word)?)),
    }
}

fn random_draws(rt: &impl RandomSource) -> Result<[u8; 10], Reason> {
    let mut draws = [0; 10];
    match rt.fill_bytes(&mut draws) {
        Ok(()) => Ok(draws),
        Err(_) => Err(Reason::NoRandom),
    }
}

fn reply_room(field: Option<&[u8]>) -> Result<usize, Reason> {
    match field {
        None => Ok(REPLY_ROOM),
        Some(word) => room(word),
    }
}
