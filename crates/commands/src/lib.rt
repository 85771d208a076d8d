// The bench's commands: which one a line is, and what is kept from one to the next.
#![tactic(auto)]

use console::answer::at_once;
use console::fields::Fields;
use console::reason::{Fault, Reason};
use console::words::Words;
use reader_commands::Reader;
use std::io;
use std::random::RandomSource;
use tag_commands::Place;
use texts::explain;

/// What is kept from one command to the next, of each half.
#[derive(Clone, Copy)]
pub struct Desk {
    place: Place,
    reader: Reader,
}

impl Desk {
    /// Before the first command.
    pub fn empty() -> Desk {
        Desk {
            place: Place::empty(),
            reader: Reader::empty(),
        }
    }

    /// The answer to a line; none to one that has no word.
    pub fn answer(&mut self, rt: &(impl Print + RandomSource), line: &[u8]) -> io::Result<()> {
        match self.follow(rt, Words::of(line)) {
            Ok(()) => Ok(()),
            Err(Fault::Refused(reason)) => println!(rt; "error: {reason}"),
            Err(Fault::Unwritten(error)) => Err(error),
        }
    }

    fn follow(&mut self, rt: &(impl Print + RandomSource), words: Words<'_>) -> Result<(), Fault> {
        let mut words = words;
        let Some(name) = words.next() else {
            return Ok(());
        };
        match name {
            b"sheet" => self.place.sheet(rt, words),
            b"area" => self.place.area(rt, words),
            b"areas" => self.place.areas(rt, words),
            b"power" => self.place.power(rt, words),
            b"message" => self.place.message(rt, words),
            b"keys" => self.reader.keys(rt, words),
            b"build" => self.reader.build(rt, words),
            b"judge" => self.reader.judge(rt, words),
            b"aes" => cipher_commands::aes(rt, words),
            b"cbc" => cipher_commands::cbc(rt, words),
            b"cmac" => cipher_commands::cmac(rt, words),
            b"explain" => explained(rt, words),
            b"help" => helped(rt, words),
            _ => Err(Fault::from(Reason::UnknownCommand)),
        }
    }
}

fn explained(rt: &impl Print, words: Words<'_>) -> Result<(), Fault> {
    let number = Fields::exactly(words, 1)?.number()?;
    at_once(rt, explain::number(number).ok_or(Reason::NoSuchNumber)?)?;
    Ok(())
}

fn helped(rt: &impl Print, words: Words<'_>) -> Result<(), Fault> {
    Fields::exactly(words, 0)?;
    at_once(rt, explain::COMMANDS)?;
    Ok(())
}
