// Bytes and numbers as they are answered, and a long answer written at once.
ghost use Rattle.std.specs.Prelude.{Some};
ghost use Rattle.std.specs.Fmt.{DisplaysOnOk};
ghost use Rattle.text.specs.Hex.{hex_word};
ghost use Rattle.text.specs.Decimal.{decimal_word};
ghost use Rattle.console.specs.Shown.{shown};

use crate::bytes::FIELD_LIMIT;
use std::fmt::{Display, Write};
use std::{fmt, io, str};

// Two digits for each byte. No byte string here is longer than a field.
const DIGITS: usize = 2 * FIELD_LIMIT;

/// Bytes in lower-case digits, `-` for no bytes, as `text::read_hex` reads them back; nothing for more than a field
/// has. Ruled out: the last byte left out; no sign for no bytes.
#[derive(Clone, Copy)]
pub struct Hex<'a>(pub &'a [u8]);

impl fmt::Display for Hex<'_> {
    ghost output = { λ bytes. Some (shown 8192 (hex_word bytes.0.now)) };

    fn fmt<W: fmt::Write>(&self, f: &mut fmt::Formatter<W>) -> fmt::Result {
        let mut room = [0; DIGITS];
        let n = text::write_hex(self.0, &mut room);
        digits(f, octets::front(&room, n.unwrap_or(0)))
    }
}

/// A number in decimal digits without leading zeros, as `text::read_decimal` reads them back. Ruled out: the next
/// number; zeros in front.
#[derive(Clone, Copy)]
pub struct Decimal(pub u16);

impl fmt::Display for Decimal {
    ghost output = { λ number. Some (shown 5 (decimal_word number.0)) };

    fn fmt<W: fmt::Write>(&self, f: &mut fmt::Formatter<W>) -> fmt::Result {
        let mut room = [0; 5];
        let n = text::write_decimal(self.0, &mut room);
        digits(f, octets::front(&room, n.unwrap_or(0)))
    }
}

fn digits<W: fmt::Write>(f: &mut fmt::Formatter<W>, word: &[u8]) -> fmt::Result
    ensures { DisplaysOnOk W.write_str_gives f.old result (Some word.now) f.new }
{
    match str::from_utf8(word) {
        Ok(word) => f.write_str(word),
        Err(_) => Err(fmt::Error),
    }
}

// The longest answer is that to `areas`: two areas of a field's length, with the words before them.
const LONGEST: usize = 2 * DIGITS + 16;

// A line that is put together before it is written.
#[derive(Drop)]
struct Line {
    room: [u8; LONGEST],
    length: usize,
}

impl fmt::Write for Line {
    fn write_str(&mut self, s: &str) -> fmt::Result {
        let end = self.length.saturating_add(s.len());
        let Some(place) = self.room.get_mut(self.length..end) else {
            return Err(fmt::Error);
        };
        place.copy_from_slice(s.as_bytes());
        self.length = end;
        Ok(())
    }
}

/// An answer in one write. What prints takes a character at a time, so this is for answers of many.
pub fn at_once<D: Display + Drop>(rt: &impl Print, answer: D) -> io::Result<()> {
    let mut line = Line {
        room: [0; LONGEST],
        length: 0,
    };
    match line.writeln(&answer) {
        Ok(()) => rt.write_all(octets::front(&line.room, line.length)),
        Err(_) => rt.println(&answer),
    }
}
