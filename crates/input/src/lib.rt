// The bench's commands, line by line: those of standard input, and those of a script.
#![tactic(auto)]

use commands::Desk;
use console::reason::Reason;
use console::words::Words;
use std::io;
use std::io::Read;
use std::random::RandomSource;

// The bytes of the longest line.
const LINE_LIMIT: usize = 65536;

// A line as far as it came in, its end not counted. Of a line over the limit the bytes behind it are counted alone.
#[derive(Drop)]
struct Line {
    room: [u8; LINE_LIMIT],
    length: usize,
}

impl Line {
    fn empty() -> Line {
        Line {
            room: [0; LINE_LIMIT],
            length: 0,
        }
    }

    fn push(&mut self, byte: u8) {
        if let Some(place) = self.room.get_mut(self.length) {
            *place = byte;
        }
        self.length = self.length.saturating_add(1);
    }

    // The answer to the line, and the next line's beginning.
    fn end(&mut self, rt: &(impl Print + RandomSource), desk: &mut Desk) -> io::Result<()> {
        let length = self.length;
        self.length = 0;
        match self.room.get(..length) {
            Some(line) => desk.answer(rt, line),
            None => over(rt),
        }
    }
}

// A proved loop has to end, and nothing says that the input does. No input has as many parts.
const PARTS: u64 = 1000000000000000000;

/// The commands of standard input, each line answered.
pub fn lines(rt: &(impl Input + Print + RandomSource)) -> io::Result<()> {
    let mut input = rt.reader();
    let mut desk = Desk::empty();
    let mut line = Line::empty();
    for _ in 0..PARTS {
        let mut part = [0; 4096];
        let n = match input.read(&mut part) {
            Ok(n) => n,
            Err(_) => {
                println!(rt; "error: standard input can't be read")?;
                0
            }
        };
        if n == 0 {
            break;
        }
        for byte in &part[..n] {
            if *byte == b'\n' {
                line.end(rt, &mut desk)?;
            } else {
                line.push(*byte);
            }
        }
    }
    line.end(rt, &mut desk) // the last line may have no end
}

/// The commands of a script, each line shown before its answer, behind a mark where it is a command. A line over the
/// limit is not shown, and what follows the last line's end is no line.
pub fn script(rt: &(impl Print + RandomSource), text: &[u8]) -> io::Result<()> {
    let mut desk = Desk::empty();
    for ended in text.split_inclusive(|b| *b == b'\n') {
        let Some((b'\n', line)) = ended.split_last() else {
            break;
        };
        if line.len() <= LINE_LIMIT {
            show(rt, line)?;
            desk.answer(rt, line)?;
        } else {
            over(rt)?;
        }
    }
    Ok(())
}

fn show(rt: &impl Print, line: &[u8]) -> io::Result<()> {
    if Words::of(line).next().is_some() {
        rt.write_all(b"> ")?;
    }
    rt.write_all(line)?;
    rt.write_all(b"\n")
}

fn over(rt: &impl Print) -> io::Result<()> {
    println!(rt; "error: {}", Reason::LineOver)
}
