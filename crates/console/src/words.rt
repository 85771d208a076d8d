// The words of a line.
ghost use Rattle.std.specs.Prelude.{◌≡◌, ◌==◌, length, option_map};
ghost use Rattle.std.specs.Iterator.{at_most};
ghost use Rattle.std.specs.List.{before_first};
ghost use Rattle.console.specs.Words.{blank, word_of, left_of};

fn is_blank(b: u8) -> bool
    ensures { result ≡ blank b }
{
    matches!(b, b' ' | b'\t' | b'\r')
}

/// The words of a line that are left, from left to right.
#[derive(Clone, Copy)]
pub struct Words<'a> {
    rest: &'a [u8],
}

impl<'a> Words<'a> {
    /// The words of a line up to its comment. Ruled out: the words of the comment; those behind the first alone.
    pub fn of(line: &'a [u8]) -> Words<'a>
        ensures { result.rest.now ≡ before_first (λ c. c == 35) line.now }
    {
        let end = line.iter().position(|b| *b == b'#').unwrap_or(line.len());
        Words { rest: &line[..end] }
    }
}

/// The first word, and what is left behind it. Ruled out: a word with the blank behind it; a word given twice.
impl<'a> Iterator for Words<'a> {
    type Item = &'a [u8];

    ghost remaining = { λ words. at_most (length words.rest.now) };

    ghost next_gives = { λ before out after. (option_map (λ w. w.now) out ≡ word_of before.rest.now)
        × (after.rest.now ≡ left_of before.rest.now) };

    fn next(&mut self) -> Option<&'a [u8]> {
        let rest = self.rest;
        let start = rest.iter().position(|b| !is_blank(*b))?;
        let behind = &rest[start + 1..];
        let more = behind
            .iter()
            .position(|b| is_blank(*b))
            .unwrap_or(behind.len());
        let end = start + 1 + more;
        self.rest = &rest[end..];
        Some(&rest[start..end])
    }
}
