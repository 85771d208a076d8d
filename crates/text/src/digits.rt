// Digits as characters, and words of them.
ghost use Rattle.std.specs.Prelude.{◌≡◌, ◌<◌, ◌≤◌, ltb, MatchOption};
ghost use Rattle.text.specs.Digits.{value as Digits·value, glyph, is_word};

// The value of a digit, where the character is one.
fn digit(c: u8) -> Option<u8>
    ensures { MatchOption result (Digits·value c ≡ 16) (λ v. (v ≡ Digits·value c) × (v < 16)) }
{
    match c {
        b'0'..=b'9' => Some(c - b'0'),
        b'a'..=b'f' => Some(c - b'a' + 10),
        b'A'..=b'F' => Some(c - b'A' + 10),
        _ => None,
    }
}

// The same as a number, 16 where the character is no digit: above every digit of every base.
pub(crate) fn value(c: u8) -> u8
    ensures { result ≡ Digits·value c }
{
    digit(c).unwrap_or(16)
}

// The digit of a value.
pub(crate) fn glyph(d: u8) -> u8
    requires { d < 16 }
    ensures { result ≡ glyph d }
{
    if d < 10 { b'0' + d } else { b'a' + (d - 10) }
}

// Is it a word of digits below the base: at least one, and nothing else?
pub(crate) fn is_word(word: &[u8], base: u8) -> bool
    ensures { result ≡ is_word base word.now }
{
    !word.is_empty() && word.iter().all(|c| value(*c) < base)
}
