// The steps of decimal.
ghost use Rattle.std.specs.Prelude.{◌≡◌, ◌+◌, ◌*◌, ◌%◌, ◌^◌, ◌<◌, ◌≤◌, length, drop, SomeIff};
ghost use Rattle.text.specs.Decimal.{five_digits, trimmed};
ghost use Rattle.text.specs.Digits.{value as Digits·value, glyph as Digits·glyph};

use crate::digits::{glyph, value};

// A number with one digit more behind it, where it has 16 bits.
pub(crate) fn behind(n: u16, c: u8) -> Option<u16>
    ensures { SomeIff result (n * 10 + Digits·value c < 2 ^ 16) (n * 10 + Digits·value c) }
{
    n.checked_mul(10)?.checked_add(u16::from(value(c)))
}

// The last digit of a number.
fn last(n: u16) -> u8
    ensures { result ≡ Digits·glyph (n % 10) }
{
    glyph((n % 10) as u8)
}

// The last five digits of a number.
pub(crate) fn five(n: u16) -> [u8; 5]
    ensures { result ≡ five_digits n }
{
    [
        last(n / 10000),
        last(n / 1000),
        last(n / 100),
        last(n / 10),
        last(n),
    ]
}

// How many zeros stand in front, the last digit not counted.
pub(crate) fn zeros(digits: &[u8]) -> usize
    requires { 0 < length digits.now }
    ensures { (result < length digits.now)
        × (drop result digits.now ≡ trimmed digits.now) }
{
    let last = digits.len() - 1;
    digits.iter().position(|d| *d != b'0').unwrap_or(last)
}
