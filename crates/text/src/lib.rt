// Bytes and numbers as people write them: hex digits and decimal digits.
#![tactic(auto)]

mod decimal; // decimal.rt: the steps of decimal
mod digits; // digits.rt: digits and words of them
mod hex; // hex.rt: the steps of hex

ghost use Rattle.std.specs.Prelude.{◌≡◌};
ghost use Rattle.text.specs.Decimal.{decimal_read, decimal_word};
ghost use Rattle.text.specs.Hex.{ReadsHex, hex_word};
ghost use Rattle.text.specs.Room.{Writes};

/// Why a word is not read as bytes: it is none of hex digits, their number is odd, or the room has fewer bytes.
#[derive(Clone, Copy, Debug, PartialEq, Eq)]
pub enum HexFault {
    NotHex,
    Odd,
    Over,
}

/// Why a word is not read as a number: it is none of decimal digits, or the number is over 65,535.
#[derive(Clone, Copy, Debug, PartialEq, Eq)]
pub enum DecimalFault {
    NotNumber,
    Over,
}

/// Reads a word of hex digits of either case into the first bytes of a room, and answers how many bytes; `-` is no
/// bytes. Where the word is refused, no byte of the room changes.
///
/// Ruled out: `A` read as another value than `a`; a word of which the first digits are read and the rest is left.
pub fn read_hex(word: &[u8], room: &mut [u8]) -> Result<usize, HexFault>
    ensures { ReadsHex word.now room.old result room.new }
{
    if hex::is_dash(word) {
        return Ok(0);
    }
    if !digits::is_word(word, 16) {
        return Err(HexFault::NotHex);
    }
    if word.len() % 2 == 1 {
        return Err(HexFault::Odd);
    }
    let n = word.len() / 2;
    if room.len() < n {
        return Err(HexFault::Over);
    }
    hex::read_pairs(word, room);
    Ok(n)
}

/// Writes bytes as hex digits in lower case over the first characters of a room, `-` for no bytes, and answers how many
/// characters. Where the room is shorter, the answer is `None` and no byte changes.
///
/// Ruled out: a byte's low digit before its high one; a part of the digits written where there is no room for all.
pub fn write_hex(bytes: &[u8], room: &mut [u8]) -> Option<usize>
    ensures { Writes (hex_word bytes.now) room.old result room.new }
{
    if bytes.is_empty() {
        return write(b"-", room);
    }
    let n = bytes.len();
    if room.len() / 2 < n {
        return None;
    }
    hex::write_pairs(bytes, room);
    Some(n * 2)
}

/// Reads a word of decimal digits, with or without zeros in front.
///
/// Ruled out: a number over 65,535 cut to 16 bits; the empty word read as 0.
pub fn read_decimal(word: &[u8]) -> Result<u16, DecimalFault>
    ensures { result ≡ decimal_read word.now }
{
    if !digits::is_word(word, 10) {
        return Err(DecimalFault::NotNumber);
    }
    let mut n = 0;
    for c in word {
        let Some(longer) = decimal::behind(n, *c) else {
            return Err(DecimalFault::Over);
        };
        n = longer;
    }
    Ok(n)
}

/// Writes a number in the fewest decimal digits over the first characters of a room, and answers how many. Where the
/// room is shorter, the answer is `None` and no byte changes.
///
/// Ruled out: zeros in front; 0 written as no digits.
pub fn write_decimal(number: u16, room: &mut [u8]) -> Option<usize>
    ensures { Writes (decimal_word number) room.old result room.new }
{
    let digits = decimal::five(number);
    let zeros = decimal::zeros(&digits);
    write(&digits[zeros..], room)
}

// A word over the first characters of a room, where it has as many.
fn write(word: &[u8], room: &mut [u8]) -> Option<usize>
    ensures { Writes word.now room.old result room.new }
{
    let n = word.len();
    if room.len() < n {
        return None;
    }
    room[..n].copy_from_slice(word);
    Some(n)
}
