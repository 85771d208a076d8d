// The steps of hex.
ghost use Rattle.std.specs.Prelude.{true, ◌≡◌, [], ◌∷◌, ◌++◌, ◌*◌, ◌/◌, ◌%◌, ◌≤◌, length, drop};
ghost use Rattle.text.specs.Digits.{digits, glyph as Digits·glyph};
ghost use Rattle.text.specs.Hex.{is_dash, bytes_of, pairs};

use crate::digits::{glyph, value};

// Is it the word for no bytes?
pub(crate) fn is_dash(word: &[u8]) -> bool
    ensures { result ≡ is_dash word.now }
{
    word == b"-".as_slice()
}

// The bytes of a word of hex digits over the first of a room.
pub(crate) fn read_pairs(word: &[u8], room: &mut [u8])
    requires { (digits 16 word.now ≡ true) × (length word.now / 2 ≤ length room.old) }
    ensures { room.new ≡ bytes_of word.now ++ drop (length (bytes_of word.now))
        room.old }
{
    for i in 0..word.len() / 2 {
        let high = value(word[i * 2]);
        let low = value(word[i * 2 + 1]);
        room[i] = high * 16 + low;
    }
}

// Two digits for each byte over the first characters of a room.
pub(crate) fn write_pairs(bytes: &[u8], room: &mut [u8])
    requires { length bytes.now * 2 ≤ length room.old }
    ensures { room.new ≡ pairs bytes.now ++ drop (length (pairs bytes.now))
        room.old }
{
    for i in 0..bytes.len() {
        let high = glyph(bytes[i] / 16);
        let low = glyph(bytes[i] % 16);
        room[i * 2] = high;
        room[i * 2 + 1] = low;
    }
}
