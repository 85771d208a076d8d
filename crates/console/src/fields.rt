// The fields of a line, each taken as what it stands for. A line is refused for the number of its words, and then for
// the first field from the left that can't be read.
ghost use Rattle.std.specs.Prelude.{ℕ, ◌≡◌, ◌≤◌, length, option_map, IfOk, IfErr, IfSome, IfNone, Some, None};
ghost use Rattle.std.specs.Prelude.{Ok, Err, take, [], ◌∷◌};
ghost use Rattle.console.specs.declared.reason.Reason.TheVariants.{WordMissing};
ghost use Rattle.console.specs.Words.{word_of, left_of};
ghost use Rattle.console.specs.Reasons.{room_read, number_read, room_asked, hex_taken, array_of, sixteen_of};
ghost use Rattle.console.specs.Counts.{counted, fields_of};

use crate::bytes::{Bytes, FIELD_LIMIT};
use crate::reason::Reason;
use crate::words::Words;

/// The fields of a line that are left.
#[derive(Clone, Copy)]
pub struct Fields<'a> {
    words: Words<'a>,
}

impl<'a> Fields<'a> {
    /// The fields behind the words that were taken, of which there must be so many. Ruled out: a word missing told as
    /// one too many; the fields from the second on.
    pub fn exactly(words: Words<'a>, count: usize) -> Result<Fields<'a>, Reason>
        ensures { (n : ℕ) × (n ≤ length words.entry.rest.now)
            × (result ≡ counted n count count (fields_of words.entry)) }
    {
        Fields::between(words, count, count)
    }

    /// The same, at least and at most so many. Ruled out: a word missing where none is asked for; one too many where
    /// the line has fewer characters.
    pub fn between(words: Words<'a>, least: usize, most: usize) -> Result<Fields<'a>, Reason>
        ensures { (n : ℕ) × (n ≤ length words.entry.rest.now)
            × (result ≡ counted n least most (fields_of words.entry)) }
    {
        // (A line of very many words is gone through no further than tells.)
        let count = words.take(most.saturating_add(1)).count();
        if count < least {
            return Err(Reason::WordMissing);
        }
        if most < count {
            return Err(Reason::WordTooMany);
        }
        Ok(Fields { words })
    }

    /// The next field as it stands, where there is one. Ruled out: the field behind it; the same one given twice.
    pub fn word(&mut self) -> Option<&'a [u8]>
        ensures word { option_map (λ w. w.now) result ≡ word_of self.old.words.rest.now }
        ensures left { self.new.words.rest.now ≡ left_of self.old.words.rest.now }
    {
        self.words.next()
    }

    fn wanted(&mut self) -> Result<&'a [u8], Reason>
        ensures word { IfOk result (λ w. word_of self.old.words.rest.now ≡ Some w.now) }
        ensures none { IfErr result (λ r. (word_of self.old.words.rest.now ≡ None) × (r ≡ WordMissing)) }
        ensures left { self.new.words.rest.now ≡ left_of self.old.words.rest.now }
    {
        self.word().ok_or(Reason::WordMissing)
    }

    /// The next field as a number. Ruled out: a field missing told as no number; the field kept where it is read.
    pub fn number(&mut self) -> Result<u16, Reason>
        ensures number { result ≡ number_read (word_of self.old.words.rest.now) }
        ensures left { self.new.words.rest.now ≡ left_of self.old.words.rest.now }
    {
        Ok(text::read_decimal(self.wanted()?)?)
    }

    /// The next field as bytes. Ruled out: the bytes of the field behind it; a field missing told as no hex.
    pub fn bytes(&mut self) -> Result<Bytes<FIELD_LIMIT>, Reason>
        ensures bytes { IfOk result (λ b. hex_taken (word_of self.old.words.rest.now) ≡ Ok (take b.length b.room)) }
        ensures fault { IfErr result (λ r. hex_taken (word_of self.old.words.rest.now) ≡ Err r) }
        ensures left { self.new.words.rest.now ≡ left_of self.old.words.rest.now }
    {
        Bytes::read(self.wanted()?)
    }

    /// The bytes, where they are N. Ruled out: N bytes where the field has more; none where it has N.
    pub fn array<const N: usize>(&mut self) -> Result<Option<[u8; N]>, Reason>
        ensures array { result ≡ array_of N (hex_taken (word_of self.old.words.rest.now)) }
        ensures left { self.new.words.rest.now ≡ left_of self.old.words.rest.now }
    {
        array(self.wanted()?)
    }

    /// A key, a block or an IV. Ruled out: 15 bytes taken; other than 16 told as no hex.
    pub fn sixteen(&mut self) -> Result<[u8; 16], Reason>
        ensures sixteen { result ≡ sixteen_of (hex_taken (word_of self.old.words.rest.now)) }
        ensures left { self.new.words.rest.now ≡ left_of self.old.words.rest.now }
    {
        sixteen(self.wanted()?)
    }

    /// A key, or `-` for none. Ruled out: none for a field that is no hex; `-` told as no hex.
    pub fn sixteen_or_none(&mut self) -> Result<Option<[u8; 16]>, Reason>
        ensures none { word_of self.old.words.rest.now ≡ Some (45 ∷ []) → result ≡ Ok None }
        ensures dash { IfOk result (λ k. IfNone k (word_of self.old.words.rest.now ≡ Some (45 ∷ []))) }
        ensures key { IfOk result (λ k. IfSome k (λ b.
            sixteen_of (hex_taken (word_of self.old.words.rest.now)) ≡ Ok b)) }
        ensures fault { IfErr result (λ r. sixteen_of (hex_taken (word_of self.old.words.rest.now)) ≡ Err r) }
        ensures left { self.new.words.rest.now ≡ left_of self.old.words.rest.now }
    {
        match self.wanted()? {
            b"-" => Ok(None),
            field => Ok(Some(sixteen(field)?)),
        }
    }

    /// The length of a room. Ruled out: a field missing told as no number; a room over 4096.
    pub fn room(&mut self) -> Result<usize, Reason>
        ensures room { result ≡ room_asked (word_of self.old.words.rest.now) }
        ensures left { self.new.words.rest.now ≡ left_of self.old.words.rest.now }
    {
        room(self.wanted()?)
    }
}

// The bytes of a field, where they are N.
fn array<const N: usize>(field: &[u8]) -> Result<Option<[u8; N]>, Reason>
    ensures { result ≡ array_of N (hex_taken (Some field.now)) }
{
    let bytes = Bytes::read(field)?;
    Ok(bytes.as_slice().try_into().ok())
}

fn sixteen(field: &[u8]) -> Result<[u8; 16], Reason>
    ensures { result ≡ sixteen_of (hex_taken (Some field.now)) }
{
    array(field)?.ok_or(Reason::NotSixteen)
}

/// The length of a room that a field asks for. Ruled out: a room over 4096; a room refused as too long where the field
/// is no number.
pub fn room(field: &[u8]) -> Result<usize, Reason>
    ensures { result ≡ room_read field.now }
{
    let length = usize::from(text::read_decimal(field)?);
    if FIELD_LIMIT < length {
        return Err(Reason::RoomOver);
    }
    Ok(length)
}
