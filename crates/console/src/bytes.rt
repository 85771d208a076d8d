// Bytes in a room of their own, since nothing here is on a heap.
ghost use Rattle.std.specs.Prelude.{◌≡◌, ◌≤◌, min, replicate, take, IfOk, IfErr, Ok, Err};
ghost use Rattle.text.specs.declared.HexFault.{HexFault};
ghost use Rattle.text.specs.Hex.{hex_read, bytes_of};
ghost use Rattle.console.specs.Reasons.{hex_reason};

use crate::reason::Reason;

/// At most N bytes: the first `length` of the room.
#[derive(Clone, Copy)]
pub struct Bytes<const N: usize> {
    room: [u8; N],
    length: usize,
    ghost within: { length ≤ N },
}

impl<const N: usize> Bytes<N> {
    /// So many zeros; N, where that is more. Ruled out: one zero fewer; as many as are asked for, where N are fewer.
    pub fn zeros(length: usize) -> Bytes<N>
        ensures { (result.length ≡ min length N) × (result.room ≡ replicate N 0) }
    {
        Bytes {
            room: [0; N],
            length: length.min(N),
        }
    }

    /// The bytes of a slice; the first N, where it has more. Ruled out: the last byte left out; no bytes, where it has
    /// more than N.
    pub fn of(bytes: &[u8]) -> Bytes<N>
        ensures { take result.length result.room ≡ take N bytes.now }
    {
        let length = bytes.len().min(N);
        let mut room = [0; N];
        room[..length].copy_from_slice(&bytes[..length]);
        Bytes { room, length }
    }

    /// The bytes. Ruled out: the whole room; the bytes but the last.
    pub fn as_slice(&self) -> &[u8]
        ensures { result.now ≡ take self.now.length self.now.room }
    {
        &self.room[..self.length]
    }

    /// The bytes, to be written over. Ruled out: the whole room; the bytes but the last.
    pub fn as_mut_slice(&mut self) -> &mut [u8]
        ensures { result.now ≡ take self.old.length self.old.room }
    {
        let length = self.length;
        let room = &mut self.room;
        &mut room[..length]
    }
}

// As many bytes as a field may have.
pub const FIELD_LIMIT: usize = 4096;

impl Bytes<FIELD_LIMIT> {
    /// The bytes of a word of hex digits. Ruled out: bytes over 4096 cut off; a word of an odd number of digits read
    /// without its last.
    pub fn read(word: &[u8]) -> Result<Bytes<FIELD_LIMIT>, Reason>
        ensures length { IfOk result (λ b. hex_read word.now 4096 ≡ Ok b.length) }
        ensures bytes { IfOk result (λ b. take b.length b.room ≡ bytes_of word.now) }
        ensures fault { IfErr result (λ r. (f : HexFault) × (hex_read word.now 4096 ≡ Err f) × (r ≡ hex_reason f)) }
    {
        let mut room = [0; FIELD_LIMIT];
        let length = text::read_hex(word, &mut room)?;
        Ok(Bytes { room, length })
    }
}
