// Bytes that are lent, of whatever length: one of them, parts of them, two of them as a number, and bytes compared.
#![tactic(auto)]

ghost use Rattle.std.specs.Prelude.{◌≡◌, ◌++◌, ◌+◌, ◌*◌, length, take, drop};
ghost use Rattle.ground.specs.Bytes.{byte_at, word_at};
ghost use Rattle.octets.specs.Parts.{bytes_from};
ghost use Rattle.octets.specs.Alike.{same, all_zero};

/// The byte at a place; past the end 0.
///
/// Ruled out: the last byte in place of 0; the byte behind the place.
pub fn byte(s: &[u8], i: usize) -> u8
    ensures { result ≡ byte_at s.now i }
{
    s.get(i).copied().unwrap_or(0)
}

/// The first n bytes; all, where there are fewer.
///
/// Ruled out: nothing where there are fewer; a byte more than n.
pub fn front(s: &[u8], n: usize) -> &[u8]
    ensures { result.now ≡ take n s.now }
{
    &s[..n.min(s.len())]
}

/// The bytes from a place on; past the end nothing.
///
/// Ruled out: all bytes where the place lies past the end; the bytes before the place.
pub fn tail(s: &[u8], at: usize) -> &[u8]
    ensures { result.now ≡ drop at s.now }
{
    &s[at.min(s.len())..]
}

// As much of src as a room holds into its first bytes. The room that src fills is a case of its own: its length is
// often known, and then the copy is a few moves.
fn fill(room: &mut [u8], src: &[u8])
    ensures { room.new ≡ take (length room.old) src.now
        ++ drop (length src.now) room.old }
{
    let n = room.len();
    if src.len() < n {
        room[..src.len()].copy_from_slice(src);
        return;
    }
    room.copy_from_slice(&src[..n]);
}

/// The bytes of an array from a place on, zeros past the end: a challenge has ten bytes, a block and a key sixteen.
///
/// Ruled out: the bytes from place 0 on; zeros alone where there are fewer than the array has.
pub fn bytes_at<const N: usize>(s: &[u8], at: usize) -> [u8; N]
    ensures { result ≡ bytes_from s.now at N }
{
    let mut t = [0u8; N];
    fill(&mut t, tail(s, at));
    t
}

/// Two bytes as a number, most significant first.
///
/// Ruled out: the least significant byte first; the two bytes added.
pub fn word(high: u8, low: u8) -> u16
    ensures { result ≡ high * 256 + low }
{
    u16::from_be_bytes([high, low])
}

/// The number that the two bytes at a place are; past the end stands 0.
///
/// Ruled out: the byte before the place taken for the first; 0 where only the second byte lies past the end.
pub fn word_at(s: &[u8], i: usize) -> u16
    ensures { result ≡ word_at s.now i }
{
    if i < s.len() {
        return word(s[i], byte(s, i + 1));
    }
    0
}

/// Are the two the same?
///
/// Ruled out: a prefix taken for the whole; a last byte that does not count.
pub fn same(a: &[u8], b: &[u8]) -> bool
    ensures { result ≡ same a.now b.now }
{
    a == b
}

/// Is every byte 0?
///
/// Ruled out: a first byte that decides alone; a last byte that does not count.
pub fn zeros(s: &[u8]) -> bool
    ensures { result ≡ all_zero s.now }
{
    s.iter().all(|b| *b == 0)
}
