// Bytes into a room.
ghost use Rattle.std.specs.Prelude.{◌≡◌, true, ◌++◌, ◌+◌, ◌≤◌, length, take, drop};
ghost use Rattle.frames.specs.Built.{Built};

// Puts src into a room from place at on.
fn put(room: &mut [u8], at: usize, src: &[u8])
    requires { at + length src.now ≤ length room.old }
    ensures { room.new ≡ take at room.old ++
        (src.now ++ drop (at + length src.now) room.old) }
{
    let e = at + src.len();
    room[at..e].copy_from_slice(src);
}

// Three parts, one after the other, into the first bytes of a room.
// Ruled out: a part written before it is known that all fit, and bytes behind the parts cleared.
#[tactic(auto, using(crate::proofs::Joins::joined, crate::proofs::Joins::too_short))]
pub fn join(room: &mut [u8], a: &[u8], b: &[u8], c: &[u8]) -> Option<usize>
    ensures { Built true (length a.now + length b.now + length c.now)
        (a.now ++ (b.now ++ c.now)) room.old result room.new }
{
    if room.len() < a.len() {
        return None;
    }
    if room.len() - a.len() < b.len() {
        return None;
    }
    if room.len() - a.len() - b.len() < c.len() {
        return None;
    }
    let i = a.len();
    let j = i + b.len();
    put(room, 0, a);
    put(room, i, b);
    put(room, j, c);
    Some(j + c.len())
}
