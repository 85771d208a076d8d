// The judge of a reply, by plain numbers.
ghost use Rattle.std.specs.Prelude.{length};
ghost use Rattle.reader_judge.specs.Findings.{Judges};
ghost use Rattle.capi.specs.Reader.{finding_of, Finds};

use super::given;
use reader::ReaderFault;
use reader_judge::Accepted;

// What the judge says where a key for the MAC is given as one; number 24 where it has another number of bytes.
fn judged(
    enc: [u8; 16],
    mac: &[u8],
    message: &[u8],
    reply: &[u8],
    room: &mut [u8],
) -> Result<Accepted, ReaderFault>
    ensures { Judges (finding_of enc mac.now message.now reply.now (length room.old)) room.old result
        room.new }
{
    reader_judge::judge(given::keys_given(enc, mac)?, message, reply, room)
}

/// The judgement of a reply to the reader's own message: 0, or 20 to 24. The data of a TAM2 stand in the room's first
/// bytes, with their length and their worth: 0 no data, 1 unproved, 2 proved. Issued is 1 where the tag sent a
/// challenge, which then stands in challenge; else both are zeros. A refusal changes no byte of the room, and tells no
/// data and no challenge. Ruled out: unproved data told as proved; data told though the reply is refused; the tag's
/// challenge not handed over.
#[tactic(auto, using(crate::proofs::Findings::in_numbers))]
pub fn roualint_judge(
    enc: &[u8; 16],
    mac: &[u8],
    message: &[u8],
    reply: &[u8],
    room: &mut [u8],
    told: &mut usize,
    worth: &mut u8,
    issued: &mut u8,
    challenge: &mut [u8; 10],
) -> u8
    ensures { Finds (finding_of enc.now mac.now message.now reply.now
        (length room.old)) room.old result told.new worth.new issued.new
        challenge.new room.new }
{
    match judged(*enc, mac, message, reply, room) {
        Ok(accepted) => {
            *told = accepted.data;
            *worth = given::worth_number(accepted.worth);
            *issued = u8::from(accepted.challenge.is_some());
            *challenge = accepted.challenge.unwrap_or([0u8; 10]);
            0
        }
        Err(fault) => {
            *told = 0;
            *worth = 0;
            *issued = 0;
            *challenge = [0u8; 10];
            u8::from(fault)
        }
    }
}
