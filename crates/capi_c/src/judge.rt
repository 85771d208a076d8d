// The judge of a reply, by plain numbers: the export.
ghost use Rattle.std.specs.Prelude.{length};
ghost use Rattle.capi.specs.Reader.{finding_of, Finds};

#[unsafe(no_mangle)]
pub extern "C" fn roualint_judge(
    enc: &[u8; 16],
    mac: &[u8],
    message: &[u8],
    reply: &[u8],
    room: &mut [u8],
    told: &mut usize,
    worth: &mut u8,
    issued: &mut u8,
    challenge: &mut [u8; 10],
) -> u8
    ensures { Finds (finding_of enc.now mac.now message.now reply.now
        (length room.old)) room.old result told.new worth.new issued.new
        challenge.new room.new }
{
    capi::judge::roualint_judge(
        enc, mac, message, reply, room, told, worth, issued, challenge,
    )
}
