// A tag that its caller keeps, as an image of 793 bytes, from one call to the next: the exports.
ghost use Rattle.std.specs.Prelude.{◌≡◌};
ghost use Rattle.ground.specs.Bytes.{byte_at};
ghost use Rattle.tag.specs.Reactions.{lent};
ghost use Rattle.capi.specs.Kept.{SetUp, PoweredUp, state_said, AreasOf, answer_in, Answered};

use image::IMAGE;

#[unsafe(no_mangle)]
pub extern "C" fn roualint_sheet(sheet: &[u8], tag: &mut [u8; IMAGE], place: &mut usize) -> u8
    ensures { SetUp sheet.now tag.old result place.new tag.new }
{
    capi::kept::roualint_sheet(sheet, tag, place)
}

#[unsafe(no_mangle)]
pub extern "C" fn roualint_power_up(tag: &mut [u8; IMAGE]) -> u8
    ensures { PoweredUp tag.old result tag.new }
{
    capi::kept::roualint_power_up(tag)
}

#[unsafe(no_mangle)]
pub extern "C" fn roualint_state(tag: &[u8; IMAGE]) -> u8
    ensures { result ≡ state_said (byte_at tag.now 0) }
{
    capi::kept::roualint_state(tag)
}

#[unsafe(no_mangle)]
pub extern "C" fn roualint_areas(tag: &[u8; IMAGE], identity: &mut usize, user: &mut usize) -> u8
    ensures { AreasOf tag.now result identity.new user.new }
{
    capi::kept::roualint_areas(tag, identity, user)
}

#[unsafe(no_mangle)]
pub extern "C" fn roualint_message(
    tag: &mut [u8; IMAGE],
    message: &[u8],
    draws: &[u8],
    room: &mut [u8],
    identity: &mut [u8],
    user: &mut [u8],
    told: &mut usize,
    purpose: &mut u8,
) -> u8
    ensures { Answered tag.old (answer_in tag.old
        (lent message.now draws.now room.old identity.old
        user.old)) room.old result told.new purpose.new tag.new
        room.new identity.new user.new }
{
    capi::kept::roualint_message(tag, message, draws, room, identity, user, told, purpose)
}
