// A tag that its caller keeps, as an image of 793 bytes, from one call to the next.
ghost use Rattle.std.specs.Prelude.{◌≡◌, ◌*◌};
ghost use Rattle.ground.specs.Bytes.{byte_at};
ghost use Rattle.memory.specs.Areas.{word_bytes};
ghost use Rattle.tag.specs.Reactions.{lent};
ghost use Rattle.capi.specs.Kept.{SetUp, PoweredUp, state_said, AreasOf, purpose_given, answer_in, Answered};

use entry::cleared;
use image::IMAGE;
use offer::{Answer, Outcome, TagFault};
use sheet::SheetRefusal;
use tag::Tag;

/// A sheet becomes a tag, powered up: 0, and the place is 0. A refused sheet: 30 to 35 with the place of its record,
/// and the tag as it was.
/// Ruled out: a tag changed by a refused sheet; a place of 0 for every refusal; bytes of an older tag left in the
/// image.
#[tactic(auto, unfolding(sheet::specs::Sheet::read_number, sheet::specs::Sheet::read_place))]
pub fn roualint_sheet(sheet: &[u8], tag: &mut [u8; IMAGE], place: &mut usize) -> u8
    ensures { SetUp sheet.now tag.old result place.new tag.new }
{
    match image::lay(sheet, tag) {
        Ok(()) => {
            *place = 0;
            0
        }
        Err(SheetRefusal { fault, at }) => {
            *place = at;
            u8::from(fault)
        }
    }
}

/// Power-up and reset: 0, and nothing is held; the rest stays. Bytes that are no tag's: 7, and they stay as they are.
/// Ruled out: a challenge that outlives the power; a tag made of bytes that are none.
pub fn roualint_power_up(tag: &mut [u8; IMAGE]) -> u8
    ensures { PoweredUp tag.old result tag.new }
{
    if !image::is_tag(tag) {
        return u8::from(TagFault::BenchFault);
    }
    image::keep(tag, cleared());
    0
}

/// The tag's state, from its first byte, which is all that is read: 0 Initial, 1 IAM-Init, 2 MAM-Init, 3 IA-OK; 255
/// where it is over 3.
/// Ruled out: a byte over 3 taken for a state; 255 for a tag in IA-OK.
pub fn roualint_state(tag: &[u8; IMAGE]) -> u8
    ensures { result ≡ state_said (byte_at tag.now 0) }
{
    match tag[0] {
        state @ 0..=3 => state,
        _ => 255,
    }
}

// The bytes of so many words.
fn bytes_of(words: u16) -> usize
    ensures { result ≡ words * word_bytes }
{
    usize::from(words) * 2
}

/// The sizes of the areas that the tag wants lent, in bytes: 0. Bytes that are no tag's: 7, and both sizes are 0.
/// Ruled out: sizes in words; the two areas exchanged.
pub fn roualint_areas(tag: &[u8; IMAGE], identity: &mut usize, user: &mut usize) -> u8
    ensures { AreasOf tag.now result identity.new user.new }
{
    if !image::is_tag(tag) {
        *identity = 0;
        *user = 0;
        return u8::from(TagFault::BenchFault);
    }
    let sizes = image::sizes(tag);
    *identity = bytes_of(sizes.identity);
    *user = bytes_of(sizes.user);
    0
}

// The Purpose of a reader that is let in; 255 where none is.
fn purpose_of(outcome: Outcome) -> u8
    ensures { result ≡ purpose_given outcome }
{
    match outcome {
        Ok(Answer::Entered(purpose)) => purpose,
        Ok(Answer::Replied(_)) | Err(_) => 255,
    }
}

/// One message: 0, the reply in the room's first bytes with its length, and the Purpose of a reader that is let in (255
/// where none is); or 1 to 7, with length 0 and no byte of room and areas changed. The tag holds its next session.
/// Bytes that are no tag's: 7, and they stay as they are.
/// Ruled out: a session that is not kept; a Purpose told of a reader that is not let in; a length told with a refusal.
#[tactic(auto, unfolding(tag::specs::Answers::refused))]
pub fn roualint_message(
    tag: &mut [u8; IMAGE],
    message: &[u8],
    draws: &[u8],
    room: &mut [u8],
    identity: &mut [u8],
    user: &mut [u8],
    told: &mut usize,
    purpose: &mut u8,
) -> u8
    ensures { Answered tag.old (answer_in tag.old
        (lent message.now draws.now room.old identity.old
        user.old)) room.old result told.new purpose.new tag.new
        room.new identity.new user.new }
{
    if !image::is_tag(tag) {
        *told = 0;
        *purpose = 255;
        return u8::from(TagFault::BenchFault);
    }
    let held = Tag {
        terms: image::terms(tag),
        session: image::session(tag),
    };
    let stepped = tag::step(
        held,
        image::key_table(tag),
        message,
        draws,
        room,
        identity,
        user,
    );
    image::keep(tag, stepped.tag.session);
    *told = offer::reply_length(stepped.outcome);
    *purpose = purpose_of(stepped.outcome);
    offer::number(stepped.outcome)
}
