// Keys and fields as a caller in another language gives them, and what the reader's side answers as numbers.
ghost use Rattle.std.specs.Prelude.{◌≡◌, Ok, Err};
ghost use Rattle.ground.specs.Choice.{pick};
ghost use Rattle.reader_build.specs.Makes.{made_number};
ghost use Rattle.capi.specs.Reader.{mac_given, keys_of, size_given, bits_given, custom_of, made_length, worth_number};

use frames::Custom;
use memory::{BlockSize, Offset};
use reader::{Keys, ReaderFault};
use reader_judge::Worth;

/// Is it a MAC key, or none? Ruled out: fifteen bytes taken; none refused.
pub fn mac_given(mac: &[u8]) -> bool
    ensures { result ≡ mac_given mac.now }
{
    matches!(mac.len(), 0 | 16)
}

/// The reader's keys. Ruled out: ENC_key in the place of a MAC key that is not there; a MAC key that does not count.
#[tactic(auto, unfolding(crate::specs::Reader::keys_of))]
pub fn keys_of(enc: [u8; 16], mac: &[u8]) -> Keys
    ensures { result ≡ keys_of enc mac.now }
{
    reader::keys_of(enc, <[u8; 16]>::try_from(mac).ok())
}

/// The reader's keys; number 24 where what is given is no MAC key. Ruled out: a MAC key of fifteen bytes taken; none
/// refused.
pub fn keys_given(enc: [u8; 16], mac: &[u8]) -> Result<Keys, ReaderFault>
    ensures { result ≡ pick (mac_given mac.now) (Ok (keys_of enc mac.now)) (Err ReaderFault.OwnMessage) }
{
    if mac_given(mac) {
        Ok(keys_of(enc, mac))
    } else {
        Err(ReaderFault::OwnMessage)
    }
}

/// The custom data that a message names. Ruled out: Profile and BlockCount exchanged; an Offset cut to a byte.
pub fn custom_of(blocksize: u8, profile: u8, offset: u16, blockcount: u8) -> Custom
    ensures { result ≡ custom_of blocksize profile offset blockcount }
{
    Custom {
        blocksize: BlockSize::from(blocksize),
        profile,
        offset: Offset(offset),
        blockcount,
    }
}

/// The same, and has BlockSize one bit? Ruled out: BlockSize 2 taken for 0; a MAC key that is not looked at.
pub fn size_given(mac: &[u8], blocksize: u8) -> bool
    ensures { result ≡ size_given mac.now blocksize }
{
    blocksize < 2 && mac_given(mac)
}

/// The same, and has Rev one bit? Ruled out: Rev 2 taken for 1; BlockSize judged in its place.
pub fn bits_given(mac: &[u8], blocksize: u8, rev: u8) -> bool
    ensures { result ≡ bits_given mac.now blocksize rev }
{
    rev < 2 && size_given(mac, blocksize)
}

/// A builder's answer by plain numbers: it tells the length of the message that was built, 0 for none, and answers the
/// number. Ruled out: 0 for every answer; a length told with a refusal.
pub fn told_of(made: Result<usize, ReaderFault>, told: &mut usize) -> u8
    ensures { (result ≡ made_number made) × (told.new ≡ made_length made) }
{
    match made {
        Ok(length) => {
            *told = length;
            0
        }
        Err(fault) => {
            *told = 0;
            u8::from(fault)
        }
    }
}

/// The number of what data are worth. Ruled out: proved and unproved exchanged; no data called unproved.
pub fn worth_number(worth: Worth) -> u8
    ensures { result ≡ worth_number worth }
{
    match worth {
        Worth::NoData => 0,
        Worth::Unproved => 1,
        Worth::Proved => 2,
    }
}
