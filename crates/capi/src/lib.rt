// The functions that a program in C or Rust links, by the exports of the same names in crate capi_c.
#![tactic(auto)]

ghost use Rattle.std.specs.Prelude.{◌≡◌};
ghost use Rattle.aes.specs.AesEnc.{aes_enc};
ghost use Rattle.aes_inverse.specs.AesDec.{aes_dec};
ghost use Rattle.image.specs.Places.{image_length};

pub mod kept; // kept.rt: the functions over a tag that its caller keeps, as an image of bytes
mod given; // given.rt: what the reader's side is given and answers, as numbers
pub mod build; // build.rt: each message of the reader's side
pub mod judge; // judge.rt: the judge of a reply
pub mod chain; // chain.rt: chaining and the MAC

/// How many bytes a kept tag has: 793.
/// Ruled out: the length of one tag's; an image with no room for sixteen key records.
pub fn roualint_tag_bytes() -> usize
    ensures { result ≡ image_length }
{
    image::IMAGE
}

/// AES-ENC of a block, in place.
/// Ruled out: AES-DEC; the block left as it was.
pub fn roualint_aes_enc(key: &[u8; 16], block: &mut [u8; 16])
    ensures { block.new ≡ aes_enc key.now block.old }
{
    *block = aes::encrypt(*key, *block);
}

/// AES-DEC of a block, in place.
/// Ruled out: AES-ENC; the block left as it was.
pub fn roualint_aes_dec(key: &[u8; 16], block: &mut [u8; 16])
    ensures { block.new ≡ aes_dec key.now block.old }
{
    *block = aes_inverse::decrypt(*key, *block);
}
