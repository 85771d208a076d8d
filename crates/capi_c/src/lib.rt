// What a program in C or Rust links (bindings/library): each export calls the function of its name in crate capi, whose
// contract it has word for word. Nothing checks the caller: it must pass what the parameters' types say.
#![tactic(auto)]

ghost use Rattle.std.specs.Prelude.{◌≡◌};
ghost use Rattle.aes.specs.AesEnc.{aes_enc};
ghost use Rattle.aes_inverse.specs.AesDec.{aes_dec};
ghost use Rattle.image.specs.Places.{image_length};

pub mod kept; // kept.rt: the functions over a tag that its caller keeps, as an image of bytes
pub mod build; // build.rt: each message of the reader's side
pub mod judge; // judge.rt: the judge of a reply
pub mod chain; // chain.rt: chaining and the MAC

#[unsafe(no_mangle)]
pub extern "C" fn roualint_tag_bytes() -> usize
    ensures { result ≡ image_length }
{
    capi::roualint_tag_bytes()
}

#[unsafe(no_mangle)]
pub extern "C" fn roualint_aes_enc(key: &[u8; 16], block: &mut [u8; 16])
    ensures { block.new ≡ aes_enc key.now block.old }
{
    capi::roualint_aes_enc(key, block);
}

#[unsafe(no_mangle)]
pub extern "C" fn roualint_aes_dec(key: &[u8; 16], block: &mut [u8; 16])
    ensures { block.new ≡ aes_dec key.now block.old }
{
    capi::roualint_aes_dec(key, block);
}
