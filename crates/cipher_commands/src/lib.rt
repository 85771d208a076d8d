// The cipher's commands: aes, cbc, cmac.
#![tactic(auto)]

use console::answer::{Decimal, Hex};
use console::bytes::{Bytes, FIELD_LIMIT};
use console::fields::Fields;
use console::reason::{Fault, Reason};
use console::words::Words;
use modes::ChainingFault;
use std::io;

pub fn aes(rt: &impl Print, words: Words<'_>) -> Result<(), Fault> {
    let mut words = words;
    match words.next().ok_or(Reason::WordMissing)? {
        b"enc" => ciphered(rt, words, aes::encrypt),
        b"dec" => ciphered(rt, words, aes_inverse::decrypt),
        _ => Err(Fault::from(Reason::UnknownForm)),
    }
}

// A block under a key, as the cipher has it.
fn ciphered<C: Fn([u8; 16], [u8; 16]) -> [u8; 16]>(
    rt: &impl Print,
    words: Words<'_>,
    cipher: C,
) -> Result<(), Fault>
    requires { C.IsAlwaysCallable cipher }
{
    let mut fields = Fields::exactly(words, 2)?;
    let key = fields.sixteen()?;
    let block = fields.sixteen()?;
    println!(rt; "out {}", Hex(&cipher(key, block)))?;
    Ok(())
}

// The forms of 3.1.8 to 3.1.11.
pub fn cbc(rt: &impl Print, words: Words<'_>) -> Result<(), Fault> {
    let mut words = words;
    match words.next().ok_or(Reason::WordMissing)? {
        b"enc_aes" => chained(rt, words, modes::cbc_enc_aes),
        b"dec_aes" => chained(rt, words, modes::cbc_dec_aes),
        b"enc_aes_inv" => chained(rt, words, modes_inverse::cbc_enc_aes_inv),
        b"dec_aes_inv" => chained(rt, words, modes_inverse::cbc_dec_aes_inv),
        _ => Err(Fault::from(Reason::UnknownForm)),
    }
}

// Data in blocks, as the form chains them.
fn chained<F: Fn([u8; 16], [u8; 16], &[u8], &mut [u8]) -> Result<(), ChainingFault>>(
    rt: &impl Print,
    words: Words<'_>,
    form: F,
) -> Result<(), Fault>
    requires { F.IsAlwaysCallable form }
{
    let mut fields = Fields::exactly(words, 4)?;
    let iv = fields.sixteen()?;
    let key = fields.sixteen()?;
    let input = fields.bytes()?;
    let mut room = Bytes::<FIELD_LIMIT>::zeros(fields.room()?);
    let done = form(iv, key, input.as_slice(), room.as_mut_slice());
    told(
        rt,
        done,
        octets::front(room.as_slice(), input.as_slice().len()),
    )?;
    Ok(())
}

pub fn cmac(rt: &impl Print, words: Words<'_>) -> Result<(), Fault> {
    let mut fields = Fields::exactly(words, 3)?;
    let key = fields.sixteen()?;
    let input = fields.bytes()?;
    let mut room = Bytes::<FIELD_LIMIT>::zeros(fields.room()?);
    let done = modes::cmac_96(key, input.as_slice(), room.as_mut_slice());
    told(rt, done, octets::front(room.as_slice(), 12))?;
    Ok(())
}

// The bytes that a call wrote, where it is done.
fn told(rt: &impl Print, done: Result<(), ChainingFault>, written: &[u8]) -> io::Result<()> {
    match done {
        Ok(()) => println!(rt; "out {}", Hex(written)),
        Err(fault) => println!(rt; "refused {}", Decimal(u8::from(fault).into())),
    }
}
