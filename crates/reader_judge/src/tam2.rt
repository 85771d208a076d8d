// The reply to TAM2 (9.4.7): the authentication block, the MAC, and the data.
ghost use Rattle.std.specs.Prelude.{◌≡◌, true, ◌+◌, ◌≤◌, length, replicate, take, drop};
ghost use Rattle.modes.specs.Room.{over};
ghost use Rattle.frames.specs.Blocks.{blocks_length};
ghost use Rattle.frames.specs.Fields.{custom_fits};
ghost use Rattle.frames.specs.Lengths.{tam2_mac_at, tam2_reply_length};
ghost use Rattle.frames.specs.Messages.{tam2_of};
ghost use Rattle.payload.specs.Protected.{mac_fits};
ghost use Rattle.reader_judge.specs.Findings.{Judges};
ghost use Rattle.reader_judge.specs.Judged.{data_finding, tam2_in_mode, tam2_finding};
ghost use Rattle.reader_judge.specs.Opened.{opened_data};

use super::Accepted;
use super::opened::{block_fits, opened_block};
use super::said::carries;
use frames::constants::tam2_constant;
use frames::fields::tam2_of;
use frames::protection::{encrypts, prot_mode};
use frames::sizes::{DATA_ROOM, blocks_length, tam2_mac_at, tam2_reply_length};
use frames::{ProtMode, Tam2};
use reader::{Keys, ReaderFault};

// A reply as long as the message asks for in its mode (Tables 7 to 14): its blocks are there, and a data room has them.
#[derive(Clone, Copy)]
struct Tam2Reply<'a> {
    keys: Keys,
    mode: ProtMode,
    f: Tam2,
    reply: &'a [u8],
    ghost fits: { custom_fits f.custom ≡ true },
    ghost whole: { length reply.now ≡ tam2_reply_length f.custom.blocksize f.rev f.custom.blockcount mode },
}

impl<'a> Tam2Reply<'a> {
    // The bytes of its blocks. Ruled out: the authentication block counted with them; the data without header and
    // filler.
    fn blocks(&self) -> usize
        ensures { let s = self.now in
            (result ≡ blocks_length s.f.custom.blocksize s.f.rev s.f.custom.blockcount)
            × (16 + result ≤ length s.reply.now) × (result ≤ 144) }
    {
        let custom = self.f.custom;
        blocks_length(custom.blocksize, self.f.rev, custom.blockcount)
    }

    // Where the ProtMode has a MAC: is it that of the authentication block and the data as they came (9.4.7.1)?
    // Ruled out: a MAC over the data in the clear; one that leaves the authentication block out.
    fn mac_fits(&self) -> bool
        ensures { let s = self.now in
            let at = tam2_mac_at s.f.custom.blocksize s.f.rev s.f.custom.blockcount in
            result ≡ mac_fits s.keys.mackey s.mode (take at s.reply.now) (drop at s.reply.now) }
    {
        let custom = self.f.custom;
        let at = tam2_mac_at(custom.blocksize, self.f.rev, custom.blockcount);
        let (sent, mac) = self.reply.split_at(at);
        payload::mac_fits(self.keys.mackey, self.mode, sent, mac)
    }

    // Header, data and filler in the clear, with zeros behind (9.4.7).
    // Ruled out: the chain started at the opened block; data that are opened in ProtMode 2.
    fn open_data(&self) -> [u8; DATA_ROOM]
        ensures { let s = self.now in
            result ≡ over (opened_data s.keys s.mode s.f s.reply.now) (replicate 144 0) }
    {
        let n = self.blocks();
        let sent = &self.reply[16..16 + n];
        let mut clear = [0u8; DATA_ROOM];
        if encrypts(self.mode) {
            let iv = field::first_block(self.reply);
            modes_inverse::cbc_dec_aes_inv(iv, self.keys.enc, sent, &mut clear).unwrap();
        } else {
            clear[..n].copy_from_slice(sent);
        }
        clear
    }

    // Header and filler of the data in the clear; then the data over the room's first bytes.
    // Ruled out: data that are stored before the filler is judged; the header taken along.
    fn judge_data(&self, p: &[u8], room: &mut [u8; DATA_ROOM]) -> Result<Accepted, ReaderFault>
        ensures { Judges (data_finding self.now.mode self.now.f p.now) room.old result room.new }
    {
        if !payload::header_fits(self.f.rev, self.f.custom, p) {
            return Err(ReaderFault::HeaderWrong);
        }
        if !payload::filler_fits(self.f.rev, self.f.custom, p) {
            return Err(ReaderFault::HeaderWrong);
        }
        let words = payload::words_in(self.f.rev, self.f.custom, p);
        room[..words.len()].copy_from_slice(words);
        Ok(carries(self.mode, words))
    }

    // The data are opened, and judged.
    fn open_and_judge(&self, room: &mut [u8; DATA_ROOM]) -> Result<Accepted, ReaderFault>
        ensures { let s = self.now in
            Judges (data_finding s.mode s.f (opened_data s.keys s.mode s.f s.reply.now)) room.old result room.new }
    {
        let clear = self.open_data();
        let n = self.blocks();
        self.judge_data(&clear[..n], room)
    }

    // Constant and challenge, MAC, header and filler. Ruled out: the MAC judged before the block; the constant of
    // another ProtMode.
    fn judge(&self, room: &mut [u8; DATA_ROOM]) -> Result<Accepted, ReaderFault>
        ensures { let s = self.now in
            Judges (tam2_in_mode s.keys s.f s.reply.now s.mode) room.old result room.new }
    {
        let constant = tam2_constant(self.f.rev, self.mode);
        if !block_fits(
            constant,
            self.f.ichallenge,
            opened_block(self.keys, self.reply),
        ) {
            return Err(ReaderFault::ChallengeWrong);
        }
        if !self.mac_fits() {
            return Err(ReaderFault::MacWrong);
        }
        self.open_and_judge(room)
    }
}

/// TAM2 (9.4.7): length, constant and challenge, MAC, header and filler. Ruled out: a reply of another mode's length
/// judged; a message without a mode taken as one of ProtMode 0.
pub fn tam2(
    keys: Keys,
    message: &[u8],
    reply: &[u8],
    room: &mut [u8; DATA_ROOM],
) -> Result<Accepted, ReaderFault>
    ensures { Judges (tam2_finding keys (tam2_of message.now) reply.now) room.old result room.new }
{
    let f = tam2_of(message);
    let Some(mode) = prot_mode(f.protmode) else {
        return Err(ReaderFault::OwnMessage);
    };
    if reply.len() != tam2_reply_length(f.custom.blocksize, f.rev, f.custom.blockcount, mode) {
        return Err(ReaderFault::ReplyLength);
    }
    Tam2Reply {
        keys,
        mode,
        f,
        reply,
    }
    .judge(room)
}
