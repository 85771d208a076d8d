// What each number means, the lines of docs/numbers.txt, and the commands, the line of docs/help.txt.

/// The commands, in one line.
pub const COMMANDS: &str = "\
commands: sheet HEX | area A HEX | areas | power | message HEX [DRAWS [ROOM]] | keys ENC MAC | build \
tam1 KEYID ICHALLENGE | build tam2 BLOCKSIZE REV KEYID ICHALLENGE PROFILE OFFSET BLOCKCOUNT PROTMODE | \
build iam1 KEYID | build iam2 PURPOSE IRND TCHALLENGE | build iam3 BLOCKSIZE PROFILE OFFSET BLOCKCOUNT \
PROTMODE PURPOSE IRND TCHALLENGE DATA | build mam1 KEYID ICHALLENGE | build mam2 PURPOSE ICHALLENGE \
TCHALLENGE | judge MESSAGE REPLY | aes enc|dec KEY BLOCK | cbc enc_aes|dec_aes|enc_aes_inv|dec_aes_inv \
IV KEY DATA ROOM | cmac KEY DATA ROOM | explain N | help";

/// What a number means, in one line, where the number has a meaning.
pub fn number(n: u16) -> Option<&'static str> {
    Some(match n {
        1 => {
            "1 Other Error: the message has not the length of its kind, or it is empty. Look first for a frame cut \
short or run together."
        }
        2 => {
            "2 Not Supported: a method, feature, RFU bit, KeyID, profile, right or ProtMode that the sheet does not \
give. Look first at the sheet's feature record, then at the KeyID and its MPI bits."
        }
        3 => {
            "3 Memory Overrun: the block ends behind its profile, or an IAM3 asks for 16-bit blocks that the sheet \
lacks. Look first at BlockSize: one Offset step is 4 words for 0, 1 word for 1."
        }
        4 => {
            "4 Memory Write Error: a word of the block is locked. Look first at the sheet's lock records."
        }
        5 => {
            "5 Out of turn: the tag's state does not take this message. Look first at what was sent before: a \
challenge is answered once, by the next message."
        }
        6 => {
            "6 Proof wrong: constant, challenge, MAC, header or filler does not fit. Look first at the key, then for \
a challenge of an earlier exchange."
        }
        7 => {
            "7 Bench fault: not ten draws, a reply room under 172 bytes, an area not of the sheet's size, or, of a \
tag that is kept as bytes, bytes that are no tag's; the tag stays as it was. Look first at what the bench lends, \
then at what else writes to the kept bytes."
        }
        8 => {
            "8 Chaining refused: the data are no whole number of 16-byte blocks (for the MAC also no block), or the \
room is too short. Look first at the data's length."
        }
        20 => {
            "20 Reply length: the reply has not the length that the own message asks for. Look first for a frame cut \
short, then at BlockCount, Rev and ProtMode."
        }
        21 => {
            "21 Challenge wrong: the opened block has another constant or not the own challenge. Look first at the \
key, then for a reply to an earlier message."
        }
        22 => {
            "22 MAC wrong: the MAC does not fit what came. Look first at the MAC key, then for bytes changed on the \
way."
        }
        23 => {
            "23 Header wrong: the header says other fields than the own message, or the filler is not zeros. Look \
first at Profile, Offset, BlockCount and BlockSize."
        }
        24 => {
            "24 Own message: a field out of its range, data of another length than BlockSize and BlockCount say, a \
message that is none of the table, ProtMode 2 or 3 with no MAC key, or too little room. Look first at \
the call itself."
        }
        30 => {
            "30 Sheet cut short: the record at the place is cut, or none is there. Look first for a file cut short, \
then for a length miscounted before the place."
        }
        31 => {
            "31 Kind unknown: the record at the place is not of kinds 01 to 06. Look first for a body of the wrong \
length before it."
        }
        32 => {
            "32 Kind out of order: 01 first, 02 second, then kinds that never fall. Look first at the order of the \
records."
        }
        33 => {
            "33 Value wrong: a value of the record at the place is against its kind's rule. Look first at that rule \
in the guide, then at numbers that must rise and at the area's size."
        }
        34 => {
            "34 Too many: a seventeenth record of its kind. Look first at how many records the sheet has."
        }
        35 => {
            "35 Bytes follow: the sheet goes on behind its end record. Look first at what stands from the place on."
        }
        _ => return None,
    })
}
