// The command line's lines: their words and fields, what a line is refused for, and what is answered: bytes, numbers.
#![tactic(auto)]

pub mod answer; // answer.rt: bytes and numbers as they are answered
pub mod bytes; // bytes.rt: bytes in a room of their own
pub mod fields; // fields.rt: the fields of a line
pub mod reason; // reason.rt: what a line is refused for
pub mod words; // words.rt: the words of a line
