// The reader's side's commands: keys, build, judge.
#![tactic(auto)]

mod orders; // orders.rt: the messages to build

use console::answer::{Decimal, Hex};
use console::fields::Fields;
use console::reason::{Fault, Reason};
use console::words::Words;
use frames::sizes::{DATA_ROOM, MESSAGE_ROOM};
use orders::Order;
use reader::{Keys, ReaderFault, keys_of};
use reader_judge::{Accepted, Worth, judge};
use std::io;

/// The reader's side from one command to the next: its keys, where it has some.
#[derive(Clone, Copy)]
pub struct Reader {
    keys: Option<Keys>,
}

impl Reader {
    /// Before the first command.
    pub fn empty() -> Reader {
        Reader { keys: None }
    }

    pub fn keys(&mut self, rt: &impl Print, words: Words<'_>) -> Result<(), Fault> {
        let mut fields = Fields::exactly(words, 2)?;
        let enc = fields.sixteen()?;
        let mackey = fields.sixteen_or_none()?;
        self.keys = Some(keys_of(enc, mackey));
        println!(rt; "ok")?;
        Ok(())
    }

    fn held(&self) -> Result<Keys, Reason> {
        self.keys.ok_or(Reason::NoKeys)
    }

    pub fn build(&self, rt: &impl Print, words: Words<'_>) -> Result<(), Fault> {
        let mut room = [0; MESSAGE_ROOM];
        let made = match orders::read(words)? {
            Order::Open(order) => order.made(&mut room),
            Order::Keyed(order) => order.made(self.held()?, &mut room),
        };
        match made {
            Ok(n) => println!(rt; "message {}", Hex(octets::front(&room, n)))?,
            Err(fault) => println!(rt; "refused {}", Decimal(u8::from(fault).into()))?,
        }
        Ok(())
    }

    pub fn judge(&self, rt: &impl Print, words: Words<'_>) -> Result<(), Fault> {
        let mut fields = Fields::exactly(words, 2)?;
        let message = fields.bytes()?;
        let reply = fields.bytes()?;
        let keys = self.held()?;
        let mut room = [0; DATA_ROOM];
        let judgement = judge(keys, message.as_slice(), reply.as_slice(), &mut room);
        told(rt, judgement, &room)?;
        Ok(())
    }
}

fn told(rt: &impl Print, judgement: Result<Accepted, ReaderFault>, room: &[u8]) -> io::Result<()> {
    match judgement {
        Ok(accepted) => accepted_told(rt, accepted, room),
        Err(fault) => println!(rt; "refused {}", Decimal(u8::from(fault).into())),
    }
}

fn accepted_told(rt: &impl Print, accepted: Accepted, room: &[u8]) -> io::Result<()> {
    let data = Hex(octets::front(room, accepted.data));
    let challenge = match &accepted.challenge {
        Some(challenge) => Hex(challenge),
        None => Hex(b""),
    };
    let worth = match accepted.worth {
        Worth::NoData => "-",
        Worth::Unproved => "unproved",
        Worth::Proved => "proved",
    };
    println!(rt; "accepted data {data} challenge {challenge} {worth}")
}
