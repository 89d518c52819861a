// The record of a start or a restore. Its numbers and lengths are gathered in two arrays, and its bodies in the buffer for them. The arrays hold one
// message more than a record may have: of those after it only the bodies are read, since 257 are refused as any more would be.
use crate::{Buffers, fields};
use scripts::Fields;

// Kept beside `starts::Reliable`, of the same three numbers: this crate stands on `rules`, `text` and `scripts`, and reading a line needs no session.
#[derive(Clone, Copy)]
pub struct Numbers {
    pub message_number: u64,
    pub remote: u64,
    pub disposition: u64,
}

// How many messages there are, 257 at most, and where their bodies lie in the buffer.
#[derive(Clone, Copy)]
pub struct Messages {
    pub count: usize,
    pub from: usize,
    pub to: usize,
}

#[derive(Clone, Copy)]
pub struct Record {
    pub numbers: Numbers,
    pub messages: Messages,
}

// Its body comes after those of the messages.
#[derive(Clone, Copy)]
pub struct Handoff {
    pub id: u64,
    pub number: u64,
    pub sent: bool,
    pub acknowledged: bool,
    pub len: usize,
}

pub fn read_numbers(fields: &mut Fields) -> Option<Numbers> {
    Some(Numbers {
        message_number: fields.decimal()?,
        remote: fields.decimal()?,
        disposition: fields.decimal()?,
    })
}

// The count of messages, and the messages, whose bodies go into the buffer from index from on.
pub fn read_messages(fields: &mut Fields, from: usize, buffers: &mut Buffers) -> Option<Messages> {
    let mut count = 0;
    let mut to = from;
    for _ in 0..fields.decimal()? {
        let number = fields.decimal()?;
        let len = fields::body(fields, buffers.body, to)?;
        if count < 257 {
            buffers.numbers[count] = number;
            buffers.lengths[count] = len as u64;
            count += 1;
        }
        to = to.wrapping_add(len);
    }
    Some(Messages { count, from, to })
}

// Whether there is a handoff, and the handoff, whose body goes into the buffer from index at on.
pub fn read_handoff(fields: &mut Fields, body: &mut [u8], at: usize) -> Option<Option<Handoff>> {
    if !fields.flag()? {
        return Some(None);
    }
    Some(Some(Handoff {
        id: fields.decimal()?,
        number: fields.decimal()?,
        sent: fields.flag()?,
        acknowledged: fields.flag()?,
        len: fields::body(fields, body, at)?,
    }))
}
