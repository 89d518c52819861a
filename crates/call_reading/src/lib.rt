// The call of a line. The bodies of a line lie one after the other in a buffer; a line with more than it holds is wrong.
#![tactic(auto)]

ghost use Rattle.std.specs.Prelude.{◌≡◌};

use records::{Handoff, Messages, Record};
use rules::{HostStatus, Policy, PreparedCommit, Terms};
use scripts::Fields;

mod fields; // the fields of a line
mod patterns; // an f64 of its bits
pub mod records; // the record of a start or a restore

// What a line is read into: the numbers and lengths of a record's messages, and the bodies of the line.
#[derive(Drop)]
pub struct Buffers<'a> {
    pub numbers: &'a mut [u64; 257],
    pub lengths: &'a mut [u64; 257],
    pub body: &'a mut [u8],
}

// What was read, as calls are lent it: slices of any length.
#[derive(Clone, Copy)]
pub struct Lent<'a> {
    pub numbers: &'a [u64],
    pub lengths: &'a [u64],
    pub body: &'a [u8],
}

impl Buffers<'_> {
    pub fn lent(&self) -> Lent
        ensures numbers { result.numbers.now ≡ self.now.numbers.now }
        ensures lengths { result.lengths.now ≡ self.now.lengths.now }
        ensures body { result.body.now ≡ self.now.body.now }
    {
        Lent {
            numbers: self.numbers,
            lengths: self.lengths,
            body: self.body,
        }
    }
}

#[derive(Clone, Copy)]
pub struct Command {
    pub id: u64,
    pub len: usize,
}

// A call's body has its length here.
#[derive(Clone, Copy)]
pub enum Call {
    Send(usize),
    Data {
        status: HostStatus,
        number: u64,
        kind: u64,
        len: usize,
    },
    Ack(u64),
    Keepalive,
    Ready {
        status: HostStatus,
        mode: u64,
    },
    Accept {
        terms: Terms,
        len: usize,
    },
    Reject,
    PrepareChannel(Terms),
    Command {
        restoring: bool,
        command: Option<Command>,
    },
    Prepare,
    Complete {
        commit: PreparedCommit,
        persisted: bool,
    },
    Connectivity {
        event: u64,
        time: f64,
        force: bool,
    },
    Report {
        what: u64,
        number: u64,
        accepted: bool,
    },
    Retire(bool),
    Restore {
        record: Record,
        handoff: Option<Handoff>,
    },
}

// The reject body comes first in the buffer.
#[derive(Clone, Copy)]
pub struct Opening {
    pub record: Record,
    pub policy: Policy,
    pub reject: usize,
}

#[derive(Clone, Copy)]
pub enum Line {
    Start(Opening),
    Call(Call),
    Fetch(u64),
    State,
    Generation(u32),
}

fn read_data(fields: &mut Fields, body: &mut [u8]) -> Option<Call> {
    Some(Call::Data {
        status: fields::status(fields)?,
        number: fields.decimal()?,
        kind: fields.decimal()?,
        len: fields.hex(body)?,
    })
}

fn read_ready(fields: &mut Fields) -> Option<Call> {
    Some(Call::Ready {
        status: fields::status(fields)?,
        mode: fields.decimal()?,
    })
}

fn read_accept(fields: &mut Fields, body: &mut [u8]) -> Option<Call> {
    Some(Call::Accept {
        terms: fields::terms(fields)?,
        len: fields.hex(body)?,
    })
}

// No command has the id 0 and an empty body.
fn read_command(fields: &mut Fields, body: &mut [u8]) -> Option<Call> {
    let restoring = fields.flag()?;
    let present = fields.flag()?;
    let id = fields.decimal()?;
    let len = fields.hex(body)?;
    if !present && (id != 0 || len != 0) {
        return None;
    }
    let command = present.then_some(Command { id, len });
    Some(Call::Command { restoring, command })
}

fn read_complete(fields: &mut Fields) -> Option<Call> {
    let commit = PreparedCommit {
        generation: fields::narrow(fields)?,
        outbound: fields.decimal()?,
        remote: fields.decimal()?,
    };
    let persisted = fields.flag()?;
    Some(Call::Complete { commit, persisted })
}

fn read_connectivity(fields: &mut Fields) -> Option<Call> {
    Some(Call::Connectivity {
        event: fields.decimal()?,
        time: fields::time(fields)?,
        force: fields.flag()?,
    })
}

fn read_report(fields: &mut Fields) -> Option<Call> {
    Some(Call::Report {
        what: fields.decimal()?,
        number: fields.decimal()?,
        accepted: fields.flag()?,
    })
}

fn read_restore(fields: &mut Fields, buffers: &mut Buffers) -> Option<Call> {
    let numbers = records::read_numbers(fields)?;
    let messages = records::read_messages(fields, 0, buffers)?;
    let handoff = records::read_handoff(fields, buffers.body, messages.to)?;
    let record = Record { numbers, messages };
    Some(Call::Restore { record, handoff })
}

fn read_start(fields: &mut Fields, buffers: &mut Buffers) -> Option<Opening> {
    let numbers = records::read_numbers(fields)?;
    let policy = Policy {
        gap: fields.decimal()?,
        messages: fields.decimal()? as usize,
        bytes: fields.decimal()? as usize,
        body: fields.decimal()? as usize,
    };
    let reject = fields.hex(buffers.body)?;
    let messages = records::read_messages(fields, reject, buffers)?;
    Some(Opening {
        record: Record { numbers, messages },
        policy,
        reject,
    })
}

fn read_call(word: &[u8], fields: &mut Fields, buffers: &mut Buffers) -> Option<Call> {
    let body = &mut *buffers.body;
    let call = match word {
        b"send" => Call::Send(fields.hex(body)?),
        b"data" => read_data(fields, body)?,
        b"ack" => Call::Ack(fields.decimal()?),
        b"keepalive" => Call::Keepalive,
        b"ready" => read_ready(fields)?,
        b"accept" => read_accept(fields, body)?,
        b"reject" => Call::Reject,
        b"prepare_channel" => Call::PrepareChannel(fields::terms(fields)?),
        b"command" => read_command(fields, body)?,
        b"prepare" => Call::Prepare,
        b"complete" => read_complete(fields)?,
        b"connectivity" => read_connectivity(fields)?,
        b"report" => read_report(fields)?,
        b"retire" => Call::Retire(fields.flag()?),
        b"restore" => read_restore(fields, buffers)?,
        _ => return None,
    };
    Some(call)
}

fn read_generation(fields: &mut Fields) -> Option<u32> {
    fields.word(b"generation")?;
    fields::narrow(fields)
}

pub fn read_line(s: &[u8], buffers: &mut Buffers) -> Option<Line> {
    let (word, mut fields) = Fields::split(s);
    let line = match word {
        b"start" => Line::Start(read_start(&mut fields, buffers)?),
        b"fetch" => Line::Fetch(fields.decimal()?),
        b"state" => Line::State,
        b"poke" => Line::Generation(read_generation(&mut fields)?),
        _ => Line::Call(read_call(word, &mut fields, buffers)?),
    };
    fields.end()?;
    Some(line)
}
