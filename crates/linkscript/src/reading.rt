// The call of a line.
use scripts::Fields;

// A body lies in the buffer for it, which has its length here.
#[derive(Clone, Copy)]
pub enum Call {
    Send(usize),
    Prepare,
    Complete(bool),
    Ack(u64),
    Report(u64, bool),
}

impl Call {
    pub fn letter(self) -> u8 {
        match self {
            Call::Send(_) => b'S',
            Call::Prepare => b'P',
            Call::Complete(_) => b'C',
            Call::Ack(_) => b'A',
            Call::Report(_, _) => b'R',
        }
    }
}

pub fn read_line(s: &[u8], body: &mut [u8]) -> Option<Call> {
    let (word, mut fields) = Fields::split(s);
    let call = match word {
        b"S" => Call::Send(fields.hex(body)?),
        b"P" => Call::Prepare,
        b"C" => Call::Complete(fields.flag()?),
        b"A" => Call::Ack(fields.decimal()?),
        b"R" => Call::Report(fields.decimal()?, fields.flag()?),
        _ => return None,
    };
    fields.end()?;
    Some(call)
}
