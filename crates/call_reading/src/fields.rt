// Fields of calls: a number that fits its type, or what a number stands for.
use crate::patterns;
use rules::{HostStatus, Terms};
use scripts::Fields;

pub fn narrow(fields: &mut Fields) -> Option<u32> {
    u32::try_from(fields.decimal()?).ok()
}

// Three bits.
pub fn status(fields: &mut Fields) -> Option<HostStatus> {
    let v = fields.decimal()?;
    if 7 < v {
        return None;
    }
    Some(HostStatus {
        available: v & 1 != 0,
        established: v & 2 != 0,
        discarding: v & 4 != 0,
    })
}

pub fn terms(fields: &mut Fields) -> Option<Terms> {
    Some(Terms {
        number: narrow(fields)?,
        initiator: fields.flag()?,
    })
}

pub fn time(fields: &mut Fields) -> Option<f64> {
    Some(patterns::float_of(fields.hex16()?))
}

// Reads a body into out from index at on, and returns its length.
pub fn body(fields: &mut Fields, out: &mut [u8], at: usize) -> Option<usize> {
    fields.hex(out.get_mut(at..)?)
}
