// What the call script prints of a call, and of the state of a session.
#![tactic(auto)]

use lines::Output;
use rules::{Answer, EventCode};

pub mod dumping; // the state of a session

// A space and a body.
fn print_body(out: &mut Output, body: &[u8]) {
    out.print_byte(b' ');
    out.print_hex(body);
}

// The len bytes of a store from index start on, none where it does not have them: a sum that wraps is below start.
fn print_part(out: &mut Output, store: &[u8], start: usize, len: usize) {
    print_body(out, text::between(store, start, start.wrapping_add(len)));
}

fn print_answer(out: &mut Output, a: Answer, events: usize) {
    match a {
        Answer::Refused(x) => {
            out.print_bytes(b" !");
            scripts::print_count(out, u64::from(x), events);
        }
        Answer::Prepared(c) => scripts::print_commit(out, c),
        _ => scripts::print_count(out, answers::answer_value(a), events),
    }
}

// Of a body that is held, where it lies in the outbound store, and the body.
pub fn print_fetch(out: &mut Output, a: Answer, body: &[u8]) {
    out.print_bytes(b"fetch");
    match a {
        Answer::Held { start, len } => {
            scripts::print_field(out, start as u64);
            scripts::print_field(out, len as u64);
            print_body(out, body);
        }
        Answer::NotHeld => out.print_bytes(b" none"),
        _ => print_answer(out, a, 0),
    }
    out.print_byte(b'\n');
}

// The body that an event points to, by its code, in one of the two stores.
fn print_pointed(out: &mut Output, event: &[u64], delivery: &[u8], outbound: &[u8]) {
    match *event {
        [code, _, start, len] if code == EventCode::Message as u64 => {
            print_part(out, delivery, start as usize, len as usize)
        }
        [code, _, start, len] if code == EventCode::SendData as u64 => {
            print_part(out, outbound, start as usize, len as usize)
        }
        _ => {}
    }
}

pub fn print_call(
    out: &mut Output,
    word: &[u8],
    a: Answer,
    events: usize,
    list: &[u64; 4096],
    delivery: &[u8],
    outbound: &[u8],
) {
    out.print_bytes(word);
    print_answer(out, a, events);
    out.print_byte(b'\n');
    scripts::print_events(out, list, events, |out, event| {
        print_pointed(out, event, delivery, outbound)
    });
}
