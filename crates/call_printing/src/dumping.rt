// The state of a session, printed.
use crate::{print_body, print_part};
use lines::Output;
use numbers::Numbers;
use outbox::Outbox;
use peer_session::{SessionState, Stage, TerminalHandoff};
use queue::Queue;
use rules::{Clock, Setup, Terms};
use scripts::print_field;

// The numbers of parts' `SetupCode` and of include/link.h. No From: the type is of the crate `rules`, and this crate does not stand on `parts`.
fn setup_number(setup: Setup) -> u64 {
    match setup {
        Setup::None => 0,
        Setup::Waiting(_) => 1,
        Setup::Started => 2,
        Setup::Retired => 3,
    }
}

// The terms of a setup that waits, and zeros of any other.
fn terms_of(setup: Setup) -> Terms {
    match setup {
        Setup::Waiting(t) => t,
        _ => Terms {
            number: 0,
            initiator: false,
        },
    }
}

fn print_flag(out: &mut Output, flag: bool) {
    print_field(out, u64::from(flag));
}

fn print_stage(out: &mut Output, g: Stage) {
    let t = terms_of(g.setup);
    print_field(out, u64::from(g.disposition));
    print_field(out, setup_number(g.setup));
    print_field(out, u64::from(t.number));
    print_flag(out, t.initiator);
    print_field(out, g.mode as u64);
    print_flag(out, g.failed);
    out.print_byte(b'\n');
}

// Of a NaN the language reads no bits, so any NaN is one here.
const NAN_PATTERN: u64 = 9221120237041090560;

fn pattern_of(x: f64) -> u64 {
    if x == x {
        return f64::to_bits(x);
    }
    NAN_PATTERN
}

fn print_clock(out: &mut Output, c: Clock, released_remote: u64) {
    out.print_bytes(b"clock");
    print_field(out, u64::from(c.generation));
    print_field(out, u64::from(c.released));
    print_field(out, u64::from(c.persisted));
    print_field(out, released_remote);
    out.print_byte(b' ');
    out.print_hex16(pattern_of(c.last_replay_at));
    out.print_byte(b'\n');
}

// A line of things counted. A count above the array, which no call leaves, leaves the line open.
fn end_counted(out: &mut Output, count: usize, room: usize) {
    if count <= room {
        out.print_byte(b'\n');
    }
}

fn print_unacked(out: &mut Output, o: Outbox, store: &[u8]) {
    out.print_bytes(b"unacked");
    print_field(out, o.count as u64);
    let mut from: usize = 0;
    for u in text::front(&o.records, o.count) {
        let len = u.len as usize;
        print_field(out, u64::from(u.number));
        print_flag(out, u.pending);
        print_flag(out, u.unsent);
        print_part(out, store, from, len);
        from = from.wrapping_add(len);
    }
    end_counted(out, o.count, o.records.len());
}

fn print_queue(out: &mut Output, q: Queue, store: &[u8]) {
    out.print_bytes(b"queue");
    print_field(out, q.count as u64);
    let mut from: usize = 0;
    for u in text::front(&q.records, q.count) {
        let len = u.len as usize;
        print_field(out, u.number);
        print_field(out, u64::from(u.kind));
        print_part(out, store, from, len);
        from = from.wrapping_add(len);
    }
    end_counted(out, q.count, q.records.len());
}

fn print_numbers(out: &mut Output, word: &[u8], v: Numbers) {
    out.print_bytes(word);
    print_field(out, v.count as u64);
    for &n in text::front(&v.values, v.count) {
        print_field(out, n);
    }
    end_counted(out, v.count, v.values.len());
}

fn print_handoff(out: &mut Output, h: TerminalHandoff) {
    out.print_bytes(b"handoff");
    print_flag(out, h.present);
    if h.present {
        print_field(out, h.id);
        print_field(out, h.number);
        print_flag(out, h.sent);
        print_flag(out, h.acknowledged);
        print_body(out, text::front(&h.body, h.len));
    }
    out.print_byte(b'\n');
}

pub fn print_state(out: &mut Output, s: SessionState, outbound: &[u8], queue: &[u8]) {
    out.print_bytes(b"state");
    print_field(out, s.outbox.next);
    print_field(out, s.remote);
    print_stage(out, s.stage);
    print_clock(out, s.clock, s.released);
    print_unacked(out, s.outbox, outbound);
    print_queue(out, s.queue, queue);
    print_numbers(out, b"waiting", s.waiting);
    print_numbers(out, b"retry", s.retry);
    print_handoff(out, s.handoff);
}
