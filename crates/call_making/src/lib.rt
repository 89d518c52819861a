// The calls of a script, made on its session.
#![tactic(auto)]

use call_reading::records::{Handoff, Record};
use call_reading::{Call, Lent, Opening};
use peer_session::SessionState;
use restores::Given;
use rules::Refusal;
use session::Returned;
use starts::Reliable;

// What calls write beside the session: the list for their events, and the stores. A struct here, though the exported calls take the four apart: there
// each promise would want a clause for each field, and the functions here promise nothing.
#[derive(Drop)]
pub struct Stores<'a> {
    pub list: &'a mut [u64; 4096],
    pub delivery: &'a mut [u8; 49152],
    pub outbound: &'a mut [u8; 65536],
    pub queue: &'a mut [u8; 32768],
}

fn lent_record<'a>(r: Record, lent: Lent<'a>) -> starts::Record<'a> {
    let reliable = Reliable {
        message_number: r.numbers.message_number,
        remote_number: r.numbers.remote,
        disposition: r.numbers.disposition,
    };
    starts::Record {
        reliable,
        numbers: text::front(lent.numbers, r.messages.count),
        lengths: text::front(lent.lengths, r.messages.count),
        bodies: text::between(lent.body, r.messages.from, r.messages.to),
    }
}

pub fn start(o: Opening, lent: Lent, stores: &mut Stores) -> Returned {
    let outbound = &mut *stores.outbound;
    let queue = &mut *stores.queue;
    starts::start(
        lent_record(o.record, lent),
        o.policy,
        text::front(lent.body, o.reject),
        outbound,
        queue,
    )
}

// The handoff, whose body comes after those of the messages, up to index to.
fn given<'a>(h: Handoff, body: &'a [u8], to: usize) -> Given<'a> {
    Given {
        id: h.id,
        number: h.number,
        sent: h.sent,
        acknowledged: h.acknowledged,
        body: text::between(body, to, to.wrapping_add(h.len)),
    }
}

fn restore(
    s: SessionState,
    r: Record,
    h: Option<Handoff>,
    lent: Lent,
    outbound: &mut [u8; 65536],
) -> Returned {
    let given = h.map(|h| given(h, lent.body, r.messages.to));
    restores::restore(s, outbound, lent_record(r, lent), given)
}

// A keepalive hands no session back, since it changes none.
fn keepalive(s: SessionState, list: &mut [u64; 4096]) -> Returned {
    let told = acks::receive_keepalive(s, list);
    session::unchanged(s, told.answer, told.events)
}

// Calls on the setup and the handoff. The calls are in three functions, since one would be too long to read.
fn set_up(c: Call, s: SessionState, lent: Lent, stores: &mut Stores) -> Returned {
    let body = lent.body;
    let list = &mut *stores.list;
    let outbound = &mut *stores.outbound;
    let queue = &mut *stores.queue;
    match c {
        Call::Accept { terms, len } => {
            setup::accept_session(s, outbound, terms, text::front(body, len))
        }
        Call::Reject => setup::reject_session(s, list, outbound),
        Call::PrepareChannel(terms) => setup::prepare_channel(s, terms),
        Call::Command { restoring, command } => {
            let command = command.map(|c| handoffs::Command {
                id: c.id,
                body: text::front(body, c.len),
            });
            handoffs::channel_command(s, list, outbound, restoring, command)
        }
        Call::Retire(retain) => setup::retire(s, outbound, queue, retain),
        _ => session::refused(s, Refusal::UnknownCode),
    }
}

// What a peer sent, and a consumer that is ready for it.
fn receive(c: Call, s: SessionState, lent: Lent, stores: &mut Stores) -> Returned {
    let list = &mut *stores.list;
    let delivery = &mut *stores.delivery;
    let outbound = &mut *stores.outbound;
    let queue = &mut *stores.queue;
    match c {
        Call::Data {
            status,
            number,
            kind,
            len,
        } => {
            let b = text::front(lent.body, len);
            receiving::receive_data(s, list, delivery, outbound, queue, status, number, kind, b)
        }
        Call::Ack(n) => acks::receive_ack(s, list, outbound, queue, n),
        Call::Keepalive => keepalive(s, list),
        Call::Ready { status, mode } => {
            consumers::consumer_ready(s, list, delivery, outbound, queue, status, mode)
        }
        _ => set_up(c, s, lent, stores),
    }
}

// Any call; a restore, and those that send, commit and report, are made here. A restore among the others (`set_up`) took a third longer: a function makes
// room for the session of each of its calls, and it came through two more.
pub fn call(c: Call, s: SessionState, lent: Lent, stores: &mut Stores) -> Returned {
    let list = &mut *stores.list;
    let outbound = &mut *stores.outbound;
    match c {
        Call::Restore { record, handoff } => restore(s, record, handoff, lent, outbound),
        Call::Send(n) => {
            let b = text::front(lent.body, n);
            sending::send_message(s, list, outbound, b)
        }
        Call::Prepare => session::unchanged(s, commits::prepare_commit(s), 0),
        Call::Complete { commit, persisted } => {
            commits::complete_commit(s, list, commit, persisted)
        }
        Call::Connectivity { event, time, force } => {
            replays::connectivity(s, list, event, time, force)
        }
        Call::Report {
            what,
            number,
            accepted,
        } => acks::report(s, list, what, number, accepted),
        _ => receive(c, s, lent, stores),
    }
}
