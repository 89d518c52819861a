// The Rust's `receive_data` (session.rs), with what it does of the state.
#![tactic(auto)]

ghost use Rattle.std.specs.Prelude.{◌≡◌, true, false, ◌≤◌, ◌<◌, length};
ghost use Rattle.rules.specs.Calls.{gets_data};
ghost use Rattle.numbers.specs.Seats.{ExactNumbers};
ghost use Rattle.session.specs.Promise.{lent, Called};
ghost use Rattle.delivery.specs.Turns.{frame_of, lent_frame};
ghost use Rattle.receiving.specs.Checks.{Filled, Checked, Acknowledges, Acknowledging, Receiving, Taking, Anew, Terminal, Delivers};
ghost use Rattle.draining.specs.Arrived.{Arrived};
ghost use Rattle.receiving.specs.Calls.{returned};

use delivery::{Frame, Step, Turn};
use draining::Ended;
use peer_session::SessionState;
use rules::{Answer, BodyKind, EventCode, HostStatus, ReceiveMode, Refusal};
use session::Returned;

// What becomes of data.
#[derive(Clone, Copy)]
pub enum Verdict {
    Refuse(Refusal),
    Fail(Refusal),
    // a duplicate
    Again,
    New,
}

// ---- checks

// Tests stand one a line, as document 01 lists them, each with its return: `&&` over all of them would read no plainer.

// 26: the acks that wait and the frames in the queue are 512 together, and the number is in neither, nor answered by code 10.
fn acks_full(s: SessionState, number: u64) -> bool
    requires { (ExactNumbers s.waiting) × (s.queue.count ≤ 256) }
    ensures { Filled number s result }
{
    if s.waiting.count + s.queue.count < SessionState::MAX_WAITING_AND_QUEUED {
        return false;
    }
    if numbers::has(s.waiting, number) {
        return false;
    }
    if queue::find(s.queue, number) {
        return false;
    }
    s.remote < number || s.released < number
}

// 4; of a number above remote 5 and 6; 26.
fn check(s: SessionState, number: u64, len: usize) -> Verdict
    requires { (ExactNumbers s.waiting) × (s.queue.count ≤ 256) }
    ensures { Checked number len s result }
{
    if s.policy.body < len {
        return Verdict::Fail(Refusal::BodyTooLong);
    }
    if s.remote < number {
        if s.policy.gap < number - (s.remote + 1) {
            return Verdict::Fail(Refusal::GapTooWide);
        }
        if SessionState::LAST_REMOTE < number {
            return Verdict::Refuse(Refusal::LastNumber);
        }
        if acks_full(s, number) {
            return Verdict::Refuse(Refusal::AcksFull);
        }
        return Verdict::New;
    }
    if acks_full(s, number) {
        return Verdict::Refuse(Refusal::AcksFull);
    }
    Verdict::Again
}

// ---- data

// A duplicate: its acknowledgement was lost, or waits for its commit.
fn receive_again(s: SessionState, list: &mut [u64], number: u64) -> Ended
    requires { Acknowledging number s (length list.old) }
    ensures { Acknowledges number s list.old result list.new }
{
    if number <= s.released {
        events::emit(list, 0, EventCode::AnswerAck as u64, number, 0, 0);
        return Ended {
            session: s,
            events: events::request(s.clock, list, 1),
            stop: None,
        };
    }
    let mut r = s;
    r.waiting = numbers::put(s.waiting, number);
    Ended {
        session: r,
        events: events::request(s.clock, list, 0),
        stop: None,
    }
}

// In Proposal mode, a reject is taken from wherever it is ahead. It asks for a kind alone, and `delivers` for number and kind: neither looks at a body.
fn terminal(t: Turn, kind: u8) -> bool
    ensures { Terminal kind t result }
{
    t.mode == ReceiveMode::Proposal && kind == BodyKind::Reject as u8
}

// Whether data is delivered now. A chain: a host that is not available ends it, and the number says which of two calls answers.
pub fn delivers(t: Turn, status: HostStatus, number: u64, kind: u8) -> bool
    requires { t.remote < number }
    ensures { Delivers status number kind t result }
{
    if !delivery::available(t, status) {
        return false;
    }
    if number == t.remote + 1 {
        return delivery::deliverable(t, number, kind);
    }
    terminal(t, kind)
}

// Data that is delivered now: what was queued up to its number goes.
fn take_now(
    s: SessionState,
    t: Turn,
    status: HostStatus,
    list: &mut [u64],
    delivery: &mut [u8],
    outbound: &mut [u8],
    queue: &mut [u8],
    f: Frame,
) -> Ended
    requires { Taking true status t (lent_frame f) s list.old delivery.old outbound.old queue.old }
    ensures { Anew status (lent_frame f.entry) s list.old delivery.old outbound.old queue.old result list.new delivery.new outbound.new queue.new }
{
    let begun = Step {
        turn: t,
        events: 0,
        at: 0,
    };
    match delivery::deliver(begun, list, delivery, f) {
        Err(x) => draining::abandon(s, list, 0, outbound, queue, t, s.waiting, x),
        Ok(done) => {
            let acks = numbers::put(s.waiting, f.number);
            let from = queue::up_to(s.queue, f.number);
            let step = Step {
                events: events::request(done.turn.clock, list, done.events),
                ..done
            };
            draining::carry(s, step, acks, from, status, list, delivery, outbound, queue)
        }
    }
}

// Data that waits for its turn: a number that is queued keeps its first copy.
fn enqueue(
    s: SessionState,
    t: Turn,
    status: HostStatus,
    list: &mut [u64],
    delivery: &mut [u8],
    outbound: &mut [u8],
    queue: &mut [u8],
    f: Frame,
) -> Ended
    requires { Taking false status t (lent_frame f) s list.old delivery.old outbound.old queue.old }
    ensures { Anew status (lent_frame f.entry) s list.old delivery.old outbound.old queue.old result list.new delivery.new outbound.new queue.new }
{
    let mut r = s;
    if !queue::find(s.queue, f.number) {
        if s.policy.messages < s.queue.count + 1 {
            return draining::fail(s, list, 0, queue, Refusal::QueueCount);
        }
        if s.policy.bytes < queue::used(s.queue) + f.body.len() {
            return draining::fail(s, list, 0, queue, Refusal::QueueBytes);
        }
        r.queue = queue::insert(s.queue, queue, f.number, f.kind, f.body);
    }
    let step = Step {
        turn: t,
        events: events::request(s.clock, list, 0),
        at: 0,
    };
    draining::carry(
        r, step, s.waiting, 0, status, list, delivery, outbound, queue,
    )
}

fn receive_new(
    s: SessionState,
    status: HostStatus,
    list: &mut [u64],
    delivery: &mut [u8],
    outbound: &mut [u8],
    queue: &mut [u8],
    f: Frame,
) -> Ended
    requires { Receiving (lent_frame f) s list.old delivery.old outbound.old queue.old }
    ensures { Anew status (lent_frame f.entry) s list.old delivery.old outbound.old queue.old result list.new delivery.new outbound.new queue.new }
{
    let t = draining::turn_of(s);
    if delivers(t, status, f.number, f.kind) {
        return take_now(s, t, status, list, delivery, outbound, queue, f);
    }
    enqueue(s, t, status, list, delivery, outbound, queue, f)
}

// What data answers, by the refusal that ended it.
fn answered(e: Ended) -> Returned
    ensures { result ≡ returned e }
{
    let answer = match e.stop {
        None => Answer::Flag(true),
        Some(x) => Answer::Refused(x),
    };
    Returned {
        session: e.session,
        answer,
        events: e.events,
    }
}

fn receive(
    s: SessionState,
    list: &mut [u64],
    delivery: &mut [u8],
    outbound: &mut [u8],
    queue: &mut [u8],
    status: HostStatus,
    f: Frame,
) -> Returned
    requires { (Arrived s list.old delivery.old outbound.old queue.old) × (f.kind ≤ 2) }
    ensures { Called (gets_data status (lent_frame f.entry)) s (lent list.old delivery.old outbound.old queue.old) result (lent list.new delivery.new outbound.new queue.new) }
{
    match check(s, f.number, f.body.len()) {
        Verdict::Refuse(x) => session::refused(s, x),
        Verdict::Fail(x) => answered(draining::fail(s, list, 0, queue, x)),
        Verdict::Again => answered(receive_again(s, list, f.number)),
        Verdict::New => answered(receive_new(s, status, list, delivery, outbound, queue, f)),
    }
}

// The Rust's `receive_data`: a peer's data, with the kind of its body. Number, kind and body stand apart, as C gives them: the kind is a number of any size
// until it is tested here, and a Frame has room only for a byte.
pub fn receive_data(
    s: SessionState,
    list: &mut [u64],
    delivery: &mut [u8],
    outbound: &mut [u8],
    queue: &mut [u8],
    status: HostStatus,
    number: u64,
    kind: u64,
    body: &[u8],
) -> Returned
    ensures { Called (gets_data status (frame_of number kind body.now)) s (lent list.old delivery.old outbound.old queue.old) result (lent list.new delivery.new outbound.new queue.new) }
{
    if let Err(x) = session::enters(
        s,
        list.len(),
        delivery.len(),
        outbound.len(),
        queue.len(),
        kind > BodyKind::Reject as u64,
        true,
    ) {
        return session::refused(s, x);
    }
    let f = Frame {
        number,
        kind: kind as u8,
        body,
    };
    receive(s, list, delivery, outbound, queue, status, f)
}
