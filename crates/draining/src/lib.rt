// The part of receiving that data and consumer ready share: a turn begins at a session, the queue is drained, and what came of it is stored.
#![tactic(auto)]

ghost use Rattle.std.specs.Prelude.{◌≡◌, ◌+◌, ◌*◌, ◌≤◌, length, take};
ghost use Rattle.outbox.specs.Steps.{Room, Appended};
ghost use Rattle.queue.specs.View.{ExactQueue};
ghost use Rattle.peer_session.specs.View.{reject_of};
ghost use Rattle.draining.specs.Turns.{turn_of, Settling, Settles, Advances, Finishing, Finishes};
ghost use Rattle.draining.specs.Ends.{Fails, Abandoning, Abandons, Carrying, Carries};

use delivery::{Step, Turn};
use numbers::Numbers;
use outbox::Outbox;
use peer_session::{RejectBody, SessionState};
use rules::{EventCode, HostStatus, Refusal};

// The session that a call ends with, the count of events, and the refusal that ended it: what was delivered before a refusal stands, so this is no Result.
#[derive(Clone, Copy)]
pub struct Ended {
    pub session: SessionState,
    pub events: usize,
    pub stop: Option<Refusal>,
}

// ---- a turn, and what it leaves

pub fn turn_of(s: SessionState) -> Turn
    ensures { result ≡ turn_of s }
{
    Turn {
        mode: s.stage.mode,
        failed: s.stage.failed,
        remote: s.remote,
        clock: s.clock,
        disposition: s.stage.disposition,
        next: s.outbox.next,
        unacked: 0 < s.outbox.count,
        sent: false,
        dropped: false,
    }
}

// The rejection, of n bytes, sent anew.
fn send_reject(o: Outbox, outbound: &mut [u8], body: &[u8], n: usize) -> Outbox
    requires { (Room o (length outbound.old) 0 n) × (n ≤ length body.now) }
    ensures { Appended o outbound.old (take n body.now) result outbound.new }
{
    outbox::append(o, outbound, 0, &body[..n])
}

// The outbox after a turn. Where the rejection was sent and then all was dropped, only its number is gone.
fn settle(o: Outbox, outbound: &mut [u8], t: Turn, j: RejectBody) -> Outbox
    requires { Settling t j o (length outbound.old) }
    ensures { Settles t (reject_of j) o outbound.old result outbound.new }
{
    if t.sent {
        if t.dropped {
            let mut r = o;
            r.next = o.next + 1;
            return r;
        }
        return send_reject(o, outbound, &j.bytes, j.len);
    }
    if t.dropped {
        return outbox::discard(o, outbound);
    }
    o
}

// The session after a turn, but for its queue.
fn advance(s: SessionState, outbound: &mut [u8], t: Turn, w: Numbers) -> SessionState
    requires { Settling t s.reject s.outbox (length outbound.old) }
    ensures { Advances t w s outbound.old result outbound.new }
{
    let mut r = s;
    r.outbox = settle(s.outbox, outbound, t, s.reject);
    r.remote = t.remote;
    r.waiting = w;
    r.clock = t.clock;
    r.stage.disposition = t.disposition;
    r
}

// The same with its queue, from whose front frames were taken.
fn finish(
    s: SessionState,
    outbound: &mut [u8],
    queue: &mut [u8],
    t: Turn,
    w: Numbers,
    taken: usize,
) -> SessionState
    requires { Finishing t taken s (length outbound.old) (length queue.old) }
    ensures { Finishes t w taken s outbound.old queue.old result outbound.new queue.new }
{
    let left = queue::drop_front(s.queue, queue, taken);
    let mut r = advance(s, outbound, t, w);
    r.queue = left;
    r
}

// ---- a refusal that empties the queue

// The Rust's `failure`: the queue is emptied, and code 7 comes last.
pub fn fail(s: SessionState, list: &mut [u64], n: usize, queue: &mut [u8], x: Refusal) -> Ended
    requires { (ExactQueue s.queue (length queue.old)) × (4 * n + 4 ≤ length list.old) }
    ensures { Fails x s list.old n queue.old result list.new queue.new }
{
    let emptied = peer_session::broken(s, queue);
    let number = u64::from(x);
    events::emit(list, n, EventCode::Failure as u64, number, 0, 0);
    Ended {
        session: emptied,
        events: n + 1,
        stop: Some(x),
    }
}

// The same after a turn: what it did stands.
pub fn abandon(
    s: SessionState,
    list: &mut [u64],
    n: usize,
    outbound: &mut [u8],
    queue: &mut [u8],
    t: Turn,
    w: Numbers,
    x: Refusal,
) -> Ended
    requires { Abandoning t w s n (length list.old) (length outbound.old) (length queue.old) }
    ensures { Abandons x t w s list.old n outbound.old queue.old result list.new outbound.new queue.new }
{
    let r = advance(s, outbound, t, w);
    fail(r, list, n, queue, x)
}

// ---- the drain, and the end of a call

// Drains the queue from index from on, after a step, and stores what came of it.
pub fn carry(
    s: SessionState,
    step: Step,
    w: Numbers,
    from: usize,
    status: HostStatus,
    list: &mut [u64],
    delivery: &mut [u8],
    outbound: &mut [u8],
    queue: &mut [u8],
) -> Ended
    requires { Carrying step.turn w from s list.old step.events delivery.old step.at outbound.old queue.old }
    ensures { Carries status step.turn w from s list.old step.events delivery.old step.at outbound.old queue.old result list.new delivery.new outbound.new queue.new }
{
    let d = delivery::drain(step, w, s.queue, from, queue, status, list, delivery);
    let turn = d.step.turn;
    let events = d.step.events;
    match d.stop {
        Some(x) => abandon(s, list, events, outbound, queue, turn, d.waiting, x),
        None => Ended {
            session: finish(s, outbound, queue, turn, d.waiting, d.taken),
            events,
            stop: None,
        },
    }
}
