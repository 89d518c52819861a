// The part of receiving that data and consumer ready share, on the parts of a session, in place: a turn begins at it, the queue is drained, and what came
// of it is stored.
#![tactic(auto)]

ghost use Rattle.std.specs.Prelude.{◌≡◌, true, ◌≤◌, length};
ghost use Rattle.outbox.specs.View.{ExactOutbox};
ghost use Rattle.outbox.specs.Steps.{Room};
ghost use Rattle.peer_session.specs.View.{reject_of};
ghost use Rattle.draining.specs.Turns.{turn_of, Settling, Finishing, Finishes};
ghost use Rattle.draining.specs.Ends.{Fails, Abandoning, Abandons, Carrying, Carries};
ghost use Rattle.parts.specs.Codes.{good_codes};
ghost use Rattle.parts.specs.Parts.{parts, at, outbox_in, waiting_in, codes_in, reject_in, opened_of};
ghost use Rattle.link_outbox.specs.Steps.{Joins};
ghost use Rattle.link_draining.specs.Steps.{Discards, SettlesIn, Timed, AdvancesIn, failed_bytes, Failing};
ghost use Rattle.link_draining.specs.Endings.{ended_of};

use delivery::{Step, Turn};
use parts::{Bytes, Halves, Words};
use rules::{Clock, EventCode, HostStatus, ReceiveMode, Refusal};

// The count of events at a call's end, and the refusal that ended it: the events stand beside a refusal, so this is no Result.
#[derive(Clone, Copy)]
pub struct Ending {
    pub events: usize,
    pub stop: Option<Refusal>,
}

// ---- a turn, and what it leaves

pub fn turn_of(words: &Words, halves: &Halves, bytes: &Bytes, clock: &f64) -> Turn
    requires { good_codes (codes_in halves.now bytes.now) ≡ true }
    ensures { result ≡ turn_of (opened_of (parts words.now halves.now bytes.now clock.now)) }
{
    Turn {
        mode: link_codes::mode_of(bytes[parts::MODE]),
        failed: bytes[parts::FAILED] != 0,
        remote: words[parts::REMOTE],
        clock: link_codes::clock_in(halves, clock),
        disposition: bytes[parts::DISPOSITION],
        next: words[parts::NEXT],
        unacked: 0 < words[parts::UNACKED],
        sent: false,
        dropped: false,
    }
}

// The rejection sent anew.
fn send_reject(words: &mut Words, halves: &mut Halves, bytes: &mut Bytes, outbound: &mut [u8])
    requires { (Room (outbox_in words.old halves.old bytes.old) (length outbound.old) 0 (at words.old 14)) × (at words.old 14 ≤ length (reject_in words.old bytes.old).bytes) }
    ensures { Joins words.old halves.old bytes.old outbound.old (reject_of (reject_in words.old bytes.old)) words.new halves.new bytes.new outbound.new }
{
    let j = link_codes::reject_in(words, bytes);
    link_outbox::append(words, halves, bytes, outbound, 0, &j.bytes[..j.len]);
}

// All messages go.
pub fn discard(words: &mut Words, halves: &Halves, bytes: &Bytes, outbound: &mut [u8])
    requires { ExactOutbox (outbox_in words.old halves.now bytes.now) (length outbound.old) }
    ensures { Discards words.old halves.now bytes.now outbound.old words.new outbound.new }
{
    let end = link_outbox::used(halves, words[parts::UNACKED] as usize);
    stores::clear(outbound, 0, end);
    words[parts::UNACKED] = 0;
}

// The outbox after a turn. Where the rejection was sent and then all was dropped, only its number is gone.
fn settle(words: &mut Words, halves: &mut Halves, bytes: &mut Bytes, outbound: &mut [u8], t: Turn)
    requires { Settling t (reject_in words.old bytes.old) (outbox_in words.old halves.old bytes.old) (length outbound.old) }
    ensures { SettlesIn t words.old halves.old bytes.old outbound.old words.new halves.new bytes.new outbound.new }
{
    if t.sent {
        if t.dropped {
            words[parts::NEXT] += 1;
            return;
        }
        send_reject(words, halves, bytes, outbound);
        return;
    }
    if t.dropped {
        discard(words, halves, bytes, outbound);
        return;
    }
}

fn set_clock(halves: &mut Halves, clock: &mut f64, k: Clock)
    ensures { Timed k halves.old halves.new clock.new }
{
    halves[parts::GENERATION] = k.generation;
    halves[parts::RELEASED_GENERATION] = k.released;
    halves[parts::PERSISTED_GENERATION] = k.persisted;
    *clock = k.last_replay_at;
}

// The session after a turn, but for its queue. The acks that wait are there already.
fn advance(
    words: &mut Words,
    halves: &mut Halves,
    bytes: &mut Bytes,
    clock: &mut f64,
    outbound: &mut [u8],
    t: Turn,
)
    requires { (Settling t (opened_of (parts words.old halves.old bytes.old clock.old)).reject (opened_of (parts words.old halves.old bytes.old clock.old)).outbox (length outbound.old)) × (good_codes (codes_in halves.old bytes.old) ≡ true) }
    ensures { AdvancesIn t (parts words.old halves.old bytes.old clock.old) outbound.old (parts words.new halves.new bytes.new clock.new) outbound.new }
{
    settle(words, halves, bytes, outbound, t);
    words[parts::REMOTE] = t.remote;
    bytes[parts::DISPOSITION] = t.disposition;
    set_clock(halves, clock, t.clock);
}

// The same with its queue, from whose front frames were taken.
fn finish(
    words: &mut Words,
    halves: &mut Halves,
    bytes: &mut Bytes,
    clock: &mut f64,
    outbound: &mut [u8],
    queue: &mut [u8],
    t: Turn,
    taken: usize,
)
    requires { (Finishing t taken (opened_of (parts words.old halves.old bytes.old clock.old)) (length outbound.old) (length queue.old)) × (good_codes (codes_in halves.old bytes.old) ≡ true) }
    ensures { Finishes t (waiting_in words.old) taken (opened_of (parts words.old halves.old bytes.old clock.old)) outbound.old queue.old (opened_of (parts words.new halves.new bytes.new clock.new)) outbound.new queue.new }
{
    advance(words, halves, bytes, clock, outbound, t);
    link_queue::drop_front(words, halves, bytes, queue, taken);
}

// ---- a refusal that empties the queue

// In Channel mode nothing is delivered after a refusal.
fn mark_failed(bytes: &mut Bytes)
    ensures { bytes.new ≡ failed_bytes bytes.old }
{
    if bytes[parts::MODE] == ReceiveMode::Channel as u8 {
        bytes[parts::FAILED] = 1;
    }
}

// The Rust's `failure`: the queue is emptied, and code 7 comes last.
pub fn fail(
    words: &mut Words,
    halves: &Halves,
    bytes: &mut Bytes,
    clock: &f64,
    list: &mut [u64],
    n: usize,
    queue: &mut [u8],
    x: Refusal,
) -> Ending
    requires { Failing words.old halves.now bytes.old n (length list.old) (length queue.old) }
    ensures { Fails x (opened_of (parts words.old halves.now bytes.old clock.now)) list.old n queue.old (ended_of (opened_of (parts words.new halves.now bytes.new clock.now)) result) list.new queue.new }
{
    link_queue::clear(words, halves, bytes, queue);
    mark_failed(bytes);
    let number = u64::from(x);
    events::emit(list, n, EventCode::Failure as u64, number, 0, 0);
    Ending {
        events: n + 1,
        stop: Some(x),
    }
}

// The same after a turn: what it did stands.
pub fn abandon(
    words: &mut Words,
    halves: &mut Halves,
    bytes: &mut Bytes,
    clock: &mut f64,
    list: &mut [u64],
    n: usize,
    outbound: &mut [u8],
    queue: &mut [u8],
    t: Turn,
    x: Refusal,
) -> Ending
    requires { (Abandoning t (waiting_in words.old) (opened_of (parts words.old halves.old bytes.old clock.old)) n (length list.old) (length outbound.old) (length queue.old)) × (good_codes (codes_in halves.old bytes.old) ≡ true) }
    ensures { Abandons x t (waiting_in words.old) (opened_of (parts words.old halves.old bytes.old clock.old)) list.old n outbound.old queue.old (ended_of (opened_of (parts words.new halves.new bytes.new clock.new)) result) list.new outbound.new queue.new }
{
    advance(words, halves, bytes, clock, outbound, t);
    fail(words, halves, bytes, clock, list, n, queue, x)
}

// ---- the drain, and the end of a call

// Drains the queue from index from on, after a step, and stores what came of it. Of its eleven parameters eight are what C lends: the four parts, the list
// and the stores.
pub fn carry(
    words: &mut Words,
    halves: &mut Halves,
    bytes: &mut Bytes,
    clock: &mut f64,
    step: Step,
    from: usize,
    status: HostStatus,
    list: &mut [u64],
    delivery: &mut [u8],
    outbound: &mut [u8],
    queue: &mut [u8],
) -> Ending
    requires { (Carrying step.turn (waiting_in words.old) from (opened_of (parts words.old halves.old bytes.old clock.old)) list.old step.events delivery.old step.at outbound.old queue.old) × (good_codes (codes_in halves.old bytes.old) ≡ true) }
    ensures { Carries status step.turn (waiting_in words.old) from (opened_of (parts words.old halves.old bytes.old clock.old)) list.old step.events delivery.old step.at outbound.old queue.old (ended_of (opened_of (parts words.new halves.new bytes.new clock.new)) result) list.new delivery.new outbound.new queue.new }
{
    let d = link_delivery::drain(
        step, words, halves, bytes, from, queue, status, list, delivery,
    );
    let turn = d.step.turn;
    let events = d.step.events;
    match d.stop {
        Some(x) => abandon(
            words, halves, bytes, clock, list, events, outbound, queue, turn, x,
        ),
        None => {
            finish(words, halves, bytes, clock, outbound, queue, turn, d.taken);
            Ending { events, stop: None }
        }
    }
}
