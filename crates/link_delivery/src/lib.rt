// The drain of the queue on the parts of a session: frames are read, and acks that wait are written, where they lie.
#![tactic(auto)]

ghost use Rattle.std.specs.Prelude.{◌≡◌, ◌+◌, ◌*◌, ◌≤◌, length};
ghost use Rattle.events.specs.Written.{books};
ghost use Rattle.delivery.specs.Turns.{Draining};
ghost use Rattle.parts.specs.Parts.{queue_in, waiting_in};
ghost use Rattle.link_delivery.specs.Drains.{DrainsIn, DrainingRaw, Left, HandedRaw, reached};

use delivery::{Frame, Step, Turn};
use parts::{Bytes, Halves, Words};
use rules::{EventCode, HostStatus, ReceiveMode, Refusal};

// The step that a drain ended at, how many frames were taken from the front of the queue, and the refusal that ended it: what was delivered before a refusal
// stands, so this is no Result.
#[derive(Clone, Copy)]
pub struct DrainEnd {
    pub step: Step,
    pub taken: usize,
    pub stop: Option<Refusal>,
}

// The loop is left with k acks that wait, at the frame that is not taken.
fn leave(words: &mut Words, k: usize, step: Step, taken: usize, stop: Option<Refusal>) -> DrainEnd
    ensures { Left step k taken stop words.old result words.new }
{
    words[parts::WAITING] = k as u64;
    DrainEnd { step, taken, stop }
}

// ---- in every mode

// As `delivery::drain` does it.
fn drain_each(
    s: Step,
    words: &mut Words,
    halves: &Halves,
    bytes: &Bytes,
    from: usize,
    store: &[u8],
    status: HostStatus,
    list: &mut [u64],
    delivery: &mut [u8],
) -> DrainEnd
    requires { Draining s.turn (waiting_in words.old) (queue_in words.old halves.now bytes.now) from store.now (books list.old s.events delivery.old s.at) }
    ensures { DrainsIn status s.turn from words.old halves.now bytes.now store.now (books list.old s.events delivery.old s.at) result words.new list.new delivery.new }
{
    let count = words[parts::QUEUED] as usize;
    let mut step = s;
    let mut k = words[parts::WAITING] as usize;
    let mut start = link_queue::start(halves, from);
    for i in from..count {
        let number = words[parts::QUEUED_NUMBERS + i];
        let kind = bytes[parts::QUEUED_KINDS + i];
        if !delivery::available(step.turn, status)
            || number != step.turn.remote + 1
            || !delivery::deliverable(step.turn, number, kind)
        {
            return leave(words, k, step, i, None);
        }
        let len = halves[parts::QUEUED_LENS + i] as usize;
        let body = stores::part(store, start, len);
        match delivery::deliver(step, list, delivery, Frame { number, kind, body }) {
            Ok(next) => step = next,
            Err(x) => return leave(words, k, step, i, Some(x)),
        }
        words[parts::WAITING_NUMBERS + k] = number;
        k += 1;
        start += len;
    }
    leave(words, k, step, count, None)
}

// ---- in Raw mode

// A turn that came to another remote number and generation.
fn reach(t: Turn, remote: u64, generation: u32) -> Turn
    ensures { result ≡ reached t remote generation }
{
    let mut r = t;
    r.clock.generation = generation;
    r.remote = remote;
    r
}

// Code 2 with the body, and code 1 while the generation exceeds the persisted one. delivery's takes and gives a `Step`, of which a turn is most.
fn hand_over(
    list: &mut [u64],
    n: usize,
    delivery: &mut [u8],
    at: usize,
    number: u64,
    body: &[u8],
    generation: u32,
    persisted: u32,
) -> usize
    requires { (4 * n + 8 ≤ length list.old) × (at + length body.now ≤ length delivery.old) }
    ensures { HandedRaw number generation persisted body.now (books list.old n delivery.old at) result list.new delivery.new }
{
    let len = body.len();
    stores::copy_in(delivery, at, body);
    events::emit(
        list,
        n,
        EventCode::Message as u64,
        number,
        at as u64,
        len as u64,
    );
    events::emit_if(
        persisted < generation,
        list,
        n + 1,
        EventCode::CommitRequested as u64,
        0,
        0,
        0,
    )
}

// Where the host is there. Nothing but numbers changes from frame to frame, so the loop keeps them bare: a `Step` made anew for each frame is no plainer.
fn drain_raw(
    s: Step,
    words: &mut Words,
    halves: &Halves,
    bytes: &Bytes,
    from: usize,
    store: &[u8],
    status: HostStatus,
    list: &mut [u64],
    delivery: &mut [u8],
) -> DrainEnd
    requires { DrainingRaw status s.turn words.old halves.now bytes.now from store.now (books list.old s.events delivery.old s.at) }
    ensures { DrainsIn status s.turn from words.old halves.now bytes.now store.now (books list.old s.events delivery.old s.at) result words.new list.new delivery.new }
{
    let count = words[parts::QUEUED] as usize;
    let persisted = s.turn.clock.persisted;
    let mut generation = s.turn.clock.generation;
    let mut remote = s.turn.remote;
    let mut k = words[parts::WAITING] as usize;
    let mut start = link_queue::start(halves, from);
    let mut events = s.events;
    let mut at = s.at;
    let mut taken = count;
    for i in from..count {
        let number = words[parts::QUEUED_NUMBERS + i];
        if number != remote + 1 {
            taken = i;
            break;
        }
        let len = halves[parts::QUEUED_LENS + i] as usize;
        let body = stores::part(store, start, len);
        generation += 1;
        events = hand_over(
            list, events, delivery, at, number, body, generation, persisted,
        );
        words[parts::WAITING_NUMBERS + k] = number;
        remote = number;
        k += 1;
        at += len;
        start += len;
    }
    let turn = reach(s.turn, remote, generation);
    leave(words, k, Step { turn, events, at }, taken, None)
}

// ---- the drain

// From frame `from` of the queue on, for as long as the host is available and the next message is there and deliverable. Its ack has the highest
// number of those that wait.
pub fn drain(
    s: Step,
    words: &mut Words,
    halves: &Halves,
    bytes: &Bytes,
    from: usize,
    store: &[u8],
    status: HostStatus,
    list: &mut [u64],
    delivery: &mut [u8],
) -> DrainEnd
    requires { Draining s.turn (waiting_in words.old) (queue_in words.old halves.now bytes.now) from store.now (books list.old s.events delivery.old s.at) }
    ensures { DrainsIn status s.turn from words.old halves.now bytes.now store.now (books list.old s.events delivery.old s.at) result words.new list.new delivery.new }
{
    if status.available && matches!(s.turn.mode, ReceiveMode::Raw) {
        return drain_raw(s, words, halves, bytes, from, store, status, list, delivery);
    }
    drain_each(s, words, halves, bytes, from, store, status, list, delivery)
}
