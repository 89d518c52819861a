// Data that passed its checks, on the parts of a session, in place: a duplicate, data that is delivered now, and data that waits for its turn.
#![tactic(auto)]

ghost use Rattle.std.specs.Prelude.{true, false, length};
ghost use Rattle.delivery.specs.Turns.{lent_frame};
ghost use Rattle.receiving.specs.Checks.{Acknowledges, Acknowledging, Anew};
ghost use Rattle.parts.specs.Parts.{parts, opened_of};
ghost use Rattle.link_numbers.specs.Sets.{Rising};
ghost use Rattle.link_draining.specs.Endings.{ended_of};
ghost use Rattle.link_arrivals.specs.Steps.{Receiving, Taking};

use delivery::{Frame, Step, Turn};
use link_draining::Ending;
use parts::{Bytes, Halves, Words};
use rules::{EventCode, HostStatus, Refusal};

// A duplicate: its acknowledgement was lost, or waits for its commit.
pub fn receive_again(
    words: &mut Words,
    halves: &Halves,
    bytes: &Bytes,
    clock: &f64,
    list: &mut [u64],
    number: u64,
) -> Ending
    requires { Acknowledging number (opened_of (parts words.old halves.now bytes.now clock.now)) (length list.old) × Rising 272 5 words.old }
    ensures { Acknowledges number (opened_of (parts words.old halves.now bytes.now clock.now)) list.old (ended_of (opened_of (parts words.new halves.now bytes.now clock.now)) result) list.new }
{
    let c = link_codes::clock_in(halves, clock);
    if number <= words[parts::RELEASED] {
        events::emit(list, 0, EventCode::AnswerAck as u64, number, 0, 0);
        let n = events::request(c, list, 1);
        return Ending {
            events: n,
            stop: None,
        };
    }
    link_numbers::put(words, parts::WAITING_NUMBERS, parts::WAITING, number);
    let n = events::request(c, list, 0);
    Ending {
        events: n,
        stop: None,
    }
}

// Data that is delivered now: what was queued up to its number goes. Of the eleven parameters of this and of enqueue eight are what C lends: the four
// parts, the list and the stores.
fn take_now(
    words: &mut Words,
    halves: &mut Halves,
    bytes: &mut Bytes,
    clock: &mut f64,
    t: Turn,
    status: HostStatus,
    list: &mut [u64],
    delivery: &mut [u8],
    outbound: &mut [u8],
    queue: &mut [u8],
    f: Frame,
) -> Ending
    requires { Taking true status t (lent_frame f) words.old halves.old bytes.old clock.old list.old delivery.old outbound.old queue.old }
    ensures { Anew status (lent_frame f.entry) (opened_of (parts words.old halves.old bytes.old clock.old)) list.old delivery.old outbound.old queue.old (ended_of (opened_of (parts words.new halves.new bytes.new clock.new)) result) list.new delivery.new outbound.new queue.new }
{
    let begun = Step {
        turn: t,
        events: 0,
        at: 0,
    };
    match delivery::deliver(begun, list, delivery, f) {
        Err(x) => link_draining::abandon(
            words, halves, bytes, clock, list, 0, outbound, queue, t, x,
        ),
        Ok(done) => {
            let from = link_queue::up_to(words, f.number);
            link_numbers::put(words, parts::WAITING_NUMBERS, parts::WAITING, f.number);
            let step = Step {
                events: events::request(done.turn.clock, list, done.events),
                ..done
            };
            link_draining::carry(
                words, halves, bytes, clock, step, from, status, list, delivery, outbound, queue,
            )
        }
    }
}

// Data that waits for its turn: a number that is queued keeps its first copy.
fn enqueue(
    words: &mut Words,
    halves: &mut Halves,
    bytes: &mut Bytes,
    clock: &mut f64,
    t: Turn,
    status: HostStatus,
    list: &mut [u64],
    delivery: &mut [u8],
    outbound: &mut [u8],
    queue: &mut [u8],
    f: Frame,
) -> Ending
    requires { Taking false status t (lent_frame f) words.old halves.old bytes.old clock.old list.old delivery.old outbound.old queue.old }
    ensures { Anew status (lent_frame f.entry) (opened_of (parts words.old halves.old bytes.old clock.old)) list.old delivery.old outbound.old queue.old (ended_of (opened_of (parts words.new halves.new bytes.new clock.new)) result) list.new delivery.new outbound.new queue.new }
{
    let c = link_codes::clock_in(halves, clock);
    if !link_queue::holds(words, f.number) {
        let count = words[parts::QUEUED];
        if words[parts::POLICY_MESSAGES] < count + 1 {
            let x = Refusal::QueueCount;
            return link_draining::fail(words, halves, bytes, clock, list, 0, queue, x);
        }
        let end = link_queue::start(halves, count as usize);
        if words[parts::POLICY_BYTES] < (end + f.body.len()) as u64 {
            let x = Refusal::QueueBytes;
            return link_draining::fail(words, halves, bytes, clock, list, 0, queue, x);
        }
        link_queue::insert(words, halves, bytes, queue, end, f.number, f.kind, f.body);
    }
    let step = Step {
        turn: t,
        events: events::request(c, list, 0),
        at: 0,
    };
    link_draining::carry(
        words, halves, bytes, clock, step, 0, status, list, delivery, outbound, queue,
    )
}

pub fn receive_new(
    words: &mut Words,
    halves: &mut Halves,
    bytes: &mut Bytes,
    clock: &mut f64,
    status: HostStatus,
    list: &mut [u64],
    delivery: &mut [u8],
    outbound: &mut [u8],
    queue: &mut [u8],
    f: Frame,
) -> Ending
    requires { Receiving (lent_frame f) words.old halves.old bytes.old clock.old list.old delivery.old outbound.old queue.old }
    ensures { Anew status (lent_frame f.entry) (opened_of (parts words.old halves.old bytes.old clock.old)) list.old delivery.old outbound.old queue.old (ended_of (opened_of (parts words.new halves.new bytes.new clock.new)) result) list.new delivery.new outbound.new queue.new }
{
    let t = link_draining::turn_of(words, halves, bytes, clock);
    if receiving::delivers(t, status, f.number, f.kind) {
        return take_now(
            words, halves, bytes, clock, t, status, list, delivery, outbound, queue, f,
        );
    }
    enqueue(
        words, halves, bytes, clock, t, status, list, delivery, outbound, queue, f,
    )
}
