// Acks on the parts of a session, in place: the driver's call on the session that they are.
#![tactic(auto)]

ghost use Rattle.std.specs.Prelude.{◌≡◌, false, ◌&&◌, ◌≤◌, length, eqb};
ghost use Rattle.rules.specs.Lists.{Bytes};
ghost use Rattle.rules.specs.Calls.{gets_ack};
ghost use Rattle.session.specs.Promise.{CalledWithStores};
ghost use Rattle.parts.specs.Parts.{parts, at};
ghost use Rattle.parts.specs.Driven.{Driven};
ghost use Rattle.link_sending.specs.Sends.{Ready};
ghost use Rattle.link_draining.specs.Steps.{Failing};
ghost use Rattle.link_acks.specs.Acks.{outside, BeyondIn};

use parts::{Bytes, Halves, LinkAnswer, Words};
use rules::{Answer, Disposition, ReceiveMode, Refusal};
use session::ANY;

// Whether an ack is of no message that was sent.
fn out_of_range(next: u64, number: u64) -> bool
    ensures { result ≡ outside number next }
{
    number < 1 || next <= number
}

// Whether a rejection is complete, by how many messages are left.
fn complete(disposition: u8, left: u64) -> bool
    ensures { result ≡ (eqb disposition 4 && eqb left 0) }
{
    disposition == Disposition::OutboundReject as u8 && left == 0
}

// The messages up to the ack go.
fn acknowledged(
    words: &mut Words,
    halves: &mut Halves,
    bytes: &mut Bytes,
    clock: &f64,
    list: &mut [u64],
    outbound: &mut [u8],
    number: u64,
) -> LinkAnswer
    requires { Ready (parts words.old halves.old bytes.old clock.now) (length list.old) (length outbound.old) × (outside number (at words.old 0) ≡ false) }
    ensures { (q : Bytes) → 32768 ≤ length q → Driven (parts words.old halves.old bytes.old clock.now) (parts words.new halves.new bytes.new clock.now) result (λ s y. CalledWithStores (gets_ack number) s list.old outbound.old q y list.new outbound.new q) }
{
    let before = words[parts::UNACKED] as usize;
    let disposition = bytes[parts::DISPOSITION];
    let raw = bytes[parts::MODE] == ReceiveMode::Raw as u8;
    let told = acks::handoff_acknowledged(
        bytes[parts::HANDOFF_ACKNOWLEDGED] != 0,
        bytes[parts::HANDOFF_SENT] != 0,
        words[parts::HANDOFF_NUMBER],
        number,
    );
    link_outbox::acknowledge(words, halves, bytes, outbound, number);
    let left = words[parts::UNACKED];
    bytes[parts::HANDOFF_ACKNOWLEDGED] = link_codes::flag_byte(told);
    let k = link_codes::clock_in(halves, clock);
    let after = acks::acknowledged_clock(k, before, left as usize);
    halves[parts::GENERATION] = after.generation;
    let n = events::request(after, list, 0);
    let m = acks::notify_acknowledged(complete(disposition, left), raw, list, n, number);
    link_codes::flag(true, m)
}

// An ack out of range: nothing is acknowledged, the queue is emptied, and code 7 is listed.
fn beyond(
    words: &mut Words,
    halves: &Halves,
    bytes: &mut Bytes,
    clock: &f64,
    list: &mut [u64],
    queue: &mut [u8],
) -> LinkAnswer
    requires { Failing words.old halves.now bytes.old 0 (length list.old) (length queue.old) }
    ensures { BeyondIn (parts words.old halves.now bytes.old clock.now) list.old queue.old result (parts words.new halves.now bytes.new clock.now) list.new queue.new }
{
    let e = link_draining::fail(
        words,
        halves,
        bytes,
        clock,
        list,
        0,
        queue,
        Refusal::AckOutOfRange,
    );
    let a = Answer::Refused(Refusal::AckOutOfRange);
    link_codes::answer_of(a, e.events)
}

// The messages up to a number go, except those pending or unsent.
pub fn ack(
    words: &mut Words,
    halves: &mut Halves,
    bytes: &mut Bytes,
    clock: &f64,
    list: &mut [u64],
    outbound: &mut [u8],
    queue: &mut [u8],
    number: u64,
) -> LinkAnswer
    ensures { Driven (parts words.old halves.old bytes.old clock.now) (parts words.new halves.new bytes.new clock.now) result (λ s y. CalledWithStores (gets_ack number) s list.old outbound.old queue.old y list.new outbound.new queue.new) }
{
    let entered = link_entry::enters(
        words,
        halves,
        bytes,
        list.len(),
        ANY,
        outbound.len(),
        queue.len(),
        false,
        true,
    );
    match entered {
        Err(x) => link_codes::refusal(x),
        Ok(()) => {
            if out_of_range(words[parts::NEXT], number) {
                return beyond(words, halves, bytes, clock, list, queue);
            }
            acknowledged(words, halves, bytes, clock, list, outbound, number)
        }
    }
}
