// The Rust's `consumer_ready` (session.rs) on the parts of a session, in place: the driver's call on the session that they are.
#![tactic(auto)]

ghost use Rattle.rules.specs.Calls.{is_ready};
ghost use Rattle.session.specs.Promise.{lent, Called};
ghost use Rattle.parts.specs.Parts.{parts};
ghost use Rattle.parts.specs.Driven.{Driven};
ghost use Rattle.link_consumers.specs.Modes.{Readying};

use delivery::Step;
use parts::{Bytes, Halves, LinkAnswer, Words};
use rules::{HostStatus, ReceiveMode};

// The queue of a sound session begins above remote: nothing in it is obsolete. A refusal that ends the drain is not returned. The mode comes as its number,
// which is what is stored: read as a ReceiveMode it would be turned back at once.
fn ready(
    words: &mut Words,
    halves: &mut Halves,
    bytes: &mut Bytes,
    clock: &mut f64,
    list: &mut [u64],
    delivery: &mut [u8],
    outbound: &mut [u8],
    queue: &mut [u8],
    status: HostStatus,
    mode: u8,
) -> LinkAnswer
    requires { Readying mode words.old halves.old bytes.old clock.old list.old delivery.old outbound.old queue.old }
    ensures { Driven (parts words.old halves.old bytes.old clock.old) (parts words.new halves.new bytes.new clock.new) result (λ s y. Called (is_ready status mode) s (lent list.old delivery.old outbound.old queue.old) y (lent list.new delivery.new outbound.new queue.new)) }
{
    bytes[parts::MODE] = mode;
    let step = Step {
        turn: link_draining::turn_of(words, halves, bytes, clock),
        events: 0,
        at: 0,
    };
    let e = link_draining::carry(
        words, halves, bytes, clock, step, 0, status, list, delivery, outbound, queue,
    );
    link_codes::done(e.events)
}

// What takes messages changed, and is ready.
pub fn consumer_ready(
    words: &mut Words,
    halves: &mut Halves,
    bytes: &mut Bytes,
    clock: &mut f64,
    list: &mut [u64],
    delivery: &mut [u8],
    outbound: &mut [u8],
    queue: &mut [u8],
    status: HostStatus,
    mode: u64,
) -> LinkAnswer
    ensures { Driven (parts words.old halves.old bytes.old clock.old) (parts words.new halves.new bytes.new clock.new) result (λ s y. Called (is_ready status mode) s (lent list.old delivery.old outbound.old queue.old) y (lent list.new delivery.new outbound.new queue.new)) }
{
    if let Err(x) = link_entry::enters(
        words,
        halves,
        bytes,
        list.len(),
        delivery.len(),
        outbound.len(),
        queue.len(),
        mode > ReceiveMode::Retiring as u64,
        true,
    ) {
        return link_codes::refusal(x);
    }
    ready(
        words, halves, bytes, clock, list, delivery, outbound, queue, status, mode as u8,
    )
}
