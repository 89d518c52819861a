// What comes in.
ghost use Rattle.rules.specs.Calls.{gets_data, is_ready, gets_ack, gets_keepalive};
ghost use Rattle.delivery.specs.Turns.{frame_of};
ghost use Rattle.session.specs.Promise.{lent, Called, CalledWithStores, ToldWithList};
ghost use Rattle.parts.specs.Parts.{parts};
ghost use Rattle.parts.specs.Driven.{Driven, DrivenTold};

use parts::{Bytes, Halves, LinkAnswer, Words};
use rules::HostStatus;

// A message came in.
#[unsafe(no_mangle)]
pub extern "C" fn link_data(
    words: &mut Words,
    halves: &mut Halves,
    bytes: &mut Bytes,
    clock: &mut f64,
    list: &mut [u64],
    delivery: &mut [u8],
    outbound: &mut [u8],
    queue: &mut [u8],
    status: HostStatus,
    number: u64,
    kind: u64,
    body: &[u8],
) -> LinkAnswer
    ensures { Driven (parts words.old halves.old bytes.old clock.old) (parts words.new halves.new bytes.new clock.new) result (λ s y. Called (gets_data status (frame_of number kind body.now)) s (lent list.old delivery.old outbound.old queue.old) y (lent list.new delivery.new outbound.new queue.new)) }
{
    link_receiving::data(
        words, halves, bytes, clock, list, delivery, outbound, queue, status, number, kind, body,
    )
}

// What takes messages changed, and is ready.
#[unsafe(no_mangle)]
pub extern "C" fn link_consumer_ready(
    words: &mut Words,
    halves: &mut Halves,
    bytes: &mut Bytes,
    clock: &mut f64,
    list: &mut [u64],
    delivery: &mut [u8],
    outbound: &mut [u8],
    queue: &mut [u8],
    status: HostStatus,
    mode: u64,
) -> LinkAnswer
    ensures { Driven (parts words.old halves.old bytes.old clock.old) (parts words.new halves.new bytes.new clock.new) result (λ s y. Called (is_ready status mode) s (lent list.old delivery.old outbound.old queue.old) y (lent list.new delivery.new outbound.new queue.new)) }
{
    link_consumers::consumer_ready(
        words, halves, bytes, clock, list, delivery, outbound, queue, status, mode,
    )
}

// An acknowledgement came in.
#[unsafe(no_mangle)]
pub extern "C" fn link_ack(
    words: &mut Words,
    halves: &mut Halves,
    bytes: &mut Bytes,
    clock: &f64,
    list: &mut [u64],
    outbound: &mut [u8],
    queue: &mut [u8],
    number: u64,
) -> LinkAnswer
    ensures { Driven (parts words.old halves.old bytes.old clock.now) (parts words.new halves.new bytes.new clock.now) result (λ s y. CalledWithStores (gets_ack number) s list.old outbound.old queue.old y list.new outbound.new queue.new) }
{
    link_acks::ack(words, halves, bytes, clock, list, outbound, queue, number)
}

// A keepalive came in. It changes no session.
#[unsafe(no_mangle)]
pub extern "C" fn link_keepalive(
    words: &Words,
    halves: &Halves,
    bytes: &Bytes,
    clock: &f64,
    list: &mut [u64],
) -> LinkAnswer
    ensures { DrivenTold (parts words.now halves.now bytes.now clock.now) result (λ s y. ToldWithList gets_keepalive s list.old y list.new) }
{
    link_reports::keepalive(words, halves, bytes, clock, list)
}
