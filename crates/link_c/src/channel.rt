// A channel's setup and its end.
ghost use Rattle.rules.specs.Calls.{accepts, rejects, prepares_channel, retires, commands};
ghost use Rattle.session.specs.Promise.{CalledWithOutbound, CalledWithOutboundAlone, CalledWithStoresAlone, CalledAlone};
ghost use Rattle.handoffs.specs.Commands.{command_of};
ghost use Rattle.restores.specs.Restored.{Restored};
ghost use Rattle.parts.specs.Parts.{parts};
ghost use Rattle.parts.specs.Driven.{Driven};

use parts::{Bytes, Halves, LinkAnswer, Words};
use restores::Handoff;
use rules::Terms;
use starts::{Record, Reliable};

// A proposal is accepted, or made.
#[unsafe(no_mangle)]
pub extern "C" fn link_accept(
    words: &mut Words,
    halves: &mut Halves,
    bytes: &mut Bytes,
    clock: &f64,
    outbound: &mut [u8],
    terms: Terms,
    body: &[u8],
) -> LinkAnswer
    ensures { Driven (parts words.old halves.old bytes.old clock.now) (parts words.new halves.new bytes.new clock.now) result (λ s y. CalledWithOutboundAlone (accepts terms body.now) s outbound.old y outbound.new) }
{
    link_setup::accept(words, halves, bytes, clock, outbound, terms, body)
}

// The proposal is rejected.
#[unsafe(no_mangle)]
pub extern "C" fn link_reject(
    words: &mut Words,
    halves: &mut Halves,
    bytes: &mut Bytes,
    clock: &f64,
    list: &mut [u64],
    outbound: &mut [u8],
) -> LinkAnswer
    ensures { Driven (parts words.old halves.old bytes.old clock.now) (parts words.new halves.new bytes.new clock.now) result (λ s y. CalledWithOutbound rejects s list.old outbound.old y list.new outbound.new) }
{
    link_setup::reject(words, halves, bytes, clock, list, outbound)
}

// The channel of these terms is made.
#[unsafe(no_mangle)]
pub extern "C" fn link_prepare_channel(
    words: &Words,
    halves: &mut Halves,
    bytes: &mut Bytes,
    clock: &f64,
    terms: Terms,
) -> LinkAnswer
    ensures { Driven (parts words.now halves.old bytes.old clock.now) (parts words.now halves.new bytes.new clock.now) result (λ s y. CalledAlone (prepares_channel terms) s y) }
{
    link_setup::prepare_channel(words, halves, bytes, clock, terms)
}

// The setup ends; its messages are kept or dropped.
#[unsafe(no_mangle)]
pub extern "C" fn link_retire(
    words: &mut Words,
    halves: &mut Halves,
    bytes: &mut Bytes,
    clock: &f64,
    outbound: &mut [u8],
    queue: &mut [u8],
    retain: bool,
) -> LinkAnswer
    ensures { Driven (parts words.old halves.old bytes.old clock.now) (parts words.new halves.new bytes.new clock.now) result (λ s y. CalledWithStoresAlone (retires retain) s outbound.old queue.old y outbound.new queue.new) }
{
    link_retires::retire(words, halves, bytes, clock, outbound, queue, retain)
}

// A channel's command: none, or a terminal handoff with this id and body.
#[unsafe(no_mangle)]
pub extern "C" fn link_command(
    words: &mut Words,
    halves: &mut Halves,
    bytes: &mut Bytes,
    clock: &f64,
    list: &mut [u64],
    outbound: &mut [u8],
    restoring: bool,
    present: bool,
    id: u64,
    body: &[u8],
) -> LinkAnswer
    ensures { Driven (parts words.old halves.old bytes.old clock.now) (parts words.new halves.new bytes.new clock.now) result (λ s y. CalledWithOutbound (commands restoring (command_of present id body.now)) s list.old outbound.old y list.new outbound.new) }
{
    let command = handoffs::command_of(present, id, body);
    link_handoffs::command(
        words, halves, bytes, clock, list, outbound, restoring, command,
    )
}

// The session, which has done nothing yet, takes a record and a handoff.
#[unsafe(no_mangle)]
pub extern "C" fn link_restore(
    words: &mut Words,
    halves: &mut Halves,
    bytes: &mut Bytes,
    clock: &f64,
    outbound: &mut [u8],
    record: Reliable,
    numbers: &[u64],
    lengths: &[u64],
    bodies: &[u8],
    given: Handoff,
    body: &[u8],
) -> LinkAnswer
    ensures { Driven (parts words.old halves.old bytes.old clock.now) (parts words.new halves.new bytes.new clock.now) result (λ s y. Restored «record» numbers.now lengths.now bodies.now given body.now s outbound.old y outbound.new) }
{
    let record = Record {
        reliable: record,
        numbers,
        lengths,
        bodies,
    };
    let given = restores::given_with(given, body);
    link_restores::restore(words, halves, bytes, clock, outbound, record, given)
}
