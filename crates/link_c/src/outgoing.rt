// Sending, and what is saved.
ghost use Rattle.rules.specs.Calls.{sends, prepares, completes, reports, connects, fetches};
ghost use Rattle.session.specs.Promise.{CalledWithList, CalledWithOutbound, Answered};
ghost use Rattle.fetches.specs.Fetched.{AnsweredWithOutbound};
ghost use Rattle.parts.specs.Parts.{parts};
ghost use Rattle.parts.specs.Driven.{Driven, DrivenAnswer};

use parts::{Bytes, Halves, LinkAnswer, Words};
use rules::PreparedCommit;

// The body gets the next message number, which is the answer.
#[unsafe(no_mangle)]
pub extern "C" fn link_send(
    words: &mut Words,
    halves: &mut Halves,
    bytes: &mut Bytes,
    clock: &f64,
    list: &mut [u64],
    outbound: &mut [u8],
    body: &[u8],
) -> LinkAnswer
    ensures { Driven (parts words.old halves.old bytes.old clock.now) (parts words.new halves.new bytes.new clock.now) result (λ s y. CalledWithOutbound (sends body.now) s list.old outbound.old y list.new outbound.new) }
{
    link_sending::send(words, halves, bytes, clock, list, outbound, body)
}

// The commit record to save: generation, outbound, remote.
#[unsafe(no_mangle)]
pub extern "C" fn link_prepare(
    words: &Words,
    halves: &Halves,
    bytes: &Bytes,
    clock: &f64,
) -> LinkAnswer
    ensures { DrivenAnswer (parts words.now halves.now bytes.now clock.now) result (λ s a. Answered prepares s a) }
{
    link_commits::prepare(words, halves, bytes, clock)
}

// A commit record was saved, or was not.
#[unsafe(no_mangle)]
pub extern "C" fn link_complete(
    words: &mut Words,
    halves: &mut Halves,
    bytes: &mut Bytes,
    clock: &f64,
    list: &mut [u64],
    commit: PreparedCommit,
    persisted: bool,
) -> LinkAnswer
    ensures { Driven (parts words.old halves.old bytes.old clock.now) (parts words.new halves.new bytes.new clock.now) result (λ s y. CalledWithList (completes commit persisted) s list.old y list.new) }
{
    link_commits::complete(words, halves, bytes, clock, list, commit, persisted)
}

// Whether the line accepted a frame: what is 0 of data, 1 of an ack.
#[unsafe(no_mangle)]
pub extern "C" fn link_report(
    words: &mut Words,
    halves: &Halves,
    bytes: &mut Bytes,
    clock: &f64,
    list: &mut [u64],
    what: u64,
    number: u64,
    accepted: bool,
) -> LinkAnswer
    ensures { Driven (parts words.old halves.now bytes.old clock.now) (parts words.new halves.now bytes.new clock.now) result (λ s y. CalledWithList (reports what number accepted) s list.old y list.new) }
{
    link_reports::report(words, halves, bytes, clock, list, what, number, accepted)
}

// The line's state changed, or time passed: unacked messages are sent again.
#[unsafe(no_mangle)]
pub extern "C" fn link_connectivity(
    words: &Words,
    halves: &Halves,
    bytes: &Bytes,
    clock: &mut f64,
    list: &mut [u64],
    event: u64,
    time: f64,
    force: bool,
) -> LinkAnswer
    ensures { Driven (parts words.now halves.now bytes.now clock.old) (parts words.now halves.now bytes.now clock.new) result (λ s y. CalledWithList (connects event time force) s list.old y list.new) }
{
    link_replays::connectivity(words, halves, bytes, clock, list, event, time, force)
}

// Whether a number is held, and where its body lies in the outbound store.
#[unsafe(no_mangle)]
pub extern "C" fn link_find(
    words: &Words,
    halves: &Halves,
    bytes: &Bytes,
    clock: &f64,
    outbound: &[u8],
    number: u64,
) -> LinkAnswer
    ensures { DrivenAnswer (parts words.now halves.now bytes.now clock.now) result (λ s a. AnsweredWithOutbound (fetches number) s outbound.now a) }
{
    link_fetches::find(words, halves, bytes, clock, outbound, number)
}
