// A restore on the parts of a session, in place: what it changes is written where it lies.
#![tactic(auto)]

ghost use Rattle.std.specs.Prelude.{◌≡◌, ◌≤◌, length};
ghost use Rattle.rules.specs.Start.{handoff_size, same_handoff, agrees};
ghost use Rattle.peer_session.specs.View.{handoff_of, handoff_length};
ghost use Rattle.restores.specs.Restored.{lent_handoff, given_if, RestoredBy};
ghost use Rattle.restores.specs.Steps.{held_in};
ghost use Rattle.parts.specs.Parts.{parts, at, handoff_in};
ghost use Rattle.parts.specs.Driven.{Driven};
ghost use Rattle.link_restores.specs.Handed.{HandedIn};
ghost use Rattle.link_restores.specs.Restores.{Ready, Enters};

use parts::{Bytes, Halves, LinkAnswer, Words};
use peer_session::SessionState;
use restores::Given;
use rules::{Disposition, Refusal};
use starts::Record;

// ---- the handoff

// Whether the handoff that is there is the one given. No derive: the two sides are of different types.
fn same_handoff(words: &Words, bytes: &Bytes, given: Given) -> bool
    requires { at words.now 7 ≤ 4096 }
    ensures { result ≡ same_handoff (held_in (handoff_in words.now bytes.now)) (lent_handoff given.entry) }
{
    if words[parts::HANDOFF_ID] != given.id {
        return false;
    }
    if words[parts::HANDOFF_NUMBER] != given.number {
        return false;
    }
    if !stores::same_bytes(link_codes::handoff_body(words, bytes), given.body) {
        return false;
    }
    if (bytes[parts::HANDOFF_SENT] != 0) != given.sent {
        return false;
    }
    (bytes[parts::HANDOFF_ACKNOWLEDGED] != 0) == given.acknowledged
}

// Whether there is no handoff, or the same one. The first test stands with its return: what is not present has no fields to compare.
fn agrees(words: &Words, bytes: &Bytes, given: Option<Given>) -> bool
    requires { handoff_length (handoff_in words.now bytes.now) ≤ 4096 }
    ensures { result ≡ agrees (handoff_of (handoff_in words.now bytes.now)) (given_if given.entry) }
{
    if bytes[parts::HANDOFF_PRESENT] == 0 {
        return true;
    }
    match given {
        Some(given) => same_handoff(words, bytes, given),
        None => false,
    }
}

// The handoff given, with a copy of its body.
pub fn hand(words: &mut Words, bytes: &mut Bytes, given: Option<Given>)
    requires { handoff_size (given_if given) ≤ 4096 }
    ensures { HandedIn (given_if given.entry) words.old bytes.old words.new bytes.new }
{
    let Some(given) = given else {
        bytes[parts::HANDOFF_PRESENT] = 0;
        return;
    };
    let sent = link_codes::flag_byte(given.sent);
    let acknowledged = link_codes::flag_byte(given.acknowledged);
    stores::copy_in(bytes, parts::HANDOFF_BODY, given.body);
    bytes[parts::HANDOFF_SENT] = sent;
    bytes[parts::HANDOFF_ACKNOWLEDGED] = acknowledged;
    bytes[parts::HANDOFF_PRESENT] = 1;
    words[parts::HANDOFF_LEN] = given.body.len() as u64;
    words[parts::HANDOFF_ID] = given.id;
    words[parts::HANDOFF_NUMBER] = given.number;
}

// ---- a restore

// The tests of a restore, in their order. Not by `link_entry::enters`: the record's own tests stand between those of the entry.
fn enters(
    words: &Words,
    halves: &Halves,
    bytes: &Bytes,
    outbound: usize,
    record: Record,
    given: Option<Given>,
) -> Result<(), Refusal>
    ensures { Enters «record».entry.reliable «record».entry.numbers.now «record».entry.lengths.now «record».entry.bodies.now (given_if given.entry) words.now halves.now bytes.now outbound result }
{
    if outbound < SessionState::OUTBOUND_BYTES {
        return Err(Refusal::ShortBuffer);
    }
    if starts::short_record(record) {
        return Err(Refusal::ShortBuffer);
    }
    if record.reliable.disposition > Disposition::OutboundReject as u64 {
        return Err(Refusal::UnknownCode);
    }
    if !link_sound::sound(words, halves, bytes) {
        return Err(Refusal::BadRecord);
    }
    if !starts::good_record(record) {
        return Err(Refusal::BadRecord);
    }
    if SessionState::MAX_HANDOFF < restores::size_of(given) {
        return Err(Refusal::HandoffTooLong);
    }
    let queued = words[parts::QUEUED] as usize;
    let waiting = words[parts::WAITING] as usize;
    if restores::too_late(halves[parts::GENERATION], queued, waiting) {
        return Err(Refusal::RestoreTooLate);
    }
    Ok(())
}

// A restore past its tests. Refused by 31 it has taken the record.
fn goes(
    words: &mut Words,
    halves: &mut Halves,
    bytes: &mut Bytes,
    clock: &f64,
    outbound: &mut [u8],
    record: Record,
    given: Option<Given>,
) -> LinkAnswer
    requires { Ready «record».reliable «record».numbers.now «record».lengths.now «record».bodies.now (given_if given) (parts words.old halves.old bytes.old clock.now) (length outbound.old) }
    ensures { Driven (parts words.old halves.old bytes.old clock.now) (parts words.new halves.new bytes.new clock.now) result (λ s y. RestoredBy «record».entry.reliable «record».entry.numbers.now «record».entry.lengths.now «record».entry.bodies.now (given_if given.entry) s outbound.old y outbound.new) }
{
    link_starts::take(words, halves, bytes, outbound, record);
    if !agrees(words, bytes, given) {
        return link_codes::refusal(Refusal::OtherHandoff);
    }
    hand(words, bytes, given);
    link_codes::done(0)
}

// A session takes a record and a terminal handoff, whose body is lent.
pub fn restore(
    words: &mut Words,
    halves: &mut Halves,
    bytes: &mut Bytes,
    clock: &f64,
    outbound: &mut [u8],
    record: Record,
    given: Option<Given>,
) -> LinkAnswer
    ensures { Driven (parts words.old halves.old bytes.old clock.now) (parts words.new halves.new bytes.new clock.now) result (λ s y. RestoredBy «record».entry.reliable «record».entry.numbers.now «record».entry.lengths.now «record».entry.bodies.now (given_if given.entry) s outbound.old y outbound.new) }
{
    let stop = enters(words, halves, bytes, outbound.len(), record, given);
    match stop {
        Err(x) => link_codes::refusal(x),
        Ok(()) => goes(words, halves, bytes, clock, outbound, record, given),
    }
}
