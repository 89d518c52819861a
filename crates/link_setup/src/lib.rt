// The calls that set a session up, on its parts, in place: the driver's calls on the session that they are.
#![tactic(auto)]

ghost use Rattle.std.specs.Prelude.{◌≡◌, true, ◌≤◌, length};
ghost use Rattle.rules.specs.Calls.{accepts, rejects, prepares_channel};
ghost use Rattle.session.specs.Promise.{CalledWithOutbound, CalledWithOutboundAlone, CalledAlone};
ghost use Rattle.parts.specs.Parts.{parts, clock_in};
ghost use Rattle.parts.specs.Driven.{Driven};
ghost use Rattle.link_sending.specs.Sends.{Ready};
ghost use Rattle.link_setup.specs.Steps.{Stages, AsksIn, Accepting, AcceptEnters};

use parts::{Bytes, Halves, LinkAnswer, SetupCode, Words};
use rules::{Disposition, Refusal, Setup, Terms};
use session::ANY;

// Done, with a commit request where something is left to commit.
pub fn done(halves: &Halves, clock: &f64, list: &mut [u64]) -> LinkAnswer
    requires { 4096 ≤ length list.old }
    ensures { AsksIn (clock_in halves.now clock.now) list.old result list.new }
{
    let k = link_codes::clock_in(halves, clock);
    let n = events::request(k, list, 0);
    link_codes::done(n)
}

// ---- the stage

// The terms of a setup that has none.
pub const NO_TERMS: Terms = Terms {
    number: 0,
    initiator: false,
};

// Another disposition, and the setup of another code. The setup is its byte and not a SetupCode, which would ask more of the callers: a byte of the four.
pub fn stage(halves: &mut Halves, bytes: &mut Bytes, disposition: u8, setup: u8, terms: Terms)
    ensures { Stages disposition setup terms halves.old bytes.old halves.new bytes.new }
{
    halves[parts::TERMS] = terms.number;
    bytes[parts::DISPOSITION] = disposition;
    bytes[parts::SETUP] = setup;
    bytes[parts::INITIATOR] = link_codes::flag_byte(terms.initiator);
}

// ---- a channel

// The first terms stay.
pub fn prepare_channel(
    words: &Words,
    halves: &mut Halves,
    bytes: &mut Bytes,
    clock: &f64,
    terms: Terms,
) -> LinkAnswer
    ensures { Driven (parts words.now halves.old bytes.old clock.now) (parts words.now halves.new bytes.new clock.now) result (λ s y. CalledAlone (prepares_channel terms) s y) }
{
    if !link_sound::sound(words, halves, bytes) {
        return link_codes::refusal(Refusal::BadRecord);
    }
    match link_codes::setup_in(halves, bytes) {
        Setup::None => {
            let disposition = bytes[parts::DISPOSITION];
            stage(halves, bytes, disposition, SetupCode::Waiting as u8, terms);
            link_codes::done(0)
        }
        Setup::Waiting(_) => link_codes::done(0),
        Setup::Started => link_codes::refusal(Refusal::ChannelStarted),
        Setup::Retired => link_codes::refusal(Refusal::SetupRetired),
    }
}

// ---- accept

// The tests of an accept, in their order: its entry's, and its own.
fn accept_enters(
    words: &Words,
    halves: &Halves,
    bytes: &Bytes,
    outbound: usize,
    terms: Terms,
) -> Result<(), Refusal>
    ensures { AcceptEnters terms words.now halves.now bytes.now outbound result }
{
    link_entry::enters(words, halves, bytes, ANY, ANY, outbound, ANY, false, true)?;
    if bytes[parts::SETUP] != SetupCode::None as u8 {
        return Err(Refusal::AlreadyAccepted);
    }
    if !terms.initiator {
        return Ok(());
    }
    if words[parts::NEXT] != 1 {
        return Err(Refusal::ProposalNotFirst);
    }
    Ok(())
}

// An initiator's proposal is sent first.
fn propose(
    words: &mut Words,
    halves: &mut Halves,
    bytes: &mut Bytes,
    clock: &f64,
    outbound: &mut [u8],
    terms: Terms,
    body: &[u8],
) -> LinkAnswer
    requires { (Accepting (parts words.old halves.old bytes.old clock.now) terms (length outbound.old)) × (terms.initiator ≡ true) }
    ensures { Driven (parts words.old halves.old bytes.old clock.now) (parts words.new halves.new bytes.new clock.now) result (λ s y. CalledWithOutboundAlone (accepts terms body.now) s outbound.old y outbound.new) }
{
    match link_sending::join(words, halves, bytes, outbound, body) {
        Ok(()) => {
            stage(
                halves,
                bytes,
                Disposition::Active as u8,
                SetupCode::Waiting as u8,
                terms,
            );
            link_codes::done(0)
        }
        Err(x) => link_codes::refusal(x),
    }
}

// An accept past its tests.
fn accepted(
    words: &mut Words,
    halves: &mut Halves,
    bytes: &mut Bytes,
    clock: &f64,
    outbound: &mut [u8],
    terms: Terms,
    body: &[u8],
) -> LinkAnswer
    requires { Accepting (parts words.old halves.old bytes.old clock.now) terms (length outbound.old) }
    ensures { Driven (parts words.old halves.old bytes.old clock.now) (parts words.new halves.new bytes.new clock.now) result (λ s y. CalledWithOutboundAlone (accepts terms body.now) s outbound.old y outbound.new) }
{
    if terms.initiator {
        return propose(words, halves, bytes, clock, outbound, terms, body);
    }
    stage(
        halves,
        bytes,
        Disposition::Active as u8,
        SetupCode::Waiting as u8,
        terms,
    );
    link_codes::done(0)
}

// A proposal is accepted, or made. It requests no commit.
pub fn accept(
    words: &mut Words,
    halves: &mut Halves,
    bytes: &mut Bytes,
    clock: &f64,
    outbound: &mut [u8],
    terms: Terms,
    body: &[u8],
) -> LinkAnswer
    ensures { Driven (parts words.old halves.old bytes.old clock.now) (parts words.new halves.new bytes.new clock.now) result (λ s y. CalledWithOutboundAlone (accepts terms body.now) s outbound.old y outbound.new) }
{
    match accept_enters(words, halves, bytes, outbound.len(), terms) {
        Ok(()) => accepted(words, halves, bytes, clock, outbound, terms, body),
        Err(x) => link_codes::refusal(x),
    }
}

// ---- reject

// The session's reject body is sent.
fn send_reject(
    words: &mut Words,
    halves: &mut Halves,
    bytes: &mut Bytes,
    clock: &f64,
    list: &mut [u64],
    outbound: &mut [u8],
) -> LinkAnswer
    requires { Ready (parts words.old halves.old bytes.old clock.now) (length list.old) (length outbound.old) }
    ensures { Driven (parts words.old halves.old bytes.old clock.now) (parts words.new halves.new bytes.new clock.now) result (λ s y. CalledWithOutbound rejects s list.old outbound.old y list.new outbound.new) }
{
    let j = link_codes::reject_in(words, bytes);
    let body = j.bytes;
    let len = j.len;
    match link_sending::join(words, halves, bytes, outbound, &body[..len]) {
        Ok(()) => {
            bytes[parts::DISPOSITION] = Disposition::OutboundReject as u8;
            done(halves, clock, list)
        }
        Err(x) => link_codes::refusal(x),
    }
}

// A proposal is rejected.
pub fn reject(
    words: &mut Words,
    halves: &mut Halves,
    bytes: &mut Bytes,
    clock: &f64,
    list: &mut [u64],
    outbound: &mut [u8],
) -> LinkAnswer
    ensures { Driven (parts words.old halves.old bytes.old clock.now) (parts words.new halves.new bytes.new clock.now) result (λ s y. CalledWithOutbound rejects s list.old outbound.old y list.new outbound.new) }
{
    let entered = link_entry::enters(
        words,
        halves,
        bytes,
        list.len(),
        ANY,
        outbound.len(),
        ANY,
        false,
        true,
    );
    match entered {
        Ok(()) => send_reject(words, halves, bytes, clock, list, outbound),
        Err(x) => link_codes::refusal(x),
    }
}
