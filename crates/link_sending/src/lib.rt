// A send on the parts of a session, in place: the driver's send on the session that they are.
#![tactic(auto)]

ghost use Rattle.std.specs.Prelude.{◌<◌, length};
ghost use Rattle.rules.specs.Calls.{sends};
ghost use Rattle.outbox.specs.View.{ExactOutbox};
ghost use Rattle.session.specs.Promise.{CalledWithOutbound};
ghost use Rattle.parts.specs.Parts.{parts, at, outbox_in};
ghost use Rattle.parts.specs.Driven.{Driven};
ghost use Rattle.link_sending.specs.Sends.{Ready, AllocatesIn, JoinsIn};

use parts::{Bytes, Halves, LinkAnswer, Words};
use peer_session::SessionState;
use rules::Refusal;
use session::ANY;

// `peer_session::allocate`: a message gets the next number and joins the unacked as pending, or is refused.
pub fn allocate(
    words: &mut Words,
    halves: &mut Halves,
    bytes: &mut Bytes,
    store: &mut [u8],
    body: &[u8],
) -> Result<(), Refusal>
    requires { ExactOutbox (outbox_in words.old halves.old bytes.old) (length store.old) }
    ensures { AllocatesIn body.now words.old halves.old bytes.old store.old result words.new halves.new bytes.new store.new }
{
    if SessionState::LAST_MESSAGE < words[parts::NEXT] {
        return Err(Refusal::NumbersExhausted);
    }
    let count = words[parts::UNACKED] as usize;
    if SessionState::MAX_UNACKED <= count {
        return Err(Refusal::UnackedFull);
    }
    let at = link_outbox::used(halves, count);
    if SessionState::OUTBOUND_BYTES - at < body.len() {
        return Err(Refusal::UnackedFull);
    }
    link_outbox::append(words, halves, bytes, store, at, body);
    Ok(())
}

// `setup::join` but for the disposition: a message joins, and the generation is raised. A refusal leaves the parts and the store.
pub fn join(
    words: &mut Words,
    halves: &mut Halves,
    bytes: &mut Bytes,
    store: &mut [u8],
    body: &[u8],
) -> Result<(), Refusal>
    requires { ExactOutbox (outbox_in words.old halves.old bytes.old) (length store.old) × (at halves.old 768 < 4294966000) }
    ensures { JoinsIn body.now words.old halves.old bytes.old store.old result words.new halves.new bytes.new store.new }
{
    let generation = halves[parts::GENERATION];
    allocate(words, halves, bytes, store, body)?;
    halves[parts::GENERATION] = generation + 1;
    Ok(())
}

// A send past its tests.
fn goes(
    words: &mut Words,
    halves: &mut Halves,
    bytes: &mut Bytes,
    clock: &f64,
    list: &mut [u64],
    outbound: &mut [u8],
    body: &[u8],
) -> LinkAnswer
    requires { Ready (parts words.old halves.old bytes.old clock.now) (length list.old) (length outbound.old) }
    ensures { Driven (parts words.old halves.old bytes.old clock.now) (parts words.new halves.new bytes.new clock.now) result (λ s y. CalledWithOutbound (sends body.now) s list.old outbound.old y list.new outbound.new) }
{
    let number = words[parts::NEXT];
    match join(words, halves, bytes, outbound, body) {
        Ok(()) => {
            let k = link_codes::clock_in(halves, clock);
            let n = events::request(k, list, 0);
            link_codes::number(number, n)
        }
        Err(x) => link_codes::refusal(x),
    }
}

// The body gets the next message number, which is the answer.
pub fn send(
    words: &mut Words,
    halves: &mut Halves,
    bytes: &mut Bytes,
    clock: &f64,
    list: &mut [u64],
    outbound: &mut [u8],
    body: &[u8],
) -> LinkAnswer
    ensures { Driven (parts words.old halves.old bytes.old clock.now) (parts words.new halves.new bytes.new clock.now) result (λ s y. CalledWithOutbound (sends body.now) s list.old outbound.old y list.new outbound.new) }
{
    let entered = link_entry::enters(
        words,
        halves,
        bytes,
        list.len(),
        ANY,
        outbound.len(),
        ANY,
        false,
        true,
    );
    match entered {
        Ok(()) => goes(words, halves, bytes, clock, list, outbound, body),
        Err(x) => link_codes::refusal(x),
    }
}
