// The call that ends a session, on its parts, in place: the driver's call on the session that they are.
#![tactic(auto)]

ghost use Rattle.std.specs.Prelude.{length};
ghost use Rattle.rules.specs.Calls.{retires};
ghost use Rattle.outbox.specs.View.{ExactOutbox};
ghost use Rattle.session.specs.Promise.{CalledWithStoresAlone};
ghost use Rattle.parts.specs.Parts.{parts, outbox_in};
ghost use Rattle.parts.specs.Driven.{Driven};
ghost use Rattle.link_retires.specs.Steps.{Retiring, RetiresIn, ForgetsIn};

use link_setup::NO_TERMS;
use parts::{Bytes, Halves, LinkAnswer, SetupCode, Words};
use session::ANY;

// No handoff, and an empty queue.
fn retired(words: &mut Words, halves: &mut Halves, bytes: &mut Bytes, queue: &mut [u8])
    requires { Retiring words.old halves.old bytes.old (length queue.old) }
    ensures { RetiresIn words.old halves.old bytes.old queue.old words.new halves.new bytes.new queue.new }
{
    link_queue::clear(words, halves, bytes, queue);
    let disposition = bytes[parts::DISPOSITION];
    link_setup::stage(
        halves,
        bytes,
        disposition,
        SetupCode::Retired as u8,
        NO_TERMS,
    );
    bytes[parts::HANDOFF_PRESENT] = 0;
}

// The Rust's `clear_runtime`: everything under way is forgotten, and nothing is left to commit.
fn forget(words: &mut Words, halves: &mut Halves, bytes: &Bytes, outbound: &mut [u8])
    requires { ExactOutbox (outbox_in words.old halves.old bytes.now) (length outbound.old) }
    ensures { ForgetsIn words.old halves.old bytes.now outbound.old words.new halves.new outbound.new }
{
    link_draining::discard(words, halves, bytes, outbound);
    words[parts::WAITING] = 0;
    words[parts::RETRIES] = 0;
    let generation = halves[parts::GENERATION];
    halves[parts::RELEASED_GENERATION] = generation;
    halves[parts::PERSISTED_GENERATION] = generation;
}

// The session ends. The answer is whether its rejection is retained.
pub fn retire(
    words: &mut Words,
    halves: &mut Halves,
    bytes: &mut Bytes,
    clock: &f64,
    outbound: &mut [u8],
    queue: &mut [u8],
    retain: bool,
) -> LinkAnswer
    ensures { Driven (parts words.old halves.old bytes.old clock.now) (parts words.new halves.new bytes.new clock.now) result (λ s y. CalledWithStoresAlone (retires retain) s outbound.old queue.old y outbound.new queue.new) }
{
    let o = outbound.len();
    let q = queue.len();
    if let Err(x) = link_entry::enters(words, halves, bytes, ANY, ANY, o, q, false, false) {
        return link_codes::refusal(x);
    }
    let kept = setup::retains(retain, bytes[parts::DISPOSITION]);
    retired(words, halves, bytes, queue);
    if kept {
        return link_codes::flag(true, 0);
    }
    forget(words, halves, bytes, outbound);
    link_codes::flag(false, 0)
}
