// The entry of the calls in place: `session::enters` on the session that the lent parts are.
#![tactic(auto)]

ghost use Rattle.std.specs.Prelude.{IfOk, Float};
ghost use Rattle.session.specs.Entry.{Enters, Admitted};
ghost use Rattle.parts.specs.Parts.{parts, opened_of};

use parts::{Bytes, Halves, Words};
use peer_session::SessionState;
use rules::Refusal;

// The tests at a call's entry, in their order: the lengths of its buffers, whether a code is outside its list, the session, and, of a call that may
// raise the generation, whether it can.
pub fn enters(
    words: &Words,
    halves: &Halves,
    bytes: &Bytes,
    list: usize,
    delivery: usize,
    outbound: usize,
    queue: usize,
    wrong: bool,
    raises: bool,
) -> Result<(), Refusal>
    ensures tested { (t : Float) → Enters (opened_of (parts words.now halves.now bytes.now t)) list delivery outbound queue wrong raises result }
    ensures passed { (t : Float) → IfOk result (λ u. Admitted (opened_of (parts words.now halves.now bytes.now t)) list delivery outbound queue wrong raises) }
{
    if list < SessionState::EVENT_WORDS || delivery < SessionState::DELIVERY_BYTES {
        return Err(Refusal::ShortBuffer);
    }
    if outbound < SessionState::OUTBOUND_BYTES || queue < SessionState::QUEUE_BYTES {
        return Err(Refusal::ShortBuffer);
    }
    if wrong {
        return Err(Refusal::UnknownCode);
    }
    if !link_sound::sound(words, halves, bytes) {
        return Err(Refusal::BadRecord);
    }
    if raises && SessionState::GENERATION_LIMIT <= halves[parts::GENERATION] {
        return Err(Refusal::GenerationsExhausted);
    }
    Ok(())
}
