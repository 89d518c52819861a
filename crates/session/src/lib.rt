// The Rust's `Session` driver (session.rs), for a session without a channel. The exported calls are those of the crates above and the queries here; none
// asks anything of its caller.
#![tactic(auto)]

ghost use Rattle.std.specs.Prelude.{◌≡◌, IfOk};
ghost use Rattle.rules.specs.Clock.{dirty};
ghost use Rattle.rules.specs.Lists.{Bytes};
ghost use Rattle.rules.specs.Queries.{accepted, is_retired};
ghost use Rattle.rules.specs.Setup.{rejection_complete};
ghost use Rattle.peer_session.specs.View.{state_of};
ghost use Rattle.session.specs.Promise.{Turned, terms_in_session};
ghost use Rattle.session.specs.Entry.{Enters, Admitted};

use peer_session::SessionState;
use rules::{Answer, Disposition, Refusal, Setup, Terms};

// What a call hands back: the session, the answer, and how many events it listed.
#[derive(Clone, Copy)]
pub struct Returned {
    pub session: SessionState,
    pub answer: Answer,
    pub events: usize,
}

// The same of a call that leaves the session as it is.
#[derive(Clone, Copy)]
pub struct Told {
    pub answer: Answer,
    pub events: usize,
}

// What a call hands back that leaves the session as it is.
pub fn unchanged(s: SessionState, answer: Answer, events: usize) -> Returned
    ensures session { result.session ≡ s }
    ensures answer { result.answer ≡ answer }
    ensures events { result.events ≡ events }
{
    Returned {
        session: s,
        answer,
        events,
    }
}

// A refusal that changes nothing.
pub fn refused(s: SessionState, x: Refusal) -> Returned
    ensures { Turned s x result }
{
    unchanged(s, Answer::Refused(x), 0)
}

// The length of a buffer that a call does not take: a length that every test passes, so that a call without the buffer needs no Option.
pub const ANY: usize = usize::MAX;

// The tests at a call's entry, in their order: the lengths of its buffers, whether a code is outside its list, the session, and, of a call that may
// raise the generation, whether it can.
pub fn enters(
    s: SessionState,
    list: usize,
    delivery: usize,
    outbound: usize,
    queue: usize,
    wrong: bool,
    raises: bool,
) -> Result<(), Refusal>
    ensures tested { Enters s list delivery outbound queue wrong raises result }
    ensures passed { IfOk result (λ u. Admitted s list delivery outbound queue wrong raises) }
{
    if list < SessionState::EVENT_WORDS || delivery < SessionState::DELIVERY_BYTES {
        return Err(Refusal::ShortBuffer);
    }
    if outbound < SessionState::OUTBOUND_BYTES || queue < SessionState::QUEUE_BYTES {
        return Err(Refusal::ShortBuffer);
    }
    if wrong {
        return Err(Refusal::UnknownCode);
    }
    if !peer_session::sound(s) {
        return Err(Refusal::BadRecord);
    }
    if raises && SessionState::GENERATION_LIMIT <= s.clock.generation {
        return Err(Refusal::GenerationsExhausted);
    }
    Ok(())
}

// ---- queries, of any session, whatever its stores hold

// Whether something is left to commit.
pub fn dirty(s: SessionState) -> bool
    ensures { (o q : Bytes) → result ≡ dirty (state_of s o q) }
{
    s.clock.persisted < s.clock.generation
}

pub fn accepted(s: SessionState) -> bool
    ensures { (o q : Bytes) → result ≡ accepted (state_of s o q) }
{
    matches!(s.stage.setup, Setup::Waiting(_) | Setup::Started)
}

pub fn retired(s: SessionState) -> bool
    ensures { (o q : Bytes) → result ≡ is_retired (state_of s o q) }
{
    matches!(s.stage.setup, Setup::Retired)
}

// The terms of a session that waits.
pub fn channel_terms(s: SessionState) -> Option<Terms>
    ensures { (o q : Bytes) → result ≡ terms_in_session (state_of s o q).stage.setup }
{
    match s.stage.setup {
        Setup::Waiting(terms) => Some(terms),
        _ => None,
    }
}

pub fn rejection_complete(s: SessionState) -> bool
    ensures { (o q : Bytes) → result ≡ rejection_complete (state_of s o q) }
{
    s.stage.disposition == Disposition::OutboundReject as u8 && s.outbox.count == 0
}
