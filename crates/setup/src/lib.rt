// Setting a session up: the Rust's `accept_session`, `reject_session`, `prepare_channel` and `retire` (session.rs, coordination.rs).
#![tactic(auto)]

ghost use Rattle.std.specs.Prelude.{◌≡◌, ◌&&◌, List, ℕ, ◌≤◌, length, eqb};
ghost use Rattle.rules.specs.Calls.{accepts, rejects, prepares_channel, retires};
ghost use Rattle.rules.specs.Setup.{is_none};
ghost use Rattle.queue.specs.View.{ExactQueue};
ghost use Rattle.outbox.specs.View.{ExactOutbox};
ghost use Rattle.session.specs.Promise.{CalledWithOutbound, CalledWithOutboundAlone, CalledWithStoresAlone, CalledAlone};
ghost use Rattle.setup.specs.Steps.{Ready, Joins, Asks, staged, waiting_in, Comes, proposing, rejecting, Retires, Forgets};

use peer_session::SessionState;
use rules::{Answer, Disposition, Refusal, Setup, Terms};
use session::{ANY, Returned};

// ---- steps

// A message gets the next number, under a disposition. A refusal leaves the session and its store.
pub fn join(
    s: SessionState,
    outbound: &mut [u8],
    disposition: u8,
    body: &[u8],
) -> Result<SessionState, Refusal>
    requires { Ready s (length outbound.old) }
    ensures { Joins body.now disposition s outbound.old result outbound.new }
{
    let more = peer_session::allocate(s.outbox, outbound, body)?;
    let mut r = s;
    r.outbox = more;
    r.clock.generation = s.clock.generation + 1;
    r.stage.disposition = disposition;
    Ok(r)
}

// Done, with a commit request where something is left to commit.
pub fn done(s: SessionState, list: &mut [u64]) -> Returned
    requires { 4096 ≤ length list.old }
    ensures { Asks s list.old result list.new }
{
    let n = events::request(s.clock, list, 0);
    Returned {
        session: s,
        answer: Answer::Done,
        events: n,
    }
}

// Another setup, and another disposition.
pub fn set_up(s: SessionState, disposition: u8, setup: Setup) -> SessionState
    ensures { result ≡ staged disposition setup s }
{
    let mut r = s;
    r.stage.disposition = disposition;
    r.stage.setup = setup;
    r
}

// ---- accept

fn no_setup(setup: Setup) -> bool
    ensures { result ≡ is_none setup }
{
    matches!(setup, Setup::None)
}

// Active, and waiting with terms.
fn accepted(s: SessionState, terms: Terms) -> Returned
    ensures { result ≡ waiting_in 1 terms s }
{
    let setup = Setup::Waiting(terms);
    let r = set_up(s, Disposition::Active as u8, setup);
    Returned {
        session: r,
        answer: Answer::Done,
        events: 0,
    }
}

// An initiator's proposal is sent first.
fn propose(s: SessionState, outbound: &mut [u8], terms: Terms, body: &[u8]) -> Returned
    requires { Ready s (length outbound.old) }
    ensures { (l : List ℕ) → Comes (proposing terms body.now) s l outbound.old result l outbound.new }
{
    match join(s, outbound, Disposition::Active as u8, body) {
        Ok(r) => accepted(r, terms),
        Err(x) => session::refused(s, x),
    }
}

// A proposal is accepted, or made. It requests no commit.
pub fn accept_session(s: SessionState, outbound: &mut [u8], terms: Terms, body: &[u8]) -> Returned
    ensures { CalledWithOutboundAlone (accepts terms body.now) s outbound.old result outbound.new }
{
    if let Err(x) = session::enters(s, ANY, ANY, outbound.len(), ANY, false, true) {
        return session::refused(s, x);
    }
    if !no_setup(s.stage.setup) {
        return session::refused(s, Refusal::AlreadyAccepted);
    }
    if !terms.initiator {
        return accepted(s, terms);
    }
    if s.outbox.next != 1 {
        return session::refused(s, Refusal::ProposalNotFirst);
    }
    propose(s, outbound, terms, body)
}

// ---- reject

// The session's reject body is sent.
fn send_reject(s: SessionState, list: &mut [u64], outbound: &mut [u8]) -> Returned
    requires { (4096 ≤ length list.old) × Ready s (length outbound.old) × (s.reject.len ≤ length s.reject.bytes) }
    ensures { Comes rejecting s list.old outbound.old result list.new outbound.new }
{
    let bytes = s.reject.bytes;
    let len = s.reject.len;
    match join(
        s,
        outbound,
        Disposition::OutboundReject as u8,
        &bytes[..len],
    ) {
        Ok(r) => done(r, list),
        Err(x) => session::refused(s, x),
    }
}

// A proposal is rejected.
pub fn reject_session(s: SessionState, list: &mut [u64], outbound: &mut [u8]) -> Returned
    ensures { CalledWithOutbound rejects s list.old outbound.old result list.new outbound.new }
{
    if let Err(x) = session::enters(s, list.len(), ANY, outbound.len(), ANY, false, true) {
        return session::refused(s, x);
    }
    send_reject(s, list, outbound)
}

// ---- a channel

// The first terms stay.
pub fn prepare_channel(s: SessionState, terms: Terms) -> Returned
    ensures { CalledAlone (prepares_channel terms) s result }
{
    if !peer_session::sound(s) {
        return session::refused(s, Refusal::BadRecord);
    }
    match s.stage.setup {
        Setup::None => {
            let r = set_up(s, s.stage.disposition, Setup::Waiting(terms));
            Returned {
                session: r,
                answer: Answer::Done,
                events: 0,
            }
        }
        Setup::Waiting(_) => Returned {
            session: s,
            answer: Answer::Done,
            events: 0,
        },
        Setup::Started => session::refused(s, Refusal::ChannelStarted),
        Setup::Retired => session::refused(s, Refusal::SetupRetired),
    }
}

// ---- retire

// No handoff, and an empty queue.
fn retired(s: SessionState, queue: &mut [u8]) -> SessionState
    requires { ExactQueue s.queue (length queue.old) }
    ensures { Retires s queue.old result queue.new }
{
    let none = queue::clear(s.queue, queue);
    let mut r = set_up(s, s.stage.disposition, Setup::Retired);
    r.queue = none;
    r.handoff.present = false;
    r
}

// The Rust's `clear_runtime`: everything under way is forgotten, and nothing is left to commit.
fn forget(s: SessionState, outbound: &mut [u8]) -> SessionState
    requires { ExactOutbox s.outbox (length outbound.old) }
    ensures { Forgets s outbound.old result outbound.new }
{
    let none = outbox::discard(s.outbox, outbound);
    let generation = s.clock.generation;
    let mut r = s;
    r.outbox = none;
    r.waiting.count = 0;
    r.retry.count = 0;
    r.clock.released = generation;
    r.clock.persisted = generation;
    r
}

// Whether a rejection is retained.
pub fn retains(retain: bool, disposition: u8) -> bool
    ensures { result ≡ (retain && eqb disposition 4) }
{
    retain && disposition == Disposition::OutboundReject as u8
}

// The session ends. The answer is whether its rejection is retained.
pub fn retire(s: SessionState, outbound: &mut [u8], queue: &mut [u8], retain: bool) -> Returned
    ensures { CalledWithStoresAlone (retires retain) s outbound.old queue.old result outbound.new queue.new }
{
    if let Err(x) = session::enters(s, ANY, ANY, outbound.len(), queue.len(), false, false) {
        return session::refused(s, x);
    }
    let r = retired(s, queue);
    if retains(retain, s.stage.disposition) {
        return Returned {
            session: r,
            answer: Answer::Flag(true),
            events: 0,
        };
    }
    Returned {
        session: forget(r, outbound),
        answer: Answer::Flag(false),
        events: 0,
    }
}
