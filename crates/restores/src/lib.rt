// A session restored from a record, and a terminal handoff with it: the Rust's `restore` (session.rs) and `restore_terminal` (peer_session.rs).
#![tactic(auto)]

ghost use Rattle.std.specs.Prelude.{◌≡◌, not, ◌&&◌, ◌≤◌, length, take, eqb};
ghost use Rattle.rules.specs.Start.{handoff_size, same_handoff, agrees};
ghost use Rattle.rules.specs.Buffers.{repacked};
ghost use Rattle.peer_session.specs.View.{handoff_of, handoff_length};
ghost use Rattle.restores.specs.Restored.{lent_handoff, given_if, handoff_given, as_given, body_given, RestoredBy, Restored};
ghost use Rattle.restores.specs.Steps.{held_in, Handed, Taking, Takes, Ends};

use peer_session::{SessionState, TerminalHandoff};
use rules::{Answer, Disposition, Refusal};
use session::Returned;
use starts::Record;

// The Rust's `Option<TerminalHandoff>` as C gives it, but for its body, which comes as a slice: one that is not present is none, whatever its other fields.
#[repr(C)]
#[derive(Clone, Copy)]
pub struct Handoff {
    // C has no Option
    pub present: bool,
    pub id: u64,
    pub number: u64,
    pub sent: bool,
    pub acknowledged: bool,
}

// The Rust's `TerminalHandoff`, as a restore is given it: its body lies in a lent buffer.
#[derive(Clone, Copy)]
pub struct Given<'a> {
    pub id: u64,
    pub number: u64,
    pub sent: bool,
    pub acknowledged: bool,
    pub body: &'a [u8],
}

// The handoff that C gives, with its body.
pub fn given_with<'a>(h: Handoff, body: &'a [u8]) -> Option<Given<'a>>
    ensures { given_if result ≡ handoff_given h body.now }
{
    if !h.present {
        return None;
    }
    Some(Given {
        id: h.id,
        number: h.number,
        sent: h.sent,
        acknowledged: h.acknowledged,
        body,
    })
}

// ---- the record

// Writes the first n bytes of bodies to the front of the store, where bodies reached up to index end, and 0 over what is left of those.
pub fn repack(store: &mut [u8], bodies: &[u8], n: usize, end: usize)
    requires { (n ≤ length bodies.now) × (n ≤ length store.old) × (end ≤ length store.old) }
    ensures { store.new ≡ repacked end (take n bodies.now) store.old }
{
    stores::copy_in(store, 0, &bodies[..n]);
    if end <= n {
        return;
    }
    stores::clear(store, n, end);
}

// The record is taken: its messages with their bodies, its remote number and its disposition. The released remote number stays.
fn taken(s: SessionState, outbound: &mut [u8], record: Record) -> SessionState
    requires { Taking «record».reliable «record».numbers.now «record».lengths.now «record».bodies.now s (length outbound.old) }
    ensures { Takes «record».entry.reliable «record».entry.numbers.now «record».entry.lengths.now «record».entry.bodies.now s outbound.old result outbound.new }
{
    let old = s.outbox;
    let end = outbox::used(old);
    let n = starts::body_bytes(record.lengths, record.numbers.len());
    repack(outbound, record.bodies, n, end);
    let outbox = starts::records(record);
    let remote = record.reliable.remote_number;
    let disposition = record.reliable.disposition as u8;
    let mut r = s;
    r.outbox = outbox;
    r.remote = remote;
    r.stage.disposition = disposition;
    r
}

// ---- the handoff

// Field by field, one a line: the two sides are of different types, so there is no derive.
fn same_handoff(h: TerminalHandoff, given: Given) -> bool
    requires { h.len ≤ length h.body }
    ensures { result ≡ same_handoff (held_in h) (lent_handoff given.entry) }
{
    if h.id != given.id {
        return false;
    }
    if h.number != given.number {
        return false;
    }
    let bytes = h.body;
    let len = h.len;
    if !stores::same_bytes(&bytes[..len], given.body) {
        return false;
    }
    if h.sent != given.sent {
        return false;
    }
    h.acknowledged == given.acknowledged
}

// Whether there is no handoff, or the same one. The first test stands with its return: what is not present has no fields to compare.
fn agrees(h: TerminalHandoff, given: Option<Given>) -> bool
    requires { handoff_length h ≤ length h.body }
    ensures { result ≡ agrees (handoff_of h) (given_if given.entry) }
{
    if !h.present {
        return true;
    }
    match given {
        Some(given) => same_handoff(h, given),
        None => false,
    }
}

// The size that counts: no handoff has none. Kept beside `handoffs::size_of`, which is of a Command, for the reason that stands there.
pub fn size_of(given: Option<Given>) -> usize
    ensures { result ≡ handoff_size (given_if given.entry) }
{
    match given {
        Some(h) => h.body.len(),
        None => 0,
    }
}

// The handoff, with a copy of its body.
pub fn handed(given: Option<Given>) -> TerminalHandoff
    requires { handoff_size (given_if given) ≤ 4096 }
    ensures { Handed (given_if given.entry) result }
{
    let Some(h) = given else {
        return peer_session::no_handoff();
    };
    let mut bytes = [0u8; 4096];
    stores::copy_in(&mut bytes, 0, h.body);
    TerminalHandoff {
        body: bytes,
        len: h.body.len(),
        id: h.id,
        number: h.number,
        sent: h.sent,
        acknowledged: h.acknowledged,
        present: true,
    }
}

// The Rust's `restore_terminal`: refused by 31, the session is left as it is.
fn restore_terminal(s: SessionState, given: Option<Given>) -> Returned
    requires { (handoff_length s.handoff ≤ length s.handoff.body) × (handoff_size (given_if given) ≤ 4096) }
    ensures { Ends (given_if given.entry) s result }
{
    let old = s.handoff;
    if !agrees(old, given) {
        return session::refused(s, Refusal::OtherHandoff);
    }
    let new = handed(given);
    let mut r = s;
    r.handoff = new;
    Returned {
        session: r,
        answer: Answer::Done,
        events: 0,
    }
}

// ---- a restore

// Refusal 28: the generation is above 0, or a message is queued, or an ack waits.
pub fn too_late(generation: u32, queued: usize, waiting: usize) -> bool
    ensures { result ≡ not (eqb generation 0 && eqb queued 0 && eqb waiting 0) }
{
    !(generation == 0 && queued == 0 && waiting == 0)
}

// A session takes a record and a terminal handoff, whose body is lent. Refused by 31 it has taken the record.
pub fn restore(
    s: SessionState,
    outbound: &mut [u8],
    record: Record,
    given: Option<Given>,
) -> Returned
    ensures { RestoredBy «record».entry.reliable «record».entry.numbers.now «record».entry.lengths.now «record».entry.bodies.now (given_if given.entry) s outbound.old result outbound.new
        × Restored «record».entry.reliable «record».entry.numbers.now «record».entry.lengths.now «record».entry.bodies.now (as_given given.entry) (body_given given.entry) s outbound.old result outbound.new }
{
    // Not by `session::enters`: the record's own tests stand between those of the entry.
    if outbound.len() < SessionState::OUTBOUND_BYTES {
        return session::refused(s, Refusal::ShortBuffer);
    }
    if starts::short_record(record) {
        return session::refused(s, Refusal::ShortBuffer);
    }
    if record.reliable.disposition > Disposition::OutboundReject as u64 {
        return session::refused(s, Refusal::UnknownCode);
    }
    if !peer_session::sound(s) {
        return session::refused(s, Refusal::BadRecord);
    }
    if !starts::good_record(record) {
        return session::refused(s, Refusal::BadRecord);
    }
    if SessionState::MAX_HANDOFF < size_of(given) {
        return session::refused(s, Refusal::HandoffTooLong);
    }
    if too_late(s.clock.generation, s.queue.count, s.waiting.count) {
        return session::refused(s, Refusal::RestoreTooLate);
    }
    let r = taken(s, outbound, record);
    restore_terminal(r, given)
}
