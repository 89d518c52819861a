// Starting a session from a record: the Rust's `Session::new` with the checks of the record.
#![tactic(auto)]

ghost use Rattle.std.specs.Prelude.{◌≡◌, ◌&&◌, ◌≤◌, length, take, leb};
ghost use Rattle.rules.specs.Lists.{total, itself, all, rising};
ghost use Rattle.rules.specs.Start.{good_policy, good_reject, start};
ghost use Rattle.rules.specs.Buffers.{filled};
ghost use Rattle.rules.specs.Start.{policy_of, link_class};
ghost use Rattle.session.specs.Promise.{option_of};
ghost use Rattle.starts.specs.Started.{short_record, Started};
ghost use Rattle.starts.specs.Records.{reliable_of, under, GoodMessages, GoodRecord, Fitting, Recorded, Rejecting, Beginning, Begun, verdict_of, FoundStart, NotStarted};

use outbox::{Outbox, Unacked};
use peer_session::{RejectBody, SessionState};
use rules::{Answer, Disposition, Policy, Refusal};
use session::Returned;

// The Rust's `ReliableState` but for its messages, which come as lent slices.
#[repr(C)]
#[derive(Clone, Copy)]
pub struct Reliable {
    pub message_number: u64,
    pub remote_number: u64,
    pub disposition: u64,
}

// With its messages: numbers, lengths, and the bodies one after the other.
#[derive(Clone, Copy)]
pub struct Record<'a> {
    pub reliable: Reliable,
    pub numbers: &'a [u64],
    pub lengths: &'a [u64],
    pub bodies: &'a [u8],
}

// ---- the checks of a record

// Tests stand one a line, as document 01 lists them, each with its return: `&&` over all of them would read no plainer.

// Whether the first count lengths name no more than limit bytes: counted down, so that no sum can overflow.
fn fits(lengths: &[u64], count: usize, limit: usize) -> bool
    requires { count ≤ length lengths.now }
    ensures { result ≡ leb (total itself (take count lengths.now)) limit }
{
    let mut left = limit as u64;
    for &k in &lengths[..count] {
        if left < k {
            return false;
        }
        left -= k;
    }
    true
}

// Refusal 1: fewer lengths than numbers, or fewer bytes than those lengths name.
pub fn short_record(record: Record) -> bool
    ensures { result ≡ short_record «record».entry.numbers.now «record».entry.lengths.now «record».entry.bodies.now }
{
    let count = record.numbers.len();
    if record.lengths.len() < count {
        return true;
    }
    !fits(record.lengths, count, record.bodies.len())
}

// Whether the numbers are strictly rising from 1 and below next.
fn rise_below(numbers: &[u64], next: u64) -> bool
    ensures { result ≡ (rising itself 0 numbers.now && all (under next) numbers.now) }
{
    let mut last = 0;
    for &n in numbers {
        if n <= last || next <= n {
            return false;
        }
        last = n;
    }
    true
}

fn good_messages(numbers: &[u64], lengths: &[u64], next: u64) -> bool
    requires { length numbers.now ≤ length lengths.now }
    ensures { GoodMessages next numbers.now lengths.now result }
{
    let count = numbers.len();
    if SessionState::MAX_UNACKED < count {
        return false;
    }
    if !rise_below(numbers, next) {
        return false;
    }
    fits(lengths, count, SessionState::OUTBOUND_BYTES)
}

// Refusal 3 of a record that is not short.
pub fn good_record(record: Record) -> bool
    requires { length «record».numbers.now ≤ length «record».lengths.now }
    ensures { GoodRecord «record».entry.reliable «record».entry.numbers.now «record».entry.lengths.now result }
{
    let next = record.reliable.message_number;
    if next < 1 {
        return false;
    }
    if SessionState::MESSAGES_END < next {
        return false;
    }
    if SessionState::LAST_REMOTE < record.reliable.remote_number {
        return false;
    }
    good_messages(record.numbers, record.lengths, next)
}

// ---- what is made of a record

// The outbox of its messages, which are neither pending nor unsent.
pub fn records(record: Record) -> Outbox
    requires { Fitting «record».numbers.now «record».lengths.now }
    ensures { Recorded «record».entry.reliable.message_number «record».entry.numbers.now «record».entry.lengths.now result }
{
    let blank = Unacked {
        number: 0,
        len: 0,
        pending: false,
        unsent: false,
    };
    let mut records = [blank; 256];
    for (i, &n) in record.numbers.iter().enumerate() {
        records[i] = Unacked {
            number: n as u32,
            len: record.lengths[i] as u32,
            ..blank
        };
    }
    Outbox {
        next: record.reliable.message_number,
        records,
        count: record.numbers.len(),
    }
}

// How many bytes the first count lengths name.
pub fn body_bytes(lengths: &[u64], count: usize) -> usize
    requires { (count ≤ length lengths.now) × (total itself (take count lengths.now) ≤ 65536) }
    ensures { result ≡ total itself (take count lengths.now) }
{
    let sum: u64 = lengths[..count].iter().sum();
    sum as usize
}

// The store of a new session: the first n bytes of bodies, and 0 to its very end.
pub fn fill(store: &mut [u8], bodies: &[u8], n: usize)
    requires { (n ≤ length bodies.now) × (n ≤ length store.old) }
    ensures { store.new ≡ filled (length store.old) (take n bodies.now) }
{
    let end = store.len();
    stores::copy_in(store, 0, &bodies[..n]);
    stores::clear(store, n, end);
}

// ---- what else a start takes

fn good_policy(policy: Policy) -> bool
    ensures { result ≡ good_policy policy }
{
    policy.messages <= SessionState::MAX_QUEUED_MESSAGES
        && policy.bytes <= SessionState::MAX_QUEUED_BYTES
        && policy.body <= SessionState::MAX_PEER_BODY
}

fn good_reject(reject: &[u8]) -> bool
    ensures { result ≡ good_reject reject.now }
{
    reject.len() >= 1 && reject.len() <= SessionState::MAX_REJECT
}

fn reject_body(reject: &[u8]) -> RejectBody
    requires { length reject.now ≤ 64 }
    ensures { Rejecting reject.now result }
{
    let mut bytes = [0u8; 64];
    stores::copy_in(&mut bytes, 0, reject);
    RejectBody {
        bytes,
        len: reject.len(),
    }
}

// ---- a start

// Refusal 1 of the record, 2 and 3.
pub fn judge(record: Record, policy: Policy, reject: &[u8]) -> Result<(), Refusal>
    ensures { result ≡ verdict_of (short_record «record».entry.numbers.now «record».entry.lengths.now «record».entry.bodies.now) (start (reliable_of «record».entry.reliable «record».entry.numbers.now «record».entry.lengths.now «record».entry.bodies.now) policy reject.now) }
{
    if short_record(record) {
        return Err(Refusal::ShortBuffer);
    }
    if record.reliable.disposition > Disposition::OutboundReject as u64 {
        return Err(Refusal::UnknownCode);
    }
    if !good_record(record) {
        return Err(Refusal::BadRecord);
    }
    if !good_policy(policy) {
        return Err(Refusal::BadRecord);
    }
    if !good_reject(reject) {
        return Err(Refusal::BadRecord);
    }
    Ok(())
}

// The tests of a start, in their order. Not by `session::enters`: there is no session yet.
pub fn enters(
    outbound: usize,
    queue: usize,
    record: Record,
    policy: Policy,
    reject: &[u8],
) -> Result<(), Refusal>
    ensures { FoundStart «record».entry.reliable «record».entry.numbers.now «record».entry.lengths.now «record».entry.bodies.now policy reject.now outbound queue result }
{
    if outbound < SessionState::OUTBOUND_BYTES {
        return Err(Refusal::ShortBuffer);
    }
    if queue < SessionState::QUEUE_BYTES {
        return Err(Refusal::ShortBuffer);
    }
    judge(record, policy, reject)
}

// The session of a record that is good.
fn begun(record: Record, policy: Policy, reject: &[u8]) -> SessionState
    requires { Beginning «record».reliable «record».numbers.now «record».lengths.now reject.now }
    ensures { Begun «record».entry.reliable «record».entry.numbers.now «record».entry.lengths.now policy reject.now result }
{
    let outbox = records(record);
    let body = reject_body(reject);
    let disposition = record.reliable.disposition as u8;
    SessionState::new(
        outbox,
        record.reliable.remote_number,
        disposition,
        policy,
        body,
    )
}

// A refused start hands out no session.
fn refused(x: Refusal) -> Returned
    ensures { NotStarted x result }
{
    Returned {
        session: SessionState::none(),
        answer: Answer::Refused(x),
        events: 0,
    }
}

// A new session from a record.
pub fn start(
    record: Record,
    policy: Policy,
    reject: &[u8],
    outbound: &mut [u8],
    queue: &mut [u8],
) -> Returned
    ensures { Started «record».entry.reliable «record».entry.numbers.now «record».entry.lengths.now «record».entry.bodies.now policy reject.now outbound.old queue.old result outbound.new queue.new }
{
    if let Err(x) = enters(outbound.len(), queue.len(), record, policy, reject) {
        return refused(x);
    }
    let session = begun(record, policy, reject);
    let n = body_bytes(record.lengths, record.numbers.len());
    fill(outbound, record.bodies, n);
    let end = queue.len();
    stores::clear(queue, 0, end);
    Returned {
        session,
        answer: Answer::Done,
        events: 0,
    }
}

// ---- link classes

pub fn policy(gap: u64, messages: usize, bytes: usize, body: usize) -> Policy
    ensures { result ≡ policy_of gap messages bytes body }
{
    Policy {
        gap,
        messages,
        bytes,
        body,
    }
}

// The policy of a class, if it is one of the four. Kept a match: a table would want the class narrowed to an index first, and read no plainer.
#[tactic(auto, unfolding(rules::specs::Start::link_class))]
pub fn link_class(class: u64) -> Option<Policy>
    ensures { result ≡ option_of (link_class class) }
{
    match class {
        0 => Some(policy(8, 8, 1024, 128)),
        1 => Some(policy(64, 64, 8192, 512)),
        2 => Some(policy(256, 256, 32768, 4096)),
        3 => Some(policy(256, 256, 32768, 16384)),
        _ => None,
    }
}
