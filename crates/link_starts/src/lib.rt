// A start on the parts of a session, in place, and the messages of a record: what is written is written where it lies.
#![tactic(auto)]

ghost use Rattle.std.specs.Prelude.{◌∷◌, [], ◌≤◌, length};
ghost use Rattle.starts.specs.Started.{Started};
ghost use Rattle.starts.specs.Records.{Fitting, Beginning, Begun, Judged};
ghost use Rattle.parts.specs.Parts.{parts, at, opened_of};
ghost use Rattle.link_starts.specs.Filled.{Filled};
ghost use Rattle.parts.specs.Driven.{DrivenStart};
ghost use Rattle.link_starts.specs.Steps.{Written, TakingIn, TakenIn};
ghost use Rattle.link_starts.specs.Starts.{head, BodyIn};

use parts::{Bytes, Halves, LinkAnswer, SetupCode, Words};
use rules::{Policy, ReceiveMode};
use starts::{Record, Reliable};

// ---- the messages of a record

// They are neither pending nor unsent.
fn records(halves: &mut Halves, bytes: &mut Bytes, record: Record)
    requires { Fitting «record».numbers.now «record».lengths.now }
    ensures { Written «record».entry.numbers.now «record».entry.lengths.now halves.old bytes.old halves.new bytes.new }
{
    for i in 0..record.numbers.len() {
        halves[i] = record.numbers[i] as u32;
        halves[parts::UNACKED_LENS + i] = record.lengths[i] as u32;
        bytes[i] = 0;
        bytes[parts::UNSENT + i] = 0;
    }
}

// The record is taken: its messages with their bodies, its remote number and its disposition. The released remote number stays.
pub fn take(
    words: &mut Words,
    halves: &mut Halves,
    bytes: &mut Bytes,
    outbound: &mut [u8],
    record: Record,
)
    requires { TakingIn «record».reliable «record».numbers.now «record».lengths.now «record».bodies.now words.old halves.old bytes.old (length outbound.old) }
    ensures { TakenIn «record».entry.reliable «record».entry.numbers.now «record».entry.lengths.now «record».entry.bodies.now words.old halves.old bytes.old outbound.old words.new halves.new bytes.new outbound.new }
{
    let end = link_outbox::used(halves, words[parts::UNACKED] as usize);
    let n = starts::body_bytes(record.lengths, record.numbers.len());
    restores::repack(outbound, record.bodies, n, end);
    records(halves, bytes, record);
    words[parts::NEXT] = record.reliable.message_number;
    words[parts::UNACKED] = record.numbers.len() as u64;
    words[parts::REMOTE] = record.reliable.remote_number;
    bytes[parts::DISPOSITION] = record.reliable.disposition as u8;
}

// ---- a start

// The numbers of a new session before its arrays: nothing is queued, no ack waits and there is no handoff.
fn put_head(words: &mut Words, record: Reliable, count: usize, policy: Policy, reject: usize)
    ensures { Filled 0 15 (at (head «record» count policy reject)) words.old words.new }
{
    words[parts::NEXT] = record.message_number;
    words[parts::UNACKED] = count as u64;
    words[parts::REMOTE] = record.remote_number;
    words[parts::RELEASED] = record.remote_number;
    words[parts::QUEUED] = 0;
    words[parts::WAITING] = 0;
    words[parts::RETRIES] = 0;
    words[parts::HANDOFF_LEN] = 0;
    words[parts::HANDOFF_ID] = 0;
    words[parts::HANDOFF_NUMBER] = 0;
    words[parts::POLICY_GAP] = policy.gap;
    words[parts::POLICY_MESSAGES] = policy.messages as u64;
    words[parts::POLICY_BYTES] = policy.bytes as u64;
    words[parts::POLICY_BODY] = policy.body as u64;
    words[parts::REJECT_LEN] = reject as u64;
}

// The generations and the terms.
fn put_tail(halves: &mut Halves)
    ensures { Filled 768 4 (at (0 ∷ 0 ∷ 0 ∷ 0 ∷ [])) halves.old halves.new }
{
    halves[parts::GENERATION] = 0;
    halves[parts::RELEASED_GENERATION] = 0;
    halves[parts::PERSISTED_GENERATION] = 0;
    halves[parts::TERMS] = 0;
}

// The codes of the stage, the flags of the handoff, and the reject body.
fn put_middle(bytes: &mut Bytes, disposition: u8, reject: &[u8])
    requires { length reject.now ≤ 64 }
    ensures { BodyIn disposition reject.now bytes.old bytes.new }
{
    stores::copy_in(bytes, parts::REJECT_BODY, reject);
    bytes[parts::DISPOSITION] = disposition;
    bytes[parts::SETUP] = SetupCode::None as u8;
    bytes[parts::INITIATOR] = 0;
    bytes[parts::MODE] = ReceiveMode::Raw as u8;
    bytes[parts::FAILED] = 0;
    bytes[parts::HANDOFF_SENT] = 0;
    bytes[parts::HANDOFF_ACKNOWLEDGED] = 0;
    bytes[parts::HANDOFF_PRESENT] = 0;
}

// The session of a record that is good. What lies past the counts stays.
fn begin(
    words: &mut Words,
    halves: &mut Halves,
    bytes: &mut Bytes,
    clock: &mut f64,
    record: Record,
    policy: Policy,
    reject: &[u8],
)
    requires { Beginning «record».reliable «record».numbers.now «record».lengths.now reject.now }
    ensures { Begun «record».entry.reliable «record».entry.numbers.now «record».entry.lengths.now policy reject.now (opened_of (parts words.new halves.new bytes.new clock.new)) }
{
    records(halves, bytes, record);
    put_head(
        words,
        record.reliable,
        record.numbers.len(),
        policy,
        reject.len(),
    );
    put_tail(halves);
    put_middle(bytes, record.reliable.disposition as u8, reject);
    *clock = 0.0;
}

// A start past its tests.
fn starts_it(
    words: &mut Words,
    halves: &mut Halves,
    bytes: &mut Bytes,
    clock: &mut f64,
    record: Record,
    policy: Policy,
    reject: &[u8],
    outbound: &mut [u8],
    queue: &mut [u8],
) -> LinkAnswer
    requires { Judged «record».reliable «record».numbers.now «record».lengths.now «record».bodies.now policy reject.now (length outbound.old) (length queue.old) }
    ensures { DrivenStart (parts words.old halves.old bytes.old clock.old) (parts words.new halves.new bytes.new clock.new) result (λ y. Started «record».entry.reliable «record».entry.numbers.now «record».entry.lengths.now «record».entry.bodies.now policy reject.now outbound.old queue.old y outbound.new queue.new) }
{
    begin(words, halves, bytes, clock, record, policy, reject);
    let n = starts::body_bytes(record.lengths, record.numbers.len());
    starts::fill(outbound, record.bodies, n);
    let end = queue.len();
    stores::clear(queue, 0, end);
    link_codes::done(0)
}

// A new session from a record. A refused one leaves the parts that were there.
pub fn start(
    words: &mut Words,
    halves: &mut Halves,
    bytes: &mut Bytes,
    clock: &mut f64,
    record: Record,
    policy: Policy,
    reject: &[u8],
    outbound: &mut [u8],
    queue: &mut [u8],
) -> LinkAnswer
    ensures { DrivenStart (parts words.old halves.old bytes.old clock.old) (parts words.new halves.new bytes.new clock.new) result (λ y. Started «record».entry.reliable «record».entry.numbers.now «record».entry.lengths.now «record».entry.bodies.now policy reject.now outbound.old queue.old y outbound.new queue.new) }
{
    match starts::enters(outbound.len(), queue.len(), record, policy, reject) {
        Err(x) => link_codes::refusal(x),
        Ok(()) => starts_it(
            words, halves, bytes, clock, record, policy, reject, outbound, queue,
        ),
    }
}
