// The Rust's `SessionState` (peer_session.rs, coordination.rs), by value. The bodies of its unacked messages and of its queued frames lie in the two
// stores that the caller lends.
#![tactic(auto)]

ghost use Rattle.std.specs.Prelude.{◌≡◌, [], length, if◌then◌else◌};
ghost use Rattle.numbers.specs.Seats.{Holds};
ghost use Rattle.outbox.specs.View.{ExactOutbox};
ghost use Rattle.queue.specs.View.{ExactQueue};
ghost use Rattle.peer_session.specs.Allocates.{Allocates};
ghost use Rattle.peer_session.specs.Breaks.{Broken};
ghost use Rattle.peer_session.specs.View.{held};
ghost use Rattle.peer_session.specs.Sound.{sound_acks, sound_sizes, Checked};
ghost use Rattle.peer_session.specs.New.{New, nothing, NoMessages, NoFrames, NoHandoff};

use numbers::Numbers;
use outbox::{Outbox, Unacked};
use queue::{Queue, Queued};
use rules::{Clock, Disposition, Policy, ReceiveMode, Refusal, Setup};

// What coordination.rs decides by.
#[derive(Clone, Copy)]
pub struct Stage {
    pub disposition: u8,
    pub setup: Setup,
    pub mode: ReceiveMode,
    pub failed: bool,
}

// The Rust's `Option<TerminalHandoff>`: one that is not present is none, whatever its other fields. It is no Option, and its body no slice, since the
// promise for C says of every byte of the parts that it is kept, those of a handoff that is not present included.
#[repr(C)]
#[derive(Clone, Copy)]
pub struct TerminalHandoff {
    pub body: [u8; 4096],
    pub len: usize,
    pub id: u64,
    pub number: u64,
    pub sent: bool,
    pub acknowledged: bool,
    pub present: bool,
}

// The body of a rejection, 1 to 64 bytes. The length stands beside, since a session that was tampered with may have any, and is refused by 3.
#[repr(C)]
#[derive(Clone, Copy)]
pub struct RejectBody {
    pub bytes: [u8; 64],
    pub len: usize,
}

#[derive(Clone, Copy)]
pub struct SessionState {
    pub outbox: Outbox,
    // the number delivered last, and the one that a commit released last
    pub remote: u64,
    pub released: u64,
    pub queue: Queue,
    // acks that wait for a commit, and those whose send was not accepted
    pub waiting: Numbers,
    pub retry: Numbers,
    pub clock: Clock,
    pub stage: Stage,
    pub handoff: TerminalHandoff,
    pub policy: Policy,
    pub reject: RejectBody,
}

impl SessionState {
    pub const MAX_UNACKED: usize = rules::MAX_UNACKED;

    pub const MAX_WAITING_AND_QUEUED: usize = rules::MAX_WAITING_AND_QUEUED;

    pub const MAX_RETRIES: usize = rules::MAX_RETRIES;

    pub const MAX_QUEUED_MESSAGES: usize = rules::MAX_QUEUED_MESSAGES;

    pub const MAX_QUEUED_BYTES: usize = rules::MAX_QUEUED_BYTES;

    pub const MAX_PEER_BODY: usize = rules::MAX_PEER_BODY;

    pub const MAX_REJECT: usize = rules::MAX_REJECT;

    pub const MAX_HANDOFF: usize = rules::MAX_HANDOFF;

    pub const LAST_MESSAGE: u64 = rules::LAST_MESSAGE;

    pub const MESSAGES_END: u64 = rules::MESSAGES_END;

    pub const LAST_REMOTE: u64 = rules::LAST_REMOTE;

    pub const GENERATION_LIMIT: u32 = rules::GENERATION_LIMIT;

    pub const OUTBOUND_BYTES: usize = rules::OUTBOUND_BYTES;

    pub const QUEUE_BYTES: usize = rules::QUEUE_BYTES;

    pub const DELIVERY_BYTES: usize = rules::DELIVERY_BYTES;

    pub const EVENT_WORDS: usize = 4096;

    // A new session with these unacked messages, which are neither pending nor unsent.
    pub fn new(
        outbox: Outbox,
        remote: u64,
        disposition: u8,
        policy: Policy,
        reject: RejectBody,
    ) -> SessionState
        ensures { New outbox remote disposition policy reject result }
    {
        SessionState {
            outbox: outbox,
            remote: remote,
            released: remote,
            queue: no_frames(),
            waiting: no_numbers(),
            retry: no_numbers(),
            clock: Clock {
                last_replay_at: 0.0,
                generation: 0,
                released: 0,
                persisted: 0,
            },
            stage: Stage {
                disposition: disposition,
                setup: Setup::None,
                mode: ReceiveMode::Raw,
                failed: false,
            },
            handoff: no_handoff(),
            policy: policy,
            reject: reject,
        }
    }

    // What a refused start hands out: message number 0, so that every call refuses it by 3.
    pub fn none() -> SessionState
        ensures { held result ≡ nothing }
    {
        let outbox = no_messages(0);
        let policy = Policy {
            gap: 0,
            messages: 0,
            bytes: 0,
            body: 0,
        };
        let reject = RejectBody {
            bytes: [0; 64],
            len: 0,
        };
        SessionState::new(outbox, 0, Disposition::Other as u8, policy, reject)
    }
}

pub fn no_messages(next: u64) -> Outbox
    ensures { NoMessages next result }
{
    let blank = Unacked {
        number: 0,
        len: 0,
        pending: false,
        unsent: false,
    };
    Outbox {
        next: next,
        records: [blank; 256],
        count: 0,
    }
}

pub fn no_frames() -> Queue
    ensures { NoFrames result }
{
    let blank = Queued {
        number: 0,
        len: 0,
        kind: 0,
    };
    Queue {
        records: [blank; 256],
        count: 0,
    }
}

pub fn no_numbers() -> Numbers
    ensures { Holds [] result }
{
    Numbers {
        values: [0; 512],
        count: 0,
    }
}

pub fn no_handoff() -> TerminalHandoff
    ensures { NoHandoff result }
{
    TerminalHandoff {
        body: [0; 4096],
        len: 0,
        id: 0,
        number: 0,
        sent: false,
        acknowledged: false,
        present: false,
    }
}

// ---- sending

// A message gets the next number, and joins the unacked as pending. A refusal leaves the outbox and its store.
pub fn allocate(o: Outbox, store: &mut [u8], body: &[u8]) -> Result<Outbox, Refusal>
    requires { ExactOutbox o (length store.old) }
    ensures { Allocates body.now o store.old result store.new }
{
    if SessionState::LAST_MESSAGE < o.next {
        return Err(Refusal::NumbersExhausted);
    }
    if SessionState::MAX_UNACKED <= o.count {
        return Err(Refusal::UnackedFull);
    }
    let at = outbox::used(o);
    if SessionState::OUTBOUND_BYTES - at < body.len() {
        return Err(Refusal::UnackedFull);
    }
    let more = outbox::append(o, store, at, body);
    Ok(more)
}

// ---- a refusal of data or of an ack

// The Rust's `failure` but for its notice: the queue is emptied, and failed is set in Channel mode.
pub fn broken(s: SessionState, queue: &mut [u8]) -> SessionState
    requires { ExactQueue s.queue (length queue.old) }
    ensures { Broken s queue.old result queue.new }
{
    let none = queue::clear(s.queue, queue);
    let mut r = s;
    r.queue = none;
    if matches!(s.stage.mode, ReceiveMode::Channel) {
        r.stage.failed = true;
    }
    r
}

// ---- whether a session is one that calls leave

#[tactic(auto, unfolding(crate::specs::Sound::sound_acks))]
pub fn sound_acks(w: Numbers, r: Numbers, queued: usize, remote: u64) -> bool
    ensures { result ≡ sound_acks w r queued remote }
{
    w.count <= 512
        && queued <= 512 - w.count
        && r.count <= 512
        && numbers::rises(w, 0, 0)
        && numbers::at_most(w, remote)
        && numbers::ascends(r)
}

#[tactic(auto, unfolding(crate::specs::Sound::sound_sizes))]
pub fn sound_sizes(disposition: u8, handoff: usize, reject: usize) -> bool
    ensures { result ≡ sound_sizes disposition handoff reject }
{
    disposition <= Disposition::OutboundReject as u8
        && handoff <= 4096
        && 1 <= reject
        && reject <= 64
}

// How many bytes of a handoff count.
pub fn handoff_length(present: bool, len: usize) -> usize
    ensures { result ≡ (if present then len else 0) }
{
    if present {
        return len;
    }
    0
}

#[tactic(auto, unfolding(crate::specs::Sound::sound_of))]
pub fn sound(s: SessionState) -> bool
    ensures { Checked s result }
{
    let h = handoff_length(s.handoff.present, s.handoff.len);
    outbox::sound_outbox(s.outbox)
        && queue::sound_queue(s.queue, s.remote, s.policy)
        && sound_acks(s.waiting, s.retry, s.queue.count, s.remote)
        && sound_sizes(s.stage.disposition, h, s.reject.len)
}
