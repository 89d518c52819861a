// Commits: the Rust's `prepare_commit` and `complete_commit` (session.rs, peer_session.rs). Between the two the host writes the session to its store.
#![tactic(auto)]

ghost use Rattle.std.specs.Prelude.{◌+◌, ◌*◌, ◌≤◌, length};
ghost use Rattle.rules.specs.Calls.{prepares, completes};
ghost use Rattle.events.specs.Written.{Listed};
ghost use Rattle.session.specs.Promise.{Answered, CalledWithList};
ghost use Rattle.commits.specs.Releases.{Persists, MayRelease, ReleasesBy, notices};

use peer_session::SessionState;
use rules::{Answer, Clock, EventCode, PreparedCommit, Refusal};
use session::{ANY, Returned};

// What a commit is to capture: the generation, and the numbers given and delivered last.
pub fn prepare_commit(s: SessionState) -> Answer
    ensures { Answered prepares s result }
{
    if !peer_session::sound(s) {
        return Answer::Refused(Refusal::BadRecord);
    }
    let commit = PreparedCommit {
        generation: s.clock.generation,
        outbound: s.outbox.next - 1,
        remote: s.remote,
    };
    Answer::Prepared(commit)
}

// ---- completing

// Persisted raises the persisted generation to the larger.
pub fn persisted_by(c: Clock, commit: PreparedCommit, persisted: bool) -> Clock
    ensures { Persists persisted commit c result }
{
    if !persisted {
        return c;
    }
    let generation = c.persisted.max(commit.generation);
    let mut r = c;
    r.persisted = generation;
    r
}

// The Rust's `ReleasedFrames`: the session without them, and how many were listed.
#[derive(Clone, Copy)]
pub struct ReleasedFrames {
    pub session: SessionState,
    pub events: usize,
}

// Messages and acks up to the record's numbers go out, messages first; a generation that was released already releases nothing.
fn release_by(s: SessionState, list: &mut [u64], commit: PreparedCommit) -> ReleasedFrames
    requires { MayRelease s (length list.old) }
    ensures { ReleasesBy commit s list.old result list.new }
{
    if commit.generation <= s.clock.released {
        return ReleasedFrames {
            session: s,
            events: 0,
        };
    }
    let o = s.outbox;
    let w = s.waiting;
    let frames = outbox::release(o, commit.outbound, list, 0);
    let acks = numbers::release(w, commit.remote, list, frames.events);
    let left = frames.outbox;
    let later = acks.numbers;
    let generation = commit.generation;
    let remote = commit.remote;
    let mut r = s;
    r.outbox = left;
    r.waiting = later;
    r.released = remote;
    r.clock.released = generation;
    ReleasedFrames {
        session: r,
        events: acks.events,
    }
}

// The Rust's `Committed`, code 6.
pub fn notify_committed(persisted: bool, list: &mut [u64], n: usize) -> usize
    requires { 4 * n + 4 ≤ length list.old }
    ensures { Listed (notices persisted) list.old n list.new result }
{
    events::emit_if(persisted, list, n, EventCode::Committed as u64, 0, 0, 0)
}

// The record is what `prepare_commit` answered, so what came after it stays; persisted says whether the host's write succeeded.
pub fn complete_commit(
    s: SessionState,
    list: &mut [u64],
    commit: PreparedCommit,
    persisted: bool,
) -> Returned
    ensures { CalledWithList (completes commit persisted) s list.old result list.new }
{
    if let Err(x) = session::enters(s, list.len(), ANY, ANY, ANY, false, false) {
        return session::refused(s, x);
    }
    if SessionState::LAST_REMOTE < commit.outbound {
        return session::refused(s, Refusal::CommitNumber);
    }
    if SessionState::LAST_REMOTE < commit.remote {
        return session::refused(s, Refusal::CommitNumber);
    }
    let c = s.clock;
    let clock = persisted_by(c, commit, persisted);
    let mut r = s;
    r.clock = clock;
    let done = release_by(r, list, commit);
    let n = notify_committed(persisted, list, done.events);
    let left = done.session;
    Returned {
        session: left,
        answer: Answer::Done,
        events: n,
    }
}
