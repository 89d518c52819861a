// Acknowledgements: the Rust's `receive_ack`, the keepalive, and what follows a report of a send (session.rs).
#![tactic(auto)]

ghost use Rattle.std.specs.Prelude.{◌≡◌, true, false, ◌&&◌, ◌||◌, List, ℕ, ◌+◌, ◌*◌, ◌≤◌, ◌<◌, length, leb, eqb};
ghost use Rattle.rules.specs.Acks.{report_data, report_ack};
ghost use Rattle.rules.specs.Calls.{gets_ack, gets_keepalive, reports};
ghost use Rattle.rules.specs.State.{is_raw};
ghost use Rattle.events.specs.Written.{Listed};
ghost use Rattle.queue.specs.View.{ExactQueue};
ghost use Rattle.session.specs.Promise.{CalledWithList, CalledWithStores, ToldWithList};
ghost use Rattle.acks.specs.Steps.{clock_after, Ready, Acknowledges, notices, Acked, OutOfRange};
ghost use Rattle.acks.specs.Reports.{Reports, full_of, MayRetry};

use numbers::Numbers;
use peer_session::SessionState;
use rules::{Answer, Clock, EventCode, FrameKind, ReceiveMode, Refusal};
use session::{ANY, Returned, Told};

// ---- an ack

// `==` under a name of its own: proofs cite its clause.
pub fn is_raw(mode: ReceiveMode) -> bool
    ensures { result ≡ is_raw mode }
{
    mode == ReceiveMode::Raw
}

// The generation is raised where a message went.
pub fn acknowledged_clock(c: Clock, before: usize, after: usize) -> Clock
    requires { c.generation < 4294966000 }
    ensures { result ≡ clock_after (eqb after before) c }
{
    if after == before {
        return c;
    }
    let generation = c.generation + 1;
    let mut r = c;
    r.generation = generation;
    r
}

// Whether a handoff is acknowledged after an ack: only one that was sent is, with its number.
pub fn handoff_acknowledged(before: bool, sent: bool, handoff: u64, number: u64) -> bool
    ensures { result ≡ (before || (sent && leb handoff number)) }
{
    before || sent && handoff <= number
}

// The messages up to the ack go. The flag of a handoff that is not present counts for nothing.
fn acknowledge(s: SessionState, outbound: &mut [u8], number: u64) -> SessionState
    requires { Ready s (length outbound.old) }
    ensures { Acknowledges number s outbound.old result outbound.new }
{
    let o = s.outbox;
    let left = outbox::acknowledge(o, outbound, number);
    let c = s.clock;
    let clock = acknowledged_clock(c, o.count, left.count);
    let h = handoff_acknowledged(
        s.handoff.acknowledged,
        s.handoff.sent,
        s.handoff.number,
        number,
    );
    let mut r = s;
    r.outbox = left;
    r.clock = clock;
    r.handoff.acknowledged = h;
    r
}

// Code 4 where a rejection is complete, then code 3 in Raw mode.
pub fn notify_acknowledged(
    complete: bool,
    raw: bool,
    list: &mut [u64],
    n: usize,
    number: u64,
) -> usize
    requires { 4 * n + 8 ≤ length list.old }
    ensures { Listed (notices number complete raw) list.old n list.new result }
{
    let m = events::emit_if(
        complete,
        list,
        n,
        EventCode::RejectionAcknowledged as u64,
        0,
        0,
        0,
    );
    events::emit_if(raw, list, m, EventCode::Acknowledged as u64, number, 0, 0)
}

// An ack in range.
fn acknowledged(s: SessionState, list: &mut [u64], outbound: &mut [u8], number: u64) -> Returned
    requires { (4096 ≤ length list.old) × Ready s (length outbound.old) }
    ensures { Acked number s list.old outbound.old result list.new outbound.new }
{
    let r = acknowledge(s, outbound, number);
    let c = r.clock;
    let n = events::request(c, list, 0);
    let complete = session::rejection_complete(r);
    let g = r.stage;
    let mode = g.mode;
    let raw = is_raw(mode);
    let m = notify_acknowledged(complete, raw, list, n, number);
    Returned {
        session: r,
        answer: Answer::Flag(true),
        events: m,
    }
}

// An ack out of range: code 7 with the refusal's number, and nothing is acknowledged.
fn out_of_range(s: SessionState, list: &mut [u64], queue: &mut [u8]) -> Returned
    requires { (4096 ≤ length list.old) × ExactQueue s.queue (length queue.old) }
    ensures { OutOfRange s list.old queue.old result list.new queue.new }
{
    let r = peer_session::broken(s, queue);
    events::emit(
        list,
        0,
        EventCode::Failure as u64,
        u64::from(Refusal::AckOutOfRange),
        0,
        0,
    );
    Returned {
        session: r,
        answer: Answer::Refused(Refusal::AckOutOfRange),
        events: 1,
    }
}

// The messages up to a number go, except those pending or unsent.
pub fn receive_ack(
    s: SessionState,
    list: &mut [u64],
    outbound: &mut [u8],
    queue: &mut [u8],
    number: u64,
) -> Returned
    ensures { CalledWithStores (gets_ack number) s list.old outbound.old queue.old result list.new outbound.new queue.new }
{
    if let Err(x) = session::enters(s, list.len(), ANY, outbound.len(), queue.len(), false, true) {
        return session::refused(s, x);
    }
    if number < 1 {
        return out_of_range(s, list, queue);
    }
    if s.outbox.next - 1 < number {
        return out_of_range(s, list, queue);
    }
    acknowledged(s, list, outbound, number)
}

// ---- a keepalive

// Acks whose send was not accepted are sent again.
pub fn receive_keepalive(s: SessionState, list: &mut [u64]) -> Told
    ensures { ToldWithList gets_keepalive s list.old result list.new }
{
    if let Err(x) = session::enters(s, list.len(), ANY, ANY, ANY, false, false) {
        return Told {
            answer: Answer::Refused(x),
            events: 0,
        };
    }
    events::emit(list, 0, EventCode::Keepalive as u64, 0, 0, 0);
    let v = s.retry;
    let n = numbers::list_all(v, list, 1);
    Told {
        answer: Answer::Flag(true),
        events: n,
    }
}

// ---- a report of a send

// Whether a handoff's own frame has the number.
pub fn own_frame(present: bool, handoff: u64, number: u64) -> bool
    ensures { result ≡ (present && eqb handoff number) }
{
    present && handoff == number
}

// Data was accepted. The handoff's own frame requests a commit, whatever the generation.
fn report_data(s: SessionState, list: &mut [u64], number: u64) -> Returned
    requires { (4096 ≤ length list.old) × (s.outbox.count ≤ 256) }
    ensures { Reports (report_data true number) s list.old result list.new }
{
    let o = s.outbox;
    let sent = outbox::mark_sent(o, number);
    let mut r = s;
    r.outbox = sent;
    if !own_frame(s.handoff.present, s.handoff.number, number) {
        return Returned {
            session: r,
            answer: Answer::Done,
            events: 0,
        };
    }
    r.handoff.sent = true;
    events::emit(list, 0, EventCode::CommitRequested as u64, 0, 0, 0);
    Returned {
        session: r,
        answer: Answer::Done,
        events: 1,
    }
}

// An ack was accepted.
fn ack_sent(s: SessionState, number: u64) -> Returned
    requires { s.retry.count ≤ 512 }
    ensures { (l : List ℕ) → Reports (report_ack true number) s l result l }
{
    let v = s.retry;
    let left = numbers::take_out(v, number);
    let mut r = s;
    r.retry = left;
    Returned {
        session: r,
        answer: Answer::Done,
        events: 0,
    }
}

// Whether a number would be a 513th.
pub fn retries_full(v: Numbers, number: u64) -> bool
    requires { v.count ≤ 512 }
    ensures { result ≡ full_of number v }
{
    v.count >= SessionState::MAX_RETRIES && !numbers::has(v, number)
}

// An ack was not accepted: it is sent again with the next keepalive.
fn retry_ack(s: SessionState, number: u64) -> Returned
    requires { MayRetry number s.retry }
    ensures { (l : List ℕ) → Reports (report_ack false number) s l result l }
{
    let v = s.retry;
    if retries_full(v, number) {
        return session::refused(s, Refusal::RetriesFull);
    }
    let more = numbers::put(v, number);
    let mut r = s;
    r.retry = more;
    Returned {
        session: r,
        answer: Answer::Done,
        events: 0,
    }
}

// Whether a send was accepted: what is 0 of data, 1 of an ack.
pub fn report(s: SessionState, list: &mut [u64], what: u64, number: u64, accepted: bool) -> Returned
    ensures { CalledWithList (reports what number accepted) s list.old result list.new }
{
    let read = FrameKind::try_from(what);
    match session::enters(s, list.len(), ANY, ANY, ANY, read.is_err(), false).and(read) {
        Ok(FrameKind::Data) if accepted => report_data(s, list, number),
        Ok(FrameKind::Data) => Returned {
            session: s,
            answer: Answer::Done,
            events: 0,
        },
        Ok(FrameKind::Ack) if accepted => ack_sent(s, number),
        Ok(FrameKind::Ack) => retry_ack(s, number),
        Err(x) => session::refused(s, x),
    }
}
