// Deliveries: what a mode does with a message, and the drain of the queue (`deliver`, `drain_contiguous` of session.rs; `receive`, `proposal_received`,
// `reject_inbound`, `delivered` of the state).
#![tactic(auto)]

ghost use Rattle.std.specs.Prelude.{◌≡◌, ◌+◌, ◌*◌, ◌≤◌, length};
ghost use Rattle.rules.specs.declared.ReceiveMode.TheVariants.{Proposal, Rejection};
ghost use Rattle.rules.specs.Lists.{Bytes};
ghost use Rattle.events.specs.Written.{Listed, asked, books};
ghost use Rattle.delivery.specs.Turns.{lent_frame, step_at, Ready, Consumed, Delivered, Draining, Drains};
ghost use Rattle.delivery.specs.Acts.{HandedOver, Proposes, Rejects, Did, rejected, taken, answered, ReadyIn, Available, Deliverable, drained_by};

use numbers::Numbers;
use queue::Queue;
use rules::{BodyKind, Clock, Disposition, EventCode, HostStatus, ReceiveMode, Refusal};

// What deliveries change, while a call is under way: numbers only, so that a drain moves no array. The outbox and the stores follow once, at the call's
// end: the rejection was sent anew, or everything unacked dropped, or both in this order.
#[derive(Clone, Copy)]
pub struct Turn {
    pub mode: ReceiveMode,
    // whether a delivery failed earlier; only in Channel mode
    pub failed: bool,
    pub remote: u64,
    pub clock: Clock,
    // the session's number, passed on as it is
    pub disposition: u8,
    // the next message's number as the call began
    pub next: u64,
    // whether anything is unacked now
    pub unacked: bool,
    pub sent: bool,
    pub dropped: bool,
}

// A turn with the count of events and the first free byte of the delivery buffer.
#[derive(Clone, Copy)]
pub struct Step {
    pub turn: Turn,
    pub events: usize,
    pub at: usize,
}

// A message, whose body lies in a lent buffer.
#[derive(Clone, Copy)]
pub struct Frame<'a> {
    pub number: u64,
    // the queue's number, passed on as it is
    pub kind: u8,
    pub body: &'a [u8],
}

// The step that a drain ended at, with the acks that wait, how many frames were taken from the front of the queue, and the refusal that ended it. An
// Option beside the step, and no Result: what was delivered before the refusal stands.
#[derive(Clone, Copy)]
pub struct Drained {
    pub step: Step,
    pub waiting: Numbers,
    pub taken: usize,
    pub stop: Option<Refusal>,
}

// ---- what a message does

// Code 2, with the body after what the delivery buffer has.
fn hand_over(s: Step, list: &mut [u64], delivery: &mut [u8], f: Frame) -> Step
    requires { (4 * s.events + 4 ≤ length list.old) × (s.at + length f.body.now ≤ length delivery.old) }
    ensures written { HandedOver f.entry.number f.entry.body.now list.old s.events delivery.old s.at list.new delivery.new }
    ensures step { result ≡ step_at s.turn (s.events + 1) (s.at + length f.entry.body.now) }
{
    let len = f.body.len();
    stores::copy_in(delivery, s.at, f.body);
    events::emit(
        list,
        s.events,
        EventCode::Message as u64,
        f.number,
        s.at as u64,
        len as u64,
    );
    Step {
        turn: s.turn,
        events: s.events + 1,
        at: s.at + len,
    }
}

// Code 1, where a commit is due.
fn request(s: Step, list: &mut [u64]) -> Step
    requires { 4 * s.events + 4 ≤ length list.old }
    ensures listed { Listed (asked s.turn.clock) list.old s.events list.new result.events }
    ensures step { result ≡ step_at s.turn result.events s.at }
{
    Step {
        turn: s.turn,
        events: events::request(s.turn.clock, list, s.events),
        at: s.at,
    }
}

// `proposal_received`: a rejection that was acknowledged is sent anew, and one under way stands.
fn receive_proposal(t: Turn) -> Result<Turn, Refusal>
    requires { t.clock.generation + 1 ≤ 4294967295 }
    ensures { Proposes t result }
{
    let mut r = t;
    if t.disposition != Disposition::OutboundReject as u8 {
        r.disposition = Disposition::ProposalReceived as u8;
        return Ok(r);
    }
    if t.unacked {
        return Ok(t);
    }
    if rules::LAST_MESSAGE < t.next {
        return Err(Refusal::NumbersExhausted);
    }
    r.clock.generation += 1;
    r.unacked = true;
    r.sent = true;
    Ok(r)
}

// Everything unacked is dropped.
fn reject_inbound(t: Turn) -> Turn
    requires { t.clock.generation + 1 ≤ 4294967295 }
    ensures { Rejects t result }
{
    let mut r = t;
    r.disposition = Disposition::InboundReject as u8;
    if !t.unacked {
        return r;
    }
    r.clock.generation += 1;
    r.unacked = false;
    r.dropped = true;
    r
}

// ---- what a mode does with a message: a refusal leaves the step as it was, and nothing is written

fn take_reject(s: Step, list: &mut [u64]) -> Step
    requires { Ready s.turn 0 (length list.old) s.events 0 0 }
    ensures { (d : Bytes) → Did rejected 0 s.turn (books list.old s.events d s.at) (Ok result) list.new d }
{
    let turn = reject_inbound(s.turn);
    request(Step { turn, ..s }, list)
}

fn take_proposal(s: Step, list: &mut [u64], delivery: &mut [u8], f: Frame) -> Result<Step, Refusal>
    requires { Ready s.turn (length f.body.now) (length list.old) s.events (length delivery.old) s.at }
    ensures { Did (taken (lent_frame f.entry)) (length f.entry.body.now) s.turn (books list.old s.events delivery.old s.at) result list.new delivery.new }
{
    let turn = receive_proposal(s.turn)?;
    Ok(hand_over(Step { turn, ..s }, list, delivery, f))
}

fn answer_proposal(s: Step, list: &mut [u64]) -> Result<Step, Refusal>
    requires { Ready s.turn 0 (length list.old) s.events 0 0 }
    ensures { (d : Bytes) → Did answered 0 s.turn (books list.old s.events d s.at) result list.new d }
{
    let turn = receive_proposal(s.turn)?;
    Ok(request(Step { turn, ..s }, list))
}

// Proposal mode: a reject, the first proposal, and nothing else.
fn consume_proposal(
    s: Step,
    list: &mut [u64],
    delivery: &mut [u8],
    f: Frame,
) -> Result<Step, Refusal>
    requires { ReadyIn Proposal s.turn (length f.body.now) (length list.old) s.events (length delivery.old) s.at }
    ensures { Consumed (lent_frame f.entry) s.turn (books list.old s.events delivery.old s.at) result list.new delivery.new }
{
    if f.kind == BodyKind::Reject as u8 {
        return Ok(take_reject(s, list));
    }
    if f.number == 1 && f.kind == BodyKind::Proposal as u8 {
        return take_proposal(s, list, delivery, f);
    }
    Err(Refusal::NotAProposal)
}

// Rejection mode: the first proposal is answered, and nothing is handed over.
fn consume_rejection(s: Step, list: &mut [u64], f: Frame) -> Result<Step, Refusal>
    requires { ReadyIn Rejection s.turn 0 (length list.old) s.events 0 0 }
    ensures { (d : Bytes) → Consumed (lent_frame f.entry) s.turn (books list.old s.events d s.at) result list.new d }
{
    if f.number == 1 && f.kind == BodyKind::Proposal as u8 {
        return answer_proposal(s, list);
    }
    Ok(s)
}

fn consume(s: Step, list: &mut [u64], delivery: &mut [u8], f: Frame) -> Result<Step, Refusal>
    requires { Ready s.turn (length f.body.now) (length list.old) s.events (length delivery.old) s.at }
    ensures { Consumed (lent_frame f.entry) s.turn (books list.old s.events delivery.old s.at) result list.new delivery.new }
{
    match s.turn.mode {
        ReceiveMode::Raw => Ok(hand_over(s, list, delivery, f)),
        ReceiveMode::Proposal => consume_proposal(s, list, delivery, f),
        ReceiveMode::Rejection => consume_rejection(s, list, f),
        ReceiveMode::Channel | ReceiveMode::Retiring => Ok(s),
    }
}

// The message is consumed, remote moves on, and a commit is requested.
pub fn deliver(s: Step, list: &mut [u64], delivery: &mut [u8], f: Frame) -> Result<Step, Refusal>
    requires { Ready s.turn (length f.body.now) (length list.old) s.events (length delivery.old) s.at }
    ensures { Delivered (lent_frame f.entry) s.turn (books list.old s.events delivery.old s.at) result list.new delivery.new }
{
    let mut r = consume(s, list, delivery, f)?;
    r.turn.clock.generation += 1;
    r.turn.remote = f.number;
    Ok(request(r, list))
}

// ---- the drain

// The host is there, and the mode listens. What it says of a channel means nothing: there is none. The first test stands with its return: `&&` before
// the whole match would read no plainer.
pub fn available(t: Turn, status: HostStatus) -> bool
    ensures { Available status t result }
{
    if !status.available {
        return false;
    }
    match t.mode {
        ReceiveMode::Raw | ReceiveMode::Rejection | ReceiveMode::Retiring => true,
        ReceiveMode::Proposal => !(t.failed || t.disposition == Disposition::InboundReject as u8),
        ReceiveMode::Channel => false,
    }
}

// Proposal mode takes message 1 and rejects. It takes no Frame: the drain asks before it cuts out a body.
pub fn deliverable(t: Turn, number: u64, kind: u8) -> bool
    ensures { Deliverable number kind t result }
{
    t.mode != ReceiveMode::Proposal || number == 1 || kind == BodyKind::Reject as u8
}

// The drain ends at the frame that is not taken.
fn leave(step: Step, waiting: Numbers, taken: usize, stop: Option<Refusal>) -> Drained
    ensures { result ≡ drained_by step.turn waiting taken step.events step.at stop }
{
    Drained {
        step,
        waiting,
        taken,
        stop,
    }
}

// From frame `from` of the queue on, for as long as the host is available and the next message is there and deliverable. Its ack has the highest
// number of those that wait.
pub fn drain(
    s: Step,
    w: Numbers,
    q: Queue,
    from: usize,
    store: &[u8],
    status: HostStatus,
    list: &mut [u64],
    delivery: &mut [u8],
) -> Drained
    requires { Draining s.turn w q from store.now (books list.old s.events delivery.old s.at) }
    ensures { Drains status s.turn w q from store.now (books list.old s.events delivery.old s.at) result list.new delivery.new }
{
    let mut step = s;
    let mut waiting = w;
    let mut start = queue::start(q, from);
    let mut taken = from;
    // left from inside at three different findings: the form that document 01 names
    'drain: for i in from..q.count {
        if !available(step.turn, status) {
            break 'drain;
        }
        let u = q.records[i];
        if u.number != step.turn.remote + 1 {
            break 'drain;
        }
        if !deliverable(step.turn, u.number, u.kind) {
            break 'drain;
        }
        let len = u.len as usize;
        let f = Frame {
            number: u.number,
            kind: u.kind,
            body: stores::part(store, start, len),
        };
        match deliver(step, list, delivery, f) {
            Ok(next) => step = next,
            Err(x) => return leave(step, waiting, i, Some(x)),
        }
        waiting.values[waiting.count] = u.number;
        waiting.count += 1;
        start += len;
        taken = i + 1;
    }
    leave(step, waiting, taken, None)
}
