// The frames that came too early: records by rising number in an array, their bodies packed in the queue store that the caller lends.
#![tactic(auto)]

ghost use Rattle.std.specs.Prelude.{◌≡◌, [], ◌≤◌, length, take, drop};
ghost use Rattle.rules.specs.Lists.{Bytes, any, put, total};
ghost use Rattle.rules.specs.State.{is_frame, frame_number};
ghost use Rattle.queue.specs.View.{len_q, used_q, end_q, frames_of, ExactQueue, Repacked};
ghost use Rattle.queue.specs.Sound.{admits_queued, sound_queued, sound_queue};
ghost use Rattle.queue.specs.Steps.{arrived, Leads, Room, Enters, with_at};

use rules::{BodyKind, Policy};

#[repr(C)]
#[derive(Clone, Copy)]
pub struct Queued {
    pub number: u64,
    pub len: u32,
    // a number: a session that was tampered with may have any
    pub kind: u8,
}

// Kept an array with a count: a session that was tampered with, even a count above 256, has to be a value of this type, to be refused by 3; and no heap.
#[repr(C)]
#[derive(Clone, Copy)]
pub struct Queue {
    pub records: [Queued; 256],
    pub count: usize,
}

// ---- sound

fn admits_queued(u: Queued, last: u64, sum: usize, p: Policy) -> bool
    requires { sum ≤ p.bytes }
    ensures { result ≡ admits_queued p last sum u }
{
    let n = u.len as usize;
    last < u.number
        && u.number <= rules::LAST_REMOTE
        && u.kind <= BodyKind::Reject as u8
        && n <= p.body
        && n <= p.bytes - sum
}

// Whether the numbers rise from remote on, and each body and all of them are within the policy.
fn sound_queued(q: Queue, remote: u64, p: Policy) -> bool
    requires { (q.count ≤ 256) × (p.bytes ≤ 32768) }
    ensures { result ≡ sound_queued p remote q }
{
    let mut last = remote;
    let mut sum = 0;
    for &u in &q.records[..q.count] {
        if !admits_queued(u, last, sum, p) {
            return false;
        }
        last = u.number;
        sum += u.len as usize;
    }
    true
}

// Whether the policy is within its limits and the queue within the policy.
#[tactic(auto, unfolding(crate::specs::Sound::sound_queue))]
pub fn sound_queue(q: Queue, remote: u64, p: Policy) -> bool
    ensures { result ≡ sound_queue p remote q }
{
    p.messages <= rules::MAX_QUEUED_MESSAGES
        && p.bytes <= rules::MAX_QUEUED_BYTES
        && p.body <= rules::MAX_PEER_BODY
        && q.count <= p.messages
        && remote <= rules::LAST_REMOTE
        && sound_queued(q, remote, p)
}

// ---- asked

// Whether a frame of this number is queued.
pub fn find(q: Queue, number: u64) -> bool
    requires { q.count ≤ 256 }
    ensures { (o : Bytes) → result ≡ any (is_frame number) (frames_of q o) }
{
    q.records[..q.count].iter().any(|u| u.number == number)
}

// How many frames at the front have a number up to this one. No `partition_point`: it promises of an ordered list alone, and this one asks for no order.
pub fn up_to(q: Queue, number: u64) -> usize
    requires { q.count ≤ 256 }
    ensures { Leads number q result }
{
    q.records[..q.count]
        .iter()
        .take_while(|u| u.number <= number)
        .count()
}

// Where the body of frame k starts.
pub fn start(q: Queue, k: usize) -> usize
    requires { (k ≤ q.count) × (q.count ≤ 256) × (end_q q ≤ 32768) }
    ensures { result ≡ total len_q (take k (used_q q)) }
{
    q.records[..k].iter().map(|u| u.len as usize).sum()
}

// Where the bodies end.
pub fn used(q: Queue) -> usize
    requires { (q.count ≤ 256) × (end_q q ≤ 32768) }
    ensures { result ≡ end_q q }
{
    start(q, q.count)
}

// ---- put in

// A frame goes in at index at; the later ones, and their bytes, move up. It comes as number, kind and body, here and below:
// the first two go into a record and the body into the store, so a struct of the three would be taken apart at once.
pub fn insert_at(q: Queue, store: &mut [u8], at: usize, number: u64, kind: u8, body: &[u8]) -> Queue
    requires { Room q (length store.old) at (length body.now) }
    ensures { Repacked q store.old (with_at at (arrived number kind body.now) (frames_of q store.old)) result store.new }
{
    let n = body.len();
    let from = start(q, at);
    let end = used(q);
    stores::move_run(store, from + n, from, end - from);
    stores::copy_in(store, from, body);
    let mut records = q.records;
    stores::move_run(&mut records, at + 1, at, q.count - at);
    records[at] = Queued {
        number,
        len: n as u32,
        kind,
    };
    Queue {
        records,
        count: q.count + 1,
    }
}

// A frame whose number is not queued goes to its place by rising number.
pub fn insert(q: Queue, store: &mut [u8], number: u64, kind: u8, body: &[u8]) -> Queue
    requires { Enters q store.old number (length body.now) }
    ensures { Repacked q store.old (put frame_number (arrived number kind body.now) (frames_of q store.old)) result store.new }
{
    let at = up_to(q, number);
    insert_at(q, store, at, number, kind, body)
}

// ---- taken out

// The first k frames go; the others, and their bytes, move to the front, and what they leave is cleared.
pub fn drop_front(q: Queue, store: &mut [u8], k: usize) -> Queue
    requires { (k ≤ q.count) × ExactQueue q (length store.old) }
    ensures { Repacked q store.old (drop k (frames_of q store.old)) result store.new }
{
    let from = start(q, k);
    let end = used(q);
    let n = end - from;
    stores::move_run(store, 0, from, n);
    stores::clear(store, n, end);
    let left = q.count - k;
    let mut records = q.records;
    stores::move_run(&mut records, 0, k, left);
    Queue {
        records,
        count: left,
    }
}

// All frames go. It is drop_front of all; kept, since its promise says that none is left, which its callers would have to derive.
pub fn clear(q: Queue, store: &mut [u8]) -> Queue
    requires { ExactQueue q (length store.old) }
    ensures { Repacked q store.old [] result store.new }
{
    drop_front(q, store, q.count)
}
