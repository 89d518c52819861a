// The unacked messages: records by rising number in an array, their bodies packed in the outbound store that the caller lends.
#![tactic(auto)]

ghost use Rattle.std.specs.Prelude.{◌≡◌, true, [], ◌+◌, ◌*◌, ◌≤◌, length};
ghost use Rattle.rules.specs.Lists.{kept};
ghost use Rattle.rules.specs.Acks.{survives, sent};
ghost use Rattle.events.specs.Emitted.{EmittedIf};
ghost use Rattle.outbox.specs.View.{end_u, used_u, unacked_of, ExactOutbox};
ghost use Rattle.outbox.specs.Sound.{admits_unacked, sound_unacked, sound_outbox_of};
ghost use Rattle.outbox.specs.Records.{survives_u, releases_u, released_u, sent_u, place_u};
ghost use Rattle.outbox.specs.Steps.{Room, Appended, Left, Flagged, Releases, Replays};
ghost use Rattle.outbox.specs.Sweeps.{Lowers};

use rules::EventCode;

#[repr(C)]
#[derive(Clone, Copy)]
pub struct Unacked {
    pub number: u32,
    pub len: u32,
    // not yet released by a commit
    pub pending: bool,
    // released, and no send of it reported as accepted yet
    pub unsent: bool,
}

// The number that the next message gets (`message_number`), and the records in use. Kept an array with a count: a session that was tampered with, even a
// count above 256, has to be a value of this type, to be refused by 3; and no heap.
#[repr(C)]
#[derive(Clone, Copy)]
pub struct Outbox {
    pub next: u64,
    pub records: [Unacked; 256],
    pub count: usize,
}

// The outbox with the count of events listed so far. Kept beside numbers's, whose other field has another type: one with a type parameter would name neither
// the messages nor the numbers.
#[derive(Clone, Copy)]
pub struct Released {
    pub outbox: Outbox,
    pub events: usize,
}

// Where a body lies in the outbound store.
#[derive(Clone, Copy)]
pub struct Place {
    pub start: usize,
    pub len: usize,
}

// ---- whether an outbox is one that calls leave

// Whether a record may follow those up to number last, whose bodies have sum bytes.
pub fn admits_unacked(u: Unacked, last: u64, sum: usize, next: u64) -> bool
    requires { sum ≤ 65536 }
    ensures { result ≡ admits_unacked next last sum u }
{
    let n = u64::from(u.number);
    last < n && n < next && u.len as usize <= 65536 - sum
}

pub fn sound_unacked(o: Outbox) -> bool
    requires { o.count ≤ 256 }
    ensures { result ≡ sound_unacked o }
{
    let mut last = 0;
    let mut sum = 0;
    for &u in &o.records[..o.count] {
        if !admits_unacked(u, last, sum, o.next) {
            return false;
        }
        last = u64::from(u.number);
        sum += u.len as usize;
    }
    true
}

#[tactic(auto, unfolding(crate::specs::Sound::sound_outbox_of))]
pub fn sound_outbox(o: Outbox) -> bool
    ensures { result ≡ sound_outbox_of o }
{
    o.count <= 256 && 1 <= o.next && o.next <= 4294967296 && sound_unacked(o)
}

// ---- messages join and leave

// Where the bodies end.
pub fn used(o: Outbox) -> usize
    requires { (o.count ≤ 256) × (end_u o ≤ 65536) }
    ensures { result ≡ end_u o }
{
    o.records[..o.count].iter().map(|u| u.len as usize).sum()
}

// A message with the next number, at the end: its body from index at on, where the bodies end.
pub fn append(o: Outbox, store: &mut [u8], at: usize, body: &[u8]) -> Outbox
    requires { Room o (length store.old) at (length body.now) }
    ensures { Appended o store.old body.now result store.new }
{
    stores::copy_in(store, at, body);
    let n = o.count;
    let u = Unacked {
        number: o.next as u32,
        len: body.len() as u32,
        pending: true,
        unsent: false,
    };
    let mut r = o;
    r.records[n] = u;
    r.count = n + 1;
    r.next = o.next + 1;
    r
}

// Whether an acknowledgement of the numbers up to ack leaves a record.
pub fn keeps(u: Unacked, ack: u64) -> bool
    ensures { result ≡ survives_u ack u }
{
    ack < u64::from(u.number) || u.pending || u.unsent
}

// Where the body of the next record goes, by whether this one stays: if so, its body has moved down.
pub fn lower_if(stays: bool, store: &mut [u8], to: usize, from: usize, n: usize) -> usize
    requires { (to ≤ from) × (from + n ≤ length store.old) }
    ensures { Lowers stays to from n store.old store.new result }
{
    if stays {
        stores::move_run(store, to, from, n);
        return to + n;
    }
    to
}

// The Rust's `acknowledge`: messages up to ack go, except those pending or unsent. One pass; the freed tail is cleared once.
pub fn acknowledge(o: Outbox, store: &mut [u8], ack: u64) -> Outbox
    requires { ExactOutbox o (length store.old) }
    ensures { Left o store.old (kept (survives ack) (unacked_of o store.old)) result store.new }
{
    let mut r = o;
    let mut k = 0;
    let mut to = 0;
    let mut from = 0;
    for i in 0..o.count {
        let u = r.records[i];
        let n = u.len as usize;
        let stays = keeps(u, ack);
        to = lower_if(stays, store, to, from, n);
        r.records[k] = u;
        k += usize::from(stays);
        from += n;
    }
    stores::clear(store, to, from);
    r.count = k;
    r
}

// All messages go.
pub fn discard(o: Outbox, store: &mut [u8]) -> Outbox
    requires { ExactOutbox o (length store.old) }
    ensures { Left o store.old [] result store.new }
{
    let end = used(o);
    stores::clear(store, 0, end);
    let mut r = o;
    r.count = 0;
    r
}

// ---- sends are listed

// Lists a send, code 8, as event number n, where it is to go; the body has len bytes from index at on. Returns the next event's number. Stays a function:
// four callers, here and in link_outbox, would each say the code and the three conversions.
pub fn send_if(goes: bool, number: u32, len: u32, list: &mut [u64], n: usize, at: usize) -> usize
    requires { 4 * n + 4 ≤ length list.old }
    ensures { EmittedIf goes 8 number at len list.old n list.new result }
{
    events::emit_if(
        goes,
        list,
        n,
        EventCode::SendData as u64,
        u64::from(number),
        at as u64,
        u64::from(len),
    )
}

// Whether a commit that captured the numbers up to upto releases a record.
pub fn releases(u: Unacked, upto: u64) -> bool
    ensures { result ≡ releases_u upto u }
{
    u.pending && u64::from(u.number) <= upto
}

// A record after a release.
fn release_one(goes: bool, u: Unacked) -> Unacked
    ensures { result ≡ released_u goes u }
{
    if goes {
        let mut r = u;
        r.pending = false;
        r.unsent = true;
        return r;
    }
    u
}

// The Rust's `complete_commit` on the messages: those pending up to upto are sent, and unsent until a send is reported.
pub fn release(o: Outbox, upto: u64, list: &mut [u64], n: usize) -> Released
    requires { (sound_outbox_of o ≡ true) × (4 * (n + o.count) ≤ length list.old) }
    ensures { Releases upto o list.old n result list.new }
{
    let mut outbox = o;
    let mut events = n;
    let mut at = 0;
    for i in 0..o.count {
        let u = outbox.records[i];
        let goes = releases(u, upto);
        events = send_if(goes, u.number, u.len, list, events, at);
        outbox.records[i] = release_one(goes, u);
        at += u.len as usize;
    }
    Released { outbox, events }
}

// The Rust's `connectivity` on the messages: those not pending are sent anew.
pub fn replay(o: Outbox, list: &mut [u64], n: usize) -> usize
    requires { (sound_outbox_of o ≡ true) × (4 * (n + o.count) ≤ length list.old) }
    ensures { Replays o list.old n list.new result }
{
    let mut events = n;
    let mut at = 0;
    for &u in &o.records[..o.count] {
        events = send_if(!u.pending, u.number, u.len, list, events, at);
        at += u.len as usize;
    }
    events
}

// ---- a report, and a fetch

fn sent_one(u: Unacked, number: u64) -> Unacked
    ensures { result ≡ sent_u number u }
{
    let n = u64::from(u.number);
    if n == number {
        let mut r = u;
        r.unsent = false;
        return r;
    }
    u
}

// The Rust's `sent`: a send of the number was accepted.
pub fn mark_sent(o: Outbox, number: u64) -> Outbox
    requires { o.count ≤ 256 }
    ensures { Flagged (sent number) o result }
{
    let mut r = o;
    for i in 0..o.count {
        r.records[i] = sent_one(r.records[i], number);
    }
    r
}

// Where the body of a number lies, if it is held.
pub fn locate(o: Outbox, number: u64) -> Option<Place>
    requires { (o.count ≤ 256) × (end_u o ≤ 65536) }
    ensures { result ≡ place_u number 0 (used_u o) }
{
    let mut start = 0;
    for u in &o.records[..o.count] {
        let len = u.len as usize;
        if u64::from(u.number) == number {
            return Some(Place { start, len });
        }
        start += len;
    }
    None
}
