// The frames that came too early, of a session that C lends, worked on where they lie.
#![tactic(auto)]

ghost use Rattle.std.specs.Prelude.{◌≡◌, true, List, [], ℕ, ◌≤◌, length, drop};
ghost use Rattle.rules.specs.Lists.{Bytes, any, put};
ghost use Rattle.rules.specs.State.{is_frame, frame_number};
ghost use Rattle.queue.specs.View.{frames_of, ExactQueue};
ghost use Rattle.queue.specs.Steps.{arrived, Leads, Room, with_at};
ghost use Rattle.parts.specs.Parts.{at, queue_in};
ghost use Rattle.link_queue.specs.Joins.{Joins, Joined};
ghost use Rattle.link_queue.specs.Steps.{bodies, Summing, Topped, Below, Entering, Requeued};

use parts::{Bytes, Halves, Words};

// ---- where the bodies lie

// Where the body of frame k starts: those before it end there.
pub fn start(halves: &Halves, k: usize) -> usize
    requires { Summing halves.now k }
    ensures { result ≡ bodies halves.now k }
{
    let sum: u32 = halves[parts::QUEUED_LENS..parts::QUEUED_LENS + k]
        .iter()
        .sum();
    sum as usize
}

// ---- asked

// Whether a number is above all that are queued, as that of a frame that comes mostly is.
fn above(words: &Words, number: u64) -> bool
    requires { Topped words.now }
    ensures { result ≡ true → Below number words.now }
{
    let n = words[parts::QUEUED] as usize;
    n == 0 || words[parts::QUEUED_NUMBERS - 1 + n] < number
}

// Whether a frame of this number is queued. All are looked at, with no exit, so that LLVM compares several at once.
pub fn find(words: &Words, number: u64) -> bool
    requires { at words.now 4 ≤ 256 }
    ensures { (h b : List ℕ) (o : Bytes) → result ≡ any (is_frame number) (frames_of (queue_in words.now h b) o) }
{
    let count = words[parts::QUEUED] as usize;
    let found: u64 = words[parts::QUEUED_NUMBERS..parts::QUEUED_NUMBERS + count]
        .iter()
        .map(|&x| u64::from(x == number))
        .sum();
    0 < found
}

// The same, of frames that rise.
pub fn holds(words: &Words, number: u64) -> bool
    requires { Topped words.now }
    ensures { (h b : List ℕ) (o : Bytes) → result ≡ any (is_frame number) (frames_of (queue_in words.now h b) o) }
{
    !above(words, number) && find(words, number)
}

// How many frames at the front have a number up to this one. No `partition_point`: it promises of an ordered list alone, and this one asks for no order.
pub fn up_to(words: &Words, number: u64) -> usize
    requires { at words.now 4 ≤ 256 }
    ensures { (h b : List ℕ) → Leads number (queue_in words.now h b) result }
{
    let count = words[parts::QUEUED] as usize;
    words[parts::QUEUED_NUMBERS..parts::QUEUED_NUMBERS + count]
        .iter()
        .take_while(|&&x| x <= number)
        .count()
}

// ---- put in

// A frame goes in after those that are queued, whose bodies end at index end of the store. It comes as number, kind and body, here and below: each
// goes into another part, so a struct of the three would be taken apart at once.
pub fn join(
    words: &mut Words,
    halves: &mut Halves,
    bytes: &mut Bytes,
    store: &mut [u8],
    end: usize,
    number: u64,
    kind: u8,
    body: &[u8],
)
    requires { Joins words.old halves.old bytes.old (length store.old) end (length body.now) }
    ensures { Joined number kind body.now words.old halves.old bytes.old store.old words.new halves.new bytes.new store.new }
{
    stores::copy_in(store, end, body);
    let count = words[parts::QUEUED];
    let n = count as usize;
    words[parts::QUEUED_NUMBERS + n] = number;
    words[parts::QUEUED] = count + 1;
    halves[parts::QUEUED_LENS + n] = body.len() as u32;
    bytes[parts::QUEUED_KINDS + n] = kind;
}

// A frame goes in at index k; the later ones, and their bytes, move up.
fn insert_at(
    words: &mut Words,
    halves: &mut Halves,
    bytes: &mut Bytes,
    store: &mut [u8],
    k: usize,
    number: u64,
    kind: u8,
    body: &[u8],
)
    requires { Room (queue_in words.old halves.old bytes.old) (length store.old) k (length body.now) }
    ensures { Requeued (with_at k (arrived number kind body.now) (frames_of (queue_in words.old halves.old bytes.old) store.old)) words.old halves.old bytes.old store.old words.new halves.new bytes.new store.new }
{
    let n = body.len();
    let count = words[parts::QUEUED] as usize;
    let from = start(halves, k);
    let end = start(halves, count);
    stores::move_run(store, from + n, from, end - from);
    stores::copy_in(store, from, body);
    link_moves::raise(
        words,
        parts::QUEUED_NUMBERS + k,
        parts::QUEUED_NUMBERS + count,
    );
    link_moves::raise(halves, parts::QUEUED_LENS + k, parts::QUEUED_LENS + count);
    link_moves::raise(bytes, parts::QUEUED_KINDS + k, parts::QUEUED_KINDS + count);
    words[parts::QUEUED_NUMBERS + k] = number;
    words[parts::QUEUED] = count as u64 + 1;
    halves[parts::QUEUED_LENS + k] = n as u32;
    bytes[parts::QUEUED_KINDS + k] = kind;
}

// A frame whose number is not queued goes to its place by rising number, mostly after all others, whose bodies end at index end of the store.
pub fn insert(
    words: &mut Words,
    halves: &mut Halves,
    bytes: &mut Bytes,
    store: &mut [u8],
    end: usize,
    number: u64,
    kind: u8,
    body: &[u8],
)
    requires { Entering words.old halves.old bytes.old store.old end number (length body.now) }
    ensures { Requeued (put frame_number (arrived number kind body.now) (frames_of (queue_in words.old halves.old bytes.old) store.old)) words.old halves.old bytes.old store.old words.new halves.new bytes.new store.new }
{
    if above(words, number) {
        join(words, halves, bytes, store, end, number, kind, body);
        return;
    }
    let k = up_to(words, number);
    insert_at(words, halves, bytes, store, k, number, kind, body);
}

// ---- taken out

// All frames go. No twin of `stores::clear`, which it calls: the count is set too. `shed` of all would sum the lengths twice.
pub fn clear(words: &mut Words, halves: &Halves, bytes: &Bytes, store: &mut [u8])
    requires { ExactQueue (queue_in words.old halves.now bytes.now) (length store.old) }
    ensures { Requeued [] words.old halves.now bytes.now store.old words.new halves.now bytes.now store.new }
{
    let count = words[parts::QUEUED] as usize;
    let end = start(halves, count);
    stores::clear(store, 0, end);
    words[parts::QUEUED] = 0;
}

// The first k frames go: the others, and their bytes, move to the front, and what they leave is cleared.
fn shed(words: &mut Words, halves: &mut Halves, bytes: &mut Bytes, store: &mut [u8], k: usize)
    requires { (k ≤ at words.old 4) × ExactQueue (queue_in words.old halves.old bytes.old) (length store.old) }
    ensures { Requeued (drop k (frames_of (queue_in words.old halves.old bytes.old) store.old)) words.old halves.old bytes.old store.old words.new halves.new bytes.new store.new }
{
    let count = words[parts::QUEUED] as usize;
    let from = start(halves, k);
    let end = start(halves, count);
    let n = end - from;
    let left = count - k;
    stores::move_run(store, 0, from, n);
    stores::clear(store, n, end);
    link_moves::lower(
        words,
        parts::QUEUED_NUMBERS,
        parts::QUEUED_NUMBERS + k,
        left,
    );
    link_moves::lower(halves, parts::QUEUED_LENS, parts::QUEUED_LENS + k, left);
    link_moves::lower(bytes, parts::QUEUED_KINDS, parts::QUEUED_KINDS + k, left);
    words[parts::QUEUED] = left as u64;
}

// The same; where none goes nothing is touched, and where all go no record is.
pub fn drop_front(
    words: &mut Words,
    halves: &mut Halves,
    bytes: &mut Bytes,
    store: &mut [u8],
    k: usize,
)
    requires { (k ≤ at words.old 4) × ExactQueue (queue_in words.old halves.old bytes.old) (length store.old) }
    ensures { Requeued (drop k (frames_of (queue_in words.old halves.old bytes.old) store.old)) words.old halves.old bytes.old store.old words.new halves.new bytes.new store.new }
{
    if k == 0 {
        return;
    }
    if k as u64 == words[parts::QUEUED] {
        clear(words, halves, bytes, store);
        return;
    }
    shed(words, halves, bytes, store, k);
}
