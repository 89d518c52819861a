// The unacked messages of a session that C lends, worked on where they lie. Numbers and pending flags start at index 0 of their parts.
#![tactic(auto)]

ghost use Rattle.std.specs.Prelude.{◌≡◌, true, ◌&&◌, ◌||◌, leb, ltb, List, ℕ, ◌+◌, ◌*◌, ◌≤◌, ◌<◌, length, take, if◌then◌else◌};
ghost use Rattle.std.proofs.Math.Seq.{slice};
ghost use Rattle.rules.specs.Lists.{total};
ghost use Rattle.outbox.specs.View.{len_u};
ghost use Rattle.outbox.specs.Sound.{sound_outbox_of};
ghost use Rattle.parts.specs.Seats.{seats};
ghost use Rattle.parts.specs.Parts.{at, flag, outbox_in, unacked_at};
ghost use Rattle.outbox.specs.View.{used_u, ExactOutbox};
ghost use Rattle.outbox.specs.Records.{place_u};
ghost use Rattle.outbox.specs.Steps.{Room, Replays};
ghost use Rattle.link_outbox.specs.Steps.{Joins, Marks, Frees, Drops, Shifted, Front, freed};
ghost use Rattle.link_outbox.specs.Tests.{falls, Steps, low, stayer, Bounded, Sought};

use outbox::Place;
use parts::{Bytes, Halves, Words};

// ---- whether they are such as calls leave

// How many numbers after the first are not above the one before them.
fn falls_of(halves: &Halves, count: usize) -> u32
    requires { count ≤ 256 }
    ensures { (b : List ℕ) → result ≡ falls (at halves.now 0) (slice 1 count (seats 256 (unacked_at halves.now b))) }
{
    let mut sum: u32 = 0;
    for i in 1..count {
        sum += u32::from(halves[i] <= halves[i - 1]);
    }
    sum
}

// How many numbers are as far from the first as they stand behind it.
fn steps_of(halves: &Halves, first: u32, count: usize) -> u32
    requires { (count ≤ 256) × (first + count ≤ 4294967296) }
    ensures { result ≡ count → Steps halves.now first count }
{
    let mut sum: u32 = 0;
    for i in 0..count {
        sum += u32::from(halves[i] == first + i as u32);
    }
    sum
}

// The same as falls_of: numbers that follow one another are mostly there, and seen sooner.
fn falls_in(halves: &Halves, count: usize) -> u32
    requires { (0 < count) × (count ≤ 256) }
    ensures { (b : List ℕ) → result ≡ falls (at halves.now 0) (slice 1 count (seats 256 (unacked_at halves.now b))) }
{
    let first = halves[0];
    if 4294967296 - (count as u64) < u64::from(first) {
        return falls_of(halves, count);
    }
    if steps_of(halves, first, count) as usize == count {
        return 0;
    }
    falls_of(halves, count)
}

// The sum of the lengths, whatever they are.
fn lens_of(halves: &Halves, count: usize) -> u64
    requires { count ≤ 256 }
    ensures { (b : List ℕ) → result ≡ total len_u (take count (seats 256 (unacked_at halves.now b))) }
{
    halves[parts::UNACKED_LENS..parts::UNACKED_LENS + count]
        .iter()
        .map(|&len| u64::from(len))
        .sum()
}

// The tests of the numbers and of the bodies, where there are messages.
fn sound_in(words: &Words, halves: &Halves) -> bool
    requires { (1 ≤ at words.now 0) × (at words.now 0 ≤ 4294967296) × (0 < at words.now 1) × (at words.now 1 ≤ 256) }
    ensures { (b : List ℕ) → result ≡ sound_outbox_of (outbox_in words.now halves.now b) }
{
    let count = words[parts::UNACKED] as usize;
    1 <= halves[0]
        && u64::from(halves[count - 1]) < words[parts::NEXT]
        && falls_in(halves, count) < 1
        && lens_of(halves, count) <= 65536
}

pub fn sound(words: &Words, halves: &Halves) -> bool
    ensures { (b : List ℕ) → result ≡ sound_outbox_of (outbox_in words.now halves.now b) }
{
    let next = words[parts::NEXT];
    let n = words[parts::UNACKED];
    n <= 256 && 1 <= next && next <= 4294967296 && (n == 0 || sound_in(words, halves))
}

// ---- where the bodies end

// Kept beside `link_queue::start`: a sum of numbers for both would leave each caller to say that they are messages, or frames.
pub fn used(halves: &Halves, count: usize) -> usize
    requires { Bounded halves.now count }
    ensures { (b : List ℕ) → result ≡ total len_u (seats count (unacked_at halves.now b)) }
{
    let sum: u32 = halves[parts::UNACKED_LENS..parts::UNACKED_LENS + count]
        .iter()
        .sum();
    sum as usize
}

// ---- a message joins

// A message with the next number, at the end: its body from index at on, where the bodies end.
pub fn append(
    words: &mut Words,
    halves: &mut Halves,
    bytes: &mut Bytes,
    store: &mut [u8],
    at: usize,
    body: &[u8],
)
    requires { Room (outbox_in words.old halves.old bytes.old) (length store.old) at (length body.now) }
    ensures { Joins words.old halves.old bytes.old store.old body.now words.new halves.new bytes.new store.new }
{
    stores::copy_in(store, at, body);
    let next = words[parts::NEXT];
    let n = words[parts::UNACKED];
    let i = n as usize;
    halves[i] = next as u32;
    halves[parts::UNACKED_LENS + i] = body.len() as u32;
    bytes[i] = 1;
    bytes[parts::UNSENT + i] = 0;
    words[parts::NEXT] = next + 1;
    words[parts::UNACKED] = n + 1;
}

// ---- a report

fn search(halves: &Halves, count: usize, number: u64) -> Option<usize>
    requires { count ≤ 256 }
    ensures { Sought halves.now count number result }
{
    halves[..count].iter().position(|&x| u64::from(x) == number)
}

// Where a number is, if all from the first on are there.
fn guess(first: u64, number: u64, count: usize) -> usize
    requires { 0 < count }
    ensures { result < count }
{
    if number < first {
        return 0;
    }
    if count as u64 <= number - first {
        return 0;
    }
    (number - first) as usize
}

// The index of a number among the first count, if it is there.
fn seat(halves: &Halves, count: usize, number: u64) -> Option<usize>
    requires { count ≤ 256 }
    ensures { Sought halves.now count number result }
{
    if count == 0 {
        return None;
    }
    let i = guess(u64::from(halves[0]), number, count);
    if u64::from(halves[i]) == number {
        return Some(i);
    }
    search(halves, count, number)
}

// The Rust's `sent`: a send of the number was accepted.
pub fn mark_sent(words: &Words, halves: &Halves, bytes: &mut Bytes, number: u64)
    requires { sound_outbox_of (outbox_in words.now halves.now bytes.old) ≡ true }
    ensures { Marks number words.now halves.now bytes.old bytes.new }
{
    let count = words[parts::UNACKED] as usize;
    if let Some(i) = seat(halves, count, number) {
        bytes[parts::UNSENT + i] = 0;
    }
}

// ---- sends are listed

// The record at index i is sent, and unsent until a send is reported.
fn free_if(goes: bool, bytes: &mut Bytes, i: usize)
    requires { i < 256 }
    ensures { bytes.new ≡ freed goes i bytes.old }
{
    if goes {
        bytes[i] = 0;
        bytes[parts::UNSENT + i] = 1;
        return;
    }
}

// Whether a commit that captured the numbers up to upto releases a record.
fn releases(number: u32, pending: u8, upto: u64) -> bool
    ensures { result ≡ (flag pending && leb number upto) }
{
    pending != 0 && u64::from(number) <= upto
}

// The Rust's `complete_commit` on the messages: those pending up to upto are sent, and unsent until a send is reported.
pub fn release(
    words: &Words,
    halves: &Halves,
    bytes: &mut Bytes,
    upto: u64,
    list: &mut [u64],
    n: usize,
) -> usize
    requires { (sound_outbox_of (outbox_in words.now halves.now bytes.old) ≡ true) × (4 * (n + at words.now 1) ≤ length list.old) }
    ensures { Frees upto words.now halves.now bytes.old list.old n bytes.new list.new result }
{
    let count = words[parts::UNACKED] as usize;
    let mut k = n;
    let mut from = 0;
    for i in 0..count {
        let len = halves[parts::UNACKED_LENS + i];
        let goes = releases(halves[i], bytes[i], upto);
        k = outbox::send_if(goes, halves[i], len, list, k, from);
        free_if(goes, bytes, i);
        from += len as usize;
    }
    k
}

// The Rust's `connectivity` on the messages: those not pending are sent anew.
pub fn replay(words: &Words, halves: &Halves, bytes: &Bytes, list: &mut [u64], n: usize) -> usize
    requires { (sound_outbox_of (outbox_in words.now halves.now bytes.now) ≡ true) × (4 * (n + at words.now 1) ≤ length list.old) }
    ensures { Replays (outbox_in words.now halves.now bytes.now) list.old n list.new result }
{
    let count = words[parts::UNACKED] as usize;
    let mut k = n;
    let mut from = 0;
    for i in 0..count {
        let len = halves[parts::UNACKED_LENS + i];
        let goes = bytes[i] == 0;
        k = outbox::send_if(goes, halves[i], len, list, k, from);
        from += len as usize;
    }
    k
}

// ---- an ack

// Whether an acknowledgement of the numbers up to ack leaves a record.
fn keeps(number: u32, pending: u8, unsent: u8, ack: u64) -> bool
    ensures { result ≡ (ltb ack number || flag pending || flag unsent) }
{
    ack < u64::from(number) || pending != 0 || unsent != 0
}

// Records go and stay in any order: one pass, and the freed tail is cleared once.
fn sweep(words: &mut Words, halves: &mut Halves, bytes: &mut Bytes, store: &mut [u8], ack: u64)
    requires { ExactOutbox (outbox_in words.old halves.old bytes.old) (length store.old) }
    ensures { Drops ack words.old halves.old bytes.old store.old words.new halves.new bytes.new store.new }
{
    let count = words[parts::UNACKED] as usize;
    let mut k = 0;
    let mut to = 0;
    let mut from = 0;
    for i in 0..count {
        let number = halves[i];
        let len = halves[parts::UNACKED_LENS + i];
        let pending = bytes[i];
        let unsent = bytes[parts::UNSENT + i];
        let n = len as usize;
        let stays = keeps(number, pending, unsent, ack);
        let end = outbox::lower_if(stays, store, to, from, n);
        halves[k] = number;
        halves[parts::UNACKED_LENS + k] = len;
        bytes[k] = pending;
        bytes[parts::UNSENT + k] = unsent;
        k += usize::from(stays);
        to = end;
        from += n;
    }
    stores::clear(store, to, from);
    words[parts::UNACKED] = k as u64;
}

// ---- an ack that lets the oldest messages go

// 1 where an acknowledgement leaves a record, else 0: limit is the ack, as far as 32 bits hold it. No twin of keeps, which gets the whole ack: tried here, and
// an ack beside 256 messages took 244 ns in place of 179, since LLVM's vectors compare four numbers of 32 bits at once, but two of 64.
fn stay_of(number: u32, pending: u8, unsent: u8, limit: u32) -> u32
    ensures { (ack : ℕ) → limit ≡ low ack → result ≡ (if ltb ack number || flag pending || flag unsent then 1 else 0) }
{
    u32::from(limit < number || pending != 0 || unsent != 0)
}

// How many records from index start on an acknowledgement leaves.
fn staying(halves: &Halves, bytes: &Bytes, start: usize, count: usize, ack: u64) -> u32
    requires { (start ≤ count) × (count ≤ 256) }
    ensures { result ≡ total (stayer ack) (slice start count (seats 256 (unacked_at halves.now bytes.now))) }
{
    let limit = u32::try_from(ack).unwrap_or(u32::MAX);
    let mut sum: u32 = 0;
    for i in start..count {
        sum += stay_of(halves[i], bytes[i], bytes[parts::UNSENT + i], limit);
    }
    sum
}

// The n records from index k on move down to index 0. No twin of `link_moves::lower`: it is one call of it for each of a record's four sections.
fn lower_records(halves: &mut Halves, bytes: &mut Bytes, k: usize, n: usize)
    requires { k + n ≤ 256 }
    ensures { Shifted k n halves.old halves.new × Shifted k n bytes.old bytes.new }
{
    link_moves::lower(halves, 0, k, n);
    link_moves::lower(halves, parts::UNACKED_LENS, parts::UNACKED_LENS + k, n);
    link_moves::lower(bytes, 0, k, n);
    link_moves::lower(bytes, parts::UNSENT, parts::UNSENT + k, n);
}

// The first k messages go: what is left moves down at once.
fn shed(words: &mut Words, halves: &mut Halves, bytes: &mut Bytes, store: &mut [u8], k: usize)
    requires { (k ≤ at words.old 1) × ExactOutbox (outbox_in words.old halves.old bytes.old) (length store.old) }
    ensures { (ack : ℕ) → Front ack k words.old halves.old bytes.old → Drops ack words.old halves.old bytes.old store.old words.new halves.new bytes.new store.new }
{
    let count = words[parts::UNACKED] as usize;
    let from = used(halves, k);
    let end = used(halves, count);
    let to = end - from;
    let left = count - k;
    stores::move_run(store, 0, from, to);
    stores::clear(store, to, end);
    lower_records(halves, bytes, k, left);
    words[parts::UNACKED] = left as u64;
}

// The Rust's `acknowledge`: messages up to ack go, except those pending or unsent. Mostly these are the oldest: as many stay as stay of the last ones.
pub fn acknowledge(
    words: &mut Words,
    halves: &mut Halves,
    bytes: &mut Bytes,
    store: &mut [u8],
    ack: u64,
)
    requires { ExactOutbox (outbox_in words.old halves.old bytes.old) (length store.old) }
    ensures { Drops ack words.old halves.old bytes.old store.old words.new halves.new bytes.new store.new }
{
    let count = words[parts::UNACKED] as usize;
    let stay = staying(halves, bytes, 0, count, ack);
    let gone = count - stay as usize;
    if gone == 0 {
        return;
    }
    if staying(halves, bytes, gone, count, ack) == stay {
        shed(words, halves, bytes, store, gone);
        return;
    }
    sweep(words, halves, bytes, store, ack);
}

// ---- a fetch

// Where the body of a number lies, if it is held.
pub fn locate(words: &Words, halves: &Halves, number: u64) -> Option<Place>
    requires { Bounded halves.now (at words.now 1) }
    ensures { (b : List ℕ) → result ≡ place_u number 0 (used_u (outbox_in words.now halves.now b)) }
{
    let count = words[parts::UNACKED] as usize;
    let mut start = 0;
    for i in 0..count {
        let len = halves[parts::UNACKED_LENS + i] as usize;
        if u64::from(halves[i]) == number {
            return Some(Place { start, len });
        }
        start += len;
    }
    None
}
