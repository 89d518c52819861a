// Sets of numbers: rising arrays, with a count. The acks that wait for a commit, and those to be sent again.
#![tactic(auto)]

ghost use Rattle.std.specs.Prelude.{◌≡◌, ◌++◌, ◌∷◌, [], map, ◌+◌, ◌*◌, ◌≤◌, ◌<◌, length, take, drop};
ghost use Rattle.std.proofs.Math.Seq.{slice};
ghost use Rattle.rules.specs.Lists.{itself, has, put, all, rising, kept};
ghost use Rattle.rules.specs.Acks.{differs_from};
ghost use Rattle.rules.specs.Commits.{releases_ack};
ghost use Rattle.rules.specs.Events.{send_ack};
ghost use Rattle.rules.specs.Sound.{at_most, ascending};
ghost use Rattle.events.specs.Written.{Listed};
ghost use Rattle.numbers.specs.Seats.{in_use, seat_of, but_last, Holds, Leads, ReleasesRun, ReleasesAcks};

use rules::EventCode;

// Kept an array with a count: a session that was tampered with, even a count above 512, has to be a value of this type, to be refused by 3; and no heap.
#[repr(C)]
#[derive(Clone, Copy)]
pub struct Numbers {
    pub values: [u64; 512],
    pub count: usize,
}

// The numbers that stay, with the count of events listed so far. Kept beside outbox's, whose other field has another type: one with a type parameter would
// name neither the messages nor the numbers.
#[derive(Clone, Copy)]
pub struct Released {
    pub numbers: Numbers,
    pub events: usize,
}

// How many numbers of a run stay, with the count of events listed so far.
#[derive(Clone, Copy)]
pub struct ReleasedRun {
    pub count: usize,
    pub events: usize,
}

// ---- a run of numbers, in a set or in the words of a session

// Whether the numbers of a run are above last and strictly rising.
pub fn run_rises(run: &[u64], last: u64) -> bool
    ensures { result ≡ rising itself last run.now }
{
    let mut top = last;
    for &x in run {
        if x <= top {
            return false;
        }
        top = x;
    }
    true
}

// Whether the numbers of a run are strictly rising, from any first one on.
pub fn run_ascends(run: &[u64]) -> bool
    ensures { result ≡ ascending run.now }
{
    match run {
        [] => true,
        [first, rest @ ..] => run_rises(rest, *first),
    }
}

// Puts n at index at of a run whose last place is free: the numbers from there on move up by one.
pub fn put_in_run(run: &mut [u64], at: usize, n: u64)
    requires { at < length run.old }
    ensures { run.new ≡ take at (but_last run.old) ++ (n ∷ drop at (but_last run.old)) }
{
    let behind = run.len() - 1 - at;
    stores::move_run(run, at + 1, at, behind);
    run[at] = n;
}

// Moves the numbers of a run that are not n to its front, and counts them.
pub fn drop_from_run(run: &mut [u64], n: u64) -> usize
    ensures { Leads (kept (differs_from n) run.old) result run.new }
{
    let mut k = 0;
    for i in 0..run.len() {
        let x = run[i];
        run[k] = x;
        k += usize::from(x != n);
    }
    k
}

// Lists a number that a commit up to upto releases.
fn list_one(upto: u64, x: u64, list: &mut [u64], n: usize) -> usize
    requires { 4 * n + 4 ≤ length list.old }
    ensures { Listed (map send_ack (kept (releases_ack upto) (x ∷ []))) list.old n list.new result }
{
    events::emit_if(x <= upto, list, n, EventCode::SendAck as u64, x, 0, 0)
}

// The numbers of a run up to upto are listed by code 9, from event number n on; the later ones move to its front.
pub fn release_run(run: &mut [u64], upto: u64, list: &mut [u64], n: usize) -> ReleasedRun
    requires { 4 * (n + length run.old) ≤ length list.old }
    ensures { ReleasesRun upto run.old list.old n run.new result list.new }
{
    let mut events = n;
    let mut count = 0;
    for i in 0..run.len() {
        let x = run[i];
        run[count] = x;
        count += usize::from(upto < x);
        events = list_one(upto, x, list, events);
    }
    ReleasedRun { count, events }
}

// Lists each number of a run by code 9, from event number n on.
pub fn list_run(run: &[u64], list: &mut [u64], n: usize) -> usize
    requires { 4 * (n + length run.now) ≤ length list.old }
    ensures listed { Listed (map send_ack run.now) list.old n list.new result }
    ensures count { result ≡ n + length run.now }
{
    for (i, &x) in run.iter().enumerate() {
        events::emit(list, n + i, EventCode::SendAck as u64, x, 0, 0);
    }
    n + run.len()
}

// ---- asked

// Whether a number is in use. Stays beside `link_numbers::has`: one library call in each.
pub fn has(v: Numbers, n: u64) -> bool
    requires { v.count ≤ 512 }
    ensures { result ≡ has n (in_use v) }
{
    v.values[..v.count].contains(&n)
}

// Whether the numbers from index from on are above last and strictly rising.
pub fn rises(v: Numbers, from: usize, last: u64) -> bool
    requires { (from ≤ v.count) × (v.count ≤ 512) }
    ensures { result ≡ rising itself last (slice from v.count v.values) }
{
    run_rises(&v.values[from..v.count], last)
}

// Whether no number is above limit.
pub fn at_most(v: Numbers, limit: u64) -> bool
    requires { v.count ≤ 512 }
    ensures { result ≡ all (at_most limit) (in_use v) }
{
    v.values[..v.count].iter().all(|&x| x <= limit)
}

// Whether the numbers are strictly rising, from any first one on.
pub fn ascends(v: Numbers) -> bool
    requires { v.count ≤ 512 }
    ensures { result ≡ ascending (in_use v) }
{
    run_ascends(&v.values[..v.count])
}

// ---- put

// The index of the first number in use that is not below n. No `partition_point`: it promises of an ordered list alone, and this one asks for no order.
fn seat(v: Numbers, n: u64) -> usize
    requires { v.count ≤ 512 }
    ensures { result ≡ seat_of n (in_use v) }
{
    v.values[..v.count].iter().take_while(|&&x| x < n).count()
}

// With the number n at index at, and those from there on one index higher.
fn put_at(v: Numbers, n: u64, at: usize) -> Numbers
    requires { (at ≤ v.count) × (v.count < 512) }
    ensures { Holds (take at (in_use v) ++ (n ∷ drop at (in_use v))) result }
{
    let mut values = v.values;
    let count = v.count + 1;
    put_in_run(&mut values[..count], at, n);
    Numbers { values, count }
}

// With the number n, at its place; a number that is there stays.
pub fn put(v: Numbers, n: u64) -> Numbers
    requires { (v.count ≤ 512) × (length (put itself n (in_use v)) ≤ 512) }
    ensures { Holds (put itself n (in_use v)) result }
{
    let i = seat(v, n);
    if i < v.count && v.values[i] == n {
        return v;
    }
    put_at(v, n, i)
}

// ---- dropped, and listed

// Without the number n.
pub fn take_out(v: Numbers, n: u64) -> Numbers
    requires { v.count ≤ 512 }
    ensures { Holds (kept (differs_from n) (in_use v)) result }
{
    let mut values = v.values;
    let count = drop_from_run(&mut values[..v.count], n);
    Numbers { values, count }
}

// The numbers up to upto are listed by code 9, from event number n on; the later ones stay.
pub fn release(v: Numbers, upto: u64, list: &mut [u64], n: usize) -> Released
    requires { (v.count ≤ 512) × (4 * (n + v.count) ≤ length list.old) }
    ensures { ReleasesAcks upto v list.old n result list.new }
{
    let mut values = v.values;
    let left = release_run(&mut values[..v.count], upto, list, n);
    let numbers = Numbers {
        values,
        count: left.count,
    };
    Released {
        numbers,
        events: left.events,
    }
}

// Lists each number by code 9, from event number n on.
pub fn list_all(v: Numbers, list: &mut [u64], n: usize) -> usize
    requires { (v.count ≤ 512) × (4 * (n + v.count) ≤ length list.old) }
    ensures listed { Listed (map send_ack (in_use v)) list.old n list.new result }
    ensures count { result ≡ n + v.count }
{
    list_run(&v.values[..v.count], list, n)
}
