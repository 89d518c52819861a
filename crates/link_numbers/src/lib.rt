// Sets of numbers in the words of a session, in place: 512 words from index `from` on, rising, with their count at index `at` before them.
#![tactic(auto)]

ghost use Rattle.std.specs.Prelude.{◌≡◌, true, ◌++◌, ◌∷◌, map, ◌+◌, ◌*◌, ◌≤◌, ◌<◌, length, take, drop};
ghost use Rattle.std.proofs.Math.Seq.{slice};
ghost use Rattle.rules.specs.Lists.{itself, has, put, all, rising, kept};
ghost use Rattle.rules.specs.Acks.{differs_from};
ghost use Rattle.rules.specs.Events.{send_ack};
ghost use Rattle.rules.specs.Sound.{at_most, ascending};
ghost use Rattle.events.specs.Written.{Listed};
ghost use Rattle.numbers.specs.Seats.{in_use, seat_of};
ghost use Rattle.parts.specs.Parts.{section, numbers_in};
ghost use Rattle.link_numbers.specs.Sets.{Set, Lies, firsts, Rising, Becomes, Releases};

use parts::Words;

// ---- asked

// Whether the numbers from index first on are above last and strictly rising.
pub fn rises(words: &Words, from: usize, count: usize, first: usize, last: u64) -> bool
    requires { Lies from count words.now × (first ≤ count) }
    ensures { result ≡ rising itself last (slice first count (section from 512 words.now)) }
{
    numbers::run_rises(&words[from + first..from + count], last)
}

// Whether no number of a set that rises is above limit: the last one decides.
pub fn at_most(words: &Words, from: usize, count: usize, limit: u64) -> bool
    requires { Lies from count words.now × (ascending (firsts from count words.now) ≡ true) }
    ensures { result ≡ all (at_most limit) (firsts from count words.now) }
{
    count == 0 || words[from + (count - 1)] <= limit
}

// Whether the numbers are strictly rising, from any first one on.
pub fn ascends(words: &Words, from: usize, count: usize) -> bool
    requires { Lies from count words.now }
    ensures { result ≡ ascending (firsts from count words.now) }
{
    numbers::run_ascends(&words[from..from + count])
}

// Whether a number is in use. Stays beside `numbers::has`: one library call in each.
pub fn has(words: &Words, from: usize, count: usize, n: u64) -> bool
    requires { Lies from count words.now }
    ensures { result ≡ has n (firsts from count words.now) }
{
    words[from..from + count].contains(&n)
}

// ---- put

// The index of the first number that is not below n, looked for from the end: numbers mostly come in their order.
fn seat(words: &Words, from: usize, count: usize, n: u64) -> usize
    requires { Lies from count words.now × (ascending (firsts from count words.now) ≡ true) }
    ensures { result ≡ seat_of n (firsts from count words.now) }
{
    match words[from..from + count].iter().rposition(|&x| x < n) {
        Some(j) => j + 1,
        None => 0,
    }
}

// With the number n at index i, and those from there on one index higher.
fn put_at(words: &mut Words, from: usize, at: usize, i: usize, n: u64)
    requires { Set from at words.old × (i ≤ (numbers_in from at words.old).count) × ((numbers_in from at words.old).count < 512) }
    ensures { Becomes (take i (in_use (numbers_in from at words.old)) ++ (n ∷ drop i (in_use (numbers_in from at words.old)))) from at words.old words.new }
{
    let count = words[at] as usize;
    numbers::put_in_run(&mut words[from..from + count + 1], i, n);
    words[at] = count as u64 + 1;
}

// With the number n, at its place; a number that is there stays.
pub fn put(words: &mut Words, from: usize, at: usize, n: u64)
    requires { Rising from at words.old × (length (put itself n (in_use (numbers_in from at words.old))) ≤ 512) }
    ensures { Becomes (put itself n (in_use (numbers_in from at words.old))) from at words.old words.new }
{
    let count = words[at] as usize;
    let i = seat(words, from, count, n);
    if i < count && words[from + i] == n {
        return;
    }
    put_at(words, from, at, i, n);
}

// ---- dropped, and listed

// Without the number n.
pub fn take_out(words: &mut Words, from: usize, at: usize, n: u64)
    requires { Set from at words.old }
    ensures { Becomes (kept (differs_from n) (in_use (numbers_in from at words.old))) from at words.old words.new }
{
    let count = words[at] as usize;
    let left = numbers::drop_from_run(&mut words[from..from + count], n);
    words[at] = left as u64;
}

// The numbers up to upto are listed by code 9, from event number n on; the later ones stay.
pub fn release(
    words: &mut Words,
    from: usize,
    at: usize,
    upto: u64,
    list: &mut [u64],
    n: usize,
) -> usize
    requires { Set from at words.old × (4 * (n + (numbers_in from at words.old).count) ≤ length list.old) }
    ensures { Releases upto from at words.old list.old n words.new list.new result }
{
    let count = words[at] as usize;
    let left = numbers::release_run(&mut words[from..from + count], upto, list, n);
    words[at] = left.count as u64;
    left.events
}

// Lists each number by code 9, from event number n on.
pub fn list_all(words: &Words, from: usize, at: usize, list: &mut [u64], n: usize) -> usize
    requires { Set from at words.now × (4 * (n + (numbers_in from at words.now).count) ≤ length list.old) }
    ensures listed { Listed (map send_ack (in_use (numbers_in from at words.now))) list.old n list.new result }
    ensures count { result ≡ n + (numbers_in from at words.now).count }
{
    let count = words[at] as usize;
    numbers::list_run(&words[from..from + count], list, n)
}
