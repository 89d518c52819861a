// The event list that a caller lends: four words for each event, written from the front, the rest kept.
#![tactic(auto)]

ghost use Rattle.std.specs.Prelude.{◌≡◌, ◌∷◌, [], ◌+◌, ◌*◌, ◌≤◌, length};
ghost use Rattle.stores.specs.Placed.{placed};
ghost use Rattle.events.specs.Emitted.{EmittedIf};
ghost use Rattle.events.specs.Written.{asked, Listed};

use rules::{Clock, EventCode};

// Writes event number n. A list and its count stay two parameters: a struct with the list's `&mut` needs a clause in each function that it is the same
// reference still and as long as it was, which a slice needs not (tried with this function and its callers). The code is a number, as the list's words are:
// an `EventCode` would take fewer than this promises to write.
pub fn emit(list: &mut [u64], n: usize, code: u64, number: u64, start: u64, len: u64)
    requires { 4 * n + 4 ≤ length list.old }
    ensures { list.new ≡ placed list.old (4 * n) (code ∷ number ∷ start ∷ len ∷ []) }
{
    let i = 4 * n;
    list[i] = code;
    list[i + 1] = number;
    list[i + 2] = start;
    list[i + 3] = len;
}

// Writes event number n where it is to go. Returns the next event's number.
pub fn emit_if(
    goes: bool,
    list: &mut [u64],
    n: usize,
    code: u64,
    number: u64,
    start: u64,
    len: u64,
) -> usize
    requires { 4 * n + 4 ≤ length list.old }
    ensures { EmittedIf goes code number start len list.old n list.new result }
{
    if goes {
        emit(list, n, code, number, start, len);
        return n + 1;
    }
    n
}

// The Rust's `request_commit`: code 1 while the generation exceeds the persisted one.
pub fn request(c: Clock, list: &mut [u64], n: usize) -> usize
    requires { 4 * n + 4 ≤ length list.old }
    ensures { Listed (asked c) list.old n list.new result }
{
    emit_if(
        c.persisted < c.generation,
        list,
        n,
        EventCode::CommitRequested as u64,
        0,
        0,
        0,
    )
}
