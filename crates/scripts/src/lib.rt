// What the scripts have in common: the loop over the lines of the input, and what they print: fields, lines that are no call, answers, and events.
#![tactic(auto)]

ghost use Rattle.std.specs.Prelude.{◌+◌, ◌≤◌};

pub use fields::Fields;
use lines::{Input, Output};
use rules::PreparedCommit;
use std::io::{Stdin, Stdout};

mod fields; // the fields of a line

// Answers each line of standard input, which is read into line. Where answer says None it has printed nothing, and the line is wrong, as is one that
// is longer than its buffer, whatever it says.
pub fn run<F: FnMut(&[u8], &mut Output) -> Option<()>>(
    stdin: Stdin,
    stdout: Stdout,
    line: &mut [u8],
    mut answer: F,
)
    requires { F.IsAlwaysCallable answer }
{
    let mut input = Input::new(stdin);
    let mut out = Output::new(stdout);
    for number in 1..=u64::MAX {
        let Some(next) = input.next_line(line) else {
            break;
        };
        let answered = match next {
            Ok(text) => answer(text, &mut out),
            Err(_) => None,
        };
        if answered.is_none() {
            print_wrong(&mut out, number);
        }
    }
    out.finish();
}

// A space and a number.
pub fn print_field(out: &mut Output, v: u64) {
    out.print_byte(b' ');
    out.print_decimal(v);
}

// A line that is wrong has its number from 1.
pub fn print_wrong(out: &mut Output, number: u64) {
    out.print_byte(b'?');
    print_field(out, number);
    out.print_byte(b'\n');
}

pub fn print_count(out: &mut Output, number: u64, events: usize) {
    print_field(out, number);
    print_field(out, events as u64);
}

pub fn print_commit(out: &mut Output, c: PreparedCommit) {
    print_field(out, u64::from(c.generation));
    print_field(out, c.outbound);
    print_field(out, c.remote);
}

// The words of the event that starts at index at.
pub fn print_words(out: &mut Output, list: &[u64; 4096], at: usize)
    requires { at + 4 ≤ 4096 }
{
    out.print_decimal(list[at]);
    print_field(out, list[at + 1]);
    print_field(out, list[at + 2]);
    print_field(out, list[at + 3]);
}

// Each event on a line of its own, with what print_more prints of it after its words. No call lists more than 1,024 events, which is what the list
// holds.
pub fn print_events<F: FnMut(&mut Output, &[u64])>(
    out: &mut Output,
    list: &[u64; 4096],
    events: usize,
    mut print_more: F,
)
    requires { F.IsAlwaysCallable print_more }
{
    if 1024 < events {
        return;
    }
    for i in 0..events {
        let at = i * 4;
        print_words(out, list, at);
        print_more(out, &list[at..at + 4]);
        out.print_byte(b'\n');
    }
}
