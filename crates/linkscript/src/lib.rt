// Reads calls from the lines of standard input, makes them on one session, and prints each: the answer, and the events.
#![tactic(auto)]

use calling::Script;
use lines::Output;
use std::io::{Stdin, Stdout};

mod calling; // the session and its calls
mod printing; // what is printed of a call
mod reading; // the call of a line

fn answer(script: &mut Script, s: &[u8], out: &mut Output) -> Option<()> {
    let call = reading::read_line(s, &mut script.body)?;
    let (a, events) = script.call(call);
    printing::print_call(out, call.letter(), a, &script.list, events);
    Some(())
}

// Answers all of standard input, for a fresh session that starts at message_number.
pub fn run(stdin: Stdin, stdout: Stdout, message_number: u64) {
    let mut script = Script::new(message_number);
    let mut line = [0u8; 131076];
    scripts::run(
        stdin,
        stdout,
        &mut line,
        |s, out| answer(&mut script, s, out),
    );
}
