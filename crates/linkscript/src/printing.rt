// What is printed of a call.
use lines::Output;
use rules::Answer;

// A refusal is printed without its count of events.
fn print_answer(out: &mut Output, a: Answer, events: usize) {
    match a {
        Answer::Refused(x) => {
            out.print_bytes(b" !");
            scripts::print_field(out, u64::from(x));
        }
        Answer::Prepared(c) => scripts::print_commit(out, c),
        _ => scripts::print_count(out, answers::message_number(a), events),
    }
}

pub fn print_call(out: &mut Output, letter: u8, a: Answer, list: &[u64; 4096], events: usize) {
    out.print_byte(letter);
    print_answer(out, a, events);
    out.print_byte(b'\n');
    scripts::print_events(out, list, events, |_, _| ());
}
