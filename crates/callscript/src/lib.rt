// Reads calls from the lines of standard input, makes them on one session, and prints what each answers: its answer, its events and the bodies that
// they point to, and where a line asks for it, the state of the session.
#![tactic(auto)]

use call_making::Stores;
use call_reading::{Buffers, Call, Line, Opening};
use lines::Output;
use peer_session::SessionState;
use rules::Answer;
use scripts::Fields;
use std::io::{Stdin, Stdout};

// The session, once one has started, what lines are read into, and what calls are lent.
#[derive(Drop)]
struct Script<'a> {
    session: Option<SessionState>,
    buffers: Buffers<'a>,
    stores: Stores<'a>,
}

impl Script<'_> {
    // Prints a call of this word, which answered a and listed events.
    fn print_call(&self, out: &mut Output, word: &[u8], a: Answer, events: usize) {
        let stores = &self.stores;
        call_printing::print_call(
            out,
            word,
            a,
            events,
            stores.list,
            stores.delivery,
            stores.outbound,
        );
    }

    // A refused start leaves the session that was there.
    fn start(&mut self, o: Opening, out: &mut Output) {
        let r = call_making::start(o, self.buffers.lent(), &mut self.stores);
        if !matches!(r.answer, Answer::Refused(_)) {
            self.session = Some(r.session);
        }
        self.print_call(out, b"start", r.answer, 0);
    }

    fn call(&mut self, c: Call, s: SessionState, word: &[u8], out: &mut Output) {
        let r = call_making::call(c, s, self.buffers.lent(), &mut self.stores);
        self.session = Some(r.session);
        self.print_call(out, word, r.answer, r.events);
    }

    fn fetch(&self, number: u64, s: SessionState, out: &mut Output) {
        let outbound = &*self.stores.outbound;
        let a = fetches::find(s, outbound, number);
        let body = fetches::held(s, outbound, number).unwrap_or(b"");
        call_printing::print_fetch(out, a, body);
    }

    fn print_state(&self, s: SessionState, out: &mut Output) {
        let stores = &self.stores;
        call_printing::dumping::print_state(out, s, stores.outbound, stores.queue);
    }

    fn set_generation(&mut self, generation: u32, s: SessionState) {
        let mut next = s;
        next.clock.generation = generation;
        self.session = Some(next);
    }

    // Before a start nothing else is a call.
    fn answer(&mut self, s: &[u8], out: &mut Output) -> Option<()> {
        let line = call_reading::read_line(s, &mut self.buffers)?;
        let session = self.session;
        match line {
            Line::Start(o) => self.start(o, out),
            Line::Call(c) => self.call(c, session?, Fields::split(s).0, out),
            Line::Fetch(number) => self.fetch(number, session?, out),
            Line::State => self.print_state(session?, out),
            Line::Generation(n) => self.set_generation(n, session?),
        }
        Some(())
    }
}

// Answers all of standard input.
pub fn run(stdin: Stdin, stdout: Stdout) {
    let mut numbers = [0; 257];
    let mut lengths = [0; 257];
    let mut body = [0; 150000];
    let mut list = [0; 4096];
    let mut delivery = [0; 49152];
    let mut outbound = [0; 65536];
    let mut queue = [0; 32768];
    let mut line = [0u8; 300000];
    let mut script = Script {
        session: None,
        buffers: Buffers {
            numbers: &mut numbers,
            lengths: &mut lengths,
            body: &mut body,
        },
        stores: Stores {
            list: &mut list,
            delivery: &mut delivery,
            outbound: &mut outbound,
            queue: &mut queue,
        },
    };
    scripts::run(
        stdin,
        stdout,
        &mut line,
        move |s, out| script.answer(s, out),
    );
}
