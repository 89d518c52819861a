// The session of a script, and its calls.
use crate::reading::Call;
use peer_session::SessionState;
use rules::{Answer, Disposition, FrameKind, PreparedCommit, Refusal};
use session::Returned;
use starts::{Record, Reliable};

// A session, the record that the next completion takes, and what its calls are lent: a body, and the stores.
#[derive(Drop)]
pub struct Script {
    session: SessionState,
    commit: PreparedCommit,
    pub body: [u8; 65537],
    pub list: [u64; 4096],
    outbound: [u8; 65536],
    queue: [u8; 32768],
}

// A class 2 session with nothing unacked.
fn start(message_number: u64, outbound: &mut [u8; 65536], queue: &mut [u8; 32768]) -> Returned {
    let fresh = Reliable {
        message_number,
        remote_number: 0,
        disposition: Disposition::Other as u64,
    };
    let Some(policy) = starts::link_class(2) else {
        return session::refused(SessionState::none(), Refusal::UnknownCode);
    };
    let record = Record {
        reliable: fresh,
        numbers: &[],
        lengths: &[],
        bodies: b"",
    };
    starts::start(record, policy, b"r", outbound, queue)
}

impl Script {
    // A fresh session that starts at message_number.
    pub fn new(message_number: u64) -> Self {
        let mut script = Script {
            session: SessionState::none(),
            commit: PreparedCommit {
                generation: 0,
                outbound: 0,
                remote: 0,
            },
            body: [0; 65537],
            list: [0; 4096],
            outbound: [0; 65536],
            queue: [0; 32768],
        };
        let r = start(message_number, &mut script.outbound, &mut script.queue);
        script.session = r.session;
        script
    }

    // Makes a call, and returns its answer and how many events it lists.
    pub fn call(&mut self, c: Call) -> (Answer, usize) {
        let s = self.session;
        let list = &mut self.list;
        let r = match c {
            Call::Send(n) => {
                sending::send_message(s, list, &mut self.outbound, text::front(&self.body, n))
            }
            Call::Prepare => session::unchanged(s, commits::prepare_commit(s), 0),
            Call::Complete(persisted) => commits::complete_commit(s, list, self.commit, persisted),
            Call::Ack(n) => acks::receive_ack(s, list, &mut self.outbound, &mut self.queue, n),
            Call::Report(n, accepted) => acks::report(s, list, FrameKind::Data as u64, n, accepted),
        };
        self.session = r.session;
        if let Answer::Prepared(commit) = r.answer {
            self.commit = commit;
        }
        (r.answer, r.events)
    }
}
