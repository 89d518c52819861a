// Sending: the Rust's `send_message` (session.rs).
#![tactic(auto)]

ghost use Rattle.rules.specs.Calls.{sends};
ghost use Rattle.session.specs.Promise.{CalledWithOutbound};

use peer_session::SessionState;
use rules::Answer;
use session::{ANY, Returned};

// The body gets the next message number, which is the answer, and waits for a commit.
pub fn send_message(s: SessionState, list: &mut [u64], outbound: &mut [u8], body: &[u8]) -> Returned
    ensures { CalledWithOutbound (sends body.now) s list.old outbound.old result list.new outbound.new }
{
    if let Err(x) = session::enters(s, list.len(), ANY, outbound.len(), ANY, false, true) {
        return session::refused(s, x);
    }
    match setup::join(s, outbound, s.stage.disposition, body) {
        Ok(r) => {
            let n = events::request(r.clock, list, 0);
            Returned {
                session: r,
                answer: Answer::Number(s.outbox.next),
                events: n,
            }
        }
        Err(x) => session::refused(s, x),
    }
}
