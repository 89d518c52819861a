// The Rust's `consumer_ready` (session.rs): what takes messages changed, and is ready.
#![tactic(auto)]

ghost use Rattle.std.specs.Prelude.{ℕ, ◌≡◌, ◌≤◌};
ghost use Rattle.rules.specs.Receiving.{mode_of};
ghost use Rattle.rules.specs.Calls.{is_ready};
ghost use Rattle.session.specs.Promise.{lent, Called};
ghost use Rattle.draining.specs.Arrived.{Arrived};

use delivery::Step;
use peer_session::SessionState;
use rules::{Answer, HostStatus, ReceiveMode};
use session::Returned;

// The queue of a sound session begins above remote: nothing in it is obsolete. A refusal that ends the drain is not returned.
fn ready(
    s: SessionState,
    list: &mut [u64],
    delivery: &mut [u8],
    outbound: &mut [u8],
    queue: &mut [u8],
    status: HostStatus,
    mode: ReceiveMode,
) -> Returned
    requires { Arrived s list.old delivery.old outbound.old queue.old }
    ensures { (n : ℕ) → n ≤ 4 → mode ≡ mode_of n → Called (is_ready status n) s (lent list.old delivery.old outbound.old queue.old) result (lent list.new delivery.new outbound.new queue.new) }
{
    let mut r = s;
    r.stage.mode = mode;
    let step = Step {
        turn: draining::turn_of(r),
        events: 0,
        at: 0,
    };
    let e = draining::carry(
        r, step, s.waiting, 0, status, list, delivery, outbound, queue,
    );
    Returned {
        session: e.session,
        answer: Answer::Done,
        events: e.events,
    }
}

// The Rust's `consumer_ready`: what takes messages changed, and is ready.
pub fn consumer_ready(
    s: SessionState,
    list: &mut [u64],
    delivery: &mut [u8],
    outbound: &mut [u8],
    queue: &mut [u8],
    status: HostStatus,
    mode: u64,
) -> Returned
    ensures { Called (is_ready status mode) s (lent list.old delivery.old outbound.old queue.old) result (lent list.new delivery.new outbound.new queue.new) }
{
    let read = ReceiveMode::try_from(mode);
    let entered = session::enters(
        s,
        list.len(),
        delivery.len(),
        outbound.len(),
        queue.len(),
        read.is_err(),
        true,
    );
    match entered.and(read) {
        Ok(read) => ready(s, list, delivery, outbound, queue, status, read),
        Err(x) => session::refused(s, x),
    }
}
