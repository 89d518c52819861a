// Replays: the Rust's `connectivity` (session.rs, peer_session.rs).
#![tactic(auto)]

ghost use Rattle.std.specs.Prelude.{◌≡◌, true, not, ◌&&◌, ◌≤◌, leb, length};
ghost use Rattle.rules.specs.Calls.{connects};
ghost use Rattle.rules.specs.Clock.{held_back};
ghost use Rattle.rules.specs.Codes.{connectivity_number};
ghost use Rattle.peer_session.specs.Sound.{sound_of, Full};
ghost use Rattle.session.specs.Promise.{CalledWithList};
ghost use Rattle.replays.specs.Connects.{Replayed};

use peer_session::SessionState;
use rules::{Answer, Connectivity, Refusal};
use session::{ANY, Returned};

// Whether an event sends anew what is unacked; the others do nothing.
pub fn resends(event: Connectivity) -> bool
    ensures { result ≡ leb 4 (connectivity_number event) }
{
    matches!(
        event,
        Connectivity::Registered | Connectivity::PeerAvailable
    )
}

// Whether the clock holds a replay back that is not forced.
pub fn too_soon(time: f64, last: f64, force: bool) -> bool
    ensures { result ≡ (not force && held_back time last) }
{
    !force && clock::held_back(time, last)
}

// What is unacked and not pending is sent anew, unless that was done a moment ago and is not forced.
fn replayed(s: SessionState, list: &mut [u64], time: f64, force: bool) -> Returned
    requires { (4096 ≤ length list.old) × (sound_of s ≡ true) × Full s }
    ensures { Replayed time force s list.old result list.new }
{
    if s.outbox.count == 0 {
        return Returned {
            session: s,
            answer: Answer::Flag(true),
            events: 0,
        };
    }
    if too_soon(time, s.clock.last_replay_at, force) {
        return Returned {
            session: s,
            answer: Answer::Flag(false),
            events: 0,
        };
    }
    let o = s.outbox;
    let n = outbox::replay(o, list, 0);
    let mut r = s;
    r.clock.last_replay_at = time;
    Returned {
        session: r,
        answer: Answer::Flag(true),
        events: n,
    }
}

// The answer is false where the clock holds a replay back.
pub fn connectivity(
    s: SessionState,
    list: &mut [u64],
    event: u64,
    time: f64,
    force: bool,
) -> Returned
    ensures { CalledWithList (connects event time force) s list.old result list.new }
{
    let wrong = Connectivity::try_from(event).is_err();
    if let Err(x) = session::enters(s, list.len(), ANY, ANY, ANY, wrong, false) {
        return session::refused(s, x);
    }
    // By ranges of the number, the form that document 01 names; the entry's test stops the rest already, and keeps the order of the refusals.
    match event {
        1..=3 => Returned {
            session: s,
            answer: Answer::Flag(true),
            events: 0,
        },
        4..=5 => replayed(s, list, time, force),
        _ => session::refused(s, Refusal::UnknownCode),
    }
}
