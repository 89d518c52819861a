// Replays on the parts of a session, in place: the driver's call on the session that they are.
#![tactic(auto)]

ghost use Rattle.std.specs.Prelude.{length};
ghost use Rattle.rules.specs.Calls.{connects};
ghost use Rattle.rules.specs.Codes.{connectivity_number};
ghost use Rattle.session.specs.Promise.{CalledWithList};
ghost use Rattle.parts.specs.Parts.{parts};
ghost use Rattle.parts.specs.Driven.{Driven};
ghost use Rattle.link_replays.specs.Connects.{Ready};

use parts::{Bytes, Halves, LinkAnswer, Words};
use rules::Connectivity;
use session::ANY;

// An event past its tests: one that resends sends anew what is unacked and not pending, unless that was done a moment ago and is not forced.
fn goes(
    words: &Words,
    halves: &Halves,
    bytes: &Bytes,
    clock: &mut f64,
    list: &mut [u64],
    event: Connectivity,
    time: f64,
    force: bool,
) -> LinkAnswer
    requires { Ready (parts words.now halves.now bytes.now clock.old) (length list.old) }
    ensures { Driven (parts words.now halves.now bytes.now clock.old) (parts words.now halves.now bytes.now clock.new) result (λ s y. CalledWithList (connects (connectivity_number event) time force) s list.old y list.new) }
{
    if !replays::resends(event) {
        return link_codes::flag(true, 0);
    }
    if words[parts::UNACKED] == 0 {
        return link_codes::flag(true, 0);
    }
    if replays::too_soon(time, *clock, force) {
        return link_codes::flag(false, 0);
    }
    let n = link_outbox::replay(words, halves, bytes, list, 0);
    *clock = time;
    link_codes::flag(true, n)
}

// The answer is false where the clock holds a replay back.
pub fn connectivity(
    words: &Words,
    halves: &Halves,
    bytes: &Bytes,
    clock: &mut f64,
    list: &mut [u64],
    event: u64,
    time: f64,
    force: bool,
) -> LinkAnswer
    ensures { Driven (parts words.now halves.now bytes.now clock.old) (parts words.now halves.now bytes.now clock.new) result (λ s y. CalledWithList (connects event time force) s list.old y list.new) }
{
    let read = Connectivity::try_from(event);
    let len = list.len();
    let wrong = read.is_err();
    let entered = link_entry::enters(words, halves, bytes, len, ANY, ANY, ANY, wrong, false);
    match entered.and(read) {
        Err(x) => link_codes::refusal(x),
        Ok(event) => goes(words, halves, bytes, clock, list, event, time, force),
    }
}
