// The body of a held message, as a part of the outbound store and not a copy.
#![tactic(auto)]

ghost use Rattle.std.specs.Prelude.{length, option_copied};
ghost use Rattle.fetches.specs.Fetched.{AnsweredWithOutbound, Fetched, FetchedIf, lies_within};
ghost use Rattle.rules.specs.Calls.{fetches};

use peer_session::SessionState;
use rules::Answer;
use session::ANY;

// Whether a number is held, and where its body lies.
pub fn find(s: SessionState, outbound: &[u8], number: u64) -> Answer
    ensures answer { AnsweredWithOutbound (fetches number) s outbound.now result }
    ensures within { lies_within (length outbound.now) result }
{
    if let Err(x) = session::enters(s, ANY, ANY, outbound.len(), ANY, false, false) {
        return Answer::Refused(x);
    }
    match outbox::locate(s.outbox, number) {
        Some(place) => Answer::Held {
            start: place.start,
            len: place.len,
        },
        None => Answer::NotHeld,
    }
}

// The body itself, where `find` answers that it is held, and None elsewhere.
pub fn held(s: SessionState, outbound: &[u8], number: u64) -> Option<&[u8]>
    ensures { FetchedIf number s outbound.now (option_copied result) }
{
    match find(s, outbound, number) {
        Answer::Held { start, len } => Some(stores::part(outbound, start, len)),
        _ => None,
    }
}

// The body, and nothing where none is held: a held body may be empty too, so `held` tells the two apart.
pub fn fetch(s: SessionState, outbound: &[u8], number: u64) -> &[u8]
    ensures { Fetched number s outbound.now result.now }
{
    match held(s, outbound, number) {
        Some(body) => body,
        None => &outbound[..0],
    }
}
