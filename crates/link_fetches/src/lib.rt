// A fetch on the parts of a session, in place: the driver's, on the session that they are.
#![tactic(auto)]

ghost use Rattle.std.specs.Prelude.{◌≡◌};
ghost use Rattle.rules.specs.Calls.{fetches};
ghost use Rattle.outbox.specs.Records as Records;
ghost use Rattle.fetches.specs.Fetched.{AnsweredWithOutbound};
ghost use Rattle.parts.specs.Codes.{answer_of};
ghost use Rattle.parts.specs.Parts.{parts};
ghost use Rattle.parts.specs.Driven.{DrivenAnswer};

use outbox::Place;
use parts::{Bytes, Halves, LinkAnswer, Words};
use rules::Answer;
use session::ANY;

fn place_answer(found: Option<Place>) -> LinkAnswer
    ensures { result ≡ answer_of (Records.answer_of found) 0 }
{
    match found {
        Some(place) => {
            let held = Answer::Held {
                start: place.start,
                len: place.len,
            };
            link_codes::answer_of(held, 0)
        }
        None => link_codes::answer_of(Answer::NotHeld, 0),
    }
}

// Whether a number is held, and where its body lies in the outbound store.
pub fn find(
    words: &Words,
    halves: &Halves,
    bytes: &Bytes,
    clock: &f64,
    outbound: &[u8],
    number: u64,
) -> LinkAnswer
    ensures { DrivenAnswer (parts words.now halves.now bytes.now clock.now) result (λ s a. AnsweredWithOutbound (fetches number) s outbound.now a) }
{
    let len = outbound.len();
    if let Err(x) = link_entry::enters(words, halves, bytes, ANY, ANY, len, ANY, false, false) {
        return link_codes::refusal(x);
    }
    place_answer(link_outbox::locate(words, halves, number))
}
