// What a session is asked, on its parts: of any session, whatever its stores hold.
#![tactic(auto)]

ghost use Rattle.std.specs.Prelude.{◌≡◌};
ghost use Rattle.rules.specs.Clock.{dirty};
ghost use Rattle.rules.specs.Lists.{Bytes};
ghost use Rattle.rules.specs.Queries.{accepted, is_retired};
ghost use Rattle.rules.specs.Setup.{rejection_complete};
ghost use Rattle.peer_session.specs.View.{state_of};
ghost use Rattle.session.specs.Promise.{terms_in_session};
ghost use Rattle.parts.specs.Parts.{parts, opened_of};

use parts::{Bytes, Halves, Words};
use rules::{Disposition, Setup, Terms};

// Whether something is left to commit.
pub fn dirty(words: &Words, halves: &Halves, bytes: &Bytes, clock: &f64) -> bool
    ensures { (o q : Bytes) → result ≡ dirty (state_of (opened_of (parts words.now halves.now bytes.now clock.now)) o q) }
{
    halves[parts::PERSISTED_GENERATION] < halves[parts::GENERATION]
}

// Whether a setup waits or has started.
#[tactic(auto, unfolding(parts::specs::Parts::opened_of))]
pub fn accepted(words: &Words, halves: &Halves, bytes: &Bytes, clock: &f64) -> bool
    ensures { (o q : Bytes) → result ≡ accepted (state_of (opened_of (parts words.now halves.now bytes.now clock.now)) o q) }
{
    let setup = link_codes::setup_in(halves, bytes);
    matches!(setup, Setup::Waiting(_) | Setup::Started)
}

// Whether the setup is retired.
#[tactic(auto, unfolding(parts::specs::Parts::opened_of))]
pub fn retired(words: &Words, halves: &Halves, bytes: &Bytes, clock: &f64) -> bool
    ensures { (o q : Bytes) → result ≡ is_retired (state_of (opened_of (parts words.now halves.now bytes.now clock.now)) o q) }
{
    let setup = link_codes::setup_in(halves, bytes);
    matches!(setup, Setup::Retired)
}

// The terms of a session that waits.
#[tactic(auto, unfolding(parts::specs::Parts::opened_of))]
pub fn channel_terms(words: &Words, halves: &Halves, bytes: &Bytes, clock: &f64) -> Option<Terms>
    ensures { (o q : Bytes) → result ≡ terms_in_session (state_of (opened_of (parts words.now halves.now bytes.now clock.now)) o q).stage.setup }
{
    match link_codes::setup_in(halves, bytes) {
        Setup::Waiting(terms) => Some(terms),
        _ => None,
    }
}

// Whether a rejection was sent and acknowledged.
pub fn rejection_complete(words: &Words, halves: &Halves, bytes: &Bytes, clock: &f64) -> bool
    ensures { (o q : Bytes) → result ≡ rejection_complete (state_of (opened_of (parts words.now halves.now bytes.now clock.now)) o q) }
{
    link_codes::disposition_in(halves, bytes) == Disposition::OutboundReject as u8
        && words[parts::UNACKED] == 0
}
