// Questions, which change nothing.
ghost use Rattle.std.specs.Prelude.{◌≡◌, List, ℕ};
ghost use Rattle.rules.specs.Clock.{dirty};
ghost use Rattle.rules.specs.Queries.{accepted, is_retired};
ghost use Rattle.rules.specs.Setup.{rejection_complete};
ghost use Rattle.peer_session.specs.View.{state_of};
ghost use Rattle.session.specs.Promise.{terms_in_session};
ghost use Rattle.parts.specs.Parts.{parts, opened_of};
ghost use Rattle.link_c.specs.Forms.{terms_of};

use parts::{Bytes, Halves, Words};
use rules::Terms;

// The terms of a session that waits.
#[repr(C)]
#[derive(Clone, Copy)]
pub struct LinkTerms {
    pub terms: Terms,
    // C has no Option
    pub waiting: bool,
}

fn terms_of(t: Option<Terms>) -> LinkTerms
    ensures { result ≡ terms_of t }
{
    match t {
        Some(terms) => LinkTerms {
            terms,
            waiting: true,
        },
        None => LinkTerms {
            terms: Terms {
                number: 0,
                initiator: false,
            },
            waiting: false,
        },
    }
}

// Whether something is left to commit.
#[unsafe(no_mangle)]
pub extern "C" fn link_dirty(words: &Words, halves: &Halves, bytes: &Bytes, clock: &f64) -> bool
    ensures { (o q : List ℕ) → result ≡ dirty (state_of (opened_of (parts words.now halves.now bytes.now clock.now)) o q) }
{
    link_questions::dirty(words, halves, bytes, clock)
}

// Whether a setup waits or has started.
#[unsafe(no_mangle)]
pub extern "C" fn link_accepted(words: &Words, halves: &Halves, bytes: &Bytes, clock: &f64) -> bool
    ensures { (o q : List ℕ) → result ≡ accepted (state_of (opened_of (parts words.now halves.now bytes.now clock.now)) o q) }
{
    link_questions::accepted(words, halves, bytes, clock)
}

// Whether the setup is retired.
#[unsafe(no_mangle)]
pub extern "C" fn link_retired(words: &Words, halves: &Halves, bytes: &Bytes, clock: &f64) -> bool
    ensures { (o q : List ℕ) → result ≡ is_retired (state_of (opened_of (parts words.now halves.now bytes.now clock.now)) o q) }
{
    link_questions::retired(words, halves, bytes, clock)
}

// The terms of a session that waits.
#[unsafe(no_mangle)]
pub extern "C" fn link_channel_terms(
    words: &Words,
    halves: &Halves,
    bytes: &Bytes,
    clock: &f64,
) -> LinkTerms
    ensures { (o q : List ℕ) → result ≡ terms_of (terms_in_session (state_of (opened_of (parts words.now halves.now bytes.now clock.now)) o q).stage.setup) }
{
    let t = link_questions::channel_terms(words, halves, bytes, clock);
    terms_of(t)
}

// Whether a rejection was sent and acknowledged.
#[unsafe(no_mangle)]
pub extern "C" fn link_rejection_complete(
    words: &Words,
    halves: &Halves,
    bytes: &Bytes,
    clock: &f64,
) -> bool
    ensures { (o q : List ℕ) → result ≡ rejection_complete (state_of (opened_of (parts words.now halves.now bytes.now clock.now)) o q) }
{
    link_questions::rejection_complete(words, halves, bytes, clock)
}
