// Data in any mode, on the parts of a session, in place: the Rust's `receive_data` (session.rs).
#![tactic(auto)]

ghost use Rattle.std.specs.Prelude.{◌≡◌, true};
ghost use Rattle.rules.specs.declared.Answer.TheVariants.{Flag};
ghost use Rattle.rules.specs.Calls.{gets_data};
ghost use Rattle.session.specs.Promise.{lent, Called};
ghost use Rattle.delivery.specs.Turns.{frame_of, lent_frame};
ghost use Rattle.draining.specs.Arrived.{told};
ghost use Rattle.parts.specs.Codes.{answer_of};
ghost use Rattle.parts.specs.Parts.{parts};
ghost use Rattle.parts.specs.Driven.{Driven};
ghost use Rattle.link_receiving.specs.Steps.{Arriving};

use delivery::Frame;
use link_draining::Ending;
use parts::{Bytes, Halves, LinkAnswer, Words};
use receiving::Verdict;
use rules::{Answer, BodyKind, HostStatus};

// What data answers, by the refusal that ended it.
fn answered(e: Ending) -> LinkAnswer
    ensures { result ≡ answer_of (told (Flag true) e.stop) e.events }
{
    match e.stop {
        None => link_codes::flag(true, e.events),
        Some(x) => link_codes::answer_of(Answer::Refused(x), e.events),
    }
}

pub fn receive(
    words: &mut Words,
    halves: &mut Halves,
    bytes: &mut Bytes,
    clock: &mut f64,
    list: &mut [u64],
    delivery: &mut [u8],
    outbound: &mut [u8],
    queue: &mut [u8],
    status: HostStatus,
    f: Frame,
) -> LinkAnswer
    requires { Arriving (lent_frame f) words.old halves.old bytes.old clock.old list.old delivery.old outbound.old queue.old }
    ensures { Driven (parts words.old halves.old bytes.old clock.old) (parts words.new halves.new bytes.new clock.new) result (λ s y. Called (gets_data status (lent_frame f.entry)) s (lent list.old delivery.old outbound.old queue.old) y (lent list.new delivery.new outbound.new queue.new)) }
{
    match link_checks::check(words, f.number, f.body.len()) {
        Verdict::Refuse(x) => link_codes::refusal(x),
        Verdict::Fail(x) => {
            let e = link_draining::fail(words, halves, bytes, clock, list, 0, queue, x);
            answered(e)
        }
        Verdict::Again => {
            let e = link_arrivals::receive_again(words, halves, bytes, clock, list, f.number);
            answered(e)
        }
        Verdict::New => {
            let e = link_arrivals::receive_new(
                words, halves, bytes, clock, status, list, delivery, outbound, queue, f,
            );
            answered(e)
        }
    }
}

// The Rust's `receive_data`: a peer's data, with the kind of its body. Number, kind and body stand apart, as C gives them: the kind is a number of any size
// until it is tested here, and a Frame has room only for a byte.
pub fn data(
    words: &mut Words,
    halves: &mut Halves,
    bytes: &mut Bytes,
    clock: &mut f64,
    list: &mut [u64],
    delivery: &mut [u8],
    outbound: &mut [u8],
    queue: &mut [u8],
    status: HostStatus,
    number: u64,
    kind: u64,
    body: &[u8],
) -> LinkAnswer
    ensures { Driven (parts words.old halves.old bytes.old clock.old) (parts words.new halves.new bytes.new clock.new) result (λ s y. Called (gets_data status (frame_of number kind body.now)) s (lent list.old delivery.old outbound.old queue.old) y (lent list.new delivery.new outbound.new queue.new)) }
{
    if let Err(x) = link_entry::enters(
        words,
        halves,
        bytes,
        list.len(),
        delivery.len(),
        outbound.len(),
        queue.len(),
        kind > BodyKind::Reject as u64,
        true,
    ) {
        return link_codes::refusal(x);
    }
    let f = Frame {
        number,
        kind: kind as u8,
        body,
    };
    receive(
        words, halves, bytes, clock, list, delivery, outbound, queue, status, f,
    )
}
