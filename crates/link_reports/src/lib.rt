// Reports of sends, and keepalives, on the parts of a session, in place: the driver's calls on the session that they are.
#![tactic(auto)]

ghost use Rattle.std.specs.Prelude.{◌≡◌, true, length};
ghost use Rattle.rules.specs.Calls.{reports, gets_keepalive};
ghost use Rattle.rules.specs.Codes.{frame_kind_number};
ghost use Rattle.session.specs.Promise.{CalledWithList, ToldWithList};
ghost use Rattle.acks.specs.Reports.{full_of, MayRetry};
ghost use Rattle.parts.specs.Parts.{parts, retry_in};
ghost use Rattle.parts.specs.Driven.{Driven, DrivenTold};
ghost use Rattle.link_numbers.specs.Sets.{Rising, Set};
ghost use Rattle.link_reports.specs.Reports.{Fit, Reported, AckReported};

use parts::{Bytes, Halves, LinkAnswer, Words};
use peer_session::SessionState;
use rules::{EventCode, FrameKind, Refusal};
use session::ANY;

// ---- a report of a send

// Data was accepted. The handoff's own frame requests a commit, whatever the generation.
fn data_sent(
    words: &Words,
    halves: &Halves,
    bytes: &mut Bytes,
    list: &mut [u64],
    number: u64,
) -> LinkAnswer
    requires { Fit words.now halves.now bytes.old (length list.old) }
    ensures { Reported 0 number true words.now halves.now bytes.old list.old words.now bytes.new list.new result }
{
    let own = acks::own_frame(
        bytes[parts::HANDOFF_PRESENT] != 0,
        words[parts::HANDOFF_NUMBER],
        number,
    );
    link_outbox::mark_sent(words, halves, bytes, number);
    if own {
        bytes[parts::HANDOFF_SENT] = 1;
        events::emit(list, 0, EventCode::CommitRequested as u64, 0, 0, 0);
        return link_codes::done(1);
    }
    link_codes::done(0)
}

// Whether a number would be a 513th retry.
fn retries_full(words: &Words, number: u64) -> bool
    requires { Set 784 6 words.now }
    ensures { result ≡ full_of number (retry_in words.now) }
{
    let count = words[parts::RETRIES] as usize;
    SessionState::MAX_RETRIES <= count
        && !link_numbers::has(words, parts::RETRY_NUMBERS, count, number)
}

// An ack was accepted; one that was not is sent again with the next keepalive.
fn ack_sent(words: &mut Words, number: u64, accepted: bool) -> LinkAnswer
    requires { Rising 784 6 words.old × MayRetry number (retry_in words.old) }
    ensures { AckReported number accepted words.old words.new result }
{
    if accepted {
        link_numbers::take_out(words, parts::RETRY_NUMBERS, parts::RETRIES, number);
        return link_codes::done(0);
    }
    if retries_full(words, number) {
        return link_codes::refusal(Refusal::RetriesFull);
    }
    link_numbers::put(words, parts::RETRY_NUMBERS, parts::RETRIES, number);
    link_codes::done(0)
}

// A report past its tests.
fn reported(
    words: &mut Words,
    halves: &Halves,
    bytes: &mut Bytes,
    list: &mut [u64],
    kind: FrameKind,
    number: u64,
    accepted: bool,
) -> LinkAnswer
    requires { Fit words.old halves.now bytes.old (length list.old) }
    ensures { Reported (frame_kind_number kind) number accepted words.old halves.now bytes.old list.old words.new bytes.new list.new result }
{
    match kind {
        FrameKind::Data if accepted => data_sent(words, halves, bytes, list, number),
        FrameKind::Data => link_codes::done(0),
        FrameKind::Ack => ack_sent(words, number, accepted),
    }
}

// Whether a send was accepted: what is 0 of data, 1 of an ack.
pub fn report(
    words: &mut Words,
    halves: &Halves,
    bytes: &mut Bytes,
    clock: &f64,
    list: &mut [u64],
    what: u64,
    number: u64,
    accepted: bool,
) -> LinkAnswer
    ensures { Driven (parts words.old halves.now bytes.old clock.now) (parts words.new halves.now bytes.new clock.now) result (λ s y. CalledWithList (reports what number accepted) s list.old y list.new) }
{
    let read = FrameKind::try_from(what);
    let len = list.len();
    let wrong = read.is_err();
    let entered = link_entry::enters(words, halves, bytes, len, ANY, ANY, ANY, wrong, false);
    match entered.and(read) {
        Err(x) => link_codes::refusal(x),
        Ok(kind) => reported(words, halves, bytes, list, kind, number, accepted),
    }
}

// ---- a keepalive

// Acks whose send was not accepted are sent again.
pub fn keepalive(
    words: &Words,
    halves: &Halves,
    bytes: &Bytes,
    clock: &f64,
    list: &mut [u64],
) -> LinkAnswer
    ensures { DrivenTold (parts words.now halves.now bytes.now clock.now) result (λ s y. ToldWithList gets_keepalive s list.old y list.new) }
{
    let len = list.len();
    if let Err(x) = link_entry::enters(words, halves, bytes, len, ANY, ANY, ANY, false, false) {
        return link_codes::refusal(x);
    }
    events::emit(list, 0, EventCode::Keepalive as u64, 0, 0, 0);
    let n = link_numbers::list_all(words, parts::RETRY_NUMBERS, parts::RETRIES, list, 1);
    link_codes::flag(true, n)
}
