// Commits on the parts of a session, in place: the driver's calls on the session that they are.
#![tactic(auto)]

ghost use Rattle.std.specs.Prelude.{length};
ghost use Rattle.rules.specs.Calls.{prepares, completes};
ghost use Rattle.session.specs.Promise.{Answered, CalledWithList};
ghost use Rattle.parts.specs.Parts.{parts};
ghost use Rattle.parts.specs.Driven.{Driven, DrivenAnswer};
ghost use Rattle.link_commits.specs.Completes.{Ready, MayReleaseIn, ReleasesIn};

use parts::{Bytes, Halves, LinkAnswer, Words};
use peer_session::SessionState;
use rules::{Answer, PreparedCommit, Refusal};
use session::ANY;

// What a commit is to capture: the generation, and the numbers given and delivered last.
pub fn prepare(words: &Words, halves: &Halves, bytes: &Bytes, clock: &f64) -> LinkAnswer
    ensures { DrivenAnswer (parts words.now halves.now bytes.now clock.now) result (λ s a. Answered prepares s a) }
{
    if !link_sound::sound(words, halves, bytes) {
        return link_codes::refusal(Refusal::BadRecord);
    }
    let commit = PreparedCommit {
        generation: halves[parts::GENERATION],
        outbound: words[parts::NEXT] - 1,
        remote: words[parts::REMOTE],
    };
    link_codes::answer_of(Answer::Prepared(commit), 0)
}

// ---- completing

// Messages and acks up to the record's numbers go out, messages first; a generation that was released already releases nothing.
fn release_by(
    words: &mut Words,
    halves: &mut Halves,
    bytes: &mut Bytes,
    list: &mut [u64],
    commit: PreparedCommit,
) -> usize
    requires { MayReleaseIn words.old halves.old bytes.old (length list.old) }
    ensures { ReleasesIn commit words.old halves.old bytes.old list.old words.new halves.new bytes.new list.new result }
{
    if commit.generation <= halves[parts::RELEASED_GENERATION] {
        return 0;
    }
    let sent = link_outbox::release(words, halves, bytes, commit.outbound, list, 0);
    let n = link_numbers::release(
        words,
        parts::WAITING_NUMBERS,
        parts::WAITING,
        commit.remote,
        list,
        sent,
    );
    words[parts::RELEASED] = commit.remote;
    halves[parts::RELEASED_GENERATION] = commit.generation;
    n
}

// A completed commit past its tests.
fn finish(
    words: &mut Words,
    halves: &mut Halves,
    bytes: &mut Bytes,
    clock: &f64,
    list: &mut [u64],
    commit: PreparedCommit,
    persisted: bool,
) -> LinkAnswer
    requires { Ready (parts words.old halves.old bytes.old clock.now) (length list.old) commit }
    ensures { Driven (parts words.old halves.old bytes.old clock.now) (parts words.new halves.new bytes.new clock.now) result (λ s y. CalledWithList (completes commit persisted) s list.old y list.new) }
{
    let k = link_codes::clock_in(halves, clock);
    let after = commits::persisted_by(k, commit, persisted);
    halves[parts::PERSISTED_GENERATION] = after.persisted;
    let released = release_by(words, halves, bytes, list, commit);
    let n = commits::notify_committed(persisted, list, released);
    link_codes::done(n)
}

// The record is what `prepare` answered, so what came after it stays; persisted says whether the host's write succeeded.
pub fn complete(
    words: &mut Words,
    halves: &mut Halves,
    bytes: &mut Bytes,
    clock: &f64,
    list: &mut [u64],
    commit: PreparedCommit,
    persisted: bool,
) -> LinkAnswer
    ensures { Driven (parts words.old halves.old bytes.old clock.now) (parts words.new halves.new bytes.new clock.now) result (λ s y. CalledWithList (completes commit persisted) s list.old y list.new) }
{
    let len = list.len();
    if let Err(x) = link_entry::enters(words, halves, bytes, len, ANY, ANY, ANY, false, false) {
        return link_codes::refusal(x);
    }
    if SessionState::LAST_REMOTE < commit.outbound {
        return link_codes::refusal(Refusal::CommitNumber);
    }
    if SessionState::LAST_REMOTE < commit.remote {
        return link_codes::refusal(Refusal::CommitNumber);
    }
    finish(words, halves, bytes, clock, list, commit, persisted)
}
