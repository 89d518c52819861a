// What is tested of data past its entry, on the parts of a session, before anything is changed.
#![tactic(auto)]

ghost use Rattle.link_checks.specs.Checks.{Countable, Filled, Judged};

use parts::Words;
use peer_session::SessionState;
use receiving::Verdict;
use rules::Refusal;

// 26: the acks that wait and the frames in the queue are 512 together, and the number is in neither, nor answered by code 10. Tests stand
// one a line, as document 01 lists them.
fn acks_full(words: &Words, number: u64) -> bool
    requires { Countable words.now }
    ensures { Filled number words.now result }
{
    let waiting = words[parts::WAITING] as usize;
    let queued = words[parts::QUEUED] as usize;
    if waiting + queued < SessionState::MAX_WAITING_AND_QUEUED {
        return false;
    }
    if link_numbers::has(words, parts::WAITING_NUMBERS, waiting, number) {
        return false;
    }
    if link_queue::find(words, number) {
        return false;
    }
    if words[parts::REMOTE] < number {
        return true;
    }
    words[parts::RELEASED] < number
}

// 4; of a number above remote 5 and 6; 26.
pub fn check(words: &Words, number: u64, len: usize) -> Verdict
    requires { Countable words.now }
    ensures { Judged number len words.now result }
{
    if words[parts::POLICY_BODY] < len as u64 {
        return Verdict::Fail(Refusal::BodyTooLong);
    }
    let remote = words[parts::REMOTE];
    if remote < number {
        if words[parts::POLICY_GAP] < number - (remote + 1) {
            return Verdict::Fail(Refusal::GapTooWide);
        }
        if SessionState::LAST_REMOTE < number {
            return Verdict::Refuse(Refusal::LastNumber);
        }
        if acks_full(words, number) {
            return Verdict::Refuse(Refusal::AcksFull);
        }
        return Verdict::New;
    }
    if acks_full(words, number) {
        return Verdict::Refuse(Refusal::AcksFull);
    }
    Verdict::Again
}
