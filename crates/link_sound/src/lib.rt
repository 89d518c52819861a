// Whether a session that C lends is one that calls leave, looked at where it lies.
#![tactic(auto)]

ghost use Rattle.std.specs.Prelude.{◌≡◌, ◌≤◌, take, Float};
ghost use Rattle.stores.specs.Admitted.{admitted};
ghost use Rattle.queue.specs.View.{num_q, len_q};
ghost use Rattle.queue.specs.Sound.{admits_queued, sound_queue};
ghost use Rattle.peer_session.specs.Sound.{sound_acks, Checked};
ghost use Rattle.parts.specs.Seats.{seats};
ghost use Rattle.parts.specs.Parts.{at, queued_at, queue_in, policy_in, waiting_in, retry_in, parts, opened_of};
ghost use Rattle.link_sound.specs.Sizes.{admits};

use parts::{Bytes, Halves, Words};
use rules::BodyKind;

// ---- the queue

fn admits(body: u64, bytes: u64, last: u64, sum: u64, number: u64, len: u64, kind: u8) -> bool
    requires { sum ≤ bytes }
    ensures { result ≡ admits body bytes last sum number len kind }
{
    last < number
        && number <= rules::LAST_REMOTE
        && kind <= BodyKind::Reject as u8
        && len <= body
        && len <= bytes - sum
}

// Whether the numbers rise from remote on, and each body and all of them are within the policy.
fn sound_queued(words: &Words, halves: &Halves, bytes: &Bytes, count: usize) -> bool
    requires { (count ≤ 256) × (at words.now 12 ≤ 32768) }
    ensures { result ≡ admitted num_q len_q (admits_queued (policy_in words.now)) (at words.now 2) 0 (take count (seats 256 (queued_at words.now halves.now bytes.now))) }
{
    let size = words[parts::POLICY_BYTES];
    let body = words[parts::POLICY_BODY];
    let mut last = words[parts::REMOTE];
    let mut sum: u64 = 0;
    for i in 0..count {
        let number = words[parts::QUEUED_NUMBERS + i];
        let len = u64::from(halves[parts::QUEUED_LENS + i]);
        if !admits(
            body,
            size,
            last,
            sum,
            number,
            len,
            bytes[parts::QUEUED_KINDS + i],
        ) {
            return false;
        }
        last = number;
        sum += len;
    }
    true
}

// Whether the policy is within its limits and the queue within the policy.
#[tactic(auto, unfolding(queue::specs::Sound::sound_queue, queue::specs::Sound::sound_queued))]
pub fn sound_queue(words: &Words, halves: &Halves, bytes: &Bytes) -> bool
    ensures { result ≡ sound_queue (policy_in words.now) (at words.now 2) (queue_in words.now halves.now bytes.now) }
{
    let messages = words[parts::POLICY_MESSAGES];
    let count = words[parts::QUEUED];
    messages <= 256
        && words[parts::POLICY_BYTES] <= 32768
        && words[parts::POLICY_BODY] <= 16384
        && count <= messages
        && words[parts::REMOTE] <= rules::LAST_REMOTE
        && sound_queued(words, halves, bytes, count as usize)
}

// ---- the acks

#[tactic(auto, using(link_numbers::proofs::Asked::tail_ascends), unfolding(peer_session::specs::Sound::sound_acks))]
pub fn sound_acks(words: &Words) -> bool
    ensures { result ≡ sound_acks (waiting_in words.now) (retry_in words.now) (at words.now 4) (at words.now 2) }
{
    let waiting = words[parts::WAITING] as usize;
    let retries = words[parts::RETRIES] as usize;
    waiting <= 512
        && words[parts::QUEUED] as usize <= 512 - waiting
        && retries <= 512
        && link_numbers::rises(words, parts::WAITING_NUMBERS, waiting, 0, 0)
        && link_numbers::at_most(words, parts::WAITING_NUMBERS, waiting, words[parts::REMOTE])
        && link_numbers::ascends(words, parts::RETRY_NUMBERS, retries)
}

// ---- all of it

pub fn sound(words: &Words, halves: &Halves, bytes: &Bytes) -> bool
    ensures { (t : Float) → Checked (opened_of (parts words.now halves.now bytes.now t)) result }
{
    let present = bytes[parts::HANDOFF_PRESENT] != 0;
    let h = peer_session::handoff_length(present, words[parts::HANDOFF_LEN] as usize);
    let d = link_codes::disposition_in(halves, bytes);
    link_outbox::sound(words, halves)
        && sound_queue(words, halves, bytes)
        && sound_acks(words)
        && peer_session::sound_sizes(d, h, words[parts::REJECT_LEN] as usize)
}
