// The link for C: every exported call on a session that C lends in parts (crate parts). Slices are pointer and length. No call asks anything of its
// caller: a short buffer is refused by 1, a wrong code by 2, parts that no calls leave by 3, and what is refused changes nothing.
// include/link.h declares what is here.
#![tactic(auto)]

ghost use Rattle.std.specs.Prelude.{◌≡◌, None};
ghost use Rattle.rules.specs.Start.{link_class};
ghost use Rattle.starts.specs.Started.{Started};
ghost use Rattle.session.specs.Promise.{option_of};
ghost use Rattle.parts.specs.Parts.{parts};
ghost use Rattle.parts.specs.Driven.{DrivenStart};
ghost use Rattle.link_c.specs.Forms.{link_policy_of};

use parts::{Bytes, Halves, LinkAnswer, Words};
use rules::Policy;
use starts::{Record, Reliable};

pub mod channel; // a channel's setup and its end
pub mod incoming; // messages and acks that come in
pub mod outgoing; // sending, and what is saved
pub mod questions; // what a session is asked

// The policy of a class, where it is known.
#[repr(C)]
#[derive(Clone, Copy)]
pub struct LinkPolicy {
    pub policy: Policy,
    // C has no Option
    pub known: bool,
}

fn no_policy() -> LinkPolicy
    ensures { result ≡ link_policy_of None }
{
    let policy = Policy {
        gap: 0,
        messages: 0,
        bytes: 0,
        body: 0,
    };
    LinkPolicy {
        policy: policy,
        known: false,
    }
}

// The policy of a link class.
#[unsafe(no_mangle)]
pub extern "C" fn link_class(class: u64) -> LinkPolicy
    ensures { result ≡ link_policy_of (option_of (link_class class)) }
{
    match starts::link_class(class) {
        Some(policy) => LinkPolicy {
            policy,
            known: true,
        },
        None => no_policy(),
    }
}

// A new session from a record. Its messages come as three lent slices: numbers, lengths, and the bodies one after the other.
#[unsafe(no_mangle)]
pub extern "C" fn link_start(
    words: &mut Words,
    halves: &mut Halves,
    bytes: &mut Bytes,
    clock: &mut f64,
    record: Reliable,
    numbers: &[u64],
    lengths: &[u64],
    bodies: &[u8],
    policy: Policy,
    reject: &[u8],
    outbound: &mut [u8],
    queue: &mut [u8],
) -> LinkAnswer
    ensures { DrivenStart (parts words.old halves.old bytes.old clock.old) (parts words.new halves.new bytes.new clock.new) result (λ y. Started «record» numbers.now lengths.now bodies.now policy reject.now outbound.old queue.old y outbound.new queue.new) }
{
    let record = Record {
        reliable: record,
        numbers,
        lengths,
        bodies,
    };
    link_starts::start(
        words, halves, bytes, clock, record, policy, reject, outbound, queue,
    )
}
