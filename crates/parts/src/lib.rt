// A session as C lends it: 64-bit words, 32-bit halves, bytes, and the time of the last replay. Each number lies in the part of its width, at the index
// that is named here; include/link.h and specs/Parts.antt repeat the indices.
//
// Each call has two forms, by value and in place (`link_*`): by value is the port that is compared with the Rust, in place is what C links, where a
// session's arrays stay where they lie. Both have one promise by one rule book, and in place the laws of the calls by value are cited. In both a list and
// its count are two parameters, as events::emit says. Counts are kept in words and halves: there and back it is `as`, since there is no `From` between
// these types and usize.
#![tactic(auto)]

ghost use Rattle.std.specs.Prelude.{◌≡◌};
ghost use Rattle.parts.specs.Kinds.{kind_number};

// ---- words

pub const NEXT: usize = 0;

pub const UNACKED: usize = 1;

pub const REMOTE: usize = 2;

pub const RELEASED: usize = 3;

pub const QUEUED: usize = 4;

pub const WAITING: usize = 5;

pub const RETRIES: usize = 6;

pub const HANDOFF_LEN: usize = 7;

pub const HANDOFF_ID: usize = 8;

pub const HANDOFF_NUMBER: usize = 9;

pub const POLICY_GAP: usize = 10;

pub const POLICY_MESSAGES: usize = 11;

pub const POLICY_BYTES: usize = 12;

pub const POLICY_BODY: usize = 13;

pub const REJECT_LEN: usize = 14;
// one word is spare; then the queued frames' numbers, the acks that wait for a commit, and those to be sent again
pub const QUEUED_NUMBERS: usize = 16;

pub const WAITING_NUMBERS: usize = 272;

pub const RETRY_NUMBERS: usize = 784;

// The parts stay apart, and are no fields of a struct: C lends them apart, and which of them a function may change stands in its parameters' types. A
// struct of `&mut` was tried, in a crate of its own with two parts and three functions: each function that gets one has to promise of each field that its
// reference stays, or the call that lends them cannot say what they hold after it.
pub type Words = [u64; 1296];

// ---- halves: of each unacked message its number and its length, of each queued frame its length

pub const UNACKED_NUMBERS: usize = 0;

pub const UNACKED_LENS: usize = 256;

pub const QUEUED_LENS: usize = 512;

pub const GENERATION: usize = 768;

pub const RELEASED_GENERATION: usize = 769;

pub const PERSISTED_GENERATION: usize = 770;

pub const TERMS: usize = 771;

pub type Halves = [u32; 772];

// ---- bytes: a flag is 0, or anything else. Of each unacked message pending and unsent, of each queued frame its kind

pub const PENDING: usize = 0;

pub const UNSENT: usize = 256;

pub const QUEUED_KINDS: usize = 512;

pub const DISPOSITION: usize = 768;

pub const SETUP: usize = 769;

pub const INITIATOR: usize = 770;

pub const MODE: usize = 771;

pub const FAILED: usize = 772;

pub const HANDOFF_SENT: usize = 773;

pub const HANDOFF_ACKNOWLEDGED: usize = 774;

pub const HANDOFF_PRESENT: usize = 775;

pub const HANDOFF_BODY: usize = 776;

pub const REJECT_BODY: usize = 4872;

pub type Bytes = [u8; 4936];

// ---- what is made of them

// What coordination.rs decides by, as numbers.
#[derive(Clone, Copy)]
pub struct StageCodes {
    // the terms of a setup that waits
    pub terms: u32,
    pub disposition: u8,
    // 0 none, 1 waiting, 2 started, 3 retired
    pub setup: u8,
    pub initiator: bool,
    // 0 raw, 1 proposal, 2 channel, 3 rejection, 4 retiring
    pub mode: u8,
    pub failed: bool,
}

// The setup's byte.
#[derive(Clone, Copy, Debug, PartialEq, Eq)]
pub enum SetupCode {
    None = 0,
    Waiting = 1,
    Started = 2,
    Retired = 3,
}

// What an answer is.
#[derive(Clone, Copy, Debug, PartialEq, Eq)]
pub enum AnswerKind {
    Done = 0,
    Number = 1,
    Flag = 2,
    // a commit record: generation, outbound, remote
    Prepared = 3,
    // start and length of a held body
    Held = 4,
    NotHeld = 5,
    Refused = 6,
}

impl From<AnswerKind> for u64 {
    ghost from_gives = { λ k n. n ≡ kind_number k };

    fn from(kind: AnswerKind) -> u64 {
        kind as u64
    }
}

// A call's answer: refusal is 0 where there is none; then the number of its `AnswerKind`, and its values, 0 where it has none.
#[repr(C)]
#[derive(Clone, Copy)]
pub struct LinkAnswer {
    pub refusal: u64,
    pub kind: u64,
    pub value: u64,
    pub second: u64,
    pub third: u64,
    pub events: usize,
}
