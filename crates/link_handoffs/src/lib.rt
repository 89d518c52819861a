// A channel's command on the parts of a session, in place: the driver's call on the session that they are.
#![tactic(auto)]

ghost use Rattle.std.specs.Prelude.{◌≡◌, Bool, true, false, List, ℕ, ◌≤◌, length, take};
ghost use Rattle.std.proofs.Math.Option.{none, some};
ghost use Rattle.rules.specs.Lists.{Bytes, any, same};
ghost use Rattle.rules.specs.Calls.{commands};
ghost use Rattle.rules.specs.Handoff.{numbered_to, command_size};
ghost use Rattle.outbox.specs.Sound.{sound_outbox_of};
ghost use Rattle.outbox.specs.View.{unacked_of, ExactOutbox};
ghost use Rattle.session.specs.Promise.{CalledWithOutbound};
ghost use Rattle.handoffs.specs.Commands.{lent_command, command_in, commanding, carries_body, validating};
ghost use Rattle.parts.specs.Parts.{parts, at, flag, section, outbox_in};
ghost use Rattle.parts.specs.Driven.{Driven};
ghost use Rattle.link_sending.specs.Sends.{Ready};
ghost use Rattle.link_handoffs.specs.Commands.{Enters, Starts, ComesIn, HoldingIn};

use handoffs::Command;
use link_setup::{NO_TERMS, done};
use parts::{Bytes, Halves, LinkAnswer, SetupCode, Words};
use peer_session::SessionState;
use restores::Given;
use rules::Refusal;
use session::ANY;

// The tests of a command, in their order, a send's first: size is how many bytes of its body count.
fn enters(
    words: &Words,
    halves: &Halves,
    bytes: &Bytes,
    list: usize,
    outbound: usize,
    size: usize,
) -> Result<(), Refusal>
    ensures { Enters words.now halves.now bytes.now list outbound size result }
{
    link_entry::enters(words, halves, bytes, list, ANY, outbound, ANY, false, true)?;
    if SessionState::MAX_HANDOFF < size {
        return Err(Refusal::HandoffTooLong);
    }
    Ok(())
}

// A restoring command leaves setup started, also where it is refused.
fn starting(halves: &mut Halves, bytes: &mut Bytes, restoring: bool)
    ensures { Starts restoring halves.old bytes.old halves.new bytes.new }
{
    if !restoring {
        return;
    }
    let disposition = bytes[parts::DISPOSITION];
    link_setup::stage(
        halves,
        bytes,
        disposition,
        SetupCode::Started as u8,
        NO_TERMS,
    );
}

// ---- the handoff that is there

// Whether its body is the one given.
fn same_body(words: &Words, bytes: &Bytes, body: &[u8]) -> bool
    requires { at words.now 7 ≤ 4096 }
    ensures { result ≡ same (take (at words.now 7) (section 776 4096 bytes.now)) body.now }
{
    stores::same_bytes(link_codes::handoff_body(words, bytes), body)
}

// Whether an unacked message has a number up to one.
fn unacked_to(words: &Words, halves: &Halves, number: u64) -> bool
    ensures { (b : List ℕ) (s : Bytes) → sound_outbox_of (outbox_in words.now halves.now b) ≡ true → result ≡ any (numbered_to number) (unacked_of (outbox_in words.now halves.now b) s) }
{
    words[parts::UNACKED] != 0 && u64::from(halves[0]) <= number
}

// Whether an unacked message has its number and its body.
fn carried(words: &Words, halves: &Halves, bytes: &Bytes, outbound: &[u8]) -> bool
    requires { HoldingIn words.now halves.now bytes.now (length outbound.now) }
    ensures { result ≡ any (carries_body (at words.now 9) (take (at words.now 7) (section 776 4096 bytes.now))) (unacked_of (outbox_in words.now halves.now bytes.now) outbound.now) }
{
    let held = link_codes::handoff_body(words, bytes);
    match link_outbox::locate(words, halves, words[parts::HANDOFF_NUMBER]) {
        Some(place) => stores::same_bytes(stores::part(outbound, place.start, place.len), held),
        None => false,
    }
}

// 35 and 36.
fn validate(
    words: &Words,
    halves: &Halves,
    bytes: &Bytes,
    clock: &f64,
    list: &mut [u64],
    outbound: &[u8],
) -> LinkAnswer
    requires { (4096 ≤ length list.old) × HoldingIn words.now halves.now bytes.now (length outbound.now) }
    ensures { ComesIn validating (parts words.now halves.now bytes.now clock.now) (parts words.now halves.now bytes.now clock.now) list.old outbound.now result list.new outbound.now }
{
    if bytes[parts::HANDOFF_ACKNOWLEDGED] != 0 {
        if bytes[parts::HANDOFF_SENT] == 0 {
            return link_codes::refusal(Refusal::HandoffInconsistent);
        }
        if unacked_to(words, halves, words[parts::HANDOFF_NUMBER]) {
            return link_codes::refusal(Refusal::HandoffInconsistent);
        }
        return done(halves, clock, list);
    }
    if !carried(words, halves, bytes, outbound) {
        return link_codes::refusal(Refusal::HandoffNotHeld);
    }
    done(halves, clock, list)
}

// ---- the command, by whether there is one and whether a handoff is there

fn no_command(
    words: &Words,
    halves: &Halves,
    bytes: &Bytes,
    clock: &f64,
    list: &mut [u64],
    restoring: bool,
) -> LinkAnswer
    requires { 4096 ≤ length list.old }
    ensures { (o : Bytes) → ExactOutbox (outbox_in words.now halves.now bytes.now) (length o) → ComesIn (commanding restoring none) (parts words.now halves.now bytes.now clock.now) (parts words.now halves.now bytes.now clock.now) list.old o result list.new o }
{
    if !restoring {
        return done(halves, clock, list);
    }
    if bytes[parts::HANDOFF_PRESENT] != 0 {
        return link_codes::refusal(Refusal::HandoffWithoutCommand);
    }
    done(halves, clock, list)
}

// The body is sent, and its handoff is pending.
fn hand_off(
    words: &mut Words,
    halves: &mut Halves,
    bytes: &mut Bytes,
    clock: &f64,
    list: &mut [u64],
    outbound: &mut [u8],
    c: Command,
) -> LinkAnswer
    requires { Ready (parts words.old halves.old bytes.old clock.now) (length list.old) (length outbound.old) × (flag (at bytes.old 775) ≡ false) × (length c.body.now ≤ 4096) }
    ensures { (restoring : Bool) → ComesIn (commanding restoring (some (lent_command c.entry))) (parts words.old halves.old bytes.old clock.now) (parts words.new halves.new bytes.new clock.now) list.old outbound.old result list.new outbound.new }
{
    let number = words[parts::NEXT];
    match link_sending::join(words, halves, bytes, outbound, c.body) {
        Ok(()) => {
            let given = Given {
                id: c.id,
                number,
                sent: false,
                acknowledged: false,
                body: c.body,
            };
            link_restores::hand(words, bytes, Some(given));
            done(halves, clock, list)
        }
        Err(x) => link_codes::refusal(x),
    }
}

// Only a restoring command may meet a handoff, and only its own.
fn pending(
    words: &Words,
    halves: &Halves,
    bytes: &Bytes,
    clock: &f64,
    list: &mut [u64],
    outbound: &[u8],
    restoring: bool,
    c: Command,
) -> LinkAnswer
    requires { (4096 ≤ length list.old) × HoldingIn words.now halves.now bytes.now (length outbound.now) }
    ensures { ComesIn (commanding restoring (some (lent_command c.entry))) (parts words.now halves.now bytes.now clock.now) (parts words.now halves.now bytes.now clock.now) list.old outbound.now result list.new outbound.now }
{
    if !restoring {
        return link_codes::refusal(Refusal::HandoffPending);
    }
    if words[parts::HANDOFF_ID] != c.id {
        return link_codes::refusal(Refusal::CommandDiffers);
    }
    if !same_body(words, bytes, c.body) {
        return link_codes::refusal(Refusal::CommandDiffers);
    }
    validate(words, halves, bytes, clock, list, outbound)
}

// A command past its tests, in the session that it leaves started.
fn goes(
    words: &mut Words,
    halves: &mut Halves,
    bytes: &mut Bytes,
    clock: &f64,
    list: &mut [u64],
    outbound: &mut [u8],
    restoring: bool,
    command: Option<Command>,
) -> LinkAnswer
    requires { Ready (parts words.old halves.old bytes.old clock.now) (length list.old) (length outbound.old) × (command_size (command_in command) ≤ 4096) }
    ensures { ComesIn (commanding restoring (command_in command.entry)) (parts words.old halves.old bytes.old clock.now) (parts words.new halves.new bytes.new clock.now) list.old outbound.old result list.new outbound.new }
{
    let Some(c) = command else {
        return no_command(words, halves, bytes, clock, list, restoring);
    };
    if bytes[parts::HANDOFF_PRESENT] == 0 {
        return hand_off(words, halves, bytes, clock, list, outbound, c);
    }
    pending(words, halves, bytes, clock, list, outbound, restoring, c)
}

// A channel's command: its body is handed to the link, or is there already.
pub fn command(
    words: &mut Words,
    halves: &mut Halves,
    bytes: &mut Bytes,
    clock: &f64,
    list: &mut [u64],
    outbound: &mut [u8],
    restoring: bool,
    command: Option<Command>,
) -> LinkAnswer
    ensures { Driven (parts words.old halves.old bytes.old clock.now) (parts words.new halves.new bytes.new clock.now) result (λ s y. CalledWithOutbound (commands restoring (command_in command.entry)) s list.old outbound.old y list.new outbound.new) }
{
    let size = handoffs::size_of(command);
    match enters(words, halves, bytes, list.len(), outbound.len(), size) {
        Ok(()) => {
            starting(halves, bytes, restoring);
            goes(
                words, halves, bytes, clock, list, outbound, restoring, command,
            )
        }
        Err(x) => link_codes::refusal(x),
    }
}
