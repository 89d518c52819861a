// The terminal handoff: the Rust's `channel_command` (coordination.rs, session.rs) and `validate_terminal_handoff` (peer_session.rs).
#![tactic(auto)]

ghost use Rattle.std.specs.Prelude.{◌≡◌, Bool, true, ◌≤◌, length};
ghost use Rattle.std.proofs.Math.Option.{none, some};
ghost use Rattle.rules.specs.Lists.{Bytes, any};
ghost use Rattle.rules.specs.Calls.{commands};
ghost use Rattle.rules.specs.Handoff.{numbered_to, command_size};
ghost use Rattle.outbox.specs.Sound.{sound_outbox_of};
ghost use Rattle.outbox.specs.View.{unacked_of, ExactOutbox};
ghost use Rattle.session.specs.Promise.{CalledWithOutbound};
ghost use Rattle.setup.specs.Steps.{Comes};
ghost use Rattle.handoffs.specs.Commands.{lent_command, command_in, command_of, starting_in, commanding, carries_body, Vacant, Holding, validating};

use outbox::Outbox;
use peer_session::SessionState;
use restores::Given;
use rules::{Refusal, Setup};
use session::{ANY, Returned};

// The Rust's `TerminalCommand`. Its body lies in a lent buffer.
#[derive(Clone, Copy)]
pub struct Command<'a> {
    pub id: u64,
    pub body: &'a [u8],
}

// The command that C gives, in its parts.
pub fn command_of<'a>(present: bool, id: u64, body: &'a [u8]) -> Option<Command<'a>>
    ensures { command_in result ≡ command_of present id body.now }
{
    if !present {
        return None;
    }
    Some(Command { id, body })
}

// ---- steps

// A restoring command leaves setup started.
fn starting(s: SessionState, restoring: bool) -> SessionState
    ensures { result ≡ starting_in restoring s }
{
    if !restoring {
        return s;
    }
    setup::set_up(s, s.stage.disposition, Setup::Started)
}

// The size that counts: no command has none. Kept beside `restores::size_of`, which is of a Given. One for both would want a trait over the two types. Tried:
// `map_or(0, |c| c.body.len())` at the calls; each of the proofs that use the size would first have to say what the closure gives.
pub fn size_of(command: Option<Command>) -> usize
    ensures { result ≡ command_size (command_in command.entry) }
{
    match command {
        Some(c) => c.body.len(),
        None => 0,
    }
}

// Whether an unacked message has a number up to one.
fn unacked_to(o: Outbox, number: u64) -> bool
    requires { (sound_outbox_of o ≡ true) × (length o.records ≡ 256) }
    ensures { (s : Bytes) → result ≡ any (numbered_to number) (unacked_of o s) }
{
    o.count != 0 && u64::from(o.records[0].number) <= number
}

// Whether an unacked message has a number and a body.
fn carried(o: Outbox, outbound: &[u8], number: u64, body: &[u8]) -> bool
    requires { (sound_outbox_of o ≡ true) × ExactOutbox o (length outbound.now) }
    ensures { result ≡ any (carries_body number body.now) (unacked_of o outbound.now) }
{
    match outbox::locate(o, number) {
        Some(place) => stores::same_bytes(stores::part(outbound, place.start, place.len), body),
        None => false,
    }
}

// ---- the command, by whether there is one and whether a handoff is there

fn no_command(s: SessionState, list: &mut [u64], restoring: bool) -> Returned
    requires { 4096 ≤ length list.old }
    ensures { (o : Bytes) → ExactOutbox s.outbox (length o) → Comes (commanding restoring none) s list.old o result list.new o }
{
    if !restoring {
        return setup::done(s, list);
    }
    if s.handoff.present {
        return session::refused(s, Refusal::HandoffWithoutCommand);
    }
    setup::done(s, list)
}

// The body is sent, and its handoff is pending.
fn hand_off(s: SessionState, list: &mut [u64], outbound: &mut [u8], c: Command) -> Returned
    requires { (4096 ≤ length list.old) × Vacant s (length outbound.old) (length c.body.now) }
    ensures { (restoring : Bool) → Comes (commanding restoring (some (lent_command c.entry))) s list.old outbound.old result list.new outbound.new }
{
    let number = s.outbox.next;
    match setup::join(s, outbound, s.stage.disposition, c.body) {
        Ok(joined) => {
            let given = Given {
                id: c.id,
                number,
                sent: false,
                acknowledged: false,
                body: c.body,
            };
            let mut r = joined;
            r.handoff = restores::handed(Some(given));
            setup::done(r, list)
        }
        Err(x) => session::refused(s, x),
    }
}

// 35 and 36.
fn validate(s: SessionState, list: &mut [u64], outbound: &[u8]) -> Returned
    requires { (4096 ≤ length list.old) × Holding s (length outbound.now) }
    ensures { Comes validating s list.old outbound.now result list.new outbound.now }
{
    let o = s.outbox;
    let number = s.handoff.number;
    if s.handoff.acknowledged {
        if !s.handoff.sent {
            return session::refused(s, Refusal::HandoffInconsistent);
        }
        if unacked_to(o, number) {
            return session::refused(s, Refusal::HandoffInconsistent);
        }
        return setup::done(s, list);
    }
    let bytes = s.handoff.body;
    let len = s.handoff.len;
    if !carried(o, outbound, number, &bytes[..len]) {
        return session::refused(s, Refusal::HandoffNotHeld);
    }
    setup::done(s, list)
}

// Only a restoring command may meet a handoff, and only its own.
fn pending(
    s: SessionState,
    list: &mut [u64],
    outbound: &[u8],
    restoring: bool,
    c: Command,
) -> Returned
    requires { (4096 ≤ length list.old) × Holding s (length outbound.now) }
    ensures { Comes (commanding restoring (some (lent_command c.entry))) s list.old outbound.now result list.new outbound.now }
{
    if !restoring {
        return session::refused(s, Refusal::HandoffPending);
    }
    if s.handoff.id != c.id {
        return session::refused(s, Refusal::CommandDiffers);
    }
    let bytes = s.handoff.body;
    let len = s.handoff.len;
    if !stores::same_bytes(&bytes[..len], c.body) {
        return session::refused(s, Refusal::CommandDiffers);
    }
    validate(s, list, outbound)
}

// A channel's command: its body is handed to the link, or is there already.
pub fn channel_command(
    s: SessionState,
    list: &mut [u64],
    outbound: &mut [u8],
    restoring: bool,
    command: Option<Command>,
) -> Returned
    ensures { CalledWithOutbound (commands restoring (command_in command.entry)) s list.old outbound.old result list.new outbound.new }
{
    if let Err(x) = session::enters(s, list.len(), ANY, outbound.len(), ANY, false, true) {
        return session::refused(s, x);
    }
    if SessionState::MAX_HANDOFF < size_of(command) {
        return session::refused(s, Refusal::HandoffTooLong);
    }
    let r = starting(s, restoring);
    let Some(c) = command else {
        return no_command(r, list, restoring);
    };
    if !s.handoff.present {
        return hand_off(r, list, outbound, c);
    }
    pending(r, list, outbound, restoring, c)
}
