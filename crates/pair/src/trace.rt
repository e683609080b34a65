// What is written of a pairing, and its text: a numbered line for each input of a machine, and under it a line
// for each host call of its step but packets, which have their line where they are delivered, and one for the
// state.
use crate::end::{End, Given};
use crate::ends::{Ends, end_name};
use crate::hosts::{Answer, Host};
use crate::packet::Packet;
use crate::print::{Level, Octets, Shown, state_name};
use crate::scenes::Title;
use bond::Error;
use c_steps::StepError;
use host_calls::{Call, ConnectionEvent, Draw, Question};
use machine::{Phase, Role};
use std::{fmt, io};

// What is written of a pairing as it is played. What a trace leaves out is not written.
pub(crate) trait Trace {
    // Both ends, before the first input.
    fn start(&self, title: Title, ends: &Ends<End>, is_late: bool) -> io::Result<()>;

    // Input n of a machine in this phase.
    fn input(&self, n: u64, role: Role, phase: Phase, given: Given) -> io::Result<()>;

    // A host call, and the answer.
    fn call(&self, _call: Call, _answer: Answer) -> io::Result<()> {
        Ok(())
    }

    fn refused(&self, _e: StepError) -> io::Result<()> {
        Ok(())
    }

    // The state before a step and after it.
    fn state(&self, _role: Role, _before: Phase, _after: Phase) -> io::Result<()> {
        Ok(())
    }

    // Both machines at the end, and the number of inputs.
    fn summary(&self, _ends: &Ends<End>, _inputs: u64) -> io::Result<()> {
        Ok(())
    }
}

// The text, which is printed.
#[derive(Drop)]
pub(crate) struct Text<'a, R>(pub &'a R);

fn route(role: Role, given: Given) -> &'static str {
    match (given, role) {
        (Given::Packet(_), Role::Central) => "head -> terminal",
        (Given::Packet(_), Role::Peripheral) => "terminal -> head",
        (Given::Event(_), Role::Central) => "host -> terminal",
        (Given::Event(_), Role::Peripheral) => "host -> head",
    }
}

// Whether a Confirm comes while the passkey is typed.
fn is_early(phase: Phase, given: Given) -> bool {
    matches!(phase, Phase::WaitingPassKeyInput { .. })
        && matches!(
            given,
            Given::Packet(Packet::Sent(host_calls::Packet::PairingConfirm(_)))
        )
}

fn event_name(event: ConnectionEvent) -> &'static str {
    match event {
        ConnectionEvent::PairingFailed(_) => "tells PairingFailed",
        ConnectionEvent::PairingComplete { .. } => "tells PairingComplete",
        ConnectionEvent::PassKeyDisplay(_) => "tells PassKeyDisplay",
        ConnectionEvent::PassKeyInput => "tells PassKeyInput",
        ConnectionEvent::BondLost => "tells BondLost",
        ConnectionEvent::OobRequest => "tells OobRequest",
    }
}

// What a call does.
fn call_name(call: Call) -> &'static str {
    match call {
        Call::SendPacket(_) => "sends a packet",
        Call::SendConnectionEvent(event) => event_name(event),
        Call::Ask(Question::FindBond) => "asks bond found",
        Call::Ask(Question::LocalIrk) => "asks local IRK",
        Call::Ask(Question::LocalIdentityAddress) => "asks identity address",
        Call::Ask(Question::BondingFlag) => "asks bonding flag",
        Call::Ask(Question::OobAvailable) => "asks OOB available",
        Call::Draw(Draw::Nonce) => "draws nonce",
        Call::Draw(Draw::PassKey) => "draws passkey",
        Call::Draw(Draw::LongTermKey) => "draws LTK",
        Call::Draw(Draw::Ediv) => "draws EDIV",
        Call::Draw(Draw::Rand) => "draws Rand",
        Call::EnableEncryption { .. } => "calls for encryption",
        Call::EnableBondedEncryption => "asks for bonded link",
        Call::UpdateBondInformation(_) => "updates bond",
    }
}

impl fmt::Display for Shown<Error> {
    fn fmt<W: fmt::Write>(&self, f: &mut fmt::Formatter<W>) -> fmt::Result {
        match self.0 {
            Error::Security(reason) => write!(f, "security, reason {}", u8::from(reason)),
            Error::InvalidState => f.write_str("InvalidState 0"),
            Error::InvalidValue => f.write_str("InvalidValue 0"),
            Error::OutOfMemory => f.write_str("out of memory 0"),
            Error::Host(verdict) => write!(f, "host, verdict {verdict}"),
        }
    }
}

impl fmt::Display for Shown<ConnectionEvent> {
    fn fmt<W: fmt::Write>(&self, f: &mut fmt::Formatter<W>) -> fmt::Result {
        match self.0 {
            ConnectionEvent::PairingFailed(e) => write!(f, "{}", Shown(e)),
            ConnectionEvent::PairingComplete {
                security_level,
                bond: None,
            } => write!(f, "level {}, no bond", Level(security_level)),
            // the update of the bond before it has the rest of the bond
            ConnectionEvent::PairingComplete {
                security_level,
                bond: Some(bond),
            } => write!(
                f,
                "level {}, bond with LTK {}, {}",
                Level(security_level),
                Octets(bond.ltk.to_le_bytes()),
                Shown(bond.identity.addr)
            ),
            ConnectionEvent::PassKeyDisplay(passkey) => write!(f, "{}", passkey.0),
            ConnectionEvent::PassKeyInput => f.write_str("the passkey is to be typed"),
            ConnectionEvent::BondLost => Ok(()),
            ConnectionEvent::OobRequest => f.write_str("the OOB data is to be given"),
        }
    }
}

// What a call says in its body.
impl fmt::Display for Shown<Call> {
    fn fmt<W: fmt::Write>(&self, f: &mut fmt::Formatter<W>) -> fmt::Result {
        match self.0 {
            Call::SendConnectionEvent(event) => write!(f, "{}", Shown(event)),
            Call::EnableEncryption {
                ltk,
                security_level,
                encryption_key_len,
            } => write!(
                f,
                "key {}, level {}, key size {encryption_key_len}",
                Octets(ltk.to_le_bytes()),
                Level(security_level)
            ),
            Call::UpdateBondInformation(bond) => write!(f, "{}", Shown(bond)),
            Call::SendPacket(_) | Call::Ask(_) | Call::Draw(_) | Call::EnableBondedEncryption => {
                Ok(())
            }
        }
    }
}

// What became of the pairing.
fn verdict(terminal: Phase, head: Phase) -> &'static str {
    match (terminal, head) {
        (Phase::Success, Phase::Success) => "Both ends are paired.",
        (Phase::Success, Phase::WaitingIdentitityInformation) => {
            "The head waits for the terminal's identity key, which nobody sends: \
             the terminal has finished."
        }
        _ => "The ends are not paired.",
    }
}

// An end's address and feature record.
fn party(rt: &impl Print, role: Role, host: &Host) -> io::Result<()> {
    let address = Shown(host.address);
    println!(rt;
        "{:<10}{address}  {}",
        end_name(role),
        Shown(host.local_features)
    )
}

impl<R: Print> Trace for Text<'_, R> {
    fn start(&self, title: Title, ends: &Ends<End>, is_late: bool) -> io::Result<()> {
        let rt = self.0;
        println!(rt; "{title}")?;
        party(rt, Role::Central, &ends.terminal.host)?;
        party(rt, Role::Peripheral, &ends.head.host)?;
        let order = if is_late {
            "late, after packets"
        } else {
            "at once, before packets"
        };
        println!(rt;
            "Events come {order}. Octets are in hexadecimal, the least significant first, as on the air. \
             All verdicts of the hosts are 0.\n"
        )
    }

    fn input(&self, n: u64, role: Role, phase: Phase, given: Given) -> io::Result<()> {
        let note = if is_early(phase, given) {
            "  (early: the passkey is still being typed; the head stores it)"
        } else {
            ""
        };
        println!(self.0; "{n:>2}  {:<18}{given}{note}", route(role, given))
    }

    fn call(&self, call: Call, answer: Answer) -> io::Result<()> {
        let kind = call.kind();
        match call {
            Call::SendPacket(_) => Ok(()),
            // the one line with nothing after the name
            Call::SendConnectionEvent(ConnectionEvent::BondLost) => {
                println!(self.0; "      0x{kind:02X} {}", call_name(call))
            }
            _ => println!(self.0;
                "      0x{kind:02X} {:<23}{}{answer}",
                call_name(call),
                Shown(call)
            ),
        }
    }

    fn refused(&self, e: StepError) -> io::Result<()> {
        println!(self.0; "      the step is refused by {}", u8::from(e))
    }

    fn state(&self, role: Role, before: Phase, after: Phase) -> io::Result<()> {
        let end = end_name(role);
        let old = state_name(before);
        let new = state_name(after);
        if old == new {
            println!(self.0; "      {end} stays in {new}")
        } else {
            println!(self.0; "      {end}: {old} -> {new}")
        }
    }

    // Between them the method, and the level and key size that encryption was called for with.
    fn summary(&self, ends: &Ends<End>, inputs: u64) -> io::Result<()> {
        let rt = self.0;
        let terminal = ends.terminal.machine;
        let head = ends.head.machine;
        println!(rt; "\nterminal  {}", state_name(terminal.phase))?;
        println!(rt; "head      {}", state_name(head.phase))?;
        println!(rt; "method    {}", Shown(terminal.pairing_data.pairing_method))?;
        println!(rt; "level     {}", Level(ends.terminal.security_level))?;
        println!(rt; "key size  {}", ends.terminal.encryption_key_len)?;
        println!(rt; "inputs    {inputs}")?;
        println!(rt; "{}", verdict(terminal.phase, head.phase))
    }
}
