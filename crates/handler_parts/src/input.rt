// Inputs: whether one is what a state awaits, and what becomes of any other.
ghost use Rattle.std.specs.Prelude.{◌≡◌};
ghost use Rattle.protocol.specs.Program.{ret};
ghost use Rattle.protocol.specs.Handlers.{other_input};
ghost use Rattle.handler_parts.specs.Inputs.{is_command, link_encrypted_in, pass_key_in, is_pass_key_cancel, oob_data_in};
ghost use Rattle.handler_parts.specs.Outcomes.{tried};

use crate::payload::read_reason;
use bond::Error;
use machine::{Event, Input, Machine};
use smp_types::Command;

// An input as the Rust has it, `Input::Command(Command, &[u8])`: with the payload that is lent beside its code.
#[derive(Clone, Copy)]
pub struct Received<'a> {
    pub input: Input,
    pub payload: &'a [u8],
}

impl<'a> Received<'a> {
    pub fn is_command(self, command: Command) -> bool
        ensures { result ≡ is_command command self.entry.input }
    {
        matches!(self.input, Input::Command(code) if code == u8::from(command))
    }

    // The host's report on encryption.
    pub fn link_encrypted(self) -> Option<bool>
        ensures { result ≡ link_encrypted_in self.entry.input }
    {
        match self.input {
            Input::Event(Event::LinkEncryptedResult(encrypted)) => Some(encrypted),
            _ => None,
        }
    }

    pub fn pass_key_input(self) -> Option<u32>
        ensures { result ≡ pass_key_in self.entry.input }
    {
        match self.input {
            Input::Event(Event::PassKeyInput(typed)) => Some(typed),
            _ => None,
        }
    }

    pub fn is_pass_key_cancel(self) -> bool
        ensures { result ≡ is_pass_key_cancel self.entry.input }
    {
        matches!(self.input, Input::Event(Event::PassKeyCancel))
    }

    pub fn oob_data_received(self) -> Option<u128>
        ensures { result ≡ oob_data_in self.entry.input }
    {
        match self.input {
            Input::Event(Event::OobDataReceived(random)) => Some(random),
            _ => None,
        }
    }
}

// An input that the state does not await: KeypressNotification and passkey events leave the state, PairingFailed is the
// peer's error, all others are InvalidState.
#[tactic(auto, unfolding(protocol::specs::Handlers::other_input))]
pub fn other_input(machine: &Machine, received: Received<'_>) -> Result<(), Error>
    ensures { ret (tried machine.now result)
        ≡ other_input machine.now received.entry.payload.now received.entry.input }
{
    match received.input {
        Input::Command(code) => match Command::try_from(code) {
            Ok(Command::KeypressNotification) => Ok(()),
            Ok(Command::PairingFailed) => Err(Error::Security(read_reason(received.payload))),
            _ => Err(Error::InvalidState),
        },
        Input::Event(Event::PassKeyConfirm | Event::PassKeyCancel | Event::PassKeyInput(_)) => Ok(
            (),
        ),
        Input::Event(Event::LinkEncryptedResult(_) | Event::OobDataReceived(_)) => {
            Err(Error::InvalidState)
        }
    }
}
