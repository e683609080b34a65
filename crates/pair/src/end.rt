// One end of the fair link: its host and its machine, the packets that it has sent, and the events due at it.
use crate::hosts::{Host, HostEvent};
use crate::packet::Packet;
use arrayvec::ArrayVec;
use c_steps::fresh_machine;
use host_calls::{Call, ConnectionEvent};
use machine::{Input, Machine, Role};
use smp_types::PairingFeatures;
use std::fmt;

// Whether an event was called for, and taken.
#[derive(Clone, Copy, PartialEq, Eq)]
pub(crate) enum Timing {
    NotYet,
    Due,
    Taken,
}

impl Timing {
    // The first call of its kind makes an event due.
    fn call(&mut self) {
        if *self == Timing::NotYet {
            *self = Timing::Due;
        }
    }
}

// What an end gets as an input.
#[derive(Clone, Copy)]
pub(crate) enum Given {
    Packet(Packet),
    Event(HostEvent),
}

impl Given {
    pub(crate) fn input(self) -> Input {
        match self {
            Given::Packet(packet) => Input::Command(u8::from(packet.command())),
            Given::Event(event) => Input::Event(event.into()),
        }
    }

    pub(crate) fn payload(self) -> ArrayVec<u8, 16> {
        match self {
            Given::Packet(packet) => packet.payload(),
            Given::Event(_) => ArrayVec::new(),
        }
    }
}

impl fmt::Display for Given {
    fn fmt<W: fmt::Write>(&self, f: &mut fmt::Formatter<W>) -> fmt::Result {
        match self {
            Given::Packet(packet) => write!(f, "{packet}"),
            Given::Event(event) => write!(f, "{event}"),
        }
    }
}

#[derive(Drop)]
pub(crate) struct End {
    pub role: Role,
    pub host: Host,
    pub machine: Machine,
    // packets on their way to the other end, the oldest first
    pub sent: ArrayVec<Packet, 18>,
    pub pass_key: Timing,
    pub oob_data: Timing,
    pub report: Timing,
    // of its call for encryption; zeros before it, as they are printed
    pub security_level: u8,
    pub encryption_key_len: u8,
}

impl End {
    // An end that begins a pairing.
    pub(crate) fn new(role: Role, features: PairingFeatures) -> End {
        let host = Host::new(role, features);
        End {
            role,
            host,
            machine: fresh_machine(role, host.address, host.peer_address, features),
            sent: ArrayVec::new(),
            pass_key: Timing::NotYet,
            oob_data: Timing::NotYet,
            report: Timing::NotYet,
            security_level: 0,
            encryption_key_len: 0,
        }
    }

    // A packet is on its way. There is room: a fair run has at most 18 inputs.
    pub(crate) fn send(&mut self, packet: Packet) {
        let _ = self.sent.try_push(packet);
    }

    // What a call of the machine changes at the end.
    pub(crate) fn called(&mut self, call: Call) {
        match call {
            Call::SendPacket(packet) => self.send(Packet::Sent(packet)),
            Call::SendConnectionEvent(ConnectionEvent::PassKeyInput) => self.pass_key.call(),
            Call::SendConnectionEvent(ConnectionEvent::OobRequest) => self.oob_data.call(),
            Call::EnableEncryption {
                security_level,
                encryption_key_len,
                ..
            } => {
                self.report.call();
                self.security_level = security_level;
                self.encryption_key_len = encryption_key_len;
            }
            _ => {}
        }
    }

    // An event that may be taken.
    pub(crate) fn event_due(&self, may_take_oob_data: bool) -> Option<HostEvent> {
        if self.report == Timing::Due {
            Some(HostEvent::EncryptionOn)
        } else if self.pass_key == Timing::Due {
            Some(HostEvent::PassKeyTyped)
        } else if self.oob_data == Timing::Due && may_take_oob_data {
            Some(HostEvent::OobDataGiven)
        } else {
            None
        }
    }

    // An event is due no more.
    pub(crate) fn take_event(&mut self, event: HostEvent) {
        match event {
            HostEvent::EncryptionOn => self.report = Timing::Taken,
            HostEvent::PassKeyTyped => self.pass_key = Timing::Taken,
            HostEvent::OobDataGiven => self.oob_data = Timing::Taken,
        }
    }
}
