// pairing/mod.rs: the data of a pairing and the inputs of a step. A state of the Rust that holds arrays is a phase here,
// beside one record of what those states hold.
#![tactic(auto)]

ghost use Rattle.std.specs.Prelude.{◌≡◌};
ghost use Rattle.machine.specs.Machine.{new_data, want_bonding, no_confirm_data, kept_by, result_of, is_encrypted, new_machine, lesc_switch, security_level_of};

use bond::{Address, BondInformation, Error};
use crypto::{Confirm, LongTermKey, Nonce};
use smp_types::{BondingFlag, Command, IoCapabilities, PairingFeatures};
use util::PairingMethod;

// The end that a machine stands for.
#[derive(Clone, Copy, PartialEq, Eq)]
pub enum Role {
    // the terminal, initiator
    Central,
    // the head, responder
    Peripheral,
}

#[derive(Clone, Copy, PartialEq, Eq)]
pub struct PairingData {
    pub local_address: Address,
    pub peer_address: Address,
    pub local_features: PairingFeatures,
    pub peer_features: PairingFeatures,
    pub pairing_method: PairingMethod,
    pub bond_information: Option<BondInformation>,
}

impl PairingData {
    #[tactic(auto, unfolding(crate::specs::Machine::new_data))]
    pub fn new(
        local_address: Address,
        peer_address: Address,
        local_io: IoCapabilities,
    ) -> PairingData
        ensures { result ≡ new_data local_address peer_address local_io }
    {
        let features = PairingFeatures::default();
        PairingData {
            local_address,
            peer_address,
            local_features: PairingFeatures {
                io_capabilities: local_io,
                ..features
            },
            peer_features: features,
            pairing_method: PairingMethod::JustWorks,
            bond_information: None,
        }
    }

    #[tactic(auto, unfolding(crate::specs::Machine::want_bonding))]
    pub fn want_bonding(self) -> bool
        ensures { result ≡ want_bonding self }
    {
        self.local_features.security_properties.bond() == BondingFlag::Bonding
            && self.peer_features.security_properties.bond() == BondingFlag::Bonding
    }
}

// Data needed during the confirm/random exchange phase of legacy pairing.
#[derive(Clone, Copy, PartialEq, Eq)]
pub struct ConfirmPhaseData {
    // TK: 0 for JustWorks, passkey value for PassKey Entry
    pub tk: u128,
    // Pairing Request command octets (opcode and 6 feature octets)
    pub preq: [u8; 7],
    // Pairing Response command octets (opcode and 6 feature octets)
    pub pres: [u8; 7],
    // Mrand at the central, Srand at the peripheral
    pub local_nonce: Nonce,
}

// A state of either role, without the arrays that it holds: those stand in `ConfirmPhaseData`.
// One type for both roles: docs/DIFFERENCES.md has why.
#[derive(Clone, Copy, PartialEq, Eq)]
pub enum Phase {
    // the peripheral's first state
    WaitingPairingRequest,
    // the central's first state
    WaitingPairingResponse,
    WaitingPassKeyInput {
        // the confirm value that came while the passkey was typed
        confirm_bytes: Option<Confirm>,
    },
    WaitingOobData,
    WaitingPairingConfirm,
    WaitingPairingRandom {
        peer_confirm: Confirm,
    },
    WaitingLinkEncrypted,
    WaitingIdentitityInformation,
    WaitingIdentitityAddressInformation,
    ReceivingKeys {
        phase: u8,
        received_ltk: LongTermKey,
    },
    Success,
    Error(Error),
}

impl Phase {
    // None while the pairing goes on.
    pub fn result(self) -> Option<Result<(), Error>>
        ensures { result ≡ result_of self }
    {
        match self {
            Phase::Success => Some(Ok(())),
            Phase::Error(e) => Some(Err(e)),
            _ => None,
        }
    }

    pub fn is_encrypted(self) -> bool
        ensures { result ≡ is_encrypted self }
    {
        matches!(
            self,
            Phase::WaitingIdentitityInformation
                | Phase::WaitingIdentitityAddressInformation
                | Phase::ReceivingKeys { .. }
                | Phase::Success
        )
    }
}

impl Default for ConfirmPhaseData {
    ghost is_default = { λ zeros. zeros ≡ no_confirm_data };

    // Zeros: what a state holds that holds none of it.
    fn default() -> Self {
        Self {
            tk: 0,
            preq: [0; 7],
            pres: [0; 7],
            local_nonce: Nonce(0),
        }
    }
}

impl ConfirmPhaseData {
    // What the state of a phase holds of it, and zeros for the rest.
    pub fn kept_by(self, phase: Phase) -> ConfirmPhaseData
        ensures { result ≡ kept_by phase self }
    {
        let none = ConfirmPhaseData::default();
        let preq = self.preq;
        let pres = self.pres;
        match phase {
            Phase::WaitingPairingResponse => ConfirmPhaseData { preq, ..none },
            Phase::WaitingPassKeyInput { .. } | Phase::WaitingOobData => ConfirmPhaseData {
                preq,
                pres,
                ..none
            },
            Phase::WaitingPairingConfirm | Phase::WaitingPairingRandom { .. } => self,
            _ => none,
        }
    }
}

// A pairing machine of either role.
#[derive(Clone, Copy, PartialEq, Eq)]
pub struct Machine {
    pub phase: Phase,
    pub confirm_data: ConfirmPhaseData,
    pub pairing_data: PairingData,
}

impl Machine {
    // The peripheral's machine, waiting for the request.
    #[tactic(auto, unfolding(crate::specs::Machine::new_machine))]
    pub fn new(pairing_data: PairingData) -> Machine
        ensures { result ≡ new_machine pairing_data }
    {
        Machine {
            phase: Phase::WaitingPairingRequest,
            confirm_data: ConfirmPhaseData::default(),
            pairing_data,
        }
    }

    // The central's machine, from an already sent PairingRequest, which had its local features.
    #[tactic(auto, unfolding(crate::specs::Machine::lesc_switch))]
    pub fn from_lesc_switch(pairing_data: PairingData) -> Machine
        ensures { result ≡ lesc_switch pairing_data }
    {
        let [a, b, c, d, e, f] = pairing_data.local_features.encode();
        Machine {
            phase: Phase::WaitingPairingResponse,
            confirm_data: ConfirmPhaseData {
                preq: [u8::from(Command::PairingRequest), a, b, c, d, e, f],
                ..ConfirmPhaseData::default()
            },
            pairing_data,
        }
    }

    // Another state is entered, with what it holds of the confirm data; the rest is zero.
    pub fn enters(&mut self, phase: Phase)
        ensures { self.new
            ≡ record {
              phase = phase;
              confirm_data = kept_by phase self.old.confirm_data;
              pairing_data = self.old.pairing_data;
            } }
    {
        self.phase = phase;
        self.confirm_data = self.confirm_data.kept_by(phase);
    }

    pub fn result(self) -> Option<Result<(), Error>>
        ensures { result ≡ result_of self.phase }
    {
        self.phase.result()
    }

    // The level of the bond where the link is encrypted; 0 stands for no encryption.
    // A number: a bond of the host keeps the level that the host gave, any octet.
    #[tactic(auto, unfolding(crate::specs::Machine::security_level_of))]
    pub fn security_level(self) -> u8
        ensures { result ≡ security_level_of self }
    {
        match self.pairing_data.bond_information {
            Some(bond) if self.phase.is_encrypted() => bond.security_level,
            _ => 0,
        }
    }

    pub fn bond_information(self) -> Option<BondInformation>
        ensures { result ≡ self.pairing_data.bond_information }
    {
        self.pairing_data.bond_information
    }
}

// An event of the host that is an input.
#[derive(Clone, Copy, PartialEq, Eq)]
pub enum Event {
    LinkEncryptedResult(bool),
    PassKeyConfirm,
    PassKeyCancel,
    PassKeyInput(u32),
    // `local.random`
    OobDataReceived(u128),
}

// An input of a step: a command code, any octet, whose payload is lent beside it; or an event.
#[derive(Clone, Copy, PartialEq, Eq)]
pub enum Input {
    Command(u8),
    Event(Event),
}
