ghost use Rattle.std.specs.Prelude.{◌≡◌, ◌⊎◌};
ghost use Rattle.util.specs.Method.{level_code, security_level, io_method, legacy_method};

use crate::connection::SecurityLevel;
use smp_types::IoCapabilities::{
    DisplayOnly, DisplayYesNo, KeyboardDisplay, KeyboardOnly, NoInputNoOutput,
};
use smp_types::{IoCapabilities, PairingFeatures};

#[derive(Clone, Copy, PartialEq, Eq)]
pub enum PassKeyEntryAction {
    Display,
    Input,
}

#[derive(Clone, Copy, PartialEq, Eq)]
pub enum PairingMethod {
    JustWorks,
    NumericComparison,
    PassKeyEntry {
        central: PassKeyEntryAction,
        peripheral: PassKeyEntryAction,
    },
    OutOfBand,
}

impl PairingMethod {
    const CENTRAL_DISPLAYS: Self = Self::PassKeyEntry {
        central: PassKeyEntryAction::Display,
        peripheral: PassKeyEntryAction::Input,
    };

    const PERIPHERAL_DISPLAYS: Self = Self::PassKeyEntry {
        central: PassKeyEntryAction::Input,
        peripheral: PassKeyEntryAction::Display,
    };

    const BOTH_INPUT: Self = Self::PassKeyEntry {
        central: PassKeyEntryAction::Input,
        peripheral: PassKeyEntryAction::Input,
    };

    pub fn security_level(self) -> SecurityLevel
        ensures { level_code result ≡ security_level self }
    {
        match self {
            PairingMethod::JustWorks => SecurityLevel::Encrypted,
            _ => SecurityLevel::EncryptedAuthenticated,
        }
    }
}

// LE Legacy Pairing method selection. There is no Numeric Comparison: DisplayYesNo on both sides is Just Works.
#[tactic(auto, unfolding(crate::specs::Method::legacy_method))]
pub fn choose_legacy_pairing_method(
    central: PairingFeatures,
    peripheral: PairingFeatures,
) -> PairingMethod
    ensures value { result ≡ legacy_method central peripheral }
    ensures known { (result ≡ PairingMethod.JustWorks) ⊎ (result ≡ PairingMethod.CENTRAL_DISPLAYS)
        ⊎ (result ≡ PairingMethod.PERIPHERAL_DISPLAYS) ⊎ (result ≡ PairingMethod.BOTH_INPUT)
        ⊎ (result ≡ PairingMethod.OutOfBand) }
{
    if bool::from(central.use_oob) && bool::from(peripheral.use_oob) {
        PairingMethod::OutOfBand
    } else if !central.security_properties.man_in_the_middle()
        && !peripheral.security_properties.man_in_the_middle()
    {
        PairingMethod::JustWorks
    } else {
        method_of_io(central.io_capabilities, peripheral.io_capabilities)
    }
}

// The method by the I/O capabilities of both sides
fn method_of_io(central: IoCapabilities, peripheral: IoCapabilities) -> PairingMethod
    ensures { result ≡ io_method central peripheral }
{
    match (central, peripheral) {
        (NoInputNoOutput, _) | (_, NoInputNoOutput) => PairingMethod::JustWorks,
        (DisplayOnly | DisplayYesNo, DisplayOnly | DisplayYesNo) => PairingMethod::JustWorks,
        (DisplayOnly | DisplayYesNo, KeyboardOnly | KeyboardDisplay) => {
            PairingMethod::CENTRAL_DISPLAYS
        }
        (KeyboardOnly | KeyboardDisplay, DisplayOnly | DisplayYesNo) => {
            PairingMethod::PERIPHERAL_DISPLAYS
        }
        (KeyboardOnly, KeyboardOnly) => PairingMethod::BOTH_INPUT,
        (KeyboardOnly, KeyboardDisplay) => PairingMethod::PERIPHERAL_DISPLAYS,
        (KeyboardDisplay, KeyboardOnly | KeyboardDisplay) => PairingMethod::CENTRAL_DISPLAYS,
    }
}
