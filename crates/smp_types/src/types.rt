ghost use Rattle.std.specs.Prelude.{◌≡◌, eqb};
ghost use Rattle.std.specs.Int.Bits.{bit_and};
ghost use Rattle.smp_types.specs.Types.{reason_code, reason_of, command_code, payload_size, command_of, command_answer};
ghost use Rattle.smp_types.specs.Types.{oob_code, oob_of, oob_answer, oob_present, bonding_flag, bonding_code, bonding_of, flag, with_flag};
ghost use Rattle.smp_types.specs.Types.{mitm_flag, secure_connection_flag, key_press_flag, ct2_flag};
ghost use Rattle.smp_types.specs.Types.{encryption_key_flag, identity_key_flag, signing_key_flag, link_key_flag};
ghost use Rattle.smp_types.specs.Types.{feature_size, default_features, feature_octets, any_size_features_of, any_size_answer, features_of, decoded_answer};

use crate::capabilities::IoCapabilities;
use crate::codec;
use crate::error::InvalidValue;

// Pairing Failed Reason ([Vol 3] Part H, Section 3.5.5).
#[derive(Clone, Copy, PartialEq, Eq)]
pub enum Reason {
    // Pairing success
    Success = 0x00,
    // The user input of passkey failed, for example, the user cancelled the operation.
    PasskeyEntryFailed = 0x01,
    // The OOB data is not available.
    OobNotAvailable = 0x02,
    // Authentication requirements cannot be met due to IO capabilities of one or both devices.
    AuthenticationRequirements = 0x03,
    // The confirm value does not match the calculated compare value.
    ConfirmValueFailed = 0x04,
    // Pairing is not supported by the device.
    PairingNotSupported = 0x05,
    // The resultant encryption key size is not long enough for the security requirements of this device.
    EncryptionKeySize = 0x06,
    // The SMP command received is not supported on this device.
    CommandNotSupported = 0x07,
    // Pairing failed due to an unspecified reason.
    UnspecifiedReason = 0x08,
    // Too little time has elapsed since last pairing request or security request.
    RepeatedAttempts = 0x09,
    // The command length is invalid or a parameter is outside of the specified range.
    InvalidParameters = 0x0a,
    // The DHKey Check value received doesn't match the one calculated by the local device.
    DHKeyCheckFailed = 0x0b,
    // The confirm values in the numeric comparison protocol do not match.
    NumericComparisonFailed = 0x0c,
    // A Pairing Request sent over the BR/EDR transport is in progress.
    BrEdrPairingInProgress = 0x0d,
    // A key generated on one transport cannot be used to derive a key for the other.
    GenerationNotAllowed = 0x0e,
    // The device chose not to accept a distributed key.
    KeyRejected = 0x0f,
    // The device is not ready to perform a pairing procedure.
    Busy = 0x10,
}

impl From<u8> for Reason {
    ghost from_gives = { λ val reason. reason ≡ reason_of val };

    // What is no code of a reason, 0 among them, is read as UnspecifiedReason.
    fn from(val: u8) -> Reason {
        match val {
            // Do not convert 0 to Success
            0x01 => Reason::PasskeyEntryFailed,
            0x02 => Reason::OobNotAvailable,
            0x03 => Reason::AuthenticationRequirements,
            0x04 => Reason::ConfirmValueFailed,
            0x05 => Reason::PairingNotSupported,
            0x06 => Reason::EncryptionKeySize,
            0x07 => Reason::CommandNotSupported,
            0x08 => Reason::UnspecifiedReason,
            0x09 => Reason::RepeatedAttempts,
            0x0a => Reason::InvalidParameters,
            0x0b => Reason::DHKeyCheckFailed,
            0x0c => Reason::NumericComparisonFailed,
            0x0d => Reason::BrEdrPairingInProgress,
            0x0e => Reason::GenerationNotAllowed,
            0x0f => Reason::KeyRejected,
            0x10 => Reason::Busy,
            _ => Reason::UnspecifiedReason,
        }
    }
}

impl From<Reason> for u8 {
    ghost from_gives = { λ reason code. code ≡ reason_code reason };

    fn from(val: Reason) -> u8 {
        val as u8
    }
}

// Security Manager Protocol (SMP) Command ([Vol 3] Part H, Sections 3.5 and 3.6)
#[derive(Clone, Copy, PartialEq, Eq)]
pub enum Command {
    // Pairing Request (3.5.1)
    PairingRequest = 0x01,
    // Pairing Response (3.5.2)
    PairingResponse = 0x02,
    // Pairing Confirm (3.5.3)
    PairingConfirm = 0x03,
    // Pairing Random (3.5.4)
    PairingRandom = 0x04,
    // Pairing Failed (3.5.5)
    PairingFailed = 0x05,
    // Encryption Information, Long Term Key (LTK) (3.6.2)
    EncryptionInformation = 0x06,
    // Central Identification, Encrypted Diversifier (EDIV) and Random Number (Rand) (3.6.3)
    CentralIdentification = 0x07,
    // Identity Information, Identity Resolving Key (IRK) (3.6.4)
    IdentityInformation = 0x08,
    // Identity Address Information, Bluetooth Device Address (BD_ADDR) (3.6.5)
    IdentityAddressInformation = 0x09,
    // Signing Information, Connection Signature Resolving Key (CSRK) (3.6.6)
    SigningInformation = 0x0a,
    // Security Request (3.6.7)
    SecurityRequest = 0x0b,
    // Pairing Public Key (3.5.6)
    PairingPublicKey = 0x0c,
    // Pairing DH key check (3.5.7)
    PairingDhKeyCheck = 0x0d,
    // Key Press Notification (3.5.8)
    KeypressNotification = 0x0e,
}

impl Command {
    // Command payload size excluding command octet
    pub fn payload_size(self) -> u16
        ensures { result ≡ payload_size self }
    {
        match self {
            Command::PairingRequest | Command::PairingResponse => 6,
            Command::PairingConfirm
            | Command::PairingRandom
            | Command::EncryptionInformation
            | Command::IdentityInformation
            | Command::SigningInformation
            | Command::PairingDhKeyCheck => 16,
            Command::CentralIdentification => 10,
            Command::IdentityAddressInformation => 7,
            Command::PairingPublicKey => 64,
            Command::PairingFailed | Command::SecurityRequest | Command::KeypressNotification => 1,
        }
    }
}

impl From<Command> for u8 {
    ghost from_gives = { λ command code. code ≡ command_code command };

    fn from(value: Command) -> u8 {
        value as u8
    }
}

impl TryFrom<u8> for Command {
    type Error = InvalidValue;

    ghost try_from_gives = { λ value r. command_answer r ≡ command_of value };

    fn try_from(value: u8) -> Result<Self, InvalidValue> {
        Ok(match value {
            0x01 => Command::PairingRequest,
            0x02 => Command::PairingResponse,
            0x03 => Command::PairingConfirm,
            0x04 => Command::PairingRandom,
            0x05 => Command::PairingFailed,
            0x06 => Command::EncryptionInformation,
            0x07 => Command::CentralIdentification,
            0x08 => Command::IdentityInformation,
            0x09 => Command::IdentityAddressInformation,
            0x0a => Command::SigningInformation,
            0x0b => Command::SecurityRequest,
            0x0c => Command::PairingPublicKey,
            0x0d => Command::PairingDhKeyCheck,
            0x0e => Command::KeypressNotification,
            _ => return Err(InvalidValue),
        })
    }
}

// A passkey, or a value for use in numeric comparison
#[derive(Clone, Copy, PartialEq, Eq)]
pub struct PassKey(pub u32);

impl PassKey {
    // Get the underlying value as an integer.
    pub fn value(self) -> u32
        ensures { result ≡ self.0 }
    {
        self.0
    }
}

// Out of band (OOB) authentication data ([Vol 3] Part H, Section 2.3.3).
#[derive(Clone, Copy, PartialEq, Eq)]
pub enum UseOutOfBand {
    // OOB not present
    NotPresent = 0x00,
    // OOB present
    Present = 0x01,
}

impl TryFrom<u8> for UseOutOfBand {
    type Error = InvalidValue;

    ghost try_from_gives = { λ val r. oob_answer r ≡ oob_of val };

    fn try_from(val: u8) -> Result<Self, InvalidValue> {
        Ok(match val {
            0x00 => UseOutOfBand::NotPresent,
            0x01 => UseOutOfBand::Present,
            _ => return Err(InvalidValue),
        })
    }
}

impl From<UseOutOfBand> for u8 {
    ghost from_gives = { λ oob code. code ≡ oob_code oob };

    fn from(val: UseOutOfBand) -> u8 {
        val as u8
    }
}

impl From<UseOutOfBand> for bool {
    ghost from_gives = { λ oob present. present ≡ oob_present oob };

    fn from(val: UseOutOfBand) -> bool {
        val == UseOutOfBand::Present
    }
}

// Bit field indicating the type of bonding requested ([Vol 3] Part H, Section 3.5.1).
#[derive(Clone, Copy, PartialEq, Eq)]
pub enum BondingFlag {
    // No bonding
    NoBonding = 0x00,
    // Bonding
    Bonding = 0x01,
}

impl From<bool> for BondingFlag {
    ghost from_gives = { λ bonding flag. flag ≡ bonding_flag bonding };

    fn from(bonding: bool) -> BondingFlag {
        if bonding {
            BondingFlag::Bonding
        } else {
            BondingFlag::NoBonding
        }
    }
}

impl From<BondingFlag> for u8 {
    ghost from_gives = { λ bonding code. code ≡ bonding_code bonding };

    fn from(val: BondingFlag) -> u8 {
        val as u8
    }
}

// Whether `octet` has the bit of `flag`.
fn has(octet: u8, flag: u8) -> bool
    ensures { result ≡ eqb (bit_and octet flag) flag }
{
    (octet & flag) == flag
}

// AuthReq octet ([Vol 3] Part H, Section 3.5.1).
// No bitflags: each getter has the name that the Rust gives it, and the field may hold any octet.
#[derive(Clone, Copy, PartialEq, Eq)]
pub struct AuthReq(pub u8);

// The bits of the bonding flag
const AUTH_REQ_BONDING: u8 = 0b0000_0011;

// Man in the middle (MITM) protection requested
const AUTH_REQ_MITM: u8 = 0b0000_0100;

// LE Secure Connections supported
const AUTH_REQ_SECURE_CONNECTION: u8 = 0b0000_1000;

// Keypress notification during Passkey entry protocol
const AUTH_REQ_KEY_PRESS: u8 = 0b0001_0000;

// Support for the h7 function
const AUTH_REQ_CT2: u8 = 0b0010_0000;

impl AuthReq {
    // Build a AuthReq octet
    pub fn new(bonding: BondingFlag) -> Self
        ensures { result ≡ record { 0 = with_flag secure_connection_flag (bonding_code bonding) } }
    {
        AuthReq(u8::from(bonding) | AUTH_REQ_SECURE_CONNECTION)
    }

    // Build a AuthReq octet for LE Legacy Pairing
    pub fn new_legacy(bonding: BondingFlag) -> Self
        ensures { result ≡ record { 0 = bonding_code bonding } }
    {
        AuthReq(u8::from(bonding))
    }

    // Set the MITM flag
    pub fn with_mitm(mut self) -> Self
        ensures { result ≡ record { 0 = with_flag mitm_flag self.0 } }
    {
        self.0 |= AUTH_REQ_MITM;
        self
    }

    // Bond requested
    pub fn bond(self) -> BondingFlag
        ensures { result ≡ bonding_of self.0 }
    {
        BondingFlag::from((self.0 & AUTH_REQ_BONDING) == 0x01)
    }

    // Man in the middle (MITM) protection requested
    pub fn man_in_the_middle(self) -> bool
        ensures { result ≡ flag mitm_flag self.0 }
    {
        has(self.0, AUTH_REQ_MITM)
    }

    // LE Secure Connections supported
    pub fn secure_connection(self) -> bool
        ensures { result ≡ flag secure_connection_flag self.0 }
    {
        has(self.0, AUTH_REQ_SECURE_CONNECTION)
    }

    // Keypress notification during Passkey entry protocol
    pub fn key_press_notification(self) -> bool
        ensures { result ≡ flag key_press_flag self.0 }
    {
        has(self.0, AUTH_REQ_KEY_PRESS)
    }

    // Support for the h7 function
    pub fn ct2(self) -> bool
        ensures { result ≡ flag ct2_flag self.0 }
    {
        has(self.0, AUTH_REQ_CT2)
    }
}

// Key Distribution Flags ([Vol 3] Part H, Section 3.6.1).
// Each getter and setter is one line, under the name that the Rust gives it.
// No bitflags, for the same reason as with `AuthReq`.
#[derive(Clone, Copy, PartialEq, Eq)]
pub struct KeyDistributionFlags(pub u8);

impl KeyDistributionFlags {
    // Distribute Long Term Key (LTK)
    pub const ENCRYPTION_KEY: u8 = 0b0000_0001;
    // Distribute Identity Resolving Key (IRK)
    pub const IDENTITY_KEY: u8 = 0b0000_0010;
    // Distribute Connection Signature Resolving Key (CSRK)
    pub const SIGNING_KEY: u8 = 0b0000_0100;
    // Distribute Link Key derived from Long Term Key (LTK)
    pub const LINK_KEY: u8 = 0b0000_1000;

    // Encryption key flag
    pub fn encryption_key(self) -> bool
        ensures { result ≡ flag encryption_key_flag self.0 }
    {
        has(self.0, Self::ENCRYPTION_KEY)
    }

    // Identity key flag
    pub fn identity_key(self) -> bool
        ensures { result ≡ flag identity_key_flag self.0 }
    {
        has(self.0, Self::IDENTITY_KEY)
    }

    // Signing key flag
    pub fn signing_key(self) -> bool
        ensures { result ≡ flag signing_key_flag self.0 }
    {
        has(self.0, Self::SIGNING_KEY)
    }

    // Link key flag
    pub fn link_key(self) -> bool
        ensures { result ≡ flag link_key_flag self.0 }
    {
        has(self.0, Self::LINK_KEY)
    }

    // Set the encryption key flag
    pub fn set_encryption_key(mut self) -> Self
        ensures { result ≡ record { 0 = with_flag encryption_key_flag self.0 } }
    {
        self.0 |= Self::ENCRYPTION_KEY;
        self
    }

    // Set the identity key flag
    pub fn set_identity_key(mut self) -> Self
        ensures { result ≡ record { 0 = with_flag identity_key_flag self.0 } }
    {
        self.0 |= Self::IDENTITY_KEY;
        self
    }

    // Set the signing key flag
    pub fn set_signing_key(mut self) -> Self
        ensures { result ≡ record { 0 = with_flag signing_key_flag self.0 } }
    {
        self.0 |= Self::SIGNING_KEY;
        self
    }

    // Set the link key flag
    pub fn set_link_key(mut self) -> Self
        ensures { result ≡ record { 0 = with_flag link_key_flag self.0 } }
    {
        self.0 |= Self::LINK_KEY;
        self
    }
}

// Pairing features used in pairing request and pairing response ([Vol 3] Part H, Sections 3.5.1 and 3.5.2)
#[derive(Clone, Copy, PartialEq, Eq)]
pub struct PairingFeatures {
    pub io_capabilities: IoCapabilities,
    pub use_oob: UseOutOfBand,
    pub security_properties: AuthReq,
    pub maximum_encryption_key_size: u8,
    pub initiator_key_distribution: KeyDistributionFlags,
    pub responder_key_distribution: KeyDistributionFlags,
}

// The least and the largest encryption key size, in octets ([Vol 3] Part H, Section 3.5.1)
const ENCRYPTION_KEY_SIZE_MIN: u8 = 7;

const ENCRYPTION_KEY_SIZE_128_BITS: u8 = 16;

impl PairingFeatures {
    pub fn payload_size() -> usize
        ensures { result ≡ feature_size }
    {
        Command::PairingRequest.payload_size() as usize
    }

    pub fn encode(self) -> [u8; 6]
        ensures { result ≡ feature_octets self }
    {
        [
            u8::from(self.io_capabilities),
            u8::from(self.use_oob),
            self.security_properties.0,
            self.maximum_encryption_key_size,
            self.initiator_key_distribution.0,
            self.responder_key_distribution.0,
        ]
    }

    #[tactic(auto, unfolding(crate::specs::Types::features_of))]
    pub fn decode(source: &[u8]) -> Result<Self, codec::Error>
        ensures { decoded_answer result ≡ features_of source.now }
    {
        let &[io, oob, security, size, initiator, responder, ..] = source else {
            return Err(codec::Error::InsufficientSpace);
        };
        let features = Self::try_from([io, oob, security, size, initiator, responder])?;
        if !matches!(size, ENCRYPTION_KEY_SIZE_MIN..=ENCRYPTION_KEY_SIZE_128_BITS) {
            return Err(codec::Error::InvalidValue);
        }
        Ok(features)
    }
}

// The features of six octets, of any key size: `decode` tests the size as well.
impl TryFrom<[u8; 6]> for PairingFeatures {
    type Error = InvalidValue;

    ghost try_from_gives = { λ octets r. any_size_answer r ≡ any_size_features_of octets };

    fn try_from(octets: [u8; 6]) -> Result<Self, InvalidValue> {
        let [io, oob, security, size, initiator, responder] = octets;
        Ok(Self {
            io_capabilities: IoCapabilities::try_from(io)?,
            use_oob: UseOutOfBand::try_from(oob)?,
            security_properties: AuthReq(security),
            maximum_encryption_key_size: size,
            initiator_key_distribution: KeyDistributionFlags(initiator),
            responder_key_distribution: KeyDistributionFlags(responder),
        })
    }
}

impl Default for PairingFeatures {
    ghost is_default = { λ features. features ≡ default_features };

    #[tactic(auto, unfolding(crate::specs::Types::default_features))]
    fn default() -> Self {
        Self {
            io_capabilities: IoCapabilities::NoInputNoOutput,
            use_oob: UseOutOfBand::NotPresent,
            security_properties: AuthReq::new(BondingFlag::NoBonding),
            maximum_encryption_key_size: ENCRYPTION_KEY_SIZE_128_BITS,
            initiator_key_distribution: KeyDistributionFlags(0),
            responder_key_distribution: KeyDistributionFlags(0),
        }
    }
}
