// The Security Manager's types: I/O capabilities, reasons, command codes and the pairing features
// ([Vol 3] Part H, Sections 2.3 and 3).
#![tactic(auto)]

pub mod capabilities;
pub mod codec;
pub mod error;
pub mod types;

pub use capabilities::IoCapabilities;
pub use error::InvalidValue;
pub use types::{
    AuthReq, BondingFlag, Command, KeyDistributionFlags, PairingFeatures, PassKey, Reason,
    UseOutOfBand,
};
