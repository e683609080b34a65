// The method of a pairing and the security level that it gives ([Vol 3] Part H, Section 2.3.5.1).
#![tactic(auto)]

pub mod connection;
pub mod util;

pub use connection::SecurityLevel;
pub use util::{PairingMethod, PassKeyEntryAction, choose_legacy_pairing_method};
