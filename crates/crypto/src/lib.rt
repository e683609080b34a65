// The cryptographic functions of legacy pairing ([Vol 3] Part H, Section 2.2).
#![tactic(auto)]

pub mod crypto;

pub use crypto::{Confirm, IdentityResolvingKey, LongTermKey, Nonce, c1, e, s1};
