// Host calls, in the place of the Rust's PairingOps and its generator, as document 01 writes them.
#![tactic(auto)]

pub mod call;

pub use call::{Call, ConnectionEvent, Draw, LONGEST, Packet, Question, Trace};
