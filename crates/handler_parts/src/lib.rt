// What the handlers of both roles are made of.
#![tactic(auto)]

pub mod input;
pub mod keys;
pub mod packet;
pub mod payload;
