// The keys that one end distributes, and what is kept of them in the bond.
ghost use Rattle.std.specs.Prelude.{◌≡◌};
ghost use Rattle.machine.specs.declared.PairingData.{PairingData};
ghost use Rattle.protocol.specs.Handlers.{send_identity_key, names_identity_key, negotiated_key_size, with_keys, with_irk, with_identity_address};
ghost use Rattle.host_ops.specs.Asked.{ran_answer};
ghost use Rattle.host_ops.specs.Run.{run};
ghost use Rattle.handler_parts.specs.Keys.{draw_keys};
ghost use Rattle.handler_parts.specs.Outcomes.{ran_try};

use crate::packet::{make_identity_address_information_packet, make_identity_information_packet};
use bond::{Address, BondInformation, Identity};
use crypto::{IdentityResolvingKey, LongTermKey};
use host_answers::Stop;
use host_ops::{Halt, Ops};
use machine::PairingData;
use smp_types::KeyDistributionFlags;

#[derive(Clone, Copy, PartialEq, Eq)]
pub struct EncryptionKeys {
    pub ltk: LongTermKey,
    pub ediv: u16,
    pub rand: u64,
}

// LTK, then EDIV, then Rand.
pub fn draw_keys(ops: &mut Ops<'_>) -> Result<EncryptionKeys, Stop>
    ensures ran { ran_answer ops.new.trace result
        ≡ run ops.old.answers.now draw_keys ops.old.trace }
    ensures answers { ops.new.answers ≡ ops.old.answers }
{
    let ltk = ops.draw_ltk()?;
    let ediv = ops.draw_ediv()?;
    let rand = ops.draw_rand()?;
    Ok(EncryptionKeys { ltk, ediv, rand })
}

// IRK, then the identity address and not the one used in pairing, where they were agreed.
#[tactic(auto, unfolding(protocol::specs::Handlers::send_identity_key))]
pub fn send_identity_keys(ops: &mut Ops<'_>, named: KeyDistributionFlags) -> Result<(), Halt>
    ensures ran { (d : PairingData) → ran_try ops.new.trace d result
        ≡ run ops.old.answers.now (send_identity_key d (names_identity_key named)) ops.old.trace }
    ensures answers { ops.new.answers ≡ ops.old.answers }
{
    if !named.identity_key() {
        return Ok(());
    }
    let irk = ops.local_irk()?;
    ops.try_send_packet(make_identity_information_packet(irk))?;
    let address = ops.local_identity_address()?;
    ops.try_send_packet(make_identity_address_information_packet(address))
}

// The smaller maximum, in octets.
#[tactic(auto, unfolding(protocol::specs::Handlers::negotiated_key_size))]
pub fn negotiated_key_size(pairing_data: PairingData) -> u8
    ensures { result ≡ negotiated_key_size pairing_data }
{
    let peer = pairing_data.peer_features.maximum_encryption_key_size;
    let local = pairing_data.local_features.maximum_encryption_key_size;
    peer.min(local)
}

// The responder's keys in the bond, where there is one; the LTK is cut to the negotiated size.
#[tactic(auto, unfolding(protocol::specs::Handlers::with_keys))]
pub fn with_keys(pairing_data: PairingData, keys: EncryptionKeys) -> PairingData
    ensures { result ≡ with_keys keys.ltk keys.ediv keys.rand pairing_data }
{
    let size = negotiated_key_size(pairing_data);
    let is_bonded = pairing_data.want_bonding();
    let bond_information = pairing_data.bond_information.map(|bond| BondInformation {
        ltk: keys.ltk.masked(size),
        ediv: keys.ediv,
        rand: keys.rand,
        is_bonded,
        ..bond
    });
    PairingData {
        bond_information,
        ..pairing_data
    }
}

// The peer's IRK in the bond, where there is one.
#[tactic(auto, unfolding(protocol::specs::Handlers::with_irk))]
pub fn with_irk(pairing_data: PairingData, irk: IdentityResolvingKey) -> PairingData
    ensures { result ≡ with_irk irk pairing_data }
{
    let bond_information = pairing_data.bond_information.map(|bond| BondInformation {
        identity: Identity {
            irk,
            ..bond.identity
        },
        ..bond
    });
    PairingData {
        bond_information,
        ..pairing_data
    }
}

// The peer's identity address: in the pairing data, and in the bond where there is one.
#[tactic(auto, unfolding(protocol::specs::Handlers::with_identity_address))]
pub fn with_identity_address(pairing_data: PairingData, peer_address: Address) -> PairingData
    ensures { result ≡ with_identity_address peer_address pairing_data }
{
    let bond_information = pairing_data.bond_information.map(|bond| BondInformation {
        identity: Identity {
            addr: peer_address,
            ..bond.identity
        },
        ..bond
    });
    PairingData {
        peer_address,
        bond_information,
        ..pairing_data
    }
}
