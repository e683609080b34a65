// pairing/util.rs: the packets, as calls. One function for each of the Rust's make_.. functions.
ghost use Rattle.std.specs.Prelude.{◌≡◌};
ghost use Rattle.host_calls.specs.declared.call.Packet.TheVariants as packet;

use bond::Address;
use crypto::{Confirm, IdentityResolvingKey, LongTermKey, Nonce};
use host_calls::Packet;

pub fn make_pairing_random(nonce: Nonce) -> Packet
    ensures { result ≡ packet.PairingRandom nonce }
{
    Packet::PairingRandom(nonce)
}

pub fn make_confirm_packet(confirm: Confirm) -> Packet
    ensures { result ≡ packet.PairingConfirm confirm }
{
    Packet::PairingConfirm(confirm)
}

pub fn make_encryption_information_packet(ltk: LongTermKey) -> Packet
    ensures { result ≡ packet.EncryptionInformation ltk }
{
    Packet::EncryptionInformation(ltk)
}

pub fn make_central_identification_packet(ediv: u16, rand: u64) -> Packet
    ensures { result ≡ packet.CentralIdentification ediv rand }
{
    Packet::CentralIdentification { ediv, rand }
}

pub fn make_identity_information_packet(irk: IdentityResolvingKey) -> Packet
    ensures { result ≡ packet.IdentityInformation irk }
{
    Packet::IdentityInformation(irk)
}

pub fn make_identity_address_information_packet(addr: Address) -> Packet
    ensures { result ≡ packet.IdentityAddressInformation addr }
{
    Packet::IdentityAddressInformation(addr)
}
