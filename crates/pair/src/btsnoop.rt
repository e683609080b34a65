// A pairing as a btsnoop file, as the terminal's host would log it: a record for each packet that it sends or
// receives, of SMP in L2CAP channel 6 in an ACL packet of H4. The records stand in the order of the text's lines,
// that of input n at n seconds after the start of 2000. Nothing is timed.
//
// Three HCI packets stand first, at second 0, so that a reader knows both addresses: the command Read BD_ADDR,
// its answer, and LE Connection Complete. No controller sent them; the handle and the times of the connection
// are made up.
use crate::end::{End, Given};
use crate::ends::Ends;
use crate::hosts::Host;
use crate::packet::Packet;
use crate::scenes::Title;
use crate::trace::Trace;
use arrayvec::ArrayVec;
use machine::{Phase, Role};
use std::io;
use std::io::Write;

// An HCI packet with the octet of H4 in front. The longest is one of 17 octets of SMP, with 9 before them.
type HciPacket = ArrayVec<u8, 26>;

// The file's name, version 1, and the link type of H4, 1002. Numbers are most significant octet first.
const FILE_HEADER: [u8; 16] = *b"btsnoop\0\0\0\0\x01\0\0\x03\xea";

// The start of 2000 in microseconds since the start of the year 0, from which btsnoop counts.
const YEAR_2000: u64 = 0x00E0_3AB4_4A67_6000;

// The bits of a record's flags.
const RECEIVED: u32 = 0b01;

const COMMAND_OR_EVENT: u32 = 0b10;

const READ_BD_ADDR: [u8; 4] = [0x01, 0x09, 0x10, 0x00];

// Command Complete up to the address: event, length, commands allowed, opcode, status.
const READ_BD_ADDR_ANSWER: [u8; 7] = [0x04, 0x0e, 0x0a, 0x01, 0x09, 0x10, 0x00];

// LE Connection Complete up to the peer's address: event, length, subevent, status, the handle 0x0040, the
// role of the central.
const CONNECTION: [u8; 8] = [0x04, 0x3e, 0x13, 0x01, 0x00, 0x40, 0x00, 0x00];

// The rest of it: an interval of 30 ms, no latency, a timeout of 5 s, clock accuracy.
const CONNECTION_TIMES: [u8; 7] = [0x18, 0x00, 0x00, 0x00, 0xf4, 0x01, 0x00];

// ACL data up to the length, by the terminal's host and by its controller: the handle, and that a packet
// begins.
const ACL_SENT: [u8; 3] = [0x02, 0x40, 0x00];

const ACL_RECEIVED: [u8; 3] = [0x02, 0x40, 0x20];

// The channel of SMP on LE.
const SMP_CHANNEL: [u8; 2] = [0x06, 0x00];

// The file, which is written as octets.
#[derive(Drop)]
pub(crate) struct Btsnoop<'a, R>(pub &'a R);

// An HCI packet that carries a packet of the link.
fn acl_packet(start: [u8; 3], packet: Packet) -> io::Result<HciPacket> {
    let size = packet.command().payload_size().saturating_add(1);
    let mut octets = HciPacket::new();
    octets.write_all(&start)?;
    octets.write_all(&size.saturating_add(4).to_le_bytes())?;
    octets.write_all(&size.to_le_bytes())?;
    octets.write_all(&SMP_CHANNEL)?;
    octets.write_all(&[u8::from(packet.command())])?;
    octets.write_all(&packet.payload())?;
    Ok(octets)
}

// The HCI packet that ends in the terminal's own address.
fn own_address(host: &Host) -> io::Result<HciPacket> {
    let mut octets = HciPacket::new();
    octets.write_all(&READ_BD_ADDR_ANSWER)?;
    octets.write_all(&host.address.addr.into_inner())?;
    Ok(octets)
}

// The HCI packet that tells of the connection to the head.
fn connection(host: &Host) -> io::Result<HciPacket> {
    let mut octets = HciPacket::new();
    octets.write_all(&CONNECTION)?;
    octets.write_all(&host.peer_address.encode())?;
    octets.write_all(&CONNECTION_TIMES)?;
    Ok(octets)
}

impl<R: Print> Btsnoop<'_, R> {
    // A record at a second of the year 2000: length, length that is kept, flags, packets lost, time, packet.
    fn record(&self, second: u64, flags: u32, packet: &[u8]) -> io::Result<()> {
        let length = u32::try_from(packet.len())
            .unwrap_or(u32::MAX)
            .to_be_bytes();
        let time = second.saturating_mul(1_000_000).saturating_add(YEAR_2000);
        self.0.write_all(&length)?;
        self.0.write_all(&length)?;
        self.0.write_all(&flags.to_be_bytes())?;
        self.0.write_all(&[0; 4])?;
        self.0.write_all(&time.to_be_bytes())?;
        self.0.write_all(packet)
    }
}

impl<R: Print> Trace for Btsnoop<'_, R> {
    fn start(&self, _title: Title, ends: &Ends<End>, _is_late: bool) -> io::Result<()> {
        let host = &ends.terminal.host;
        self.0.write_all(&FILE_HEADER)?;
        self.record(0, COMMAND_OR_EVENT, &READ_BD_ADDR)?;
        self.record(0, COMMAND_OR_EVENT | RECEIVED, &own_address(host)?)?;
        self.record(0, COMMAND_OR_EVENT | RECEIVED, &connection(host)?)
    }

    fn input(&self, n: u64, role: Role, _phase: Phase, given: Given) -> io::Result<()> {
        match (given, role) {
            (Given::Event(_), _) => Ok(()),
            (Given::Packet(packet), Role::Peripheral) => {
                self.record(n, 0, &acl_packet(ACL_SENT, packet)?)
            }
            (Given::Packet(packet), Role::Central) => {
                self.record(n, RECEIVED, &acl_packet(ACL_RECEIVED, packet)?)
            }
        }
    }
}
