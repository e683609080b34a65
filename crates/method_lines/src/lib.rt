// The method of every pair of feature records, as lines of text for installers.
#![tactic(auto)]

ghost use Rattle.std.specs.Prelude.{◌≡◌, ◌<◌, ◌++◌, ◌∷◌, [], length, get_or, codes};
ghost use Rattle.method_lines.specs.MethodLines.{records, digits, letter, line, text};
ghost use Rattle.method_lines.specs.EveryPair.{EveryPair};

use octets::write;
use smp_types::{AuthReq, BondingFlag, IoCapabilities, PairingFeatures, UseOutOfBand};
use util::PairingMethod::{JustWorks, OutOfBand, PassKeyEntry};
use util::PassKeyEntryAction::{Display, Input};
use util::{PairingMethod, choose_legacy_pairing_method};

const IO_CAPABILITIES: [IoCapabilities; 5] = [
    IoCapabilities::DisplayOnly,
    IoCapabilities::DisplayYesNo,
    IoCapabilities::KeyboardOnly,
    IoCapabilities::NoInputNoOutput,
    IoCapabilities::KeyboardDisplay,
];

const OOB_FLAGS: [UseOutOfBand; 2] = [UseOutOfBand::NotPresent, UseOutOfBand::Present];

// Every I/O capability with each OOB data flag, with MITM protection and without.
const RECORDS: usize = 20;

// Every record of the terminal with every record of the head.
const PAIRS: usize = RECORDS * RECORDS;

// Six digits, a space, a letter and a line feed.
const LINE_SIZE: usize = 9;

// The octets of the text.
pub const TEXT_SIZE: usize = PAIRS * LINE_SIZE;

// The record of a number: I/O varies slowest, then OOB, then MITM.
#[tactic(auto, unfolding(smp_types::specs::Types::default_features))]
fn record(number: usize) -> PairingFeatures
    requires { number < length records }
    ensures { result ≡ get_or records number result }
{
    let auth_req = AuthReq::new_legacy(BondingFlag::NoBonding);
    PairingFeatures {
        io_capabilities: IO_CAPABILITIES[number / 4],
        use_oob: OOB_FLAGS[number / 2 % 2],
        security_properties: if number % 2 == 0 {
            auth_req
        } else {
            auth_req.with_mitm()
        },
        ..PairingFeatures::default()
    }
}

// The digits of I/O, OOB and MITM.
fn digits(features: PairingFeatures) -> [u8; 3]
    ensures { result ≡ digits features }
{
    let mitm = features.security_properties.man_in_the_middle();
    [
        b'0' + u8::from(features.io_capabilities),
        b'0' + u8::from(features.use_oob),
        b'0' + u8::from(mitm),
    ]
}

// The letter of a method; `?` for those that LE legacy pairing never chooses.
fn letter(method: PairingMethod) -> u8
    ensures { result ∷ [] ≡ letter method }
{
    match method {
        JustWorks => b'J',
        PassKeyEntry {
            central: Display,
            peripheral: Input,
        } => b'C',
        PassKeyEntry {
            central: Input,
            peripheral: Display,
        } => b'P',
        PassKeyEntry {
            central: Input,
            peripheral: Input,
        } => b'B',
        OutOfBand => b'O',
        _ => b'?',
    }
}

// The line of a pair, with its line feed.
fn method_line(terminal: PairingFeatures, head: PairingFeatures) -> [u8; LINE_SIZE]
    ensures { result ≡ line (record { terminal = terminal; head = head }) ++ codes "\n" }
{
    let [terminal_io, terminal_oob, terminal_mitm] = digits(terminal);
    let [head_io, head_oob, head_mitm] = digits(head);
    [
        terminal_io,
        terminal_oob,
        terminal_mitm,
        head_io,
        head_oob,
        head_mitm,
        b' ',
        letter(choose_legacy_pairing_method(terminal, head)),
        b'\n',
    ]
}

// Writes the text: a line for every pair, the terminal's record slowest.
#[tactic(auto, using(crate::proofs::Lines::begun_none, crate::proofs::Lines::begun_more, crate::proofs::Lines::begun_all, crate::proofs::Listed::every_pair))]
pub fn write_method_lines(out: &mut [u8; TEXT_SIZE])
    ensures text { out.new ≡ text }
    ensures every_pair { EveryPair }
{
    for number in 0..PAIRS {
        let line = method_line(record(number / RECORDS), record(number % RECORDS));
        write(out, number * LINE_SIZE, &line);
    }
}
