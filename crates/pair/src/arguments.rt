// The arguments: a scene or two feature records, --late and --btsnoop; or --help. Wrong ones are answered by
// an error, which names the word and says what would be right.
use crate::ends::{Ends, end_name};
use crate::print::{Quoted, printable};
use crate::scenes::{Title, find_scene};
use arrayvec::ArrayVec;
use hex::{FromHex, FromHexError};
use machine::Role;
use smp_types::{IoCapabilities, PairingFeatures, UseOutOfBand};
use std::env::{Env, FillError};
use std::fmt;

// The longest argument that is looked at whole.
const LONGEST: usize = 64;

// The most arguments that may be right: two options and two records.
const MOST: usize = 4;

// An argument. A longer one is its first octets: no scene, record or option has as many.
type Word = ArrayVec<u8, LONGEST>;

// The pairing that is to be played.
pub(crate) struct Pairing {
    pub title: Title,
    pub records: Ends<PairingFeatures>,
    pub is_late: bool,
}

// What the arguments ask for.
pub(crate) enum Wanted {
    Help,
    Text(Pairing),
    Btsnoop(Pairing),
}

// What is wrong with a feature record.
#[derive(Clone, Copy)]
pub(crate) enum RecordError {
    Length,
    Character(char),
    IoCapabilities(u8),
    UseOutOfBand(u8),
    KeySize(u8),
}

impl From<FromHexError> for RecordError {
    fn from(e: FromHexError) -> RecordError {
        match e {
            FromHexError::InvalidHexCharacter { c, .. } => RecordError::Character(c),
            _ => RecordError::Length,
        }
    }
}

impl fmt::Display for RecordError {
    fn fmt<W: fmt::Write>(&self, f: &mut fmt::Formatter<W>) -> fmt::Result {
        match *self {
            RecordError::Length => write!(
                f,
                "does not have 12 digits. Right: two each for I/O, OOB, AuthReq, key size, \
                 initiator keys, responder keys."
            ),
            RecordError::Character(c) => write!(
                f,
                "has the character '{}'. Right: hexadecimal digits alone.",
                printable(c)
            ),
            RecordError::IoCapabilities(io) => write!(f, "has I/O {io}. Right: 0 to 4."),
            RecordError::UseOutOfBand(oob) => write!(f, "has OOB {oob}. Right: 0 or 1."),
            RecordError::KeySize(size) => {
                write!(
                    f,
                    "has key size {size}. Right: 7 to 16, in digits 07 to 10."
                )
            }
        }
    }
}

// What is wrong with the arguments.
#[derive(Drop)]
pub(crate) enum ArgumentError {
    Nothing,
    NoOption(Word),
    TooMany(Word),
    NoScene(Word),
    OneRecord(Word),
    Record(Role, Word, RecordError),
    // the head's record, which names an initiator key that the terminal's lacks
    NoFairStart(Word, &'static str),
}

impl fmt::Display for ArgumentError {
    fn fmt<W: fmt::Write>(&self, f: &mut fmt::Formatter<W>) -> fmt::Result {
        match self {
            ArgumentError::Nothing => f.write_str(
                "no scene is given, and no records. Right: one of the scenes below, or two records.",
            ),
            ArgumentError::NoOption(word) => write!(
                f,
                "{} is no option. Right: --late, --btsnoop, --help.",
                Quoted(word)
            ),
            ArgumentError::TooMany(word) => write!(
                f,
                "{} is one word too many. Right: one scene, or two records; each option once.",
                Quoted(word)
            ),
            ArgumentError::NoScene(word) => write!(
                f,
                "{} is no scene. Right: one of the scenes below, or two records.",
                Quoted(word)
            ),
            ArgumentError::OneRecord(word) => write!(
                f,
                "{} is one record. Right: two, the terminal's and then the head's.",
                Quoted(word)
            ),
            ArgumentError::Record(role, word, e) => {
                write!(f, "the {}'s record {} {e}", end_name(*role), Quoted(word))
            }
            ArgumentError::NoFairStart(word, key) => write!(
                f,
                "the head's record {} names the initiator key {key}, which the terminal's lacks. \
                 Right: both name it, or the head's does not.",
                Quoted(word)
            ),
        }
    }
}

fn word_of(text: &[u8]) -> Word {
    Word::try_from(text).unwrap_or_default()
}

// The features of a record's octets, or what they have that is refused.
fn decode(octets: [u8; 6]) -> Result<PairingFeatures, RecordError> {
    PairingFeatures::decode(&octets).map_err(|_| {
        let [io, oob, _, size, _, _] = octets;
        if IoCapabilities::try_from(io).is_err() {
            RecordError::IoCapabilities(io)
        } else if UseOutOfBand::try_from(oob).is_err() {
            RecordError::UseOutOfBand(oob)
        } else {
            RecordError::KeySize(size)
        }
    })
}

// The features of a record's digits.
fn read_digits(text: &[u8]) -> Result<PairingFeatures, RecordError> {
    decode(<[u8; 6]>::from_hex(text)?)
}

fn read_record(role: Role, text: &[u8]) -> Result<PairingFeatures, ArgumentError> {
    read_digits(text).map_err(|e| ArgumentError::Record(role, word_of(text), e))
}

// The key that keeps a fair link from starting so, if any: an initiator key that the head's record names and
// the terminal's lacks.
fn key_too_many(records: Ends<PairingFeatures>) -> Option<&'static str> {
    let terminal = records.terminal.initiator_key_distribution;
    let head = records.head.initiator_key_distribution;
    if head.encryption_key() && !terminal.encryption_key() {
        Some("EncKey")
    } else if head.identity_key() && !terminal.identity_key() {
        Some("IdKey")
    } else {
        None
    }
}

// Reads both records.
fn read_records(terminal: &[u8], head: &[u8]) -> Result<Ends<PairingFeatures>, ArgumentError> {
    let records = Ends {
        terminal: read_record(Role::Central, terminal)?,
        head: read_record(Role::Peripheral, head)?,
    };
    match key_too_many(records) {
        Some(key) => Err(ArgumentError::NoFairStart(word_of(head), key)),
        None => Ok(records),
    }
}

// A lone word.
fn read_scene(name: &[u8], is_late: bool) -> Result<Pairing, ArgumentError> {
    match find_scene(name) {
        Some(scene) => Ok(Pairing {
            title: Title::Scene(scene),
            records: read_records(
                scene.digits.terminal.as_bytes(),
                scene.digits.head.as_bytes(),
            )?,
            is_late,
        }),
        None if read_digits(name).is_ok() => Err(ArgumentError::OneRecord(word_of(name))),
        None => Err(ArgumentError::NoScene(word_of(name))),
    }
}

// Two words.
fn read_two(first: &[u8], second: &[u8], is_late: bool) -> Result<Pairing, ArgumentError> {
    if find_scene(first).is_some() {
        return Err(ArgumentError::TooMany(word_of(second)));
    }
    let records = read_records(first, second)?;
    Ok(Pairing {
        title: Title::ByHand(records),
        records,
        is_late,
    })
}

// The argument at an index, if there is one.
fn argument(rt: &impl Env, index: usize) -> Option<Word> {
    let mut octets = [0; LONGEST];
    match rt.arg(index, &mut octets) {
        Ok(size) => {
            let mut word = Word::from(octets);
            word.truncate(size);
            Some(word)
        }
        Err(FillError::TooLong) => Some(Word::from(octets)),
        Err(FillError::NotPresent) => None,
    }
}

// Reads what the arguments ask for, or says what is wrong.
pub(crate) fn read_arguments(rt: &impl Env) -> Result<Wanted, ArgumentError> {
    let mut is_late = false;
    let mut is_btsnoop = false;
    let mut words = ArrayVec::<Word, 2>::new();
    // by index, since std's iterator over the arguments allocates; of more than the most, one is wrong
    for word in (1..=MOST + 1).map_while(|index| argument(rt, index)) {
        match word.as_slice() {
            b"--help" | b"-h" => return Ok(Wanted::Help),
            b"--late" if !is_late => is_late = true,
            b"--btsnoop" if !is_btsnoop => is_btsnoop = true,
            b"--late" | b"--btsnoop" => return Err(ArgumentError::TooMany(word)),
            [b'-', ..] => return Err(ArgumentError::NoOption(word)),
            _ => words
                .try_push(word)
                .map_err(|e| ArgumentError::TooMany(e.element()))?,
        }
    }
    let pairing = match words.as_slice() {
        [] => return Err(ArgumentError::Nothing),
        [name] => read_scene(name, is_late)?,
        [first, second, ..] => read_two(first, second, is_late)?,
    };
    Ok(if is_btsnoop {
        Wanted::Btsnoop(pairing)
    } else {
        Wanted::Text(pairing)
    })
}
