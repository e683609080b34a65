// A step line: ROLE LISTLEN MACHINE INPUT PAYLOAD ANSWERS, without its line feed.
#![tactic(auto)]

ghost use Rattle.std.specs.Prelude.{◌≡◌, ◌≤◌, length, None, is_some};
ghost use Rattle.std.specs.List.{list_all};
ghost use Rattle.line_reading.specs.Lines.{most, digit_of, octets_in, octets_of_length, octets_field, role_of, room_of};
ghost use Rattle.line_reading.specs.Lines.{machine_in, link_of, event_alone, command_of, pass_key_of, oob_data_of, input_of, may_carry};
ghost use Rattle.line_reading.specs.Lines.{size_of, laid, SplitAs, fields_read, LineRead};

use arrayvec::ArrayVec;
use hex::{FromHex, decode_to_slice};
use machine::{Event, Input, Machine, Role};
use machine_record::{RECORD_SIZE, read_machine};
use octets::Number;

// No longer list, payload or answers.
pub const MOST: usize = 4096;

// Why a line was not read: the error of `read_line`.
#[derive(Clone, Copy, PartialEq, Eq)]
pub enum LineError {
    Malformed,
    // a lent buffer is shorter than the longest payload or answers
    NoRoom,
}

// What is read of a line: the length of the list to lend, and how many octets of payload and answers stand at the front
// of the lent buffers.
#[derive(Clone, Copy, PartialEq, Eq)]
pub struct ReadLine {
    pub role: Role,
    pub room: usize,
    pub machine: Machine,
    pub input: Input,
    pub payload: usize,
    pub answers: usize,
}

// Digits alone, in lower case: `hex` reads upper case too.
#[tactic(auto, unfolding(crate::specs::Lines::digit_of))]
fn are_digits(text: &[u8]) -> bool
    ensures { result ≡ list_all (λ c. is_some (digit_of c)) text.now }
{
    text.iter().all(|c| matches!(*c, b'0'..=b'9' | b'a'..=b'f'))
}

// Two digits to each octet: how many octets they are.
#[tactic(auto, using(crate::proofs::Digits::counted))]
fn octets_count(text: &[u8]) -> Option<usize>
    ensures { result ≡ size_of (octets_in text.now) }
{
    (are_digits(text) && text.len() % 2 == 0).then_some(text.len() / 2)
}

// So many octets.
#[tactic(auto, using(crate::proofs::Digits::sized_by_hex))]
fn read_octets<const N: usize>(text: &[u8]) -> Option<[u8; N]>
    ensures { result ≡ octets_of_length N text.now }
{
    if !are_digits(text) {
        return None;
    }
    <[u8; N]>::from_hex(text).ok()
}

// PAYLOAD or ANSWERS: how many octets the field holds.
#[tactic(auto, unfolding(crate::specs::Lines::octets_field))]
fn field_count(text: &[u8]) -> Option<usize>
    ensures { result ≡ size_of (octets_field text.now) }
{
    match text {
        [] => None,
        [c] => (*c == b'-').then_some(0),
        _ => octets_count(text).filter(|n| *n <= MOST),
    }
}

// Lays the octets of a field at the front of out.
// requires because it has no refusal: the caller has checked the field and the room.
fn put_field(text: &[u8], out: &mut [u8])
    requires { (octets_field text.now ≡ None → ⊥) × (most ≤ length out.old) }
    ensures { out.new ≡ laid out.old (octets_field text.now) }
{
    if text.len() < 2 {
        return;
    }
    let end = text.len() / 2;
    let _ = decode_to_slice(text, &mut out[..end]);
}

// ROLE: one letter.
fn read_role(text: &[u8]) -> Option<Role>
    ensures { result ≡ role_of text.now }
{
    match text {
        [b'c'] => Some(Role::Central),
        [b'p'] => Some(Role::Peripheral),
        _ => None,
    }
}

// LISTLEN: one to four decimal digits.
// By hand: tried by `parse`, and the proof did not close.
#[tactic(auto, unfolding(crate::specs::Lines::room_of))]
fn read_room(text: &[u8]) -> Option<usize>
    ensures { result ≡ room_of text.now }
{
    if text.is_empty() || 4 < text.len() {
        return None;
    }
    let mut n = 0;
    for c in text {
        if !c.is_ascii_digit() {
            return None;
        }
        n = 10 * n + (*c - b'0') as usize;
    }
    (n <= MOST).then_some(n)
}

// MACHINE: the record of 161 octets.
#[tactic(auto, using(crate::proofs::Values::machine_sized))]
fn read_machine_field(role: Role, text: &[u8]) -> Option<Machine>
    ensures { result ≡ machine_in role text.now }
{
    let record = read_octets::<RECORD_SIZE>(text)?;
    read_machine(role, &record).ok()
}

// A command code, one octet.
fn read_command(text: &[u8]) -> Option<Input>
    ensures { result ≡ command_of text.now }
{
    let [code] = read_octets::<1>(text)?;
    Some(Input::Command(code))
}

// LinkEncryptedResult, `0` or `1`.
fn read_link(text: &[u8]) -> Option<Input>
    ensures { result ≡ link_of text.now }
{
    match text {
        [b'0'] => Some(Input::Event(Event::LinkEncryptedResult(false))),
        [b'1'] => Some(Input::Event(Event::LinkEncryptedResult(true))),
        _ => None,
    }
}

// An event with nothing behind its letter.
fn read_alone(event: Event, text: &[u8]) -> Option<Input>
    ensures { result ≡ event_alone event text.now }
{
    match text {
        [] => Some(Input::Event(event)),
        _ => None,
    }
}

// PassKeyInput, 4 octets.
fn read_pass_key(text: &[u8]) -> Option<Input>
    ensures { result ≡ pass_key_of text.now }
{
    let pass_key = u32::from_le_bytes(read_octets(text)?);
    Some(Input::Event(Event::PassKeyInput(pass_key)))
}

// OobDataReceived, 16 octets.
fn read_oob_data(text: &[u8]) -> Option<Input>
    ensures { result ≡ oob_data_of text.now }
{
    let random = u128::from_octets(read_octets(text)?);
    Some(Input::Event(Event::OobDataReceived(random)))
}

// INPUT: a letter, and what belongs to it.
#[tactic(auto, unfolding(crate::specs::Lines::input_of))]
fn read_input(text: &[u8]) -> Option<Input>
    ensures { result ≡ input_of text.now }
{
    let (letter, rest) = text.split_first()?;
    match letter {
        b'c' => read_command(rest),
        b'l' => read_link(rest),
        b'k' => read_alone(Event::PassKeyConfirm, rest),
        b'x' => read_alone(Event::PassKeyCancel, rest),
        b'i' => read_pass_key(rest),
        b'o' => read_oob_data(rest),
        _ => None,
    }
}

// An event has no payload.
fn may_carry(input: Input, payload: usize) -> bool
    ensures { result ≡ may_carry input payload }
{
    match input {
        Input::Command(_) => true,
        Input::Event(_) => payload == 0,
    }
}

// The texts of the six fields.
#[derive(Clone, Copy)]
struct Fields<'a> {
    role: &'a [u8],
    room: &'a [u8],
    machine: &'a [u8],
    input: &'a [u8],
    payload: &'a [u8],
    answers: &'a [u8],
}

impl Fields<'_> {
    // What they give, but for the octets of the last two.
    fn read(self) -> Option<ReadLine>
        ensures { result ≡ fields_read self.entry }
    {
        let role = read_role(self.role)?;
        let room = read_room(self.room)?;
        let machine = read_machine_field(role, self.machine)?;
        let input = read_input(self.input)?;
        let payload = field_count(self.payload)?;
        let answers = field_count(self.answers)?;
        may_carry(input, payload).then_some(ReadLine {
            role,
            room,
            machine,
            input,
            payload,
            answers,
        })
    }
}

// Exactly six fields, with one space between, in a line that is not too long.
#[tactic(auto, using(crate::proofs::Splits::too_long))]
fn split_line(line: &[u8]) -> Option<Fields<'_>>
    ensures { SplitAs line.now result }
{
    if 20000 < line.len() {
        return None;
    }
    let mut fields = ArrayVec::<&[u8], 6>::new();
    fields.extend(line.split(|c| *c == b' ')).ok()?;
    let &[role, room, machine, input, payload, answers] = fields.as_slice() else {
        return None;
    };
    Some(Fields {
        role,
        room,
        machine,
        input,
        payload,
        answers,
    })
}

// Reads a line, given without its line feed. The octets of PAYLOAD and ANSWERS are laid at the front of the lent
// buffers, of 4096 octets at least; where the line is malformed or a buffer is shorter, nothing is written.
// They are lent, and not returned, since there is no heap.
#[tactic(auto, unfolding(crate::specs::Lines::line_answer, crate::specs::Lines::laid, crate::specs::Lines::line_in, crate::specs::Lines::have_room, crate::specs::Lines::read_of), using(crate::proofs::Buffers::fields_laid, crate::proofs::Buffers::read_as))]
pub fn read_line(line: &[u8], payload: &mut [u8], answers: &mut [u8]) -> Result<ReadLine, LineError>
    ensures { LineRead line.now payload.old answers.old result payload.new answers.new }
{
    if payload.len() < MOST || answers.len() < MOST {
        return Err(LineError::NoRoom);
    }
    let fields = split_line(line).ok_or(LineError::Malformed)?;
    let read = fields.read().ok_or(LineError::Malformed)?;
    put_field(fields.payload, payload);
    put_field(fields.answers, answers);
    Ok(read)
}
