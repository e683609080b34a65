// The answer to a step line: OUTCOME READ WRITTEN MACHINE LIST, with its line feed.
#![tactic(auto)]

ghost use Rattle.std.specs.Prelude.{◌≡◌, ◌++◌, ◌∷◌, [], ◌+◌, ◌*◌, ◌<◌, ◌≤◌, length};
ghost use Rattle.arrayvec.specs.ArrayString.{array_string_len};
ghost use Rattle.octets.specs.Octets.{write_at};
ghost use Rattle.line_reading.specs.Text.{space, line_feed};
ghost use Rattle.line_writing.specs.AnswerLines.{digit_text, digits_text, octets_text, refused_text, outcome_text, head_of, rest_text, answer_text, refusal_text, malformed_text, TextWritten};

use arrayvec::ArrayString;
use itoa::Buffer;
use machine::Machine;
use machine_record::{RECORD_SIZE, machine_octets};
use octets::write;
use protocol::{Outcome, Stepped};

// The longest OUTCOME, READ and WRITTEN: `refused` and 3 digits, twice 20 digits, and 3 spaces.
const HEAD_SIZE: usize = 53;

// A refusal, by its number.
#[tactic(auto, unfolding(crate::specs::AnswerLines::refused_text), using(crate::proofs::Decimals::same_decimal))]
fn refused_text(number: u8) -> ArrayString<HEAD_SIZE>
    ensures text { result.bytes ≡ refused_text number }
    ensures short { array_string_len result ≤ 10 }
{
    let mut text = ArrayString::new();
    let mut digits = Buffer::new();
    text.push_str("refused");
    text.push_str(digits.format(number));
    text
}

// OUTCOME.
#[tactic(auto, unfolding(crate::specs::AnswerLines::outcome_text))]
fn outcome_text(outcome: Outcome) -> ArrayString<HEAD_SIZE>
    ensures text { result.bytes ≡ outcome_text outcome }
    ensures short { array_string_len result ≤ 10 }
{
    let mut text = ArrayString::new();
    match outcome {
        Outcome::Ended => text.push_str("ended"),
        Outcome::Wants => text.push_str("wants"),
        Outcome::Refused(refusal) => return refused_text(u8::from(refusal)),
    }
    text
}

// OUTCOME, READ and WRITTEN, with a space behind each.
// requires because it has no refusal: HEAD_SIZE has room for no longer OUTCOME.
fn head(outcome: ArrayString<HEAD_SIZE>, read: usize, written: usize) -> ArrayString<HEAD_SIZE>
    requires { array_string_len outcome ≤ 10 }
    ensures { result.bytes ≡ head_of outcome.bytes read written }
{
    let mut number = Buffer::new();
    let mut text = outcome;
    text.push(' ');
    text.push_str(number.format(read));
    text.push(' ');
    text.push_str(number.format(written));
    text.push(' ');
    text
}

// One digit.
// requires because it has no refusal: the caller gives half an octet.
fn digit_text(v: u8) -> u8
    requires { v < 16 }
    ensures { result ≡ digit_text v }
{
    if v < 10 { b'0' + v } else { b'a' + (v - 10) }
}

// Two digits to each octet, over all of part.
// By hand: with the kit's `hex` a step with a long list takes 1.5 to 1.9 times as long.
// requires because it has no refusal: the caller lends a part of the right length.
fn put_digits(octets: &[u8], part: &mut [u8])
    requires { length part.old ≡ 2 * length octets.now }
    ensures { part.new ≡ digits_text octets.now }
{
    let n = octets.len();
    for i in 0..n {
        let b = octets[i];
        part[2 * i] = digit_text(b / 16);
        part[2 * i + 1] = digit_text(b % 16);
    }
}

// Octets over all of part; `-` where there are none.
// requires because it has no refusal: the caller lends a part of the right length.
#[tactic(auto, using(crate::proofs::Texts::octets_none, crate::proofs::Texts::octets_digits, crate::proofs::Texts::octets_length))]
fn put_field(octets: &[u8], part: &mut [u8])
    requires { length part.old ≡ length (octets_text octets.now) }
    ensures { part.new ≡ octets_text octets.now }
{
    if octets.is_empty() {
        part.copy_from_slice(b"-");
    } else {
        put_digits(octets, part);
    }
}

// How many octets the text of a list has.
#[tactic(auto, using(crate::proofs::Texts::octets_none, crate::proofs::Texts::octets_length))]
fn field_length(octets: &[u8]) -> usize
    ensures { result ≡ length (octets_text octets.now) }
{
    if octets.is_empty() {
        1
    } else {
        2 * octets.len()
    }
}

// The head of an answer, and MACHINE and LIST behind it, at the front of a buffer that has room.
// At places: out may be longer than the line, and splitting field after field off it is no plainer.
// requires because it has no refusal: the caller has tested the room.
#[tactic(auto, using(crate::proofs::Texts::octets_length))]
fn put_answer(head: &[u8], machine: &[u8; RECORD_SIZE], list: &[u8], out: &mut [u8])
    requires { length head.now + 324 + length (octets_text list.now) ≤ length out.old }
    ensures { out.new
        ≡ write_at out.old 0
        (head.now ++ (octets_text machine.now ++ (space ∷ (octets_text list.now ++ (line_feed ∷ []))))) }
{
    let machine_at = head.len();
    let list_at = machine_at + 323;
    let end = list_at + field_length(list);
    write(out, 0, head);
    put_field(machine, &mut out[machine_at..list_at - 1]);
    write(out, list_at - 1, b" ");
    put_field(list, &mut out[list_at..end]);
    write(out, end, b"\n");
}

// An answer line with this head at the front of out, and how many octets it has; None where it does not fit, and nothing is
// written. out is lent, and no buffer returned, since there is no heap.
#[tactic(auto, unfolding(crate::specs::AnswerLines::rest_text), using(crate::proofs::Texts::line_length, crate::proofs::Texts::octets_at_least, crate::proofs::Texts::octets_at_most, octets::proofs::Parts::fits, octets::proofs::Parts::fits_not, octets::proofs::Parts::not_written))]
fn write_line(
    head: ArrayString<HEAD_SIZE>,
    machine: Machine,
    list: &[u8],
    out: &mut [u8],
) -> Option<usize>
    ensures { TextWritten out.old (head.bytes ++ rest_text machine list.now) result out.new }
{
    let machine = machine_octets(machine);
    let head = head.as_str().as_bytes();
    if out.len() / 2 < list.len() {
        return None;
    }
    let length = head.len() + 324 + field_length(list);
    if out.len() < length {
        return None;
    }
    put_answer(head, &machine, list, out);
    Some(length)
}

// The answer line of a step, in this manner.
#[tactic(auto, unfolding(crate::specs::AnswerLines::answer_text, crate::specs::AnswerLines::head_text))]
pub fn write_answer(stepped: Stepped, list: &[u8], out: &mut [u8]) -> Option<usize>
    ensures { TextWritten out.old (answer_text stepped list.now) result out.new }
{
    let outcome = outcome_text(stepped.outcome);
    let head = head(outcome, stepped.read, stepped.written);
    write_line(head, stepped.machine, list, out)
}

// The answer line of a step that is refused by a number, one that no `Refusal` has too, in the same manner.
#[tactic(auto, unfolding(crate::specs::AnswerLines::refusal_text))]
pub fn write_refusal(
    number: u8,
    read: usize,
    written: usize,
    machine: Machine,
    list: &[u8],
    out: &mut [u8],
) -> Option<usize>
    ensures { TextWritten out.old (refusal_text number read written machine list.now) result out.new }
{
    let head = head(refused_text(number), read, written);
    write_line(head, machine, list, out)
}

// The answer to a malformed line, in the same manner.
#[tactic(auto, unfolding(crate::specs::AnswerLines::malformed_text))]
pub fn write_malformed(out: &mut [u8]) -> Option<usize>
    ensures { TextWritten out.old malformed_text result out.new }
{
    write(out, 0, b"malformed\n").then_some(10)
}
