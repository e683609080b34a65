// Answers step lines from standard input, to its end: a shell over `line_reading`, `line_writing` and the entry by reference. What it does
// with the lines is proved there; that it cuts its input at line feeds, and answers a last line without one as malformed, is tested.
#![tactic(auto)]

use arrayvec::ArrayVec;
use entry::step_local;
use line_reading::{MOST, read_line};
use line_writing::{write_answer, write_malformed};
use std::io;
use std::io::Read;

#[derive(Drop)]
struct Shell {
    // The octets of a line that has not ended. One place more than the longest line has: a full one is malformed.
    line: ArrayVec<u8, 20001>,
    payload: [u8; MOST],
    answers: [u8; MOST],
    list: [u8; MOST],
    out: [u8; 65536],
}

impl Shell {
    fn new() -> Shell {
        Shell {
            line: ArrayVec::new(),
            payload: [0; MOST],
            answers: [0; MOST],
            list: [0; MOST],
            out: [0; 65536],
        }
    }

    // The answer to a malformed line.
    fn malformed(&mut self) -> Option<&[u8]> {
        let n = write_malformed(&mut self.out)?;
        self.out.get(..n)
    }

    // The answer to the line, which has ended.
    fn answer(&mut self) -> Option<&[u8]> {
        let Ok(read) = read_line(&self.line, &mut self.payload, &mut self.answers) else {
            return self.malformed();
        };
        let payload = self.payload.get(..read.payload)?;
        let answers = self.answers.get(..read.answers)?;
        self.list.fill(0xee);
        let list = self.list.get_mut(..read.room)?;
        let stepped = step_local(read.machine, read.role, read.input, payload, answers, list);
        let n = write_answer(stepped, list, &mut self.out)?;
        self.out.get(..n)
    }

    // More octets of a line. A full line stays as it is.
    fn keep(&mut self, part: &[u8]) {
        let n = part.len().min(self.line.remaining_capacity());
        let _ = self.line.try_extend_from_slice(&part[..n]);
    }

    // Answers the lines that end in a text, and keeps the rest of it. A line feed ends a line; any other octet belongs to it.
    // By parts: octet by octet takes up to three times as long.
    fn answer_text(&mut self, rt: &impl Print, text: &[u8]) -> io::Result<()> {
        for part in text.split_inclusive(|octet| *octet == b'\n') {
            if let [line @ .., b'\n'] = part {
                self.keep(line);
                rt.write_all(self.answer().unwrap_or_default())?;
                self.line.clear();
            } else {
                self.keep(part);
            }
        }
        Ok(())
    }

    // A last line without a line feed is malformed.
    fn answer_end(&mut self, rt: &impl Print) -> io::Result<()> {
        if self.line.is_empty() {
            return Ok(());
        }
        rt.write_all(self.malformed().unwrap_or_default())
    }
}

fn main(rt: HostRuntime) -> io::Result<()> {
    let mut input = rt.stdin();
    let mut text = [0; 65536];
    let mut shell = Shell::new();
    for _ in 0..u64::MAX {
        let n = input.read(&mut text)?;
        if n == 0 {
            break;
        }
        shell.answer_text(&rt, &text[..n])?;
    }
    shell.answer_end(&rt)
}
