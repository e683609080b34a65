// `pair SCENE` or `pair TERMINAL HEAD` plays one pairing of a terminal and a head over the fair link of
// document 01 and prints it, or writes its packets as a btsnoop file; `pair --help` says how it is called. A step
// is that of the entry; that packets and events are delivered as the fair link does is tested.
#![tactic(auto)]

mod arguments;
mod btsnoop;
mod calls;
mod end;
mod ends;
mod help;
mod hosts;
mod link;
mod packet;
mod print;
mod scenes;
mod step;
mod trace;

use arguments::{Wanted, read_arguments};
use btsnoop::Btsnoop;
use help::{Usage, print_help};
use link::play;
use std::io;
use std::process::ExitCode;
use trace::Text;

// The exit status after wrong arguments.
const WRONG_ARGUMENTS: u8 = 2;

fn main(rt: HostRuntime) -> io::Result<ExitCode> {
    match read_arguments(&rt) {
        Ok(Wanted::Help) => print_help(&rt)?,
        Ok(Wanted::Text(pairing)) => play(&Text(&rt), pairing)?,
        Ok(Wanted::Btsnoop(pairing)) => play(&Btsnoop(&rt), pairing)?,
        Err(error) => {
            eprintln!(rt; "pair: {error}\n\n{Usage}")?;
            return Ok(ExitCode::from(WRONG_ARGUMENTS));
        }
    }
    Ok(ExitCode::SUCCESS)
}
