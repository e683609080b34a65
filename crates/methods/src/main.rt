// The method of every pair of feature records that differ in I/O capabilities, OOB data flag and MITM flag.
#![tactic(auto)]

use method_lines::{TEXT_SIZE, write_method_lines};
use std::io;

fn main(rt: HostRuntime) -> io::Result<()> {
    let mut text = [0; TEXT_SIZE];
    write_method_lines(&mut text);
    rt.write_all(&text)
}
