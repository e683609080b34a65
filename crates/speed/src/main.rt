// Chains of encryptions, for measuring: `speed BLOCKS CONFIRMS` encrypts BLOCKS blocks with aes::encrypt and works out
// CONFIRMS values with crypto::c1, each from the two before it, and writes the last of each chain.
// bench/plain.c does the same in C; what the two write is the same.
#![tactic(auto)]

use crypto::Nonce;
use std::rt::Env;
use std::{io, str};

// The number that a text of decimal digits stands for; none where it is no such text, or the number is no u64.
fn number(text: &[u8]) -> Option<u64> {
    let text = str::from_utf8(text).ok()?;
    // parse would take a plus sign.
    if text.starts_with('+') {
        return None;
    }
    text.parse().ok()
}

// Argument i as a number, modulo a thousand million; 0 where there is none, where it is no number, and where it is
// longer than 16 octets. By rt.arg, since env::args fails at an argument that is not UTF-8.
fn argument(rt: &impl Env, i: usize) -> u64 {
    let mut text = [0; 16];
    match rt.arg(i, &mut text) {
        Ok(n) => number(&text[..n]).unwrap_or(0) % 1_000_000_000,
        Err(_) => 0,
    }
}

// Each block is encrypted under the block before it.
fn blocks(n: u64) -> u128 {
    let mut key = 0x2b7e151628aed2a6abf7158809cf4f3cu128.to_be_bytes();
    let mut block = 0x3243f6a8885a308d313198a2e0370734u128.to_be_bytes();
    for _ in 0..n {
        (key, block) = (block, aes::encrypt(key, block));
    }
    u128::from_be_bytes(block)
}

// Each value is c1 of the value before it as the nonce, under the one before that as the key.
fn confirms(n: u64) -> u128 {
    let mut k = 0;
    let mut r = 0x5783D52156AD6F0E6388274EC6702EE0;
    let preq = [0x01, 0x01, 0x00, 0x00, 0x10, 0x07, 0x07];
    let pres = [0x02, 0x03, 0x00, 0x00, 0x08, 0x00, 0x05];
    let ia = [0xA6, 0xA5, 0xA4, 0xA3, 0xA2, 0xA1];
    let ra = [0xB6, 0xB5, 0xB4, 0xB3, 0xB2, 0xB1];
    for _ in 0..n {
        (k, r) = (r, crypto::c1(k, Nonce(r), preq, pres, 1, ia, 0, ra).0);
    }
    r
}

fn main(rt: HostRuntime) -> io::Result<()> {
    let block = blocks(argument(&rt, 1));
    let confirm = confirms(argument(&rt, 2));
    println!(rt; "{block:032x}\n{confirm:032x}")
}
