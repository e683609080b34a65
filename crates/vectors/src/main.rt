// Published sample data, run through the library: what came, and whether it is right. The expected values are those of
// FIPS 197 (appendices A.1, B and C.1), SP 800-38A (F.1.1) and Core Specification Vol 3 Part H (2.2.3 and 2.2.4),
// numbers of 128 bits.
#![tactic(auto)]

use crypto::Nonce;
use std::{fmt, io};

// The key of FIPS 197, appendices A.1 and B, and of SP 800-38A, F.1.1.
const KEY: u128 = 0x2b7e151628aed2a6abf7158809cf4f3c;

// FIPS 197, appendix A.1: the key schedule of KEY, four words to a round.
const ROUND_KEYS: [(&str, u128); 11] = [
    ("FIPS 197 A.1 w[0..3]", 0x2b7e151628aed2a6abf7158809cf4f3c),
    ("FIPS 197 A.1 w[4..7]", 0xa0fafe1788542cb123a339392a6c7605),
    ("FIPS 197 A.1 w[8..11]", 0xf2c295f27a96b9435935807a7359f67f),
    ("FIPS 197 A.1 w[12..15]", 0x3d80477d4716fe3e1e237e446d7a883b),
    ("FIPS 197 A.1 w[16..19]", 0xef44a541a8525b7fb671253bdb0bad00),
    ("FIPS 197 A.1 w[20..23]", 0xd4d1c6f87c839d87caf2b8bc11f915bc),
    ("FIPS 197 A.1 w[24..27]", 0x6d88a37a110b3efddbf98641ca0093fd),
    ("FIPS 197 A.1 w[28..31]", 0x4e54f70e5f5fc9f384a64fb24ea6dc4f),
    ("FIPS 197 A.1 w[32..35]", 0xead27321b58dbad2312bf5607f8d292f),
    ("FIPS 197 A.1 w[36..39]", 0xac7766f319fadc2128d12941575c006e),
    ("FIPS 197 A.1 w[40..43]", 0xd014f9a8c9ee2589e13f0cc8b6630ca6),
];

// A block, and what it is under a key.
struct Block {
    name: &'static str,
    key: u128,
    plaintext: u128,
    ciphertext: u128,
}

// FIPS 197, appendices B and C.1, and SP 800-38A, F.1.1.
const BLOCKS: [Block; 6] = [
    Block {
        name: "FIPS 197 B",
        key: KEY,
        plaintext: 0x3243f6a8885a308d313198a2e0370734,
        ciphertext: 0x3925841d02dc09fbdc118597196a0b32,
    },
    Block {
        name: "FIPS 197 C.1",
        key: 0x000102030405060708090a0b0c0d0e0f,
        plaintext: 0x00112233445566778899aabbccddeeff,
        ciphertext: 0x69c4e0d86a7b0430d8cdb78070b4c55a,
    },
    Block {
        name: "SP 800-38A F.1.1 1",
        key: KEY,
        plaintext: 0x6bc1bee22e409f96e93d7e117393172a,
        ciphertext: 0x3ad77bb40d7a3660a89ecaf32466ef97,
    },
    Block {
        name: "SP 800-38A F.1.1 2",
        key: KEY,
        plaintext: 0xae2d8a571e03ac9c9eb76fac45af8e51,
        ciphertext: 0xf5d3d58503b9699de785895a96fdbaaf,
    },
    Block {
        name: "SP 800-38A F.1.1 3",
        key: KEY,
        plaintext: 0x30c81c46a35ce411e5fbc1191a0a52ef,
        ciphertext: 0x43b1cd7f598ece23881b00e3ed030688,
    },
    Block {
        name: "SP 800-38A F.1.1 4",
        key: KEY,
        plaintext: 0xf69f2445df4f9b17ad2b417be66c3710,
        ciphertext: 0x7b0c785e27e8ad3f8223207104725dd4,
    },
];

// What the library gives for a sample, beside what is published.
#[derive(Clone, Copy)]
struct Sample {
    name: &'static str,
    came: u128,
    expected: u128,
}

impl Sample {
    fn is_right(&self) -> bool {
        self.came == self.expected
    }
}

impl fmt::Display for Sample {
    fn fmt<W: fmt::Write>(&self, f: &mut fmt::Formatter<W>) -> fmt::Result {
        let Sample {
            name,
            came,
            expected,
        } = *self;
        if self.is_right() {
            write!(f, "{name:<23}{came:032x} right")
        } else {
            write!(f, "{name:<23}{came:032x} WRONG, expected {expected:032x}")
        }
    }
}

fn encrypt(key: u128, plaintext: u128) -> u128 {
    u128::from_be_bytes(aes::encrypt(key.to_be_bytes(), plaintext.to_be_bytes()))
}

// Vol 3 Part H, 2.2.3: k is 0, preq 0x07071000000101, pres 0x05000800000302, iat 1, ia 0xA1A2A3A4A5A6, rat 0,
// ra 0xB1B2B3B4B5B6.
fn confirm() -> Sample {
    let r = Nonce(0x5783D52156AD6F0E6388274EC6702EE0);
    let preq = [0x01, 0x01, 0x00, 0x00, 0x10, 0x07, 0x07];
    let pres = [0x02, 0x03, 0x00, 0x00, 0x08, 0x00, 0x05];
    let ia = [0xA6, 0xA5, 0xA4, 0xA3, 0xA2, 0xA1];
    let ra = [0xB6, 0xB5, 0xB4, 0xB3, 0xB2, 0xB1];
    Sample {
        name: "Part H 2.2.3 c1",
        came: crypto::c1(0, r, preq, pres, 1, ia, 0, ra).0,
        expected: 0x1e1e3fef878988ead2a74dc5bef13b86,
    }
}

// Vol 3 Part H, 2.2.4: k is 0.
fn short_term_key() -> Sample {
    let r1 = Nonce(0x000F0E0D0C0B0A091122334455667788);
    let r2 = Nonce(0x010203040506070899AABBCCDDEEFF00);
    Sample {
        name: "Part H 2.2.4 s1",
        came: crypto::s1(0, r1, r2).0,
        expected: 0x9a1fe1f0e8b0f49b5b4216ae796da062,
    }
}

fn main(rt: HostRuntime) -> io::Result<()> {
    let schedule = aes::key_expansion(KEY.to_be_bytes());
    let (rounds, _) = schedule.as_chunks::<16>();
    let round_keys = rounds.iter().zip(&ROUND_KEYS).map(|(words, &(name, expected))| Sample {
        name,
        came: u128::from_be_bytes(*words),
        expected,
    });
    let blocks = BLOCKS.iter().map(|block| Sample {
        name: block.name,
        came: encrypt(block.key, block.plaintext),
        expected: block.ciphertext,
    });
    let samples = round_keys
        .chain(blocks)
        .chain([confirm(), short_term_key()]);
    // Gone through twice, to write and to count, since a list of them would have to be allocated.
    for sample in samples.clone()? {
        println!(rt; "{sample}")?;
    }
    let right = samples.filter(|sample| sample.is_right()).count();
    println!(rt; "{right} of 19 right")
}
