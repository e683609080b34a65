// AES-128 of FIPS 197. A state and a round key are four columns, each a number of four octets, the first octet lowest.
#![tactic(auto)]

ghost use Rattle.std.specs.Prelude.{◌≡◌, map};
ghost use Rattle.aes.specs.Gf.{sub_byte, xtime};
ghost use Rattle.aes.specs.Aes.{sub_bytes, shift_rows, mixed_at, mix_columns, add_round_key, rot_word, sub_word, full_round, key_expansion, aes128};
ghost use Rattle.aes.specs.Columns.{four, octets, next_key};

use std::array;

// The four columns of a state, or the four words of a round key.
// No `[u8; 16]`: with the octets themselves a block took 3.5 times as long.
type Block = [u32; 4];

// The S-box: section 5.1.1.
static SBOX: [u8; 256] = [
    99, 124, 119, 123, 242, 107, 111, 197, 48, 1, 103, 43, 254, 215, 171, 118, 202, 130, 201, 125,
    250, 89, 71, 240, 173, 212, 162, 175, 156, 164, 114, 192, 183, 253, 147, 38, 54, 63, 247, 204,
    52, 165, 229, 241, 113, 216, 49, 21, 4, 199, 35, 195, 24, 150, 5, 154, 7, 18, 128, 226, 235,
    39, 178, 117, 9, 131, 44, 26, 27, 110, 90, 160, 82, 59, 214, 179, 41, 227, 47, 132, 83, 209, 0,
    237, 32, 252, 177, 91, 106, 203, 190, 57, 74, 76, 88, 207, 208, 239, 170, 251, 67, 77, 51, 133,
    69, 249, 2, 127, 80, 60, 159, 168, 81, 163, 64, 143, 146, 157, 56, 245, 188, 182, 218, 33, 16,
    255, 243, 210, 205, 12, 19, 236, 95, 151, 68, 23, 196, 167, 126, 61, 100, 93, 25, 115, 96, 129,
    79, 220, 34, 42, 144, 136, 70, 238, 184, 20, 222, 94, 11, 219, 224, 50, 58, 10, 73, 6, 36, 92,
    194, 211, 172, 98, 145, 149, 228, 121, 231, 200, 55, 109, 141, 213, 78, 169, 108, 86, 244, 234,
    101, 122, 174, 8, 186, 120, 37, 46, 28, 166, 180, 198, 232, 221, 116, 31, 75, 189, 139, 138,
    112, 62, 181, 102, 72, 3, 246, 14, 97, 53, 87, 185, 134, 193, 29, 158, 225, 248, 152, 17, 105,
    217, 142, 148, 155, 30, 135, 233, 206, 85, 40, 223, 140, 161, 137, 13, 191, 230, 66, 104, 65,
    153, 45, 15, 176, 84, 187, 22,
];

// The round constants: section 5.2.
static RCON: [u8; 10] = [0x01, 0x02, 0x04, 0x08, 0x10, 0x20, 0x40, 0x80, 0x1B, 0x36];

// The S-box at one octet.
#[tactic(auto, unfolding(crate::proofs::Substitution::inverses, crate::specs::Gf::bit, crate::specs::Gf::affine_bit, crate::specs::Gf::from_bits, crate::specs::Gf::affine), using(crate::proofs::Substitution::sub_byte_at))]
fn sub_byte(x: u8) -> u8
    ensures { result ≡ sub_byte x }
{
    SBOX[x as usize]
}

// The S-box at each octet of a word: SubWord.
#[tactic(auto, unfolding(crate::specs::Columns::four, crate::specs::Aes::sub_word), using(crate::proofs::Columns::joined, crate::proofs::Bounds::sub_octet))]
fn sub_word(x: u32) -> u32
    ensures { four result ≡ sub_word (four x) }
{
    u32::from_le_bytes(x.to_le_bytes().map(sub_byte))
}

// A word turned by one octet: RotWord.
#[tactic(auto, using(crate::proofs::Columns::rotated_word))]
fn rot_word(x: u32) -> u32
    ensures { four result ≡ rot_word (four x) }
{
    x.rotate_right(8)
}

// SubBytes: section 5.1.1.
fn sub_bytes(s: Block) -> Block
    ensures { octets result ≡ sub_bytes (octets s) }
{
    s.map(sub_word)
}

// ShiftRows: section 5.1.2.
fn shift_rows(s: Block) -> Block
    ensures { octets result ≡ shift_rows (octets s) }
{
    let columns = s.map(u32::to_le_bytes);
    array::from_fn(|c| {
        u32::from_le_bytes([
            columns[c][0],
            columns[(c + 1) % 4][1],
            columns[(c + 2) % 4][2],
            columns[(c + 3) % 4][3],
        ])
    })
}

// The product by {02} of each octet of a column: section 4.2. Octet by octet, a block took 1.8 times as long.
#[tactic(auto, using(crate::proofs::Columns::doubled))]
fn double(x: u32) -> u32
    ensures { four result ≡ map xtime (four x) }
{
    ((x & 0x7F7F7F7F) << 1) ^ ((x & 0x80808080) >> 7) * 0x1B
}

// MixColumns on one column: the rows of the matrix are rotations of the first.
#[tactic(auto, using(crate::proofs::Columns::four_xor, crate::proofs::Xor::mixed))]
fn mix_column(x: u32) -> u32
    ensures { four result ≡ mixed_at (four x) 0 }
{
    let y = double(x);
    y ^ rot_word(x ^ y ^ rot_word(x ^ rot_word(x)))
}

// MixColumns: section 5.1.3.
fn mix_columns(s: Block) -> Block
    ensures { octets result ≡ mix_columns (octets s) }
{
    s.map(mix_column)
}

// AddRoundKey: section 5.1.4.
fn add_round_key(s: Block, k: Block) -> Block
    ensures { octets result ≡ add_round_key (octets s) (octets k) }
{
    array::from_fn(|c| s[c] ^ k[c])
}

// The round key after k, with the round constant r: four steps of section 5.2.
#[tactic(auto, using(crate::proofs::Columns::next_words, crate::proofs::Columns::four_xor, crate::proofs::Columns::small))]
fn next_key(k: Block, r: u8) -> Block
    ensures { octets result ≡ next_key r (octets k) }
{
    let temp = sub_word(rot_word(k[3])) ^ u32::from(r);
    let a = k[0] ^ temp;
    let b = k[1] ^ a;
    let c = k[2] ^ b;
    let d = k[3] ^ c;
    [a, b, c, d]
}

// SubBytes, ShiftRows, MixColumns and AddRoundKey.
#[tactic(auto, unfolding(crate::specs::Aes::full_round))]
fn full_round(s: Block, k: Block) -> Block
    ensures { octets result ≡ full_round (octets s) (octets k) }
{
    add_round_key(mix_columns(shift_rows(sub_bytes(s))), k)
}

// The cipher: section 5.1.
// Each round key is made as it is needed: with all made first, a block took 8 in 100 more instructions.
fn cipher(key: Block, block: Block) -> Block
    ensures { octets result ≡ aes128 (octets key) (octets block) }
{
    let mut k = key;
    let mut s = add_round_key(block, key);
    for r in &RCON[..9] {
        // `next` and `state`, since the check covers no call that assigns to an array: no `k = next_key(k, *r)`.
        let next = next_key(k, *r);
        let state = full_round(s, next);
        k = next;
        s = state;
    }
    add_round_key(shift_rows(sub_bytes(s)), next_key(k, RCON[9]))
}

// 16 octets as four columns.
fn load(s: &[u8; 16]) -> Block
    ensures { octets result ≡ s.now }
{
    array::from_fn(|c| u32::from_le_bytes([s[4 * c], s[4 * c + 1], s[4 * c + 2], s[4 * c + 3]]))
}

// Four columns as 16 octets.
fn store(s: Block) -> [u8; 16]
    ensures { result ≡ octets s }
{
    let columns = s.map(u32::to_le_bytes);
    array::from_fn(|i| columns[i / 4][i % 4])
}

// AES-128 of a block under a key: section 5.1.
pub fn encrypt(key: [u8; 16], block: [u8; 16]) -> [u8; 16]
    ensures { result ≡ aes128 key block }
{
    store(cipher(load(&key), load(&block)))
}

// The key schedule, its 44 words laid end to end: section 5.2.
pub fn key_expansion(key: [u8; 16]) -> [u8; 176]
    ensures { result ≡ key_expansion key }
{
    let mut w = [0; 176];
    w[..16].copy_from_slice(&key);
    let mut k = load(&key);
    // By place, since after chunks_exact_mut the check knows the length of w alone.
    for (i, r) in RCON.iter().enumerate() {
        let next = next_key(k, *r);
        let at = 16 * i + 16;
        w[at..at + 16].copy_from_slice(&store(next));
        k = next;
    }
    w
}
