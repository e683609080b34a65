// Octet strings, and the numbers that are read from and written to them.
#![tactic(auto)]

ghost use Rattle.std.specs.Prelude.{ℕ, ◌≡◌, ◌+◌, ◌≤◌, length, take, drop};
ghost use Rattle.octets.specs.Octets.{from_octets, octets_of, word_of, octets_be, word_be, Written};

// A number of N octets. An octet string runs least significant octet first.
// Each impl repeats the clause: the check cannot give these methods that of the trait.
pub trait Number<const N: usize>: Sized {
    ghost value: { Self → ℕ };

    fn from_octets(octets: [u8; N]) -> Self
        ensures { value result ≡ from_octets octets.entry };
}

impl Number<2> for u16 {
    ghost value = { λ x. x };

    fn from_octets(octets: [u8; 2]) -> u16
        ensures { result ≡ from_octets octets }
    {
        u16::from_le_bytes(octets)
    }
}

impl Number<4> for u32 {
    ghost value = { λ x. x };

    fn from_octets(octets: [u8; 4]) -> u32
        ensures { result ≡ from_octets octets }
    {
        u32::from_le_bytes(octets)
    }
}

impl Number<8> for u64 {
    ghost value = { λ x. x };

    fn from_octets(octets: [u8; 8]) -> u64
        ensures { result ≡ from_octets octets }
    {
        u64::from_le_bytes(octets)
    }
}

impl Number<16> for u128 {
    ghost value = { λ x. x };

    #[tactic(auto, using(crate::proofs::Bytes::from_word))]
    fn from_octets(octets: [u8; 16]) -> u128
        ensures number { result ≡ from_octets octets }
        ensures word { result ≡ word_of octets }
    {
        u128::from_le_bytes(octets)
    }
}

// These three beside std's: the definitions say `octets_of`, `word_be` and `octets_be`, which these promise.

// The 16 octets of a word, least significant first.
#[tactic(auto, using(crate::proofs::Bytes::to_word))]
pub fn word_to_octets(word: u128) -> [u8; 16]
    ensures { result ≡ octets_of word }
{
    word.to_le_bytes()
}

// The word of 16 octets, most significant first.
#[tactic(auto, using(crate::proofs::Bytes::from_be))]
pub fn word_from_octets_be(octets: [u8; 16]) -> u128
    ensures { result ≡ word_be octets }
{
    u128::from_be_bytes(octets)
}

// The 16 octets of a word, most significant first.
#[tactic(auto, using(crate::proofs::Bytes::to_be))]
pub fn word_to_octets_be(word: u128) -> [u8; 16]
    ensures { result ≡ octets_be word }
{
    word.to_be_bytes()
}

// Octet strings have their parts at fixed places, as the published formats give them: so these take a slice and a place.

// N octets at a place of a slice.
// requires because it gives octets and has no refusal: the caller has tested the slice's length.
pub fn octets_at<const N: usize>(s: &[u8], at: usize) -> [u8; N]
    requires { at + N ≤ length s.now }
    ensures { result ≡ take N (drop at s.now) }
{
    let mut octets = [0; N];
    octets.copy_from_slice(&s[at..at + N]);
    octets
}

// The number at a place of a slice.
// requires because it gives a number and has no refusal: the caller has tested the slice's length.
pub fn read<T: Number<N>, const N: usize>(s: &[u8], at: usize) -> T
    requires { at + N ≤ length s.now }
    ensures { T.value result ≡ from_octets (take N (drop at s.now)) }
{
    T::from_octets(octets_at(s, at))
}

// The word at a place of a slice. Beside `read`, since each definition of 16 octets says `word_of`.
// requires because it gives a word and has no refusal: the caller has tested the slice's length.
pub fn read_word(s: &[u8], at: usize) -> u128
    requires { at + 16 ≤ length s.now }
    ensures { result ≡ word_of (take 16 (drop at s.now)) }
{
    u128::from_octets(octets_at(s, at))
}

// Lays src over dst from place at on, and says so; where it does not fit, false, and dst is as it was.
// A bool: `Written` says by it whether the octets fit; whoever writes into an array of its own needs no answer.
#[tactic(auto, unfolding(crate::specs::Octets::fits_at, crate::specs::Octets::write_at), using(crate::proofs::Parts::first_part))]
pub fn write(dst: &mut [u8], at: usize, src: &[u8]) -> bool
    ensures { Written dst.old at src.now result dst.new }
{
    if dst.len() < src.len() || dst.len() - src.len() < at {
        return false;
    }
    dst[at..at + src.len()].copy_from_slice(src);
    true
}
