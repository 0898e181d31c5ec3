// A hash over the bytes of numbers and floats.
#![tactic(auto)]

ghost use Rattle.std.specs.Prelude.{◌≡◌};
ghost use Rattle.encoding.specs.Encoding.{hash_byte, hash_number, hash_floats};

use encoding::bits_of;

// 2^40 + 435, the prime of FNV-1a at 64 bits.
const PRIME: u64 = 0x0000_0100_0000_01B3;

// The hash of no bytes, at which FNV-1a at 64 bits starts.
pub const START: u64 = 0xCBF2_9CE4_8422_2325;

// The hash h, one byte more.
fn hash_byte(h: u64, byte: u8) -> u64
    ensures { result ≡ hash_byte h byte }
{
    (h ^ u64::from(byte)).wrapping_mul(PRIME)
}

// The hash h, the eight bytes of n more.
pub fn hash_number(h: u64, n: u64) -> u64
    ensures { result ≡ hash_number h n }
{
    n.to_le_bytes()
        .iter()
        .fold(h, |hash, byte| hash_byte(hash, *byte))
}

// The hash h, the bit patterns of all floats more.
pub fn hash_floats(h: u64, xs: &[f64]) -> u64
    ensures { result ≡ hash_floats h xs.now }
{
    xs.iter().fold(h, |hash, x| hash_number(hash, bits_of(*x)))
}
