// Numbers and floats as bytes, lowest byte first.
#![tactic(auto)]

ghost use Rattle.std.specs.Prelude.{◌≡◌, ◌+◌, ◌*◌, ◌%◌, ◌≤◌, get_or};
ghost use Rattle.std.specs.Float.Ieee.{to_bits, of_bits};
ghost use Rattle.std.specs.Float.{binary64};
ghost use Rattle.encoding.specs.Encoding.{byte_of, number_at};

use std::num::{f64_from_bits_with_nan, f64_to_bits_with_nan};

// Byte k of n from `at` on; 0 past the n and past the end.
// By `u8_at`, which was tried, the proof did not close: it has to know that no byte stands past the largest index.
#[tactic(auto, unfolding(crate::specs::Encoding::byte_of))]
fn byte_of(bytes: &[u8], at: usize, n: usize, k: usize) -> u8
    ensures { result ≡ byte_of bytes.now at n k }
{
    if k < n {
        at.checked_add(k)
            .and_then(|place| bytes.get(place))
            .copied()
            .unwrap_or(0)
    } else {
        0
    }
}

// The n bytes from `at` on, at most eight, as a number; bytes past the end count 0.
pub fn number_at(bytes: &[u8], at: usize, n: usize) -> u64
    ensures { result ≡ number_at bytes.now at n }
{
    u64::from_le_bytes(std::array::from_fn(|k| byte_of(bytes, at, n, k)))
}

// The byte at an index; 0 past the end.
pub fn u8_at(bytes: &[u8], at: usize) -> u8
    ensures { result ≡ number_at bytes.now at 1 }
{
    bytes.get(at).copied().unwrap_or(0)
}

// Four bytes as a number. They fit, so there is no error that TryFrom could answer.
pub fn u32_at(bytes: &[u8], at: usize) -> u32
    ensures { result ≡ number_at bytes.now at 4 }
{
    number_at(bytes, at, 4) as u32
}

// The bit pattern; of a NaN that of the quiet NaN with no sign and no payload.
pub fn bits_of(x: f64) -> u64
    ensures { result ≡ to_bits binary64 x }
{
    f64_to_bits_with_nan(x)
}

// The float of a bit pattern.
pub fn float_of(bits: u64) -> f64
    ensures { result ≡ of_bits binary64 bits }
{
    f64_from_bits_with_nan(bits)
}
