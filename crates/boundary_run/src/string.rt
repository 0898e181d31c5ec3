// A string of bits while it is written, and its bytes.
ghost use Rattle.std.specs.Prelude.{◌≡◌, ◌+◌, ◌≤◌};
ghost use Rattle.boundary_run.specs.String.{nothing, put_bits, field_of, fields_of, byte_of, bytes_of};

// One place for each bit, the first bit first; `at` is the next one to write. 232 is the longest head.
// Fixed memory, all of which goes into `bytes`: hence an array with a place beside it.
#[derive(Clone, Copy)]
pub struct Bits {
    pub bits: [u8; 232],
    pub at: usize,
}

// The n lowest bits of `value` from place `at` on, the highest first.
fn put(bits: [u8; 232], at: usize, n: usize, value: u32) -> [u8; 232]
    requires { at + n ≤ 232 }
    ensures { result ≡ put_bits bits at n value }
{
    let mut out = bits;
    let mut rest = value;
    // From the last place to the first, as `rest` is halved. By `iter_mut().rev()`, which was tried, the proof did not close: what the loop leaves is not known there.
    for k in (0..n).rev() {
        out[at + k] = (rest % 2) as u8;
        rest /= 2;
    }
    out
}

impl Bits {
    // Nothing written. A derived `Default` promises of its array each element alone, where this is the definition as it stands,
    // and would need a lemma for what stands here in one line.
    pub fn new() -> Bits
        ensures { result ≡ nothing }
    {
        Bits {
            bits: [0; 232],
            at: 0,
        }
    }

    // One field more; a field that passes the end is left out.
    #[tactic(auto, unfolding(crate::specs::String::field_of))]
    pub fn field(self, n: usize, value: u32) -> Bits
        ensures { result ≡ field_of self n value }
    {
        if self.at > 232 || n > 232 - self.at {
            return self;
        }
        Bits {
            bits: put(self.bits, self.at, n, value),
            at: self.at + n,
        }
    }

    // The same field so many times.
    pub fn fields(self, times: usize, n: usize, value: u32) -> Bits
        ensures { result ≡ fields_of self times n value }
    {
        (0..times).fold(self, |bits, _| bits.field(n, value))
    }
}

// Eight places from the first as a byte.
fn byte(bits: &[u8; 232], first: usize) -> u8
    requires { first + 8 ≤ 232 }
    ensures { result ≡ byte_of bits.now first 8 }
{
    bits[first..first + 8]
        .iter()
        .fold(0u8, |value, bit| value.wrapping_mul(2).wrapping_add(*bit))
}

// The bytes of a string.
pub fn bytes(bits: &[u8; 232]) -> [u8; 29]
    ensures { result ≡ bytes_of bits.now }
{
    std::array::from_fn(|k| byte(bits, 8 * k))
}
