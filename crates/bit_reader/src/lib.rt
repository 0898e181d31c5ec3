// Reads fields of at most 16 bits out of a lent string of bits.
#![tactic(auto)]

ghost use Rattle.std.specs.Prelude.{◌≡◌, ◌+◌, ◌<◌, ◌≤◌, ◌^◌, IfOk, get_or};
ghost use Rattle.bits.specs.Syntax.{field, done};
ghost use Rattle.bit_reader.specs.Answer.{moved, read_at};
ghost use Rattle.bit_reader.specs.Reads.{Reads};

use mc_error::McError;

// The byte at i; 0 past the end. encoding, which has the like, would be a crate more below this one.
fn byte_at(bytes: &[u8], i: usize) -> u32
    ensures value { result ≡ get_or bytes.now i 0 }
    ensures upper_bound { result ≤ 255 }
{
    bytes.get(i).map_or(0, |byte| u32::from(*byte))
}

// Bytes, first bit highest, and how many bits of them there are.
#[derive(Clone, Copy)]
pub struct BitString<'a> {
    pub bytes: &'a [u8],
    pub bits: usize,
}

// The n bits from bit `at` on, the highest first. They lie in three bytes, from that of the first bit on.
// A width is a usize with a bound, no type of its own: most calls of `read` give a literal, which each would have to wrap.
pub fn read_bits(string: BitString<'_>, at: usize, n: usize) -> Result<u32, McError>
    requires { n ≤ 16 }
    ensures value { result ≡ read_at string.entry.bytes.now string.entry.bits at n }
    ensures end { IfOk result (λ v. at + n < 2 ^ 64) }
{
    if string.bits < n || string.bits - n < at {
        return Err(McError::UnexpectedEnd);
    }
    let first = at / 8;
    let window = byte_at(string.bytes, first) * 65536
        + byte_at(string.bytes, first + 1) * 256
        + byte_at(string.bytes, first + 2);
    let after = 24 - at % 8 - n;
    Ok((window >> after) % (1u32 << n))
}

// A string of bits and a position in it.
#[derive(Clone, Copy)]
pub struct BitReader<'a> {
    pub string: BitString<'a>,
    pub at: usize,
}

impl<'a> BitReader<'a> {
    pub fn new(string: BitString<'a>, at: usize) -> BitReader<'a>
        ensures { (result.string ≡ string.entry) × (result.at ≡ at) }
    {
        BitReader { string, at }
    }

    // The n bits at the reader's position, which is then after them. A refusal leaves the reader as it was.
    // Callers narrow the number by `as`: `bound` says that it fits, and `try_from` would add an error that can not come.
    pub fn read(&mut self, n: usize) -> Result<u32, McError>
        requires { n ≤ 16 }
        ensures reads { Reads self.old (field n (λ v. done v)) result self.new }
        ensures bound { IfOk result (λ v. v < 2 ^ n) }
        ensures moved { self.new ≡ record self.old { at = moved self.old.string.bits n 1 self.old.at } }
    {
        let value = read_bits(self.string, self.at, n)?;
        self.at += n;
        Ok(value)
    }
}
