// Three reads at once, out of one window of eight bytes.
#![tactic(auto)]

ghost use Rattle.std.specs.Prelude.{◌≡◌, ◌+◌, ◌-◌, ◌*◌, ◌/◌, ◌%◌, ◌^◌, ◌≤◌, ◌<◌, IfOk, IfSome, All};
ghost use Rattle.bits.specs.Bits.{value_at};
ghost use Rattle.bit_reader.specs.Answer.{moved};
ghost use Rattle.bit_reader.specs.Reads.{Reads};
ghost use Rattle.window.specs.Three.{three};

use bit_reader::BitReader;
use mc_error::McError;

// Eight bytes from byte i on, the first highest; none where the string ends before.
fn window_at(bytes: &[u8], i: usize) -> Option<u64>
    ensures { IfSome result (λ window. window ≡ value_at bytes.now (i * 8) 64) }
{
    let eight = bytes.get(i..)?.first_chunk()?;
    Some(u64::from_be_bytes(*eight))
}

// The n bits of a window of 64 that stand after the first o. A width by its number, as in bit_reader.
fn field_of(window: u64, o: usize, n: usize) -> u32
    requires { (1 ≤ n) × (n ≤ 16) × (o + n ≤ 64) }
    ensures { result ≡ window / 2 ^ (64 - o - n) % 2 ^ n }
{
    ((window >> (64 - o - n)) % (1u64 << n)) as u32
}

// Three reads of n bits one after the other, out of one window of eight bytes where there is one. A refusal leaves the reader at the
// first field that ends past the limit.
pub fn read_three(reader: &mut BitReader<'_>, n: usize) -> Result<[u32; 3], McError>
    requires { n ≤ 16 }
    ensures reads { Reads reader.old (three n) result reader.new }
    ensures bound { IfOk result (All (λ v. v < 2 ^ n)) }
    ensures moved { reader.new ≡ record reader.old { at = moved reader.old.string.bits n 3 reader.old.at } }
{
    if n != 0
        && reader.string.bits >= 48
        && reader.at <= reader.string.bits - 48
        && let Some(window) = window_at(reader.string.bytes, reader.at / 8)
    {
        let o = reader.at % 8;
        reader.at += 3 * n;
        return Ok([
            field_of(window, o, n),
            field_of(window, o + n, n),
            field_of(window, o + 2 * n, n),
        ]);
    }
    Ok([reader.read(n)?, reader.read(n)?, reader.read(n)?])
}
