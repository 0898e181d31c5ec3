// LFE and sample codes of the twelve granules (ISO/IEC 13818-3, 2.5.1.17).
ghost use Rattle.std.specs.Prelude.{◌≡◌, ℕ, ◌+◌, ◌≤◌, ◌<◌, length, get_or};
ghost use Rattle.bit_reader.specs.Reads.{Reads};
ghost use Rattle.mc_payload.specs.Payload.{granule_at, granules};
ghost use Rattle.mc_codes.specs.Parts.{samples_by, codeword_of, codewords_of, stored};

use bit_reader::BitReader;
use mc_error::McError;
use mc_fields::LfeAllocation;

// The bits of a place's codes, and whether each is a group code.
#[derive(Clone, Copy)]
struct Codeword {
    bits: u8,
    grouped: bool,
}

fn codeword_of(nb_steps: u32) -> Codeword
    ensures { result ≡ codeword_of nb_steps }
{
    let class = bitalloc::class_or_zero(nb_steps);
    Codeword {
        bits: class.bits_per_codeword as u8,
        grouped: class.grouping,
    }
}

fn codewords_of(own: &[u32; 96]) -> [Codeword; 96]
    ensures { result ≡ codewords_of own.now }
{
    own.map(codeword_of)
}

// The step counts without the zeros at their end.
fn trimmed(own: &[u32; 96]) -> &[u32]
    ensures { (length result.now ≤ 96) × ((i : ℕ) → get_or result.now i 0 ≡ get_or own.now i 0) }
{
    let end = own.iter().rposition(|n| *n != 0).map_or(0, |i| i + 1);
    &own[..end]
}

// The samples of a place in a granule: one group code, or three codes, from the index j on.
fn read_samples(
    reader: &mut BitReader<'_>,
    codeword: Codeword,
    j: usize,
    codes: &mut [u16; 3468],
) -> Result<(), McError>
    requires { (codeword.bits ≤ 16) × (j + 2 < 3468) }
    ensures { Reads reader.old (samples_by codeword.grouped codeword.bits j codes.old) (stored (λ _. codes.new) result) reader.new }
{
    let n = usize::from(codeword.bits);
    if codeword.grouped {
        codes[j] = reader.read(n)? as u16;
    } else {
        let [first, second, third] = window::read_three(reader, n)?;
        codes[j] = first as u16;
        codes[j + 1] = second as u16;
        codes[j + 2] = third as u16;
    }
    Ok(())
}

// A granule: the LFE code, then the samples of each place. Step counts stand beside their codewords: a count of no class has a codeword of no
// bits, and its place is read all the same.
fn read_granule(
    reader: &mut BitReader<'_>,
    gr: usize,
    lfe: LfeAllocation,
    own: &[u32],
    codewords: &[Codeword; 96],
    codes: &mut [u16; 3468],
) -> Result<(), McError>
    requires room { (gr < 12) × (length own.now ≤ 96) }
    requires table { codewords.now ≡ codewords_of own.now }
    ensures { Reads reader.old (granule_at lfe.value own.now gr codes.old) (stored (λ _. codes.new) result) reader.new }
{
    let first = 289 * gr;
    codes[first] = reader.read(lfe.code_bits())? as u16;
    // by number, which the place in `codes` needs: own.iter().zip(codewords).enumerate() would give it beside a pair
    for (i, n) in own.iter().enumerate() {
        if *n != 0 {
            read_samples(reader, codewords[i], first + 1 + 3 * i, codes)?;
        }
    }
    Ok(())
}

// By granule an LFE code and three codes to a place; 0 where there is none.
pub fn read_granules(
    reader: &mut BitReader<'_>,
    lfe: LfeAllocation,
    own: &[u32; 96],
    codes: &mut [u16; 3468],
) -> Result<(), McError>
    ensures { Reads reader.old (granules lfe.value own.now) (stored (λ _. codes.new) result) reader.new }
{
    codes.fill(0);
    let codewords = codewords_of(own);
    let steps = trimmed(own);
    // by number: tried codes.chunks_exact_mut(289), after whose loop a proof is told nothing of what was written in `codes`, and it did not close
    for gr in 0..12 {
        read_granule(reader, gr, lfe, steps, &codewords, codes)?;
    }
    Ok(())
}
