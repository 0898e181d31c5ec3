// Scalefactor indices (ISO/IEC 13818-3, 2.5.1.17 and 2.5.2.17; ISO/IEC 11172-3, 2.4.2.6).
ghost use Rattle.std.specs.Prelude.{List, ℕ, ◌*◌, ◌<◌, IfOk, get_or};
ghost use Rattle.bits.specs.Syntax.{done};
ghost use Rattle.bits.specs.Table.{set3};
ghost use Rattle.bit_reader.specs.Reads.{Reads};
ghost use Rattle.mc_payload.specs.Payload.{factor, lf_scalefactor, factors_by, scalefactors};
ghost use Rattle.mc_codes.specs.Parts.{stored};

use bit_reader::BitReader;
use mc_error::McError;

// A scalefactor index; 63 is reserved.
fn read_scalefactor(reader: &mut BitReader<'_>) -> Result<u8, McError>
    ensures reads { Reads reader.old (factor (λ v. done v)) result reader.new }
    ensures bound { IfOk result (λ v. v < 64) }
{
    let index = reader.read(6)? as u8;
    if index == 63 {
        return Err(McError::ReservedScalefactor);
    }
    Ok(index)
}

pub fn read_lf_scalefactor(reader: &mut BitReader<'_>, lfe: u8) -> Result<u8, McError>
    ensures reads { Reads reader.old (lf_scalefactor lfe) result reader.new }
    ensures bound { IfOk result (λ v. v < 64) }
{
    if lfe == 0 {
        return Ok(0);
    }
    read_scalefactor(reader)
}

// The scalefactors of a place by its scfsi code, one to each of the three parts of the frame.
fn read_factors(reader: &mut BitReader<'_>, code: u8) -> Result<[u8; 3], McError>
    ensures { (i : ℕ) (a : List ℕ) → Reads reader.old (factors_by code i a) (stored (λ t. set3 a (3 * i) (get_or t 0 0) (get_or t 1 0) (get_or t 2 0)) result) reader.new }
{
    match code {
        0 => Ok([
            read_scalefactor(reader)?,
            read_scalefactor(reader)?,
            read_scalefactor(reader)?,
        ]),
        1 => {
            let first = read_scalefactor(reader)?;
            Ok([first, first, read_scalefactor(reader)?])
        }
        2 => Ok([read_scalefactor(reader)?; 3]),
        _ => {
            let first = read_scalefactor(reader)?;
            let second = read_scalefactor(reader)?;
            Ok([first, second, second])
        }
    }
}

// Three indices to a place; 0 where there is none.
pub fn read_scalefactors(
    reader: &mut BitReader<'_>,
    steps: &[u32; 96],
    scfsi: &[u8; 96],
) -> Result<[u8; 288], McError>
    ensures { Reads reader.old (scalefactors steps.now scfsi.now) result reader.new }
{
    let mut codes = [0u8; 288];
    // by number, which gives a place's three codes: steps.iter().zip(scfsi).enumerate() would give it beside a pair
    for (i, n) in steps.iter().enumerate() {
        if *n != 0 {
            codes[3 * i..3 * i + 3].copy_from_slice(&read_factors(reader, scfsi[i])?);
        }
    }
    Ok(codes)
}
