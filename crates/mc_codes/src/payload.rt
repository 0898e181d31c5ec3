// The codes of a payload, part by part (ISO/IEC 13818-3, 2.5.1.17).
ghost use Rattle.std.specs.Prelude.{◌≡◌};
ghost use Rattle.bits.specs.Syntax.{run};
ghost use Rattle.bit_reader.specs.Reads.{Reads};
ghost use Rattle.mc_payload.specs.Payload.{scfsi, payload};
ghost use Rattle.mc_codes.specs.Outcome.{outcome_of};

use crate::granules::read_granules;
use crate::predictors::read_predictors;
use crate::scalefactors::{read_lf_scalefactor, read_scalefactors};
use bit_reader::{BitReader, BitString};
use mc_error::McError;
use mc_fields::LfeAllocation;

// The scfsi codes by place; 0 where there is none.
pub fn read_scfsi(reader: &mut BitReader<'_>, steps: &[u32; 96]) -> Result<[u8; 96], McError>
    ensures { Reads reader.old (scfsi steps.now) result reader.new }
{
    let mut codes = [0u8; 96];
    // by number: tried codes.iter_mut().zip(steps), after which a proof is told no element of `codes`, and it did not close
    for (i, n) in steps.iter().enumerate() {
        if *n != 0 {
            codes[i] = reader.read(2)? as u8;
        }
    }
    Ok(codes)
}

// The codes of a whole payload, and the bits that it uses. The tables are flat, by place or granule, as the definitions are: a promise would have
// to flatten arrays of arrays. 0 stands where there is none, as the definitions and the tables for C have it.
#[derive(Clone, Copy, Default)]
pub struct PayloadCodes {
    pub bits: usize,
    pub scfsi: [u8; 96],
    pub predictors: [u8; 192],
    pub lf_scalefactor: u8,
    pub scalefactors: [u8; 288],
    pub granules: [u16; 3468],
}

// The payload by the Layer III flag, the LFE allocation, the coefficient counts, the step counts, and those of samples in the payload. Its
// codes are read into `codes`, since answered by value they would be cleared and copied several times in each frame
// (a frame call took 6.9 µs in place of 6.4 where nothing is transmitted).
pub fn read_payload(
    string: BitString<'_>,
    layer3: bool,
    lfe: LfeAllocation,
    predsi: &[u8; 56],
    steps: &[u32; 96],
    own: &[u32; 96],
    codes: &mut PayloadCodes,
) -> Result<(), McError>
    ensures { run (payload layer3 lfe.value predsi.now steps.now own.now) string.entry.bytes.now string.entry.bits 0 ≡ outcome_of result codes.new }
{
    let mut reader = BitReader::new(string, 0);
    codes.scfsi = read_scfsi(&mut reader, steps)?;
    if layer3 {
        return Err(McError::MlLayer3Unsupported);
    }
    codes.predictors = read_predictors(&mut reader, predsi)?;
    codes.lf_scalefactor = read_lf_scalefactor(&mut reader, lfe.value)?;
    codes.scalefactors = read_scalefactors(&mut reader, steps, &codes.scfsi)?;
    read_granules(&mut reader, lfe, own, &mut codes.granules)?;
    codes.bits = reader.at;
    Ok(())
}
