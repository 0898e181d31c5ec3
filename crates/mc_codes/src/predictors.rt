// Delays and coefficients of the predictors, as read (ISO/IEC 13818-3, 2.5.1.17 and 2.5.2.17).
ghost use Rattle.std.specs.Prelude.{List, ℕ, ◌+◌, ◌*◌, set, get_or};
ghost use Rattle.bits.specs.Table.{set3};
ghost use Rattle.bit_reader.specs.Reads.{Reads};
ghost use Rattle.mc_payload.specs.Payload.{predictors};
ghost use Rattle.mc_codes.specs.Parts.{predictor_by, stored};

use bit_reader::BitReader;
use mc_error::McError;
use mc_fields::bits_if;

// A predictor of n coefficients, of which there is at least one: its delay and its coefficient bytes.
fn read_predictor(reader: &mut BitReader<'_>, n: u8) -> Result<[u8; 4], McError>
    ensures { (q : ℕ) (a : List ℕ) → Reads reader.old (predictor_by n q a) (stored (λ t. set3 (set a (4 * q) (get_or t 0 0)) (4 * q + 1) (get_or t 1 0) (get_or t 2 0) (get_or t 3 0)) result) reader.new }
{
    let delay = reader.read(3)? as u8;
    let first = reader.read(8)? as u8;
    let second = reader.read(bits_if(1 < n, 8))? as u8;
    let third = reader.read(bits_if(2 < n, 8))? as u8;
    Ok([delay, first, second, third])
}

// A delay and three coefficient bytes to a predictor; 0 where there is none.
pub fn read_predictors(reader: &mut BitReader<'_>, predsi: &[u8; 56]) -> Result<[u8; 192], McError>
    ensures { Reads reader.old (predictors predsi.now) result reader.new }
{
    let mut codes = [0u8; 192];
    // by number, which gives the predictor's place in both tables
    for q in 0..48 {
        let n = predsi[7 * (q / 6) + 1 + q % 6];
        if n != 0 {
            codes[4 * q..4 * q + 4].copy_from_slice(&read_predictor(reader, n)?);
        }
    }
    Ok(codes)
}
