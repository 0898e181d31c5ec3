// mc_composite_status_info() (ISO/IEC 13818-3, 2.5.1.15).
ghost use Rattle.std.specs.Prelude.{◌≡◌, cond, ◌≤◌};
ghost use Rattle.bit_reader.specs.Reads.{Reads};
ghost use Rattle.mc_crosstalk.specs.Crosstalk.{predictors_of};
ghost use Rattle.mc_fields.specs.Head.{tc_allocation, dyn_cross, mode_at, prediction, forbidden_group, mc_composite_status_info};

use bit_reader::BitReader;
use mc_config::McConfig;
use mc_crosstalk::dyn_cross_sources;
use mc_error::McError;
use mc_fields::{McStatus, bits_if};
use mc_predictors::npred_for;

// tc_allocation of the twelve groups: read once for all, or for each. That a width is at most 8 is asked of the width of one field, here and in
// read_dyn_cross; as a ghost field of McConfig, which read_status is given, it would be asked of all who make one.
pub fn read_tc_allocation(
    reader: &mut BitReader<'_>,
    once: bool,
    bits: usize,
) -> Result<[u8; 12], McError>
    requires { bits ≤ 8 }
    ensures { Reads reader.old (tc_allocation once bits) result reader.new }
{
    if once {
        return Ok([reader.read(bits)? as u8; 12]);
    }
    let mut table = [0u8; 12];
    for allocation in table.iter_mut() {
        *allocation = reader.read(bits)? as u8;
    }
    Ok(table)
}

// dyn_cross_mode and dyn_second_stereo of the twelve groups. By number: tried chunks_exact_mut; of a table that is written
// by chunks a proof is told the length alone, and it did not close.
pub fn read_dyn_cross(
    reader: &mut BitReader<'_>,
    mode_bits: usize,
    second_bits: usize,
) -> Result<[u8; 24], McError>
    requires { (mode_bits ≤ 8) × (second_bits ≤ 8) }
    ensures { Reads reader.old (dyn_cross mode_bits second_bits) result reader.new }
{
    let mut table = [0u8; 24];
    for g in 0..McConfig::GROUPS {
        table[2 * g] = reader.read(mode_bits)? as u8;
        table[2 * g + 1] = reader.read(second_bits)? as u8;
    }
    Ok(table)
}

// The predictors of a group whose flag is set; else none.
fn predictors_if(flag: bool, pair: u32, mode: u8) -> usize
    ensures value { result ≡ cond flag (predictors_of pair mode) 0 }
    ensures most { result ≤ 6 }
{
    if flag { npred_for(pair, mode) } else { 0 }
}

// mc_prediction of groups 0 to 7, and where it is set predsi of each predictor. By number, as read_dyn_cross.
pub fn read_prediction(
    reader: &mut BitReader<'_>,
    on: bool,
    pair: u32,
    dyn_cross: &[u8; 24],
) -> Result<[u8; 56], McError>
    ensures { Reads reader.old (prediction on (λ g. predictors_of pair (mode_at dyn_cross.now g))) result reader.new }
{
    let mut table = [0u8; 56];
    for g in 0..McConfig::PREDICTED_GROUPS {
        let flag = reader.read(bits_if(on, 1))?;
        table[7 * g] = flag as u8;
        let n = predictors_if(flag == 1, pair, dyn_cross[2 * g]);
        for count in table[7 * g + 1..7 * g + 1 + n].iter_mut() {
            *count = reader.read(2)? as u8;
        }
    }
    Ok(table)
}

// The lowest group whose code is not listed: by number, which is the answer. Codes and flags of the tables are numbers, as McStatus says.
pub fn first_forbidden(pair: u32, dyn_cross: &[u8; 24]) -> Option<usize>
    ensures { result ≡ forbidden_group pair dyn_cross.now }
{
    (0..McConfig::GROUPS).find(|&g| dyn_cross_sources(pair, dyn_cross[2 * g]).is_none())
}

// All of mc_composite_status_info(); a forbidden code is refused after its last bit.
pub fn read_status(reader: &mut BitReader<'_>, config: McConfig) -> Result<McStatus, McError>
    requires { (config.tc_allocation_bits ≤ 8) × (config.dyn_cross_bits ≤ 8) }
    ensures { Reads reader.old (mc_composite_status_info config) result reader.new }
{
    let tc_sbgr_select = reader.read(1)? == 1;
    let dyn_cross_on = reader.read(1)? == 1;
    let mc_prediction_on = reader.read(1)? == 1;
    let tc_allocation = read_tc_allocation(reader, tc_sbgr_select, config.tc_allocation_bits)?;
    let dyn_cross_lr = reader.read(bits_if(dyn_cross_on, 1))? == 1;
    let mode_bits = bits_if(dyn_cross_on, config.dyn_cross_bits);
    let second_bits = bits_if(dyn_cross_on, bits_if(config.second_stereo, 1));
    let dyn_cross = read_dyn_cross(reader, mode_bits, second_bits)?;
    let pair = config.pair();
    let mc_prediction = read_prediction(reader, mc_prediction_on, pair, &dyn_cross)?;
    if let Some(sbgr) = first_forbidden(pair, &dyn_cross) {
        return Err(McError::ForbiddenDynCrossMode {
            sbgr,
            mode: dyn_cross[2 * sbgr],
        });
    }
    Ok(McStatus {
        tc_sbgr_select,
        dyn_cross_on,
        mc_prediction_on,
        tc_allocation,
        dyn_cross_lr,
        dyn_cross,
        mc_prediction,
    })
}
