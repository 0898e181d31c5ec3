// What a payload is read under, and the subband limits. The definition of the payload (ISO/IEC 13818-3, 2.5.1.17), and what is
// stated of unique reading, cuts, the number of excesses and the longest payload, stand in specs/, the proofs in proofs/.
#![tactic(auto)]

ghost use Rattle.std.specs.Prelude.{◌≡◌};
ghost use Rattle.mc_payload.specs.Places.{msblimit};

use mc_config::McHeader;
use mc_fields::McStatus;

// The step counts are flat tables, as callers lend them and the definitions have them.
#[derive(Clone, Copy)]
pub struct McSettings {
    // of the transfer guide, 1 or 2
    pub reading: u32,
    pub rate: u32,
    pub base_channels: u8,
    pub header: McHeader,
    pub status: McStatus,
    pub lfe_allocation: u8,
    // transmitted step counts: channel and subband at 32 * channel + subband
    pub nb_steps: [u32; 96],
    // base step counts, likewise
    pub base_nb_steps: [u32; 64],
}

// A phantom centre has no subbands from here on (2.5.2.13).
pub const PHANTOM_LIMIT: usize = 12;

// Subbands from here on carry nothing (2.5.2.17).
pub fn msblimit(rate: u32) -> usize
    ensures { result ≡ msblimit rate }
{
    if rate == 48000 { 27 } else { 30 }
}
