// Reads mc_header() (ISO/IEC 13818-3, 2.5.1.13), and tests what a string may be lent as. The definition of the whole head stands in specs/.
#![tactic(auto)]

ghost use Rattle.std.specs.Prelude.{◌≡◌, ◌+◌, ◌≤◌, ltb};
ghost use Rattle.mc_fields.specs.Head.{bits_if};
ghost use Rattle.mc_fields.specs.Lent.{string_fits, base_fits};

mod header;

use bit_reader::BitString;
pub use header::{bits_if, read_mc_header};

// mc_composite_status_info() as read; what a field of no bits would hold is 0. The tables are flat, by group, and allocations, crosstalk codes and
// flags in them are numbers, not enums or bools: the definitions and the exported bytes have them as read.
#[derive(Clone, Copy)]
pub struct McStatus {
    pub tc_sbgr_select: bool,
    pub dyn_cross_on: bool,
    pub mc_prediction_on: bool,
    pub tc_allocation: [u8; 12],
    pub dyn_cross_lr: bool,
    // dyn_cross_mode, dyn_second_stereo
    pub dyn_cross: [u8; 24],
    // groups 0 to 7: mc_prediction, then predsi of each of six predictors
    pub mc_prediction: [u8; 56],
}

// 0 for no LFE codes, or one less than their bits. No Option: 0 for none is the format's own number, and settings and definitions hold it so.
#[derive(Clone, Copy)]
pub struct LfeAllocation {
    pub value: u8,
    ghost low: { value ≤ 15 },
}

impl LfeAllocation {
    // The bits of one LFE code.
    pub fn code_bits(self) -> usize
        ensures value { result ≡ bits_if (ltb 0 self.value) (self.value + 1) }
        ensures most { result ≤ 16 }
    {
        bits_if(0 < self.value, usize::from(self.value) + 1)
    }
}

// The most bytes of a string.
pub const MAX_STRING_BYTES: usize = 8192;

// At most as many bytes, and no more bits than they hold.
pub fn string_fits(string: BitString<'_>) -> bool
    ensures { result ≡ string_fits string.entry.bytes.now string.entry.bits }
{
    string.bytes.len() <= MAX_STRING_BYTES && string.bits <= 8 * string.bytes.len()
}

// One or two base channels.
pub fn base_fits(base_channels: u8) -> bool
    ensures { result ≡ base_fits base_channels }
{
    base_channels == 1 || base_channels == 2
}
