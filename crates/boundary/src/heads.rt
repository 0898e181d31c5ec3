// Head strings, field by field: mc_header(), mc_crc_check, mc_composite_status_info().
#![tactic(auto, unfolding(crate::specs::Heads::written, crate::specs::Heads::header_of, crate::specs::Heads::plain_head, crate::specs::Heads::crossed_head, crate::specs::Heads::longest_head))]

ghost use Rattle.std.specs.Prelude.{◌≡◌};
ghost use Rattle.boundary.specs.Heads.{header_of, plain_head, crossed_head, longest_head};

use boundary_run::Bits;

// mc_header() from `centre` on.
fn header(start: Bits, centre: u32, surround: u32, lfe: u32, layer3: u32) -> Bits
    ensures { result ≡ header_of start centre surround lfe layer3 }
{
    start
        .field(2, centre)
        .field(2, surround)
        .field(1, lfe)
        .field(1, 0) // audio_mix
        .field(2, 0) // dematrix_procedure
        .field(3, 0) // no_of_multi_lingual_ch
        .field(1, 0) // multi_lingual_fs
        .field(1, layer3)
        .field(2, 0) // both copyright bits
}

// Nothing crossed, nothing predicted, one tc of `tc_bits` bits for all groups.
pub fn plain_head(centre: u32, surround: u32, tc_bits: usize, lfe: u32, layer3: u32) -> Bits
    ensures { result ≡ plain_head centre surround tc_bits lfe layer3 }
{
    let start = Bits::new().field(1, 0); // ext_bit_stream_present
    header(start, centre, surround, lfe, layer3)
        .field(16, 0) // mc_crc_check
        .field(1, 1) // tc_sbgr_select: one tc for all groups
        .field(1, 0) // dyn_cross_on
        .field(1, 0) // mc_prediction_on
        .field(tc_bits, 0) // tc_allocation
}

// 3/2 with a crosstalk code in one group, and code 0 in the groups before and after it.
pub fn crossed_head(before: usize, code: u32, after: usize) -> Bits
    ensures { result ≡ crossed_head before code after }
{
    let start = Bits::new().field(1, 0); // ext_bit_stream_present
    header(start, 1, 2, 0, 0)
        .field(16, 0) // mc_crc_check
        .field(1, 1) // tc_sbgr_select: one tc for all groups
        .field(1, 1) // dyn_cross_on
        .field(1, 0) // mc_prediction_on
        .field(3, 0) // tc_allocation
        .field(1, 0) // dyn_cross_LR
        .fields(before, 4, 0) // dyn_cross_mode
        .field(4, code)
        .fields(after, 4, 0)
}

// 3/2 with every field that a head can have: 232 bits.
pub fn longest_head() -> Bits
    ensures { result ≡ longest_head }
{
    let start = Bits::new()
        .field(1, 1) // ext_bit_stream_present
        .field(8, 255); // n_ad_bytes
    header(start, 1, 2, 1, 0)
        .field(16, 0) // mc_crc_check
        .field(1, 0) // tc_sbgr_select: a tc for each group
        .field(1, 1) // dyn_cross_on
        .field(1, 1) // mc_prediction_on
        .fields(12, 3, 0) // tc_allocation
        .field(1, 0) // dyn_cross_LR
        .fields(12, 4, 0) // dyn_cross_mode
        .fields(8, 13, 8191) // mc_prediction, and predsi 3 for each of six predictors
}
