// The scalefactors and the requantizer for other languages. Each function takes any input: where an argument
// is outside its range, it answers 0, and a float answer is +0.
#![tactic(auto)]

ghost use Rattle.std.specs.Prelude.{◌≡◌, ◌<◌, ◌≤◌, ◌^◌, ltb};
ghost use Rattle.requant.specs.Requant.{degrouped, excess_of};
ghost use Rattle.leaves.specs.Leaves.{scalefactor_leaf, requantize_leaf, packed, degroup_leaf, lfe_leaf, coefficient_leaf};

use bitalloc::class_of_quantization;

#[unsafe(no_mangle)]
pub extern "C" fn mc_leaf_scalefactor(index: u32) -> f64
    ensures { result ≡ scalefactor_leaf index }
{
    // here and below: Rust has no From<u32> for usize
    tables::scalefactor_table()
        .get(index as usize)
        .copied()
        .unwrap_or(0.0)
}

// Whether a code is below 2^n. A width by its number, as in bit_reader.
fn has_bits(code: u32, n: u32) -> bool
    requires { n ≤ 16 }
    ensures { result ≡ ltb code (2 ^ n) }
{
    let limit: u32 = 1 << n;
    code < limit
}

#[unsafe(no_mangle)]
pub extern "C" fn mc_leaf_requantize_code(nb_steps: u32, code: u32) -> f64
    ensures { result ≡ requantize_leaf nb_steps code }
{
    match class_of_quantization(nb_steps) {
        Some(class) if has_bits(code, class.bits_per_sample) => {
            requant::requantize_code(class, code)
        }
        _ => 0.0,
    }
}

// The digits of a grouped code and its excess in one number.
#[tactic(auto, using(crate::proofs::DegroupLaws::few, crate::proofs::DegroupLaws::low))]
fn degroup_packed(nb_steps: u32, combined: u32) -> u32
    requires { (3 ≤ nb_steps) × (nb_steps ≤ 9) × (combined < 65536) }
    ensures { result ≡ packed (degrouped nb_steps combined) (excess_of nb_steps combined) }
{
    let code = requant::degroup(nb_steps, combined);
    code.digits[0] + 256 * code.digits[1] + 65536 * code.digits[2] + 1048576 * code.excess
}

#[unsafe(no_mangle)]
pub extern "C" fn mc_leaf_degroup(nb_steps: u32, combined: u32) -> u32
    ensures { result ≡ degroup_leaf nb_steps combined }
{
    match class_of_quantization(nb_steps) {
        Some(class) if class.grouping && has_bits(combined, class.bits_per_codeword) => {
            degroup_packed(nb_steps, combined)
        }
        _ => 0,
    }
}

#[unsafe(no_mangle)]
pub extern "C" fn mc_leaf_requantize_lfe(allocation: u32, scalefactor: u32, code: u32) -> f64
    ensures { result ≡ lfe_leaf allocation scalefactor code }
{
    if (1..=15).contains(&allocation) && scalefactor < 63 && has_bits(code, allocation + 1) {
        requant::lfe_sample(allocation, scalefactor as usize, code)
    } else {
        0.0
    }
}

#[unsafe(no_mangle)]
pub extern "C" fn mc_leaf_pred_coef(byte: u32) -> f64
    ensures { result ≡ coefficient_leaf byte }
{
    u8::try_from(byte).map_or(0.0, requant::pred_coef)
}
