// From codes to values: ISO/IEC 11172-3, 2.4.3.3.4; ISO/IEC 13818-3, 2.5.3.2.4 and 2.5.3.2.1.3.
#![tactic(auto)]

ghost use Rattle.std.specs.Prelude.{◌≡◌, ◌<◌, ◌≤◌, ◌^◌, ◌+◌};
ghost use Rattle.requant.specs.Requant.{fraction, requantized, degrouped, excess_of, lfe_of, lfe_sample_of, coefficient_of};

use bitalloc::QuantClass;

// A code of n bits as a fraction: its first bit inverted, then read in two's complement, which is the code less
// 2^(n-1), and over 2^(n-1). The inverse of a power of two is exact, and a product is quicker than a quotient.
// Here and below a code and its width are two numbers. The public functions take them so, each with a width of its own: that of a class, nb,
// an allocation plus 1. `requantize_code` and `requantize_lfe` would make a struct of both each for its one call of `fraction_of`.
fn fraction_of(code: u32, n: u32) -> f64
    requires width { (1 ≤ n) × (n ≤ 16) }
    requires code_bound { code < 2 ^ n }
    ensures { result ≡ fraction n code }
{
    let msb: u32 = 1 << (n - 1);
    // Rust has no From<u32> for i32
    let v = code as i32 - msb as i32;
    f64::from(v) * (1.0 / f64::from(msb))
}

// The raw value of a sample's code: s'' = C * (s''' + D).
pub fn requantize_code(class: QuantClass, code: u32) -> f64
    requires width { (1 ≤ class.bits_per_sample) × (class.bits_per_sample ≤ 16) }
    requires code_bound { code < 2 ^ class.bits_per_sample }
    ensures { result ≡ requantized class code }
{
    class.c * (fraction_of(code, class.bits_per_sample) + class.d)
}

// The three samples of a grouped code, the lowest digit first, and what the code holds beyond them. Not one generic type with `ThreeValues`
// of mc_samples: it would have one name for digits and values, where each now has its own.
#[derive(Clone, Copy)]
pub struct Degrouped {
    pub digits: [u32; 3],
    pub excess: u32,
}

// `0 < nb_steps` is on a number: a narrower type would ask more of callers.
pub fn degroup(nb_steps: u32, combined: u32) -> Degrouped
    requires { 0 < nb_steps }
    ensures { (result.digits ≡ degrouped nb_steps combined) × (result.excess ≡ excess_of nb_steps combined) }
{
    let rest = combined / nb_steps;
    let third = rest / nb_steps;
    Degrouped {
        digits: [combined % nb_steps, rest % nb_steps, third % nb_steps],
        excess: third / nb_steps,
    }
}

// The value of an LFE code of nb bits: s'' = (2^nb / (2^nb - 1)) * (s''' + 2^(1-nb)).
pub fn requantize_lfe(code: u32, nb: u32) -> f64
    requires width { (2 ≤ nb) × (nb ≤ 16) }
    requires code_bound { code < 2 ^ nb }
    ensures { result ≡ lfe_of nb code }
{
    let two_nb: u32 = 1 << nb;
    let msb: u32 = 1 << (nb - 1);
    let t = f64::from(two_nb);
    t / (t - 1.0) * (fraction_of(code, nb) + 1.0 / f64::from(msb))
}

// An LFE sample under an allocation from 1 to 15, scaled. `scalefactor_bound` is on a number: a narrower type would ask more of callers.
pub fn lfe_sample(allocation: u32, scalefactor: usize, code: u32) -> f64
    requires allocation { (1 ≤ allocation) × (allocation ≤ 15) }
    requires scalefactor_bound { scalefactor < 63 }
    requires code_bound { code < 2 ^ (allocation + 1) }
    ensures { result ≡ lfe_sample_of allocation scalefactor code }
{
    requantize_lfe(code, allocation + 1) * tables::scalefactor(scalefactor)
}

// A prediction coefficient.
pub fn pred_coef(byte: u8) -> f64
    ensures { result ≡ coefficient_of byte }
{
    (f64::from(byte) - 127.0) / 32.0
}
