// Raw and LFE values from their codes (ISO/IEC 11172-3, 2.4.3.3.4; ISO/IEC 13818-3, 2.5.3.2.4).
ghost use Rattle.std.specs.Prelude.{◌≡◌, true, ℕ, ◌+◌, ◌*◌, ◌/◌, ◌%◌, ◌^◌, ◌≤◌, ◌<◌, get_or};
ghost use Rattle.bits.specs.Total.{total};
ghost use Rattle.bitalloc.specs.Classes.{is_class};
ghost use Rattle.mc_payload.specs.Record.{one_for, excess_codes};
ghost use Rattle.mc_payload.specs.Unpack.{steps_fit};
ghost use Rattle.fill.specs.Strided.{strided};
ghost use Rattle.mc_values.specs.Values.{three_codes, three_values, code_excess, excess_by, excesses_from, raw_by, raw_from, lfe_by, lfe_from, ValuesFit, PlaceFits, SamplesFit, LfeFits};

use bitalloc::QuantClass;
use mc_fields::LfeAllocation;
use requant::Degrouped;

// The codes of three samples: the digits of the group code x and its excess, or x, y and z. `0 < nb_steps`:
// a row may be one of zeros, and its type does not tell.
#[tactic(auto, unfolding(mc_values::specs::Values::three_codes, mc_values::specs::Values::code_excess))]
fn three_codes(class: QuantClass, x: u16, y: u16, z: u16) -> Degrouped
    requires { 0 < class.nb_steps }
    ensures { (result.digits ≡ three_codes class.grouping class.nb_steps x y z) × (result.excess ≡ code_excess class.grouping class.nb_steps x) }
{
    if class.grouping {
        return requant::degroup(class.nb_steps, u32::from(x));
    }
    Degrouped {
        digits: [x.into(), y.into(), z.into()],
        excess: 0,
    }
}

// Their values, and the excess. A struct beside `Degrouped`, whose three are called digits.
// Three calls, as the definition lists three values.
#[derive(Clone, Copy)]
struct ThreeValues {
    values: [f64; 3],
    excess: u32,
}

#[tactic(auto, using(crate::proofs::SamplesWritten::code_small))]
fn three_values(class: QuantClass, x: u16, y: u16, z: u16) -> ThreeValues
    requires { ValuesFit class x y z }
    ensures { (result.values ≡ three_values class x y z) × (result.excess ≡ code_excess class.grouping class.nb_steps x) }
{
    let three = three_codes(class, x, y, z);
    ThreeValues {
        values: [
            requant::requantize_code(class, three.digits[0]),
            requant::requantize_code(class, three.digits[1]),
            requant::requantize_code(class, three.digits[2]),
        ],
        excess: three.excess,
    }
}

// The 36 raw values of place i, of n steps. Answers how many of its group codes have an excess. `i < 96`
// is its own index.
fn write_place(n: u32, i: usize, granules: &[u16; 3468], raw: &mut [f64; 3456]) -> u32
    requires place { (is_class n ≡ true) × (i < 96) }
    requires place_fits { PlaceFits n granules.now i }
    ensures { (raw.new ≡ strided 32 (raw_by n granules.now i) (1152 * (i % 3) + i / 3) 36 raw.old) × (result ≡ total 12 0 (λ gr. one_for (excess_by n granules.now i gr))) }
{
    let class = bitalloc::class_or_zero(n);
    let first = 1152 * (i % 3) + i / 3;
    let mut excess_codes = 0;
    // by number, which gives a granule's place in both tables
    for gr in 0..12 {
        let j = 289 * gr + 1 + 3 * i;
        let three = three_values(class, granules[j], granules[j + 1], granules[j + 2]);
        let k = first + 96 * gr;
        raw[k] = three.values[0];
        raw[k + 32] = three.values[1];
        raw[k + 64] = three.values[2];
        if three.excess != 0 {
            excess_codes += 1;
        }
    }
    excess_codes
}

// All raw values, +0 where the payload has none. Answers how many group codes have an excess.
pub fn write_raw(own: &[u32; 96], granules: &[u16; 3468], raw: &mut [f64; 3456]) -> u32
    requires { ((i : ℕ) → i < 96 → steps_fit (get_or own.now i 0) ≡ true) × SamplesFit own.now granules.now }
    ensures { (raw.new ≡ raw_from own.now granules.now) × (result ≡ excess_codes (excesses_from own.now granules.now)) }
{
    fill::clear(raw);
    let mut excess_codes = 0;
    // with its number, by which a place finds its codes and its values
    for (i, n) in own.iter().enumerate() {
        if *n != 0 {
            excess_codes += write_place(*n, i, granules, raw);
        }
    }
    excess_codes
}

// Here and below `scalefactor_bound` is on the number that a payload has, an index of the table of 63: the public function takes a number,
// and a narrower type would ask more of callers.
#[tactic(auto, unfolding(mc_values::specs::Values::lfe_by))]
fn lfe_value(lfe: LfeAllocation, lf_scalefactor: u8, code: u16) -> f64
    requires scalefactor_bound { lf_scalefactor < 63 }
    requires code_bound { code < 2 ^ (lfe.value + 1) }
    ensures { result ≡ lfe_by lfe.value lf_scalefactor code }
{
    if lfe.value == 0 {
        return 0.0;
    }
    requant::lfe_sample(lfe.value.into(), lf_scalefactor.into(), code.into())
}

// The LFE sample of each granule, +0 without an LFE allocation.
pub fn write_lfe(
    lfe: LfeAllocation,
    lf_scalefactor: u8,
    granules: &[u16; 3468],
    out: &mut [f64; 12],
)
    requires scalefactor_bound { lf_scalefactor < 63 }
    requires lfe_fits { LfeFits lfe.value granules.now }
    ensures { out.new ≡ lfe_from lfe.value lf_scalefactor granules.now }
{
    *out = std::array::from_fn(|gr| lfe_value(lfe, lf_scalefactor, granules[289 * gr]));
}
