// Delays and coefficients of the predictors from their codes (ISO/IEC 13818-3, 2.5.2.17 and 2.5.3.2.1.3): arrays of arrays, one level to a function.
// A closure that calls a function whose answer is an array has clauses of its own: none are inferred for it. Hence `g < 8` at each level: it is an
// index that `from_fn` gives, and in a type it would be wrapped in each closure and taken out in each sum.
ghost use Rattle.std.specs.Prelude.{◌≡◌, ◌+◌, ◌*◌, ◌<◌};
ghost use Rattle.mc_fields.specs.Head.{count_at};
ghost use Rattle.fill.specs.Tab.{tab};
ghost use Rattle.mc_values.specs.Values.{delays_in, delays_from, coef_by, coefs_in, coefs_from};

// The delays of group g.
fn group_delays(codes: &[u8; 192], g: usize) -> [u8; 6]
    requires { g < 8 }
    ensures { result ≡ delays_in codes.now g }
{
    std::array::from_fn(|px| codes[4 * (6 * g + px)])
}

// By group and predictor.
pub fn delays(codes: &[u8; 192]) -> [[u8; 6]; 8]
    ensures { result ≡ delays_from codes.now }
{
    std::array::from_fn(
        |g|
            requires { g < 8 }
            ensures { result ≡ delays_in codes.entry.now g }
        { group_delays(codes, g) },
    )
}

// Coefficient k of predictor q, which has n; +0 past them.
#[tactic(auto, unfolding(crate::specs::Values::coef_by))]
fn coef_by(codes: &[u8; 192], n: u8, q: usize, k: usize) -> f64
    requires { (q < 48) × (k < 3) }
    ensures { result ≡ coef_by codes.now n q k }
{
    if k < usize::from(n) {
        requant::pred_coef(codes[4 * q + 1 + k])
    } else {
        0.0
    }
}

fn predictor_coefs(codes: &[u8; 192], n: u8, q: usize) -> [f64; 3]
    requires { q < 48 }
    ensures { result ≡ tab (coef_by codes.now n q) 3 }
{
    std::array::from_fn(|k| coef_by(codes, n, q, k))
}

// The coefficients of group g. predsi is the status's, codes are the payload's: a struct of both would be made for one call.
fn group_coefs(predsi: &[u8; 56], codes: &[u8; 192], g: usize) -> [[f64; 3]; 6]
    requires { g < 8 }
    ensures { result ≡ coefs_in predsi.now codes.now g }
{
    std::array::from_fn(
        |px|
            requires { (g < 8) × (px < 6) }
            ensures { result ≡ tab (coef_by codes.entry.now (count_at predsi.entry.now g px) (6 * g + px)) 3 }
        { predictor_coefs(codes, predsi[7 * g + 1 + px], 6 * g + px) },
    )
}

// By group, predictor and coefficient.
pub fn coefs(predsi: &[u8; 56], codes: &[u8; 192]) -> [[[f64; 3]; 6]; 8]
    ensures { result ≡ coefs_from predsi.now codes.now }
{
    std::array::from_fn(
        |g|
            requires { g < 8 }
            ensures { result ≡ coefs_in predsi.entry.now codes.entry.now g }
        { group_coefs(predsi, codes, g) },
    )
}
