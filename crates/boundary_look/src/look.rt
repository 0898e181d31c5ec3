// What is looked at in buffers and state after a frame call.
ghost use Rattle.std.specs.Prelude.{◌≡◌, ◌-◌, ◌<◌};
ghost use Rattle.fill.specs.Each.{each};
ghost use Rattle.boundary_look.specs.Look.{same as Look·same, all_are, same_values, is_stored, second_is_first, third_is_silent, zeros_at, bases_at, held_by, held_of, held_until};

// The same bits: equal, and zeros of the same sign. A NaN is the same as nothing.
#[tactic(auto, unfolding(crate::specs::Look::same))]
fn same(x: f64, y: f64) -> bool
    ensures { result ≡ Look·same x y }
{
    (x == y) & (1.0 / x == 1.0 / y)
}

// Whether each value is x.
pub fn all_are(xs: &[f64], x: f64) -> bool
    ensures { result ≡ all_are xs.now x }
{
    xs.iter().all(|y| same(*y, x))
}

// Whether two lists of values are the same.
#[tactic(auto, unfolding(crate::specs::Look::same_values))]
pub fn same_values(xs: &[f64], ys: &[f64]) -> bool
    ensures { result ≡ same_values xs.now ys.now }
{
    xs.len() == ys.len() && xs.iter().zip(ys).all(|(x, y)| same(*x, *y))
}

// Whether the history holds the last nine slots of a base, oldest first. A chain over a number here and below: it makes the places in both lists,
// whose order is not the same.
pub fn is_stored(history: &[f64; 576], left: &[f64; 1152], right: &[f64; 1152]) -> bool
    ensures { result ≡ is_stored history.now left.now right.now }
{
    (0..288usize).all(|k| {
        let j = (27 + k % 9) * 32 + k / 9;
        same(history[k], left[j]) & same(history[288 + k], right[j])
    })
}

// Whether the second channel of the output is the first.
pub fn second_is_first(output: &[f64; 5760]) -> bool
    ensures { result ≡ each (second_is_first output.now) 1152 }
{
    same_values(&output[1152..2304], &output[..1152])
}

// Whether the third channel of the output is +0 throughout.
pub fn third_is_silent(output: &[f64; 5760]) -> bool
    ensures { result ≡ each (third_is_silent output.now) 1152 }
{
    all_are(&output[2304..3456], 0.0)
}

// Whether the second channel of the output is the base in all slots of a subband. A chain over a number, which is a slot of two lists.
// The base stands by itself, since zeros may stand for it.
fn bases_in(output: &[f64; 5760], base: &[f64; 1152], subband: usize) -> bool
    requires { subband < 32 }
    ensures { result ≡ each (bases_at output.now base.now subband) 36 }
{
    (0..36usize).all(|slot| {
        let k = 32 * slot + subband;
        same(output[1152 + k], base[k])
    })
}

// What the second channel of the output holds in all slots of a subband: +0, the base value, or neither.
#[derive(Clone, Copy, PartialEq, Eq)]
pub enum Held {
    Zero,
    Base,
    Other,
}

impl Held {
    // By a number: 0 is neither, 1 is +0, 2 is the base value, and no subband holds what another number stands for.
    pub fn by_number(number: u8) -> Option<Held>
        ensures { result ≡ held_by number }
    {
        match number {
            0 => Some(Held::Other),
            1 => Some(Held::Zero),
            2 => Some(Held::Base),
            _ => None,
        }
    }
}

#[tactic(auto, using(crate::proofs::LookLaws::silent_base), unfolding(crate::specs::Look::held_of))]
fn held_in(output: &[f64; 5760], base: &[f64; 1152], subband: usize) -> Held
    requires { subband < 32 }
    ensures { result ≡ held_of output.now base.now subband }
{
    if bases_in(output, &[0.0; 1152], subband) {
        Held::Zero
    } else if bases_in(output, base, subband) {
        Held::Base
    } else {
        Held::Other
    }
}

// The first subband from `first` on whose second channel does not hold that; if there is none, 32, or `first` where that is more. No subband holds `None`.
pub fn holds_until(
    output: &[f64; 5760],
    base: &[f64; 1152],
    first: usize,
    what: Option<Held>,
) -> usize
    ensures { result ≡ held_until output.now base.now what (32 - first) first }
{
    (first..32)
        .find(|subband| Some(held_in(output, base, *subband)) != what)
        .unwrap_or(first.max(32))
}
