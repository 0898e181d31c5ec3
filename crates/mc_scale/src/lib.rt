// Crosstalk and scaling (ISO/IEC 13818-3, 2.5.3.2.1.2 and 2.5.3.2.3): a channel's values, times its own scalefactors.
#![tactic(auto)]

ghost use Rattle.std.specs.Prelude.{◌≡◌, ℕ, ◌+◌, ◌*◌, ◌/◌, ◌%◌, ◌<◌, ◌≤◌, length, get_or};
ghost use Rattle.mc_base.specs.Base.{chosen};
ghost use Rattle.mc_scale.specs.Code.Strided.{column};
ghost use Rattle.mc_scale.specs.Code.Column.{column_at};
ghost use Rattle.mc_scale.specs.Code.ScaleByPlace.{factors_of, times_factor, scaled_from, PlacesFit, scaled_by_place};
ghost use Rattle.mc_scale.specs.Code.TwoSteps.{two_steps_by_place};

use mc_base::Stereo;
use mc_crosstalk::{FROM_BASE, TRANSMITTED};
use mc_places::Places;

// The factors of all places, each looked up once. By `from_fn`, since that an index is
// below 63 is known by its number, and `map` would ask it of the element alone.
fn factors_of(scalefactor: &[u8; 288]) -> [f64; 288]
    requires { (i : ℕ) → i < 288 → get_or scalefactor.now i 0 < 63 }
    ensures { result ≡ factors_of scalefactor.now }
{
    let table = tables::scalefactor_table();
    std::array::from_fn(|i| table[usize::from(scalefactor[i])])
}

// One subband of a channel: the values that `src` has from `from` on, times the factors of the place. By index, since both go in steps of
// 32 from different places: a chain of step_by and zip is no plainer. Bounds are of each function's own place, as the tables of places have none.
fn scale_column(
    src: &[f64],
    from: usize,
    factors: &[f64; 288],
    place: usize,
    work: &mut [f64; 3456],
    at: usize,
)
    requires { (from + 1120 < length src.now) × (place < 96) × (at + 1120 < 3456) }
    ensures { work.new ≡ column (times_factor src.now from factors.now place) at work.old }
{
    for slot in 0usize..36 {
        work[at + 32 * slot] = src[from + 32 * slot] * factors[3 * place + slot / 12];
    }
}

// One place: its own raw values, a base channel's, or an earlier channel's (2.5.3.2.1.2), scaled.
fn scale_place(
    place: usize,
    places: &Places,
    factors: &[f64; 288],
    raw: &[f64; 3456],
    base: Stereo<&[f64]>,
    work: &mut [f64; 3456],
)
    requires { (place < 96) × (get_or places.now.source place 0 ≤ 4) × (length (chosen (get_or places.now.base place 0) base.left.now base.right.now) ≡ 1152) }
    ensures { work.new ≡ column (scaled_from (get_or places.now.source place 0) (get_or places.now.base place 0) factors.now raw.now base.entry.left.now base.entry.right.now place) (column_at place) work.old }
{
    let sb = place / 3;
    let at = 1152 * (place % 3) + sb;
    match places.source[place] {
        TRANSMITTED => scale_column(raw, at, factors, place, work, at),
        FROM_BASE => scale_column(
            base.chosen(places.base[place]),
            sb,
            factors,
            place,
            work,
            at,
        ),
        earlier => scale_column(
            raw,
            1152 * usize::from(earlier) + sb,
            factors,
            place,
            work,
            at,
        ),
    }
}

// All places, channel by channel: work holds the scaled values, channel m, slot and subband at (36 * m + slot) * 32 + subband; +0 where the step count is 0.
// A source is multiplied while it is read, with no copy in work. The second promise: that is the same as copying all
// sources into work and then multiplying work, whatever it held.
pub fn scale(
    places: &Places,
    scalefactor: &[u8; 288],
    raw: &[f64; 3456],
    base: Stereo<&[f64]>,
    work: &mut [f64; 3456],
)
    requires { PlacesFit places.now.source places.now.base scalefactor.now base.left.now base.right.now }
    ensures scaled { work.new ≡ scaled_by_place places.now.steps places.now.source places.now.base (factors_of scalefactor.now) raw.now base.entry.left.now base.entry.right.now }
    ensures two_steps { work.new ≡ two_steps_by_place places.now.steps places.now.source places.now.base (factors_of scalefactor.now) raw.now base.entry.left.now base.entry.right.now work.old }
{
    let factors = factors_of(scalefactor);
    work.fill(0.0);
    // by index, channel by channel: an iterator over the step counts takes the three channels in turn, whose columns put each other out of the cache
    for i in 0usize..96 {
        let place = 3 * (i % 32) + i / 32;
        if places.steps[place] != 0 {
            scale_place(place, places, &factors, raw, base, work);
        }
    }
}
