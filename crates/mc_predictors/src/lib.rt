// Predictors (ISO/IEC 13818-3, 2.5.2.15 and 2.5.3.2.1.3): how many there are under a crosstalk code, and to which channels they belong.
#![tactic(auto)]

ghost use Rattle.std.specs.Prelude.{◌≡◌, map};
ghost use Rattle.mc_crosstalk.specs.Crosstalk.{predictors_of, predicted_of};
ghost use Rattle.mc_crosstalk.specs.Predictors.{predictable_rows};

// The channels with predictors, by dyn_cross_mode, for three, two and one main channels.
static PREDICTABLE_3: [&[u8]; 15] = [
    &[0, 1, 2],
    &[0, 1],
    &[0, 2],
    &[1, 2],
    &[0],
    &[1],
    &[2],
    &[],
    &[0],
    &[2],
    &[1],
    &[],
    &[],
    &[],
    &[],
];

static PREDICTABLE_2: [&[u8]; 5] = [&[0, 1], &[0], &[1], &[], &[]];

static PREDICTABLE_1: [&[u8]; 2] = [&[0], &[]];

// The rows of a configuration, in the shape of `source_rows` of mc_crosstalk, which says why each table has its own match.
#[tactic(auto, unfolding(mc_crosstalk::specs::Predictors::predictable3, mc_crosstalk::specs::Predictors::predictable2, mc_crosstalk::specs::Predictors::predictable1))]
fn predictable_rows(pair: u32) -> &'static [&'static [u8]]
    ensures { map (λ row. row.now) result.now ≡ predictable_rows pair }
{
    match pair {
        32 => &PREDICTABLE_3,
        31 | 22 => &PREDICTABLE_2,
        30 | 21 => &PREDICTABLE_1,
        _ => &[],
    }
}

// The channels with predictors, in order.
pub fn predictable_channels(pair: u32, mode: u8) -> &'static [u8]
    ensures { result.now ≡ predicted_of pair mode }
{
    predictable_rows(pair)
        .get(usize::from(mode))
        .copied()
        .unwrap_or(&[])
}

// The number of predictors: two for each of those channels.
#[tactic(auto, unfolding(mc_crosstalk::specs::Crosstalk::predictors_of))]
pub fn npred_for(pair: u32, mode: u8) -> usize
    ensures { result ≡ predictors_of pair mode }
{
    2 * predictable_channels(pair, mode).len()
}
