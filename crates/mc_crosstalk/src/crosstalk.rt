// Dynamic crosstalk (ISO/IEC 13818-3, 2.5.2.15 and 2.5.3.2.1.2): where a channel's step count and samples come from.
ghost use Rattle.std.specs.Prelude.{◌≡◌, cond, Some, None, option_map, map};
ghost use Rattle.mc_crosstalk.specs.Crosstalk.{listed, source_rows, sources_of};

// A channel's source: an earlier channel by its number 0 to 2, or one of these. Numbers, not an enum: the definitions hold them so, and each promise
// on rows here, on Places.source and on what reads it would need a conversion.
pub const TRANSMITTED: u8 = 3;

pub const FROM_BASE: u8 = 4;

const T: u8 = TRANSMITTED;

const B: u8 = FROM_BASE;

// The sources by dyn_cross_mode, for three, two, one and no main channels.
static SOURCES_3: [&[u8]; 15] = [
    &[T, T, T],
    &[T, T, B],
    &[T, B, T],
    &[B, T, T],
    &[T, B, B],
    &[B, T, B],
    &[B, B, T],
    &[B, B, B],
    &[T, T, 1],
    &[T, 0, T],
    &[T, T, 0],
    &[T, 0, B],
    &[T, B, 0],
    &[B, T, 1],
    &[T, 0, 0],
];

static SOURCES_2: [&[u8]; 5] = [&[T, T], &[T, B], &[B, T], &[B, B], &[T, 0]];

static SOURCES_1: [&[u8]; 2] = [&[T], &[B]];

static SOURCES_0: [&[u8]; 1] = [&[]];

// The rows of a configuration. `predictable_rows` and `role_rows` have this shape, for other tables of the standard: one function for all would take
// six tables by position, where the arms of a match name the configuration.
#[tactic(auto, unfolding(crate::specs::Crosstalk::sources3, crate::specs::Crosstalk::sources2, crate::specs::Crosstalk::sources1, crate::specs::Crosstalk::sources0))]
fn source_rows(pair: u32) -> &'static [&'static [u8]]
    ensures { map (λ row. row.now) result.now ≡ source_rows pair }
{
    match pair {
        32 => &SOURCES_3,
        31 | 22 => &SOURCES_2,
        30 | 21 => &SOURCES_1,
        _ => &SOURCES_0,
    }
}

// The sources of the main channels; a code that is not listed is forbidden and has none. `pair` and `mode` are two parameters wherever they stand:
// the configuration's number and a group's code, which the definitions take apart.
pub fn dyn_cross_sources(pair: u32, mode: u8) -> Option<&'static [u8]>
    ensures { option_map (λ row. row.now) result ≡ cond (listed pair mode) (Some (sources_of pair mode)) None }
{
    source_rows(pair).get(usize::from(mode)).copied()
}
