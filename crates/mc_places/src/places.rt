// Which channels and subbands the extension carries, and their step counts (ISO/IEC 13818-3, 2.5.2.13, 2.5.2.15 and 2.5.2.17).
ghost use Rattle.std.specs.Prelude.{◌≡◌, ℕ, ◌<◌, get_or};
ghost use Rattle.mc_config.specs.Config.{main_of};
ghost use Rattle.mc_crosstalk.specs.Crosstalk.{source_of};
ghost use Rattle.mc_roles.specs.Roles.{base_of};
ghost use Rattle.mc_places.specs.PlacesBy.{limit_by, limits_by, carried_by, source_by, group_sources, group_bases, steps_by, own_by, places_by, places_of};

use mc_config::McConfig;
use mc_crosstalk::{FROM_BASE, TRANSMITTED};
use mc_payload::{McSettings, PHANTOM_LIMIT, msblimit};

// By place, which is 3 * subband + channel: tables and no table of structs, since some who read them are lent one alone. A step count is 0 where there
// is none: the settings are lent with it so, and the definitions have it so.
#[derive(Clone, Copy, Default)]
pub struct Places {
    pub steps: [u32; 96],
    // of samples that are in the payload
    pub own: [u32; 96],
    pub source: [u8; 96],
    // the base channel that is copied where the source is FROM_BASE
    pub base: [u8; 96],
}

// The first subband that channel m no longer has, 0 for a channel that is not there; `phantom` is whether a phantom centre limits.
#[tactic(auto, unfolding(crate::specs::PlacesBy::limit_by))]
fn limit_by(nmch: usize, phantom: bool, limit: usize, m: usize) -> usize
    ensures { result ≡ limit_by nmch phantom limit m }
{
    if m >= nmch {
        0
    } else if phantom && m == 0 {
        PHANTOM_LIMIT
    } else {
        limit
    }
}

// The same of the three channels.
fn limits_by(nmch: usize, phantom: bool, limit: usize) -> [usize; 3]
    ensures { result ≡ limits_by nmch phantom limit }
{
    std::array::from_fn(|m| limit_by(nmch, phantom, limit, m))
}

// Whether channel m is there in subband sb.
#[tactic(auto, unfolding(crate::specs::PlacesBy::carried_by))]
fn carried(limits: &[usize; 3], m: usize, sb: usize) -> bool
    requires { m < 3 }
    ensures { result ≡ carried_by limits.now m sb }
{
    sb < limits[m]
}

// The source of main channel m by a crosstalk code.
fn listed_source(pair: u32, mode: u8, m: usize) -> u8
    ensures { result ≡ source_of pair mode m }
{
    let row = mc_crosstalk::dyn_cross_sources(pair, mode).unwrap_or(&[]);
    row.get(m).copied().unwrap_or(TRANSMITTED)
}

// The source of channel m by the crosstalk code and the second stereo bit of a group.
#[tactic(auto, unfolding(crate::specs::PlacesBy::source_by))]
fn source_by(pair: u32, main: usize, mode: u8, second: u8, m: usize) -> u8
    requires { main ≡ main_of pair }
    ensures { result ≡ source_by pair mode second m }
{
    if m < main {
        listed_source(pair, mode, m)
    } else if m == main + 1 && second == 1 {
        main as u8
    } else {
        TRANSMITTED
    }
}

// The sources of the three channels in each group. `group_bases` is another function of this shape: the rule behind each is another, and so are the
// parameters of `source_by` and `base_by`.
fn group_sources(pair: u32, main: usize, cross: &[u8; 24]) -> [u8; 36]
    requires { main ≡ main_of pair }
    ensures { result ≡ group_sources pair cross.now }
{
    std::array::from_fn(|k| {
        let g = k / 3;
        source_by(pair, main, cross[2 * g], cross[2 * g + 1], k % 3)
    })
}

// The base channel that channel m copies where its source is FROM_BASE.
fn base_by(pair: u32, tc: u8, m: usize, lr: bool, base_channels: u8) -> u8
    ensures { result ≡ base_of pair tc m lr base_channels }
{
    // 0 or 1
    mc_roles::base_of(pair, tc, m, lr, base_channels) as u8
}

// The same of the three channels in each group.
fn group_bases(pair: u32, tc: &[u8; 12], lr: bool, base_channels: u8) -> [u8; 36]
    ensures { result ≡ group_bases pair tc.now lr base_channels }
{
    std::array::from_fn(|k| base_by(pair, tc[k / 3], k % 3, lr, base_channels))
}

// The step count of channel m in subband sb, its own or its source's. Bounds and no types of small numbers: the sources and base channels of the
// tables are plain numbers, as definitions have them, and a place is computed from m and sb.
#[tactic(auto, unfolding(crate::specs::PlacesBy::steps_by))]
fn steps_by(
    steps: &[u32; 96],
    base_steps: &[u32; 64],
    there: bool,
    source: u8,
    base: u8,
    m: usize,
    sb: usize,
) -> u32
    requires { (source < 5) × (base < 2) × (m < 3) × (sb < 32) }
    ensures { result ≡ steps_by steps.now base_steps.now there source base m sb }
{
    if !there {
        return 0;
    }
    match source {
        TRANSMITTED => steps[32 * m + sb],
        FROM_BASE => base_steps[32 * usize::from(base) + sb],
        _ => steps[32 * usize::from(source) + sb],
    }
}

// The step count of samples that are in the payload.
#[tactic(auto, unfolding(crate::specs::PlacesBy::own_by))]
fn own_by(steps: &[u32; 96], there: bool, source: u8, m: usize, sb: usize) -> u32
    requires { (m < 3) × (sb < 32) }
    ensures { result ≡ own_by steps.now there source m sb }
{
    if there && source == TRANSMITTED {
        steps[32 * m + sb]
    } else {
        0
    }
}

// The tables by place, from those by group. Sources and bases are two tables, as the definitions make them: the promise would take pairs apart again.
fn by_place(
    limits: &[usize; 3],
    sources: &[u8; 36],
    bases: &[u8; 36],
    nb_steps: &[u32; 96],
    base_nb_steps: &[u32; 64],
) -> Places
    requires { ((k : ℕ) → k < 36 → get_or sources.now k 0 < 5) × ((k : ℕ) → k < 36 → get_or bases.now k 0 < 2) }
    ensures { result ≡ places_by limits.now sources.now bases.now nb_steps.now base_nb_steps.now }
{
    let mut steps = [0; 96];
    let mut own = [0; 96];
    let mut source = [0; 96];
    let mut base = [0; 96];
    // by index: four tables are filled at one place, for which four `from_fn` would find group, source and base anew
    for i in 0..96 {
        let m = i % 3;
        let sb = i / 3;
        let k = 3 * mc_groups::sbgr_of_subband(sb) + m;
        let there = carried(limits, m, sb);
        let from = sources[k];
        let copied = bases[k];
        steps[i] = steps_by(nb_steps, base_nb_steps, there, from, copied, m, sb);
        own[i] = own_by(nb_steps, there, from, m, sb);
        source[i] = from;
        base[i] = copied;
    }
    Places {
        steps,
        own,
        source,
        base,
    }
}

pub fn places_of(s: &McSettings) -> Places
    ensures { result ≡ places_of s.now }
{
    let config = McConfig::from_header(s.header, s.base_channels);
    let pair = config.pair();
    let sources = group_sources(pair, config.main_nmch(), &s.status.dyn_cross);
    let bases = group_bases(
        pair,
        &s.status.tc_allocation,
        s.status.dyn_cross_lr,
        s.base_channels,
    );
    let phantom = mc_config::phantom_of(s.reading, config);
    let limits = limits_by(config.nmch, phantom, msblimit(s.rate));
    by_place(&limits, &sources, &bases, &s.nb_steps, &s.base_nb_steps)
}
