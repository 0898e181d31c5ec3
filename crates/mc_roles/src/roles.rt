// Which audio channel a main channel carries, by tc_allocation, and the base channel that a crossed one copies (ISO/IEC 13818-3, 2.5.2.15 and 2.5.3.2.1.2).
ghost use Rattle.std.specs.Prelude.{◌≡◌, ◌<◌, map, length, get_or};
ghost use Rattle.mc_config.specs.Config.{left};
ghost use Rattle.mc_roles.specs.Roles.{role_rows, tc_roles_of, fallback_of, base_of};

const L: u8 = mc_config::LEFT;

const R: u8 = mc_config::RIGHT;

const C: u8 = mc_config::CENTRE;

const LS: u8 = mc_config::LEFT_SURROUND;

const RS: u8 = mc_config::RIGHT_SURROUND;

const S: u8 = mc_config::MONO_SURROUND;

// The roles of the main channels by tc_allocation.
static ROLES_32: [&[u8]; 8] = [
    &[C, LS, RS],
    &[L, LS, RS],
    &[R, LS, RS],
    &[C, L, RS],
    &[C, LS, R],
    &[C, L, R],
    &[R, L, RS],
    &[L, LS, R],
];

static ROLES_31: [&[u8]; 6] = [&[C, S], &[L, S], &[R, S], &[C, L], &[C, R], &[L, R]];

static ROLES_30: [&[u8]; 3] = [&[C], &[L], &[R]];

static ROLES_22: [&[u8]; 4] = [&[LS, RS], &[L, RS], &[LS, R], &[L, R]];

static ROLES_21: [&[u8]; 3] = [&[S], &[L], &[R]];

static ROLES_0: [&[u8]; 1] = [&[]];

// The rows of a configuration, in the shape of `source_rows` of mc_crosstalk, which says why each table has its own match.
#[tactic(auto, unfolding(crate::specs::Roles::roles32, crate::specs::Roles::roles31, crate::specs::Roles::roles30, crate::specs::Roles::roles22, crate::specs::Roles::roles21, crate::specs::Roles::roles0))]
fn role_rows(pair: u32) -> &'static [&'static [u8]]
    ensures rows { map (λ row. row.now) result.now ≡ role_rows pair }
    ensures some { 0 < length result.now }
{
    match pair {
        32 => &ROLES_32,
        31 => &ROLES_31,
        30 => &ROLES_30,
        22 => &ROLES_22,
        21 => &ROLES_21,
        _ => &ROLES_0,
    }
}

// The audio channels that the main channels carry; a tc_allocation beyond the list takes the last row.
pub fn tc_roles(pair: u32, tc: u8) -> &'static [u8]
    ensures { result.now ≡ tc_roles_of pair tc }
{
    let rows = role_rows(pair);
    rows[usize::from(tc).min(rows.len() - 1)]
}

// The role of main channel m; past the list, left.
pub fn role(roles: &[u8], m: usize) -> u8
    ensures { result ≡ get_or roles.now m left }
{
    roles.get(m).copied().unwrap_or(mc_config::LEFT)
}

// The base channel that a crossed channel in this role copies, 0 or 1. A number, as the definition, Places.base and `chosen` of mc_base have it;
// callers of `chosen` pass any u8.
#[tactic(auto, unfolding(crate::specs::Roles::fallback_of))]
pub fn fallback_base_channel(role: u8, dyn_cross_lr: bool) -> usize
    ensures { result ≡ fallback_of role dyn_cross_lr }
{
    match role {
        mc_config::LEFT | mc_config::LEFT_SURROUND | mc_config::SECOND_LEFT => 0,
        mc_config::RIGHT | mc_config::RIGHT_SURROUND | mc_config::SECOND_RIGHT => 1,
        _ => usize::from(dyn_cross_lr),
    }
}

// The base channel that main channel m copies; with one base channel always the first. `pair`, `lr` and `base_channels` stand side by side here and in
// mc_places: codes of the configuration, of the status and of the frame, which the definitions take apart.
#[tactic(auto, unfolding(crate::specs::Roles::base_of))]
pub fn base_of(pair: u32, tc: u8, m: usize, lr: bool, base_channels: u8) -> usize
    ensures { result ≡ base_of pair tc m lr base_channels }
{
    if base_channels == 1 {
        return 0;
    }
    fallback_base_channel(role(tc_roles(pair, tc), m), lr)
}
