// Subband groups (ISO/IEC 13818-3, 2.5.2.15).
ghost use Rattle.std.specs.Prelude.{◌≡◌, ◌<◌};
ghost use Rattle.mc_config.specs.Groups.{sbgr_of};

// The group of a subband.
#[tactic(auto, unfolding(mc_config::specs::Groups::sbgr_of))]
pub fn sbgr_of_subband(sb: usize) -> usize
    ensures value { result ≡ sbgr_of sb }
    ensures below { result < 12 }
{
    match sb {
        0..=7 => sb,
        8..=9 => 8,
        10..=11 => 9,
        12..=15 => 10,
        _ => 11,
    }
}
