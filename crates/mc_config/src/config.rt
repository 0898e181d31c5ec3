// The configuration that a header gives (ISO/IEC 13818-3, 2.5.2.13 and 2.5.2.15 A to G).
ghost use Rattle.std.specs.Prelude.{◌≡◌, ◌+◌, ◌*◌};
ghost use Rattle.mc_config.specs.Config.{front_of, main_of, tc_bits_of, cross_bits_of, pair_of, config_of};

use crate::{McConfig, McHeader};

impl McConfig {
    // Subband groups, and those among them that may be predicted.
    pub const GROUPS: usize = 12;

    pub const PREDICTED_GROUPS: usize = 8;

    // The most channels of a layout, and of an extension.
    pub const MAX_CHANNELS: usize = 5;

    pub const MAX_NMCH: usize = 3;

    #[tactic(auto, unfolding(crate::specs::Config::config_of))]
    pub fn from_header(h: McHeader, base_channels: u8) -> McConfig
        ensures { result ≡ config_of h base_channels }
    {
        let second_stereo = h.surround == 3;
        let front = front_of(base_channels, h.centre);
        let surround = if second_stereo { 0 } else { h.surround };
        let widths = widths_of(pair_of(front, surround));
        McConfig {
            front,
            surround,
            second_stereo,
            nmch: widths.main + if second_stereo { 2 } else { 0 },
            tc_allocation_bits: widths.tc_allocation,
            dyn_cross_bits: widths.dyn_cross,
            phantom_centre: h.centre == 3,
        }
    }

    // Front and surround as one number: 3/2 is 32. It stays one, since the public functions that take it take any u32.
    pub fn pair(self) -> u32
        ensures { result ≡ pair_of self }
    {
        pair_of(self.front, self.surround)
    }

    // Channels of the extension that belong to the main programme.
    pub fn main_nmch(self) -> usize
        ensures { result ≡ main_of (pair_of self) }
    {
        widths_of(self.pair()).main
    }
}

fn front_of(base_channels: u8, centre: u8) -> u8
    ensures { result ≡ front_of base_channels centre }
{
    match (base_channels, centre) {
        (1, _) => 1,
        (_, 1 | 3) => 3,
        _ => 2,
    }
}

fn pair_of(front: u8, surround: u8) -> u32
    ensures { result ≡ 10 * front + surround }
{
    10 * u32::from(front) + u32::from(surround)
}

// What goes by the pair: main channels, and the bits of a tc_allocation and of a dyn_cross_mode.
#[derive(Clone, Copy)]
struct Widths {
    main: usize,
    tc_allocation: usize,
    dyn_cross: usize,
}

fn widths_of(pair: u32) -> Widths
    ensures { (result.main ≡ main_of pair) × (result.tc_allocation ≡ tc_bits_of pair) × (result.dyn_cross ≡ cross_bits_of pair) }
{
    let (main, tc_allocation, dyn_cross) = match pair {
        32 => (3, 3, 4),
        31 => (2, 3, 3),
        30 | 21 => (1, 2, 1),
        22 => (2, 2, 3),
        _ => (0, 0, 0),
    };
    Widths {
        main,
        tc_allocation,
        dyn_cross,
    }
}
