// The output channels of a configuration, in order (ISO/IEC 13818-3, 2.5.2.15).
ghost use Rattle.std.specs.Prelude.{◌≡◌};
ghost use Rattle.mc_config.specs.Config.{layout_of};

use crate::McConfig;

// The audio channels by number. They stay numbers, since `fallback_base_channel` and `name_of` take any u8 there.
pub const LEFT: u8 = 0;

pub const RIGHT: u8 = 1;

pub const CENTRE: u8 = 2;

pub const LEFT_SURROUND: u8 = 3;

pub const RIGHT_SURROUND: u8 = 4;

pub const MONO_SURROUND: u8 = 5;

pub const SECOND_LEFT: u8 = 6;

pub const SECOND_RIGHT: u8 = 7;

impl McConfig {
    // Front, then surround or the second stereo programme.
    #[tactic(auto, unfolding(crate::specs::Config::layout_of))]
    pub fn layout(self) -> &'static [u8]
        ensures { result.now ≡ layout_of self }
    {
        match (self.front, self.surround, self.second_stereo) {
            (1, 2, _) => &[LEFT, LEFT_SURROUND, RIGHT_SURROUND],
            (1, 1, _) => &[LEFT, MONO_SURROUND],
            (1, _, true) => &[LEFT, SECOND_LEFT, SECOND_RIGHT],
            (1, _, false) => &[LEFT],
            (3, 2, _) => &[LEFT, RIGHT, CENTRE, LEFT_SURROUND, RIGHT_SURROUND],
            (3, 1, _) => &[LEFT, RIGHT, CENTRE, MONO_SURROUND],
            (3, _, true) => &[LEFT, RIGHT, CENTRE, SECOND_LEFT, SECOND_RIGHT],
            (3, _, false) => &[LEFT, RIGHT, CENTRE],
            (_, 2, _) => &[LEFT, RIGHT, LEFT_SURROUND, RIGHT_SURROUND],
            (_, 1, _) => &[LEFT, RIGHT, MONO_SURROUND],
            (_, _, true) => &[LEFT, RIGHT, SECOND_LEFT, SECOND_RIGHT],
            (_, _, false) => &[LEFT, RIGHT],
        }
    }
}
