// The readings of the transfer guide, and what reading 2 says otherwise.
ghost use Rattle.std.specs.Prelude.{◌≡◌};
ghost use Rattle.mc_config.specs.Reading.{reading_fits, centre_stops, phantom_of};

use crate::McConfig;

// Reading 1 or 2. A reading stays a number, since callers pass any u32, and this is the test.
pub fn reading_fits(reading: u32) -> bool
    ensures { result ≡ reading_fits reading }
{
    reading == 1 || reading == 2
}

// Whether a centre code must stop the frame: code 2, under reading 2.
pub fn centre_stops(reading: u32, centre: u8) -> bool
    ensures { result ≡ centre_stops reading centre }
{
    reading == 2 && centre == 2
}

// Whether a phantom centre limits the first channel of the extension: under reading 2, for a front of three only.
pub fn phantom_of(reading: u32, config: McConfig) -> bool
    ensures { result ≡ phantom_of reading config }
{
    config.phantom_centre && (reading != 2 || config.front == 3)
}
