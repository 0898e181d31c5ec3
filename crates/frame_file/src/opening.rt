// The opening of a frame file.
ghost use Rattle.std.specs.Prelude.{◌≡◌, ◌≤◌, Some};
ghost use Rattle.frame_file.specs.File.{version_of, opening_of, number_bytes};

use encoding::{number_at, u8_at, u32_at};
use std::error::Error;
use std::fmt;

// The letters MCFRAMES and MCFRAME2 as numbers, lowest byte first.
const FIRST: u64 = 0x53454D415246434D;

const SECOND: u64 = 0x32454D415246434D;

#[derive(Clone, Copy, Debug, PartialEq, Eq)]
pub enum Version {
    First,
    Second,
}

impl Version {
    // The bytes of a frame's numbers.
    pub fn number_bytes(self) -> usize
        ensures value { result ≡ number_bytes self }
        ensures upper_bound { result ≤ 32 }
    {
        match self {
            Version::First => 22,
            Version::Second => 32,
        }
    }
}

// By a number, 2 is the second version and each other number the first.
impl From<u32> for Version {
    ghost use Rattle.frame_file.specs.File.{version_from};

    ghost from_gives = { λ number version. version ≡ version_from number };

    fn from(number: u32) -> Version {
        match number {
            2 => Version::Second,
            _ => Version::First,
        }
    }
}

// The version of a file by its letters.
#[tactic(auto, unfolding(encoding::specs::Encoding::lowest_first))]
pub fn version_of(bytes: &[u8]) -> Option<Version>
    ensures { result ≡ version_of bytes.now }
{
    match number_at(bytes, 0, 8) {
        FIRST => Some(Version::First),
        SECOND => Some(Version::Second),
        _ => None,
    }
}

#[derive(Clone, Copy, Debug, PartialEq, Eq)]
pub struct Opening {
    pub version: Version,
    pub frames: u32,
    // else a fresh state is meant
    pub state_follows: bool,
}

// What is wrong with an opening.
#[derive(Clone, Copy, Debug, PartialEq, Eq)]
pub enum OpeningFault {
    Empty,
    OtherLetters,
    OpeningCut,
    Neither0Nor1,
}

// An opening by its bytes, all that could be read of them.
pub fn opening_of(bytes: &[u8]) -> Result<Opening, OpeningFault>
    ensures { result ≡ opening_of bytes.now }
{
    if bytes.is_empty() {
        return Err(OpeningFault::Empty);
    }
    let version = version_of(bytes).ok_or(OpeningFault::OtherLetters)?;
    if bytes.len() < 13 {
        return Err(OpeningFault::OpeningCut);
    }
    let flag = u8_at(bytes, 12);
    if 1 < flag {
        return Err(OpeningFault::Neither0Nor1);
    }
    Ok(Opening {
        version,
        frames: u32_at(bytes, 8),
        state_follows: flag == 1,
    })
}

impl fmt::Display for OpeningFault {
    ghost use Rattle.frame_file.specs.Fault.{opening_words};

    ghost output = { λ fault. Some (opening_words fault) };

    fn fmt<W: fmt::Write>(&self, f: &mut fmt::Formatter<W>) -> fmt::Result {
        f.write_str(match self {
            OpeningFault::Empty => "the input is empty",
            OpeningFault::OtherLetters => "it does not begin with MCFRAMES or MCFRAME2",
            OpeningFault::OpeningCut => "it ends inside the opening",
            OpeningFault::Neither0Nor1 => {
                "byte 12, which says whether a state follows, is neither 0 nor 1"
            }
        })
    }
}

impl Error for OpeningFault {}
