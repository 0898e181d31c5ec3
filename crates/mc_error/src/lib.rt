// Why a frame is refused, by the Rust's names.
#![tactic(auto)]

ghost use Rattle.std.specs.Prelude.{◌≡◌};
ghost use Rattle.mc_error.specs.Error.{refusal_of, packed_refusal};

use std::error::Error;
use std::fmt;

#[derive(Clone, Copy, Debug, PartialEq, Eq)]
pub enum McError {
    UnexpectedEnd,
    ForbiddenDynCrossMode { sbgr: usize, mode: u8 },
    MlLayer3Unsupported,
    ReservedScalefactor,
    ConfigChanged,
    InvalidArgument,
    ValueOutOfRange,
    InvalidAllocation,
    UndefinedCentre,
    InvalidDesk,
}

// Methods and no `From<McError>` for a number: a refusal has three numbers and a packed one, and a conversion would not say which.
impl McError {
    // The refusal's number.
    pub fn number(self) -> u32
        ensures { result ≡ (refusal_of self).number }
    {
        match self {
            McError::UnexpectedEnd => 1,
            McError::ForbiddenDynCrossMode { sbgr: _, mode: _ } => 2,
            McError::MlLayer3Unsupported => 3,
            McError::ReservedScalefactor => 4,
            McError::ConfigChanged => 5,
            McError::InvalidArgument => 6,
            McError::ValueOutOfRange => 7,
            McError::InvalidAllocation => 8,
            McError::UndefinedCentre => 13,
            McError::InvalidDesk => 14,
        }
    }

    // The subband group that refusal 2 names, else 0.
    pub fn group(self) -> usize
        ensures { result ≡ (refusal_of self).group }
    {
        match self {
            McError::ForbiddenDynCrossMode { sbgr, mode: _ } => sbgr,
            _ => 0,
        }
    }

    // The crosstalk code that refusal 2 names, else 0.
    pub fn code(self) -> u8
        ensures { result ≡ (refusal_of self).code }
    {
        match self {
            McError::ForbiddenDynCrossMode { sbgr: _, mode } => mode,
            _ => 0,
        }
    }

    // Number, group and code as one number, as C gets them. By `as`: `u64` has no `From<usize>`, as in all casts between the two.
    pub fn packed(self) -> u64
        ensures { result ≡ packed_refusal (refusal_of self) }
    {
        u64::from(self.number())
            + (self.group() % 16777216) as u64 * 256
            + u64::from(self.code()) * 4294967296
    }
}

impl fmt::Display for McError {
    ghost use Rattle.std.specs.Prelude.{Some};
    ghost use Rattle.mc_error.specs.Words.{words_of};

    ghost output = { λ e. Some (words_of e) };

    fn fmt<W: fmt::Write>(&self, f: &mut fmt::Formatter<W>) -> fmt::Result {
        f.write_str(match self {
            McError::UnexpectedEnd => "a field passes the bit count of its string",
            McError::ForbiddenDynCrossMode { .. } => "a crosstalk code is not listed",
            McError::MlLayer3Unsupported => "the header's Layer III flag is set",
            McError::ReservedScalefactor => "a scalefactor index is 63, which is reserved",
            McError::ConfigChanged => {
                "the layout, or under reading 1 its number of channels, is another than before"
            }
            McError::InvalidArgument => {
                "a bit count, reading, rate, LFE allocation, base step count or layout is wrong"
            }
            McError::ValueOutOfRange => "a base or history value is not within -4 to 4",
            McError::InvalidAllocation =>
                "a step count or LFE allocation that the head does not admit",
            McError::UndefinedCentre =>
                "the centre code is 2, which has no meaning under reading 2",
            McError::InvalidDesk => "the desk is above 7",
        })
    }
}

impl Error for McError {}
