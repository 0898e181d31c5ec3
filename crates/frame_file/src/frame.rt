// A frame whose numbers say what follows them.
ghost use Rattle.std.specs.Prelude.{◌≡◌, ◌≤◌, None};
ghost use Rattle.frame_file.specs.File.{fault_of};

use crate::numbers::Numbers;
use std::error::Error;
use std::fmt;

// What keeps the rest of a frame from being read: the number that no frame may have.
#[derive(Clone, Copy, Debug, PartialEq, Eq)]
pub enum FrameFault {
    Call(u8),
    Carried(u8),
    BaseChannels(u8),
    HeadBytes(u32),
    PayloadBytes(u32),
}

// The first of the numbers that no frame may have.
pub fn fault_of(n: Numbers) -> Option<FrameFault>
    ensures { result ≡ fault_of n }
{
    if n.call != 1 {
        return Some(FrameFault::Call(n.call));
    }
    if 1 < n.carried {
        return Some(FrameFault::Carried(n.carried));
    }
    if n.base_channels == 0 || 2 < n.base_channels {
        return Some(FrameFault::BaseChannels(n.base_channels));
    }
    if 8192 < n.head_bytes {
        return Some(FrameFault::HeadBytes(n.head_bytes));
    }
    if 8192 < n.payload_bytes {
        return Some(FrameFault::PayloadBytes(n.payload_bytes));
    }
    None
}

// Numbers without a fault.
#[derive(Clone, Copy)]
pub struct Frame {
    pub numbers: Numbers,
    ghost right: { fault_of numbers ≡ None },
}

impl TryFrom<Numbers> for Frame {
    type Error = FrameFault;

    ghost use Rattle.frame_file.specs.Checked.{Checks};

    ghost try_from_gives = { Checks };

    fn try_from(numbers: Numbers) -> Result<Frame, FrameFault> {
        match fault_of(numbers) {
            Some(fault) => Err(fault),
            None => Ok(Frame { numbers }),
        }
    }
}

// Where the parts of its body begin, and where it ends. Lengths by `as`, since `usize` has no `From<u32>`.
impl Frame {
    ghost use Rattle.frame_file.specs.File.{head_at, payload_at, values_at, body_bytes};

    pub fn head_at(self) -> usize
        ensures { result ≡ head_at self.numbers }
    {
        128 * usize::from(self.numbers.base_channels) + 384
    }

    pub fn payload_at(self) -> usize
        ensures { result ≡ payload_at self.numbers }
    {
        self.head_at() + self.numbers.head_bytes as usize
    }

    pub fn values_at(self) -> usize
        ensures { result ≡ values_at self.numbers }
    {
        self.payload_at() + self.numbers.payload_bytes as usize
    }

    // The bytes of a frame after its numbers.
    pub fn body_bytes(self) -> usize
        ensures value { result ≡ body_bytes self.numbers }
        ensures upper_bound { result ≤ 53888 }
    {
        self.values_at() + 18432 * usize::from(self.numbers.base_channels)
    }
}

impl fmt::Display for FrameFault {
    ghost use Rattle.std.specs.Prelude.{Some};
    ghost use Rattle.frame_file.specs.Fault.{frame_words};

    ghost output = { λ fault. Some (frame_words fault) };

    fn fmt<W: fmt::Write>(&self, f: &mut fmt::Formatter<W>) -> fmt::Result {
        match self {
            FrameFault::Call(call) => write!(f, "is for call {call}, which is not known"),
            FrameFault::Carried(carried) => write!(
                f,
                "has {carried} for whether the state is carried, which is neither 0 nor 1"
            ),
            FrameFault::BaseChannels(count) => write!(
                f,
                "has base channel count {count}, which is neither 1 nor 2"
            ),
            FrameFault::HeadBytes(bytes) => write!(f, "has head bytes {bytes}, above 8192"),
            FrameFault::PayloadBytes(bytes) => write!(f, "has payload bytes {bytes}, above 8192"),
        }
    }
}

impl Error for FrameFault {}
