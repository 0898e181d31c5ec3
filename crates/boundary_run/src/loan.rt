// What is lent to a frame call.
ghost use Rattle.std.specs.Prelude.{◌≡◌};
ghost use Rattle.fill.specs.Tab.{tab};
ghost use Rattle.boundary_run.specs.Loan.{loan_of, ramp_of, step_at, byte_from, ones_at};

use crate::string::{Bits, bytes};

// It owns its bytes, which a `BitString` would borrow; bit counts, reading, desk and rate may be wrong.
#[derive(Clone, Copy)]
pub struct Loan {
    pub head: [u8; 29],
    pub head_bits: usize,
    // of the longest payload, 55,134 bits
    pub payload: [u8; 6892],
    pub payload_bits: usize,
    pub reading: u32,
    pub desk: u32,
    pub rate: u32,
    pub base_channels: u8,
    // the first base value of each channel, raw and scaled
    pub left: f64,
    pub right: f64,
    pub lfe_allocation: u8,
    pub steps: [u32; 96],
}

impl Loan {
    // The head under reading 1 from desk 0, a stereo base at 44,100 Hz, and no payload.
    pub fn new(head: Bits) -> Loan
        ensures { result ≡ loan_of head }
    {
        Loan {
            head: bytes(&head.bits),
            head_bits: head.at,
            payload: [0; 6892],
            payload_bits: 0,
            reading: 1,
            desk: 0,
            rate: 44100,
            base_channels: 2,
            left: 0.25,
            right: -1.5,
            lfe_allocation: 0,
            steps: [0; 96],
        }
    }
}

// 1,152 base values, each 1/1024 above the one before. By `as`: `f64` has no `From<usize>`.
pub fn ramp(start: f64) -> [f64; 1152]
    ensures { result ≡ ramp_of start }
{
    std::array::from_fn(|k| start + k as f64 / 1024.0)
}

#[tactic(auto, unfolding(crate::specs::Loan::step_at))]
fn step_at(channels: usize, subbands: usize, count: u32, k: usize) -> u32
    ensures { result ≡ step_at channels subbands count k }
{
    if k / 32 < channels && k % 32 < subbands {
        count
    } else {
        0
    }
}

// The step count in the first subbands of the first channels, and 0 elsewhere.
pub fn first_steps(channels: usize, subbands: usize, count: u32) -> [u32; 96]
    ensures { result ≡ tab (step_at channels subbands count) 96 }
{
    std::array::from_fn(|k| step_at(channels, subbands, count, k))
}

// As `u8_at` of encoding, which would be one crate more below this one for one line.
#[tactic(auto, unfolding(crate::specs::Loan::byte_from))]
fn byte_from(start: &[u8; 29], k: usize) -> u8
    ensures { result ≡ byte_from start.now k }
{
    start.get(k).copied().unwrap_or(0)
}

// A payload that begins with these bytes and is 0 from there on.
pub fn payload_from(start: &[u8; 29]) -> [u8; 6892]
    ensures { result ≡ tab (byte_from start.now) 6892 }
{
    std::array::from_fn(|k| byte_from(start, k))
}

#[tactic(auto, unfolding(crate::specs::Loan::ones_at))]
fn ones_at(first: usize, end: usize, k: usize) -> u8
    ensures { result ≡ ones_at first end k }
{
    if first <= k && k < end { 255 } else { 0 }
}

// A payload whose bytes are 255 from the first to before the end, and 0 elsewhere.
pub fn payload_of_ones(first: usize, end: usize) -> [u8; 6892]
    ensures { result ≡ tab (ones_at first end) 6892 }
{
    std::array::from_fn(|k| ones_at(first, end, k))
}
