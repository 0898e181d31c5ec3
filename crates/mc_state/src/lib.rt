// What a frame call keeps and answers. The definition of the call stands in specs/Frame.antt, what is promised on all input in specs/Demand1.antt,
// sequences of calls in specs/Reel.antt, and what the packed answer loses, which is nothing, in specs/Packing.antt.
#![tactic(auto)]

pub use bit_reader::BitString;
use mc_error::McError;
pub use mc_loan::Loan;

mod carry;
mod convert;
mod desk;
mod held;
mod loan;
mod packing;
mod state;

pub use carry::carry_mc_state;
pub use convert::convert_mc_state;
pub use desk::tallied;
pub use held::{HeldLayout, channel_count};
pub use loan::{Buffers, EachBuffer, Lent};
pub use packing::pack;

// What a decoder keeps from frame to frame.
#[repr(C)]
#[derive(Clone, Copy, Default)]
pub struct McDecodeState {
    // base channel, subband and place at (32 * channel + subband) * 9 + place, oldest first
    pub pred_hist: [f64; 576],
    // output channels of the frames so far, 0 before the first
    pub layout_len: u8,
    // their layout, 10 * front + surround code; 0 where only the count is known
    pub layout: u8,
    // accepted frames of each desk; each stays at its top
    pub accepted: [u32; 8],
}

// What an accepted frame answers: the bits that head and payload use, and how many group codes have an excess.
#[derive(Clone, Copy, Debug, PartialEq, Eq)]
pub struct Accepted {
    pub head_bits: usize,
    pub payload_bits: usize,
    pub excess_codes: u32,
}

// The answer, and the state after it. A struct and no `Result` of the state, since a refused frame may change it: refusal 5 stores the history.
#[derive(Clone, Copy)]
pub struct Framed {
    pub answer: Result<Accepted, McError>,
    pub state: McDecodeState,
}
