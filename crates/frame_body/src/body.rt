// The frame call on the bytes of a file.
ghost use Rattle.std.specs.Prelude.{◌≡◌, ◌+◌, ◌*◌, length};
ghost use Rattle.frame_file.specs.File.{body_bytes};

use crate::layout::layout_of;
use frame_file::{Frame, fill_steps, fill_values};
use mc_base::{Base, Stereo};
use mc_decode::decode_mc_frame;
use mc_error::McError;
use mc_state::{Accepted, BitString, Buffers, Lent, Loan, McDecodeState};

// All bytes of a frame after its numbers.
#[derive(Clone, Copy)]
pub struct Body<'a> {
    pub frame: Frame,
    pub bytes: &'a [u8],
    ghost whole: { length bytes.now ≡ body_bytes frame.numbers },
}

impl<'a> Body<'a> {
    ghost use Rattle.mc_state.specs.Answer.{lent_now, buffers_now, SameSlices, after_by};
    ghost use Rattle.mc_state.specs.Frame.{frame_of};
    ghost use Rattle.frame_body.specs.Lent.{head_in, payload_in, lent_from, lent_in, layout_in};

    // The head, and below it the payload: two ranges of one list, each between two places that `Frame` names.
    fn head(self) -> &'a [u8]
        ensures { result.now ≡ head_in self.entry.frame.numbers self.entry.bytes.now }
    {
        &self.bytes[self.frame.head_at()..self.frame.payload_at()]
    }

    fn payload(self) -> &'a [u8]
        ensures { result.now ≡ payload_in self.entry.frame.numbers self.entry.bytes.now }
    {
        &self.bytes[self.frame.payload_at()..self.frame.values_at()]
    }

    // The output channels of the frame.
    pub fn layout(self) -> &'static [u8]
        ensures { result.now ≡ layout_in self.entry.frame.numbers self.entry.bytes.now }
    {
        let n = self.frame.numbers;
        // by `as`, here and below: `usize` has no `From<u32>`
        let bits = n.head_bits as usize;
        let bytes = self.head();
        layout_of(BitString { bytes, bits }, n.reading, n.base_channels)
    }

    // What the frame lends, of the step counts and values in its bytes.
    fn lent(self, steps: &'a [u32], values: &'a [f64]) -> Lent<'a>
        requires all_steps { length steps.now ≡ 32 * self.frame.numbers.base_channels + 96 }
        requires all_values { length values.now ≡ 2304 * self.frame.numbers.base_channels }
        ensures { lent_now result ≡ lent_from self.entry.frame.numbers (head_in self.entry.frame.numbers self.entry.bytes.now) (payload_in self.entry.frame.numbers self.entry.bytes.now) steps.now values.now }
    {
        let n = self.frame.numbers;
        let channels = usize::from(n.base_channels);
        Lent {
            head: BitString {
                bytes: self.head(),
                bits: n.head_bits as usize,
            },
            payload: BitString {
                bytes: self.payload(),
                bits: n.payload_bits as usize,
            },
            loan: Loan {
                reading: n.reading,
                rate: n.rate,
                base_channels: n.base_channels,
                lfe_allocation: n.lfe_allocation,
                nb_steps: &steps[32 * channels..32 * channels + 96],
                base_nb_steps: &steps[0..32 * channels],
            },
            desk: n.desk,
            base: Base {
                raw: Stereo {
                    left: &values[0..1152],
                    right: &values[1152..1152 * channels],
                },
                scaled: Stereo {
                    left: &values[1152 * channels..1152 * channels + 1152],
                    right: &values[1152 * channels + 1152..2304 * channels],
                },
            },
        }
    }

    // The frame call on the frame.
    pub fn decode(
        self,
        state: &mut McDecodeState,
        buffers: &mut Buffers<'_>,
    ) -> Result<Accepted, McError>
        ensures same_slices { SameSlices buffers.old buffers.new }
        ensures frame { after_by result state.new (buffers_now buffers.new) ≡ frame_of (lent_in self.entry.frame.numbers self.entry.bytes.now) (buffers_now buffers.old) state.old }
    {
        let channels = usize::from(self.frame.numbers.base_channels);
        let mut steps = [0u32; 160];
        let steps = &mut steps[..32 * channels + 96];
        fill_steps(self.bytes, steps);
        let mut values = [0.0f64; 4608];
        let values = &mut values[..2304 * channels];
        fill_values(self.bytes, self.frame.values_at(), values);
        decode_mc_frame(state, &self.lent(steps, values), buffers)
    }
}
