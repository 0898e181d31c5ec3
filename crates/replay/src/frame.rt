// A frame of the list, rebuilt and called.
ghost use Rattle.std.specs.Prelude.{◌≡◌, ◌+◌, ◌≤◌, take};
ghost use Rattle.mc_state.specs.Answer.{buffers_now, SameSlices, after_by};
ghost use Rattle.mc_state.specs.Frame.{frame_of};
ghost use Rattle.replay_list.specs.Opening.{second_lent, lent_values, start_of, lent_in};

use encoding::{number_at, u8_at, u32_at};
use mc_base::{Base, Stereo};
use mc_decode::decode_mc_frame;
use mc_error::McError;
use mc_state::{Accepted, BitString, Buffers, Lent, Loan, McDecodeState};
use replay_list::{fill_steps, lend_values, second_lent, start};

// Fills both channels of a base with values, of the second as many as are lent.
fn lend_both(dst: &mut Stereo<[f64; 1152]>, opening: &[u8], before: usize, first: usize)
    requires { (before ≤ 2304) × (first ≤ 2304) }
    ensures left { dst.new.left ≡ lent_values opening.now before first 1152 }
    ensures right { let n = second_lent opening.now 1152 in take n dst.new.right ≡ lent_values opening.now (before + 1152) (first + 1152) n }
{
    lend_values(&mut dst.left, opening, before, first);
    let second = second_lent(opening, 1152);
    lend_values(
        &mut dst.right[..second],
        opening,
        before + 1152,
        first + 1152,
    );
}

// The frame, rebuilt and called.
pub fn replay_frame(
    state: &mut McDecodeState,
    opening: &[u8],
    head: &[u8],
    payload: &[u8],
    buffers: &mut Buffers<'_>,
) -> Result<Accepted, McError>
    ensures same_slices { SameSlices buffers.old buffers.new }
    ensures frame { after_by result state.new (buffers_now buffers.new) ≡ frame_of (lent_in opening.now head.now payload.now) (buffers_now buffers.old) (start_of opening.now state.old) }
{
    let second = second_lent(opening, 1152);
    let mut raw = Stereo {
        left: [0.0; 1152],
        right: [0.0; 1152],
    };
    let mut scaled = raw;
    lend_both(&mut raw, opening, 0, 0);
    lend_both(&mut scaled, opening, 1152 + second, 2304);
    let mut base_steps = [0; 64];
    let base_count = 32 + second_lent(opening, 32);
    fill_steps(&mut base_steps[..base_count], opening, 96);
    let mut steps = [0; 96];
    fill_steps(&mut steps, opening, 160);
    start(state, opening);
    let lent = Lent {
        head: BitString {
            bytes: head,
            bits: number_at(opening, 4, 4) as usize,
        },
        payload: BitString {
            bytes: payload,
            bits: number_at(opening, 8, 4) as usize,
        },
        loan: Loan {
            reading: u32_at(opening, 88),
            rate: u32_at(opening, 12),
            base_channels: u8_at(opening, 16),
            lfe_allocation: u8_at(opening, 18),
            nb_steps: &steps,
            base_nb_steps: &base_steps[..base_count],
        },
        desk: u32_at(opening, 92),
        base: Base {
            raw: Stereo {
                left: &raw.left,
                right: &raw.right[..second],
            },
            scaled: Stereo {
                left: &scaled.left,
                right: &scaled.right[..second],
            },
        },
    };
    decode_mc_frame(state, &lent, buffers)
}
