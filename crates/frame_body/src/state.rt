// The state before the first frame.
ghost use Rattle.std.specs.Prelude.{◌≡◌};
ghost use Rattle.mc_state.specs.Answer.{carrying_of};
ghost use Rattle.mc_state.specs.Frame.{fresh};
ghost use Rattle.frame_body.specs.Lent.{first_state, second_state};

use encoding::{u8_at, u32_at};
use frame_file::{fill_steps, fill_values};
use mc_error::McError;
use mc_state::McDecodeState;

// The state of a file of the first version, converted: it has a count and one tally.
pub fn first_state(bytes: &[u8]) -> Result<McDecodeState, McError>
    ensures { carrying_of result fresh ≡ first_state bytes.now }
{
    let mut history = [0.0f64; 576];
    fill_values(bytes, 5, &mut history);
    McDecodeState::convert(&history, u8_at(bytes, 0), 0, u32_at(bytes, 1))
}

// The state of a file of the second version.
pub fn second_state(bytes: &[u8]) -> McDecodeState
    ensures { result ≡ second_state bytes.now }
{
    let mut accepted = [0u32; 8];
    fill_steps(bytes, &mut accepted);
    let mut pred_hist = [0.0f64; 576];
    fill_values(bytes, 34, &mut pred_hist);
    McDecodeState {
        pred_hist,
        layout_len: u8_at(bytes, 32),
        layout: u8_at(bytes, 33),
        accepted,
    }
}
