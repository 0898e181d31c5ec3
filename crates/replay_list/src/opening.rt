// A frame's opening: what is lent to the frame call, rebuilt from it.
ghost use Rattle.std.specs.Prelude.{◌≡◌, ◌+◌, ◌≤◌, min, length};
ghost use Rattle.encoding.specs.Encoding.{number_at};
ghost use Rattle.replay_list.specs.Opening.{second_lent, steps_of, steps_from, lent_values, start_of};

use crate::values::{fill_values, put_wild};
use encoding::{number_at, u8_at, u32_at};
use fill::fill_by;
use mc_state::McDecodeState;

// The functions here take an opening as a slice, and no struct of its fields: it may be of any length, and bytes past its end count 0.

// The bytes lent of a string, of which there is room for so many.
pub fn lent_bytes(opening: &[u8], at: usize, room: usize) -> usize
    ensures { result ≡ min (number_at opening.now at 2) room }
{
    (number_at(opening, at, 2) as usize).min(room)
}

// How many of n elements of a second base channel are lent: all or none. `second_length` of mc_base and `bits_if` of mc_fields are n or 0 too,
// each by another test and of another definition.
pub fn second_lent(opening: &[u8], n: usize) -> usize
    ensures value { result ≡ second_lent opening.now n }
    ensures upper_bound { result ≤ n }
{
    if u8_at(opening, 17) == 1 { n } else { 0 }
}

// No step, then those of Table B.4: one look-up. By the rows of bitalloc it is a match of three arms with a subtraction, and one crate more below.
static STEPS: [u32; 18] = [
    0, 3, 5, 7, 9, 15, 31, 63, 127, 255, 511, 1023, 2047, 4095, 8191, 16383, 32767, 65535,
];

// The step count of a class.
#[tactic(auto, unfolding(crate::specs::Opening::steps_of))]
pub fn steps_of(class: u8) -> u32
    ensures { result ≡ steps_of class }
{
    STEPS.get(usize::from(class)).copied().unwrap_or(4)
}

// Fills dst with the step counts whose classes stand in the opening from `first` on.
pub fn fill_steps(dst: &mut [u32], opening: &[u8], first: usize)
    requires { first ≤ 256 }
    ensures { dst.new ≡ steps_from opening.now first (length dst.old) }
{
    fill_by(dst, |k| steps_of(u8_at(opening, first + k)));
}

// Fills dst with the values that start at the place `first`.
#[tactic(auto, unfolding(crate::specs::Opening::lent_values))]
pub fn lend_values(dst: &mut [f64], opening: &[u8], before: usize, first: usize)
    ensures { dst.new ≡ lent_values opening.now before first (length dst.old) }
{
    let seed = number_at(opening, 32, 8);
    let kind = u8_at(opening, 21);
    let place = number_at(opening, 22, 2) as usize;
    fill_values(dst, seed, before);
    put_wild(dst, first, kind, place);
}

// The state before the frame: that after the frame before it stays, or a new one comes in its place.
#[tactic(auto, unfolding(crate::specs::Opening::start_of))]
pub fn start(state: &mut McDecodeState, opening: &[u8])
    ensures { state.new ≡ start_of opening.now state.old }
{
    if u8_at(opening, 19) != 1 {
        return;
    }
    let before = 2304 + 2 * second_lent(opening, 1152);
    lend_values(&mut state.pred_hist, opening, before, 4608);
    state.layout_len = u8_at(opening, 20);
    state.layout = 0;
    state.accepted = [u32_at(opening, 24); 8];
}
