// What a frame call checks before it reads a bit.
ghost use Rattle.std.specs.Prelude.{◌≡◌, length};
ghost use Rattle.mc_base.specs.Base.{lent};
ghost use Rattle.mc_state.specs.Answer.{lent_now};
ghost use Rattle.mc_state.specs.Frame.{values_long, room_fits, lent_by, all_fit, values_fit};

use mc_base::{Base, second_length};
use mc_fields::string_fits;
use mc_state::{Buffers, EachBuffer, HeldLayout, Lent};

// Whether each value is within -4 to 4; not a number is not. It looks at all of them, so that several are compared at once: tried `all`, which stops at
// the first that is not; with it the frame call took 1.06 times as long on frames with nothing transmitted, and 1.02 on others.
#[tactic(auto, unfolding(fill::specs::Each::each))]
pub fn all_fit(xs: &[f64]) -> bool
    ensures { result ≡ all_fit xs.now }
{
    let mut fit = true;
    for x in xs {
        fit &= (-4.0 <= *x) & (*x <= 4.0);
    }
    fit
}

// Whether the base's values and the history's are all within range (refusal 7).
#[tactic(auto, unfolding(mc_state::specs::Frame::values_fit))]
pub fn values_fit(base: Base<'_>, history: &[f64; 576]) -> bool
    ensures { result ≡ values_fit (lent base.entry) history.now }
{
    all_fit(base.raw.left)
        && all_fit(base.raw.right)
        && all_fit(base.scaled.left)
        && all_fit(base.scaled.right)
        && all_fit(history)
}

fn values_long(base_channels: u8, base: Base<'_>) -> bool
    ensures { result ≡ values_long base_channels (length base.entry.raw.left.now) (length base.entry.raw.right.now) (length base.entry.scaled.left.now) (length base.entry.scaled.right.now) }
{
    let right = second_length(base_channels, 1152);
    base.raw.left.len() == 1152
        && base.raw.right.len() == right
        && base.scaled.left.len() == 1152
        && base.scaled.right.len() == right
}

// The lengths of the four buffers.
pub fn lengths_of(buffers: &Buffers<'_>) -> EachBuffer<usize>
    ensures { (result.raw ≡ length buffers.now.raw.now) × (result.work ≡ length buffers.now.work.now) × (result.output ≡ length buffers.now.output.now) × (result.lfe ≡ length buffers.now.lfe.now) }
{
    EachBuffer {
        raw: buffers.raw.len(),
        work: buffers.work.len(),
        output: buffers.output.len(),
        lfe: buffers.lfe.len(),
    }
}

fn room_fits(lengths: EachBuffer<usize>) -> bool
    ensures { result ≡ room_fits lengths.raw lengths.work lengths.output lengths.lfe }
{
    let room = EachBuffer {
        raw: 3456,
        work: 3456,
        output: 5760,
        lfe: 12,
    };
    lengths == room
}

// Whether all that is lent is as it has to be (refusal 6), whatever the desk; the buffers come by their lengths, and of the state what it holds of the layout.
#[tactic(auto, unfolding(mc_state::specs::Frame::lent_by))]
pub fn lent_fits(lent: &Lent<'_>, lengths: EachBuffer<usize>, held: HeldLayout) -> bool
    ensures { result ≡ lent_by (lent_now lent.now) lengths.raw lengths.work lengths.output lengths.lfe held.count held.layout }
{
    string_fits(lent.head)
        && string_fits(lent.payload)
        && lent.loan.fits()
        && values_long(lent.loan.base_channels, lent.base)
        && room_fits(lengths)
        && held.fits()
}
