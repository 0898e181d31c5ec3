// The frame call: what is lent is tested, then the head is read, then the payload, and only then is anything written.
ghost use Rattle.std.specs.Prelude.{◌≡◌};
ghost use Rattle.mc_state.specs.Answer.{lent_now, buffers_now, SameSlices, after_by, after_of};
ghost use Rattle.mc_state.specs.Frame.{lent_fits, frame_of};

use mc_body::unpacked_frame;
use mc_checks::{lengths_of, lent_fits, values_fit};
use mc_error::McError;
use mc_head::read_head;
use mc_state::{Accepted, Buffers, Framed, Lent, McDecodeState};

// Whether all that a call is lent fits (refusal 6).
fn call_fits(lent: &Lent<'_>, buffers: &Buffers<'_>, state: &McDecodeState) -> bool
    ensures { result ≡ lent_fits (lent_now lent.now) (buffers_now buffers.now) state.now }
{
    lent_fits(lent, lengths_of(buffers), state.held())
}

// One frame. After a refusal the state and all buffers are as they were, but refusal 5 has stored the history.
pub fn decode_mc_frame(
    state: &mut McDecodeState,
    lent: &Lent<'_>,
    buffers: &mut Buffers<'_>,
) -> Result<Accepted, McError>
    ensures same_slices { SameSlices buffers.old buffers.new }
    ensures frame { after_by result state.new (buffers_now buffers.new) ≡ frame_of (lent_now lent.now) (buffers_now buffers.old) state.old }
{
    if !call_fits(lent, buffers, state) {
        return Err(McError::InvalidArgument);
    }
    if 7 < lent.desk {
        return Err(McError::InvalidDesk);
    }
    if !values_fit(lent.base, &state.pred_hist) {
        return Err(McError::ValueOutOfRange);
    }
    let head = read_head(lent.head, lent.loan.reading, lent.loan.base_channels)?;
    unpacked_frame(state, lent, head.header, head.status, head.used, buffers)
}

// The same on a state by value, which `boundary` keeps beside the one after: a line over the call on a lent state, and no second text of it.
pub fn frame_by_value(
    mut state: McDecodeState,
    lent: &Lent<'_>,
    buffers: &mut Buffers<'_>,
) -> Framed
    ensures same_slices { SameSlices buffers.old buffers.new }
    ensures frame { after_of result (buffers_now buffers.new) ≡ frame_of (lent_now lent.now) (buffers_now buffers.old) state }
{
    let answer = decode_mc_frame(&mut state, lent, buffers);
    Framed { answer, state }
}
