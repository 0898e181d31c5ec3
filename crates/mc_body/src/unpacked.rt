// The frame from its payload on: the payload is read, then the layout is tested, and only then is anything written.
ghost use Rattle.std.specs.Prelude.{◌≡◌, ◌≤◌};
ghost use Rattle.mc_output.specs.Output.{channels};
ghost use Rattle.mc_base.specs.Base.{lent as Base·lent};
ghost use Rattle.mc_state.specs.Answer.{lent_now, buffers_now, SameSlices, after_by};
ghost use Rattle.mc_state.specs.Frame.{settings_for, after_unpacked};
ghost use Rattle.mc_state.specs.Held.{layout_for};
ghost use Rattle.mc_state.specs.Long.{Long};

use crate::write::finish_payload;
use mc_config::{McConfig, McHeader};
use mc_error::McError;
use mc_fields::McStatus;
use mc_history::history;
use mc_payload::McSettings;
use mc_state::{Accepted, Buffers, HeldLayout, Lent, McDecodeState, channel_count, tallied};
use mc_unpack::{McPayload, read_mc_payload};

// A frame's output channels.
fn frame_layout(s: &McSettings) -> HeldLayout
    requires { s.now.header.surround ≤ 3 }
    ensures { (result.count ≡ channels s.now) × (result.layout ≡ layout_for s.now) }
{
    let config = McConfig::from_header(s.header, s.base_channels);
    HeldLayout {
        count: channel_count(config.front, s.header.surround),
        layout: 10 * config.front + s.header.surround,
    }
}

// The frame from its payload on. Refusal 5 stores the history, the others leave the state.
// Header, status and head bits side by side: the function is public, and mc_head's `McHead` would ask callers for a check word too.
// Bounds and no narrower types: `Lent` takes any number there (refusals 6 and 14), and `McHeader` holds codes as plain numbers.
pub fn unpacked_frame(
    state: &mut McDecodeState,
    lent: &Lent<'_>,
    header: McHeader,
    status: McStatus,
    head_bits: usize,
    buffers: &mut Buffers<'_>,
) -> Result<Accepted, McError>
    requires long { Long lent.now.loan.base_channels (Base·lent lent.now.base) (buffers_now buffers.old) }
    requires low { (lent.now.loan.lfe_allocation ≤ 15) × (header.surround ≤ 3) × (lent.now.desk ≤ 7) }
    ensures same_slices { SameSlices buffers.old buffers.new }
    ensures frame { let l = lent_now lent.now in after_by result state.new (buffers_now buffers.new) ≡ after_unpacked state.old l.desk (settings_for l header status) head_bits l.payload l.payload_bits l.base (buffers_now buffers.old) }
{
    let s = lent.loan.settings(header, status);
    let mut p = McPayload::default();
    read_mc_payload(lent.payload, &s, &mut p)?;
    let own = frame_layout(&s);
    let next = history(&s, lent.base.scaled);
    let held = state.held();
    if !own.follows(held, s.reading) {
        state.pred_hist = next;
        return Err(McError::ConfigChanged);
    }
    let raw = &mut *buffers.raw;
    let work = &mut *buffers.work;
    let output = &mut *buffers.output;
    let lfe = &mut *buffers.lfe;
    let raw = raw.as_mut_array().unwrap();
    let excess_codes = p.write_samples(&s, raw, lfe.as_mut_array().unwrap());
    finish_payload(
        &s,
        &p,
        raw,
        lent.base,
        &state.pred_hist,
        work.as_mut_array().unwrap(),
        output.as_mut_array().unwrap(),
    );
    state.pred_hist = next;
    let held = held.after(own, s.reading);
    state.layout_len = held.count;
    state.layout = held.layout;
    state.accepted = tallied(state.accepted, lent.desk);
    Ok(Accepted {
        head_bits,
        payload_bits: p.codes.bits,
        excess_codes,
    })
}
