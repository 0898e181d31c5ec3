// A state of before there were desks.
ghost use Rattle.std.specs.Prelude.{◌≡◌};
ghost use Rattle.mc_state.specs.Answer.{carry_number, carrying_by, carrying_of};
ghost use Rattle.mc_state.specs.Carry.{converted_over};
ghost use Rattle.mc_state.specs.declared.McDecodeState.{McDecodeState};

use crate::{HeldLayout, McDecodeState};
use mc_error::McError;

impl McDecodeState {
    // A state with one tally, by its fields: desk 0 has the tally, the others none, and the rest is kept. A state of before there were layouts has layout 0.
    // Refuses a history of another length than 576, and else as `carry`; the state in whose place this one was to stand then stays.
    // The fields one by one, as the function for C has them: a struct of them would only be taken apart here.
    // By value, and in place by `convert_mc_state`, which is this and a store: one function for both is no plainer.
    #[tactic(auto, unfolding(crate::specs::Carry::converted_over))]
    pub fn convert(
        pred_hist: &[f64],
        layout_len: u8,
        layout: u8,
        accepted: u32,
    ) -> Result<McDecodeState, McError>
        ensures { (before : McDecodeState) → carrying_of result before ≡ converted_over pred_hist.now layout_len layout accepted before }
    {
        let held = HeldLayout {
            count: layout_len,
            layout,
        };
        if !held.fits() {
            return Err(McError::InvalidArgument);
        }
        let Ok(pred_hist) = <[f64; 576]>::try_from(pred_hist) else {
            return Err(McError::InvalidArgument);
        };
        Ok(McDecodeState {
            pred_hist,
            layout_len: held.count,
            layout: held.layout,
            accepted: [accepted, 0, 0, 0, 0, 0, 0, 0],
        })
    }
}

// The same in place; a refusal leaves the state as it was. The fields one by one as above.
pub fn convert_mc_state(
    state: &mut McDecodeState,
    pred_hist: &[f64],
    layout_len: u8,
    layout: u8,
    accepted: u32,
) -> Result<(), McError>
    ensures { carrying_by (carry_number result) state.new ≡ converted_over pred_hist.now layout_len layout accepted state.old }
{
    *state = McDecodeState::convert(pred_hist, layout_len, layout, accepted)?;
    Ok(())
}
