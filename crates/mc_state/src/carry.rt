// A state carried over to another reading.
ghost use Rattle.std.specs.Prelude.{◌≡◌};
ghost use Rattle.mc_state.specs.Answer.{carry_number, carrying_by, carrying_of};
ghost use Rattle.mc_state.specs.Carry.{carried_over};

use crate::McDecodeState;
use mc_error::McError;

impl McDecodeState {
    // Keeps all but the layout, of which the count stays. Refuses only a wrong count or layout, whatever the history's values are.
    // By value, and in place by `carry_mc_state`, which is this and a store: one function for both is no plainer.
    #[tactic(auto, unfolding(crate::specs::Carry::carried_over))]
    pub fn carry(self) -> Result<McDecodeState, McError>
        ensures { carrying_of result self ≡ carried_over self }
    {
        if !self.held().fits() {
            return Err(McError::InvalidArgument);
        }
        Ok(McDecodeState { layout: 0, ..self })
    }
}

// The same in place; a refusal leaves the state as it was.
pub fn carry_mc_state(state: &mut McDecodeState) -> Result<(), McError>
    ensures { carrying_by (carry_number result) state.new ≡ carried_over state.old }
{
    *state = state.carry()?;
    Ok(())
}
