// The state before the first frame.
ghost use Rattle.std.specs.Prelude.{◌≡◌};
ghost use Rattle.mc_state.specs.Frame.{fresh};

use crate::McDecodeState;

impl McDecodeState {
    // Places of the history: nine for each subband of two base channels.
    pub const PRED_HISTORY: usize = 576;

    // A fresh state.
    #[tactic(auto, unfolding(crate::specs::Frame::fresh))]
    pub fn new() -> McDecodeState
        ensures { result ≡ fresh }
    {
        McDecodeState::default()
    }
}
