// The frame call's answer as one number.
ghost use Rattle.std.specs.Prelude.{◌≡◌};
ghost use Rattle.mc_state.specs.Answer.{outcome_of, packed};

use crate::Accepted;
use mc_error::McError;

// Not `From`: `Result` and `u64` are types of std.
pub fn pack(answer: Result<Accepted, McError>) -> u64
    ensures { result ≡ packed (outcome_of answer) }
{
    match answer {
        Ok(a) => {
            (a.head_bits % 16777216) as u64 * 256
                + (a.payload_bits % 1048576) as u64 * 4294967296
                + u64::from(a.excess_codes % 4096) * 4503599627370496
        }
        Err(e) => e.packed(),
    }
}
