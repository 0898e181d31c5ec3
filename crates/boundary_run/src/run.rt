// One frame call, and what it left.
ghost use Rattle.std.specs.Prelude.{◌≡◌, ◌≤◌};
ghost use Rattle.mc_state.specs.Answer.{lent_now};
ghost use Rattle.boundary_run.specs.Run.{lent_by, after_run, FoundIs};

use crate::loan::{Loan, ramp};
use boundary_look::all_are;
use mc_base::{Base, Stereo, second_length};
use mc_decode::frame_by_value;
use mc_error::McError;
use mc_state::{Accepted, BitString, Buffers, Lent, McDecodeState};

#[derive(Clone, Copy)]
pub struct Found {
    pub answer: Result<Accepted, McError>,
    pub state: McDecodeState,
    // whether the four buffers are as they were before the call
    pub kept: bool,
    pub output: [f64; 5760],
}

// What is lent of a loan, on these base channels, raw and scaled.
fn lent<'a>(loan: &'a Loan, base: Stereo<&'a [f64]>, base_nb_steps: &'a [u32]) -> Lent<'a>
    ensures { lent_now result ≡ lent_by loan.now base.entry.left.now base.entry.right.now base_nb_steps.now }
{
    Lent {
        head: BitString {
            bytes: &loan.head,
            bits: loan.head_bits,
        },
        payload: BitString {
            bytes: &loan.payload,
            bits: loan.payload_bits,
        },
        loan: mc_state::Loan {
            reading: loan.reading,
            rate: loan.rate,
            base_channels: loan.base_channels,
            lfe_allocation: loan.lfe_allocation,
            nb_steps: &loan.steps,
            base_nb_steps,
        },
        desk: loan.desk,
        base: Base {
            raw: base,
            scaled: base,
        },
    }
}

// The call, on buffers that hold 1 throughout.
pub fn run(loan: Loan, state: McDecodeState) -> Found
    ensures { FoundIs (after_run loan state) result }
{
    let left = ramp(loan.left);
    let right = ramp(loan.right);
    let base_steps = [0u32; 64];
    let n = second_length(loan.base_channels, 1152);
    let m = 32 + second_length(loan.base_channels, 32);
    let base = Stereo {
        left: &left[..],
        right: &right[..n],
    };
    let mut raw = [1.0; 3456];
    let mut work = [1.0; 3456];
    let mut output = [1.0; 5760];
    let mut lfe = [1.0; 12];
    let mut buffers = Buffers {
        raw: &mut raw,
        work: &mut work,
        output: &mut output,
        lfe: &mut lfe,
    };
    let framed = frame_by_value(state, &lent(&loan, base, &base_steps[..m]), &mut buffers);
    Found {
        answer: framed.answer,
        state: framed.state,
        kept: all_are(&raw, 1.0) & all_are(&work, 1.0) & all_are(&output, 1.0) & all_are(&lfe, 1.0),
        output,
    }
}
