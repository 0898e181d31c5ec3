// The functions for C; include/koftabasin.h declares them.
ghost use Rattle.std.specs.Prelude.{◌≡◌};
ghost use Rattle.mc_base.specs.Base.{base_from};
ghost use Rattle.mc_state.specs.Answer.{lent_of, buffers_from, packed_by, packed_of, carry_number, carrying_by};
ghost use Rattle.mc_state.specs.Carry.{carried_over, converted_over};
ghost use Rattle.mc_state.specs.Frame.{fresh, frame_of};

use mc_base::{Base, Stereo};
use mc_decode::decode_mc_frame;
use mc_error::McError;
use mc_state::{
    BitString, Buffers, Lent, Loan, McDecodeState, carry_mc_state, convert_mc_state, pack,
};

// C gives what is lent one by one: hence the long list.
#[unsafe(no_mangle)]
pub extern "C" fn mc_decode_frame_excess(
    state: &mut McDecodeState,
    head: &[u8],
    head_bits: usize,
    payload: &[u8],
    payload_bits: usize,
    reading: u32,
    desk: u32,
    rate: u32,
    base_channels: u8,
    raw_left: &[f64],
    raw_right: &[f64],
    scaled_left: &[f64],
    scaled_right: &[f64],
    base_nb_steps: &[u32],
    lfe_allocation: u8,
    nb_steps: &[u32],
    raw: &mut [f64],
    work: &mut [f64],
    output: &mut [f64],
    lfe: &mut [f64],
) -> u64
    ensures { packed_by result state.new (buffers_from raw.new work.new output.new lfe.new) ≡ packed_of (frame_of (lent_of head.now head_bits payload.now payload_bits reading desk rate base_channels (base_from raw_left.now raw_right.now scaled_left.now scaled_right.now) base_nb_steps.now lfe_allocation nb_steps.now) (buffers_from raw.old work.old output.old lfe.old) state.old) }
{
    let lent = Lent {
        head: BitString {
            bytes: head,
            bits: head_bits,
        },
        payload: BitString {
            bytes: payload,
            bits: payload_bits,
        },
        loan: Loan {
            reading,
            rate,
            base_channels,
            lfe_allocation,
            nb_steps,
            base_nb_steps,
        },
        desk,
        base: Base {
            raw: Stereo {
                left: raw_left,
                right: raw_right,
            },
            scaled: Stereo {
                left: scaled_left,
                right: scaled_right,
            },
        },
    };
    let mut buffers = Buffers {
        raw,
        work,
        output,
        lfe,
    };
    let answer = decode_mc_frame(state, &lent, &mut buffers);
    pack(answer)
}

// Makes the state fresh; the answer is 0.
#[unsafe(no_mangle)]
pub extern "C" fn mc_fresh_state_desks(state: &mut McDecodeState) -> u32
    ensures { (result ≡ 0) × (state.new ≡ fresh) }
{
    *state = McDecodeState::new();
    0
}

// What C is answered: 0, or the refusal's number.
fn answer_of(carried: Result<(), McError>) -> u32
    ensures { result ≡ carry_number carried }
{
    match carried {
        Ok(()) => 0,
        Err(e) => e.number(),
    }
}

// Carries the state over to another reading; the answer is 0, or 6 and the state as it was.
#[unsafe(no_mangle)]
pub extern "C" fn mc_carry_state_desks(state: &mut McDecodeState) -> u32
    ensures { carrying_by result state.new ≡ carried_over state.old }
{
    answer_of(carry_mc_state(state))
}

// Puts a state of before there were desks, by its fields as C has them, in place of the state; the answer is 0, or 6 and the state as it was.
#[unsafe(no_mangle)]
pub extern "C" fn mc_convert_state(
    state: &mut McDecodeState,
    pred_hist: &[f64],
    layout_len: u8,
    layout: u8,
    accepted: u32,
) -> u32
    ensures { carrying_by result state.new ≡ converted_over pred_hist.now layout_len layout accepted state.old }
{
    answer_of(convert_mc_state(state, pred_hist, layout_len, layout, accepted))
}
