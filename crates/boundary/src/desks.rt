// The lines of desks and of conversion.
ghost use Rattle.std.specs.Prelude.{◌≡◌};
ghost use Rattle.mc_state.specs.Carry.{converted_over};

use crate::frames::{three_one, three_two};
use crate::lines::{carry_line, line};
use crate::print::say_converted;
use boundary_run::Loan;
use mc_state::{McDecodeState, convert_mc_state};
use program_out::Out;

// A frame's line from a desk, and the state after it; the base begins with this value.
fn desk_line(
    out: &mut Out<impl Print>,
    name: &str,
    left: f64,
    desk: u32,
    state: McDecodeState,
) -> McDecodeState {
    let loan = Loan {
        desk,
        ..three_two(left)
    };
    line(out, name, loan, state)
}

// Desks above 7, by themselves and beside a wrong loan, a wild value, a short head and a changed layout, in a state of 3/2 whose history is of another base.
fn wrong_desk_lines(out: &mut Out<impl Print>, state: McDecodeState) {
    desk_line(out, "desk 8", 0.5, 8, state);
    desk_line(out, "desk 256", 0.5, 256, state);
    desk_line(out, "desk 4294967295", 0.5, 4294967295, state);
    let rate = Loan {
        desk: 8,
        rate: 24000,
        ..three_two(0.5)
    };
    line(out, "desk 8, 24,000 Hz", rate, state);
    // the last base value is 1/1024 above 4
    desk_line(out, "desk 8, base value above 4", 2.876953125, 8, state);
    let empty = Loan {
        desk: 8,
        head_bits: 0,
        ..three_two(0.5)
    };
    line(out, "desk 8, head of no bits", empty, state);
    let other = Loan {
        desk: 8,
        ..three_one(0.5)
    };
    line(out, "desk 8, 3/1 after 3/2", other, state);
}

// Desks in turn on one state, and a tally at its top.
pub fn desk_lines(out: &mut Out<impl Print>) {
    let first = desk_line(out, "3/2, desk 0", 0.125, 0, McDecodeState::new());
    let second = desk_line(out, "then desk 7", 0.25, 7, first);
    wrong_desk_lines(out, second);
    let mut below = second;
    below.accepted[3] = 4294967294;
    let top = desk_line(out, "tally one below its top, desk 3", 0.375, 3, below);
    let again = desk_line(out, "then desk 3", 0.625, 3, top);
    let loan = Loan {
        reading: 2,
        desk: 4,
        ..three_two(0.75)
    };
    let other = line(out, "then desk 4, reading 2", loan, again);
    carry_line(out, "then carrying", other);
}

// A state of before there were desks, by its fields.
#[derive(Clone, Copy)]
struct Older<'a> {
    history: &'a [f64],
    layout_len: u8,
    layout: u8,
    accepted: u32,
}

// The line of conversion, and the state after it.
fn convert_line(
    out: &mut Out<impl Print>,
    name: &str,
    state: McDecodeState,
    older: Older<'_>,
) -> McDecodeState
    ensures { result ≡ (converted_over older.entry.history.now older.entry.layout_len older.entry.layout older.entry.accepted state).state }
{
    let Older {
        history,
        layout_len,
        layout,
        accepted,
    } = older;
    let mut after = state;
    let converted = convert_mc_state(&mut after, history, layout_len, layout, accepted);
    write!(out, "{name}");
    say_converted(out, history, converted, state, after);
    writeln!(out);
    after
}

// Older states that are refused.
fn refused_lines(out: &mut Out<impl Print>, state: McDecodeState, older: Older<'_>) {
    let six = Older {
        layout_len: 6,
        ..older
    };
    convert_line(out, "state of 6 channels", state, six);
    let none = Older {
        layout: 34,
        ..older
    };
    convert_line(out, "state of layout 34 of 4 channels", state, none);
    let other = Older {
        layout_len: 5,
        layout: 31,
        ..older
    };
    convert_line(out, "state of layout 31 of 5 channels", state, other);
    let short = Older {
        history: &[0.0; 575],
        ..older
    };
    convert_line(out, "state with 575 history values", state, short);
}

// Older states that are converted, the first without a layout, and frames that follow on them.
fn taken_lines(out: &mut Out<impl Print>, older: Older<'_>) -> McDecodeState {
    let fresh = McDecodeState::new();
    let counted = convert_line(out, "state of 4 channels and 7 frames", fresh, older);
    line(out, "then 3/2", three_two(0.5), counted);
    let laid = Older {
        layout: 31,
        accepted: 4294967295,
        ..older
    };
    let known = convert_line(
        out,
        "state of layout 31 and 4294967295 frames",
        counted,
        laid,
    );
    let loan = Loan {
        reading: 2,
        desk: 1,
        ..three_one(0.5)
    };
    line(out, "then 3/1, reading 2, desk 1", loan, known);
    known
}

// States of before there were desks, with the history of a frame, four channels and seven frames, or as the line says.
pub fn convert_lines(out: &mut Out<impl Print>) {
    let last = line(out, "3/1", three_one(0.125), McDecodeState::new());
    let older = Older {
        history: &last.pred_hist,
        layout_len: 4,
        layout: 0,
        accepted: 7,
    };
    let known = taken_lines(out, older);
    refused_lines(out, known, older);
}
