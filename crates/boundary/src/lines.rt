// The lines, in the order in which they are printed.
ghost use Rattle.std.specs.Prelude.{◌≡◌};
ghost use Rattle.mc_state.specs.Carry.{carried_over};
ghost use Rattle.boundary_run.specs.Run.{after_run};

use crate::frames::{
    barred, centre_code, forbidden, group_code, layer_three, lfe_scalefactor, longest,
    mono_surround, phantom, scalefactor, three_one, three_two, two_two,
};
use crate::print::{say_carried, say_found};
use boundary_look::{Held, holds_until, second_is_first, third_is_silent};
use boundary_run::{Loan, ramp, run_frame};
use mc_state::{McDecodeState, carry_mc_state};
use program_out::Out;

// A frame's line, and the state after it.
pub fn line(
    out: &mut Out<impl Print>,
    name: &str,
    loan: Loan,
    state: McDecodeState,
) -> McDecodeState
    ensures { result ≡ (after_run loan state).state }
{
    let found = run_frame(loan, state);
    write!(out, "{name}");
    say_found(out, loan, state, found);
    writeln!(out);
    found.state
}

// Scalefactors, and strings of the longest length.
pub fn string_lines(out: &mut Out<impl Print>) {
    let fresh = McDecodeState::new();
    line(out, "scalefactor 62", scalefactor(62), fresh);
    line(out, "scalefactor 63", scalefactor(63), fresh);
    line(out, "longest head and payload", longest(232, 55134), fresh);
    line(out, "one head bit fewer", longest(231, 55134), fresh);
    line(out, "one payload bit fewer", longest(232, 55133), fresh);
}

// Three frames through one state.
pub fn layout_lines(out: &mut Out<impl Print>) {
    let fresh = McDecodeState::new();
    let first = line(out, "3/1", three_one(0.25), fresh);
    let second = line(out, "then 2/2", two_two(0.5), first);
    line(out, "then 3/2", three_two(0.75), second);
}

// The line of an accepted frame, with what second left holds by subband.
fn second_left_line(out: &mut Out<impl Print>, name: &str, loan: Loan) {
    let state = McDecodeState::new();
    let found = run_frame(loan, state);
    let base = ramp(loan.left);
    write!(out, "{name}");
    say_found(out, loan, state, found);
    let others = holds_until(&found.output, &base, 0, Some(Held::Other));
    let zeros = holds_until(&found.output, &base, others, Some(Held::Zero));
    let bases = holds_until(&found.output, &base, zeros, Some(Held::Base));
    writeln!(
        out,
        "; second left transmitted below subband {others}, then +0 below {zeros}, then the base value below {bases}"
    );
}

fn surround_line(out: &mut Out<impl Print>) {
    let loan = mono_surround();
    let state = McDecodeState::new();
    let found = run_frame(loan, state);
    write!(out, "mono base, stereo surround");
    say_found(out, loan, state, found);
    if second_is_first(&found.output) {
        write!(out, "; left surround equals left");
    }
    if third_is_silent(&found.output) {
        write!(out, ", right surround is +0");
    }
    writeln!(out);
}

pub fn mono_lines(out: &mut Out<impl Print>) {
    second_left_line(
        out,
        "mono base, phantom centre, second stereo",
        phantom(12, 1),
    );
    line(
        out,
        "the same with a step count in subband 12",
        phantom(13, 1),
        McDecodeState::new(),
    );
    surround_line(out);
}

// Refusals 1 to 8, in a state of 3/2 whose history is of another base.
pub fn refusal_lines(out: &mut Out<impl Print>) {
    let state = line(out, "3/2", three_two(0.125), McDecodeState::new());
    let empty = Loan {
        head_bits: 0,
        ..three_two(0.5)
    };
    line(out, "head of no bits", empty, state);
    line(out, "crosstalk code 15 in group 5", forbidden(15), state);
    line(out, "Layer III flag", layer_three(), state);
    line(out, "LFE scalefactor 63", lfe_scalefactor(63), state);
    line(out, "3/1 after 3/2", three_one(0.5), state);
    let rate = Loan {
        rate: 24000,
        ..three_two(0.5)
    };
    line(out, "24,000 Hz", rate, state);
    // the last base value is 1/1024 above 4
    line(out, "base value above 4", three_two(2.876953125), state);
    line(out, "step count in a barred subband", barred(), state);
}

// Centre code 2 under both readings, and readings that there are not, in a state of 2/0.
pub fn reading_lines(out: &mut Out<impl Print>) {
    let state = line(
        out,
        "centre code 2, reading 1",
        centre_code(2, 1, 0.125),
        McDecodeState::new(),
    );
    let second = centre_code(2, 2, 0.5);
    line(out, "centre code 2, reading 2", second, state);
    let mono = Loan {
        base_channels: 1,
        ..second
    };
    line(
        out,
        "centre code 2 over one base channel, reading 2",
        mono,
        state,
    );
    // a header of 16 bits, and no check word
    let first = Loan {
        head_bits: 16,
        ..centre_code(2, 1, 0.5)
    };
    line(out, "header alone, reading 1", first, state);
    let header = Loan {
        head_bits: 16,
        ..second
    };
    line(out, "header alone, reading 2", header, state);
    let fewer = Loan {
        head_bits: 15,
        ..second
    };
    line(out, "one header bit fewer, reading 2", fewer, state);
    line(out, "no centre, reading 2", centre_code(0, 2, 0.5), state);
    line(out, "reading 0", centre_code(0, 0, 0.5), state);
    line(out, "reading 3", centre_code(0, 3, 0.5), state);
}

// A phantom centre under reading 2: over one base channel it bars nothing below the subband limit, over two it bars as under reading 1.
pub fn phantom_lines(out: &mut Out<impl Print>) {
    let fresh = McDecodeState::new();
    second_left_line(
        out,
        "mono base, phantom centre, second stereo, step count in subband 12, reading 2",
        phantom(13, 2),
    );
    second_left_line(
        out,
        "step counts up to the subband limit, reading 2",
        phantom(30, 2),
    );
    line(
        out,
        "step count at the subband limit, reading 2",
        phantom(31, 2),
        fresh,
    );
    let stereo = Loan {
        reading: 2,
        ..barred()
    };
    line(
        out,
        "step count in a barred subband over two base channels, reading 2",
        stereo,
        fresh,
    );
}

// A frame's line under a reading, and the state after it.
fn read_line(
    out: &mut Out<impl Print>,
    name: &str,
    frame: Loan,
    reading: u32,
    state: McDecodeState,
) -> McDecodeState {
    line(out, name, Loan { reading, ..frame }, state)
}

// The line of carrying, and the state after it.
pub fn carry_line(out: &mut Out<impl Print>, name: &str, state: McDecodeState) -> McDecodeState
    ensures { result ≡ (carried_over state).state }
{
    let mut after = state;
    let carried = carry_mc_state(&mut after);
    write!(out, "{name}");
    say_carried(out, carried, state, after);
    writeln!(out);
    after
}

// 3/1 and 2/2, which have four channels each, through one state: a count under reading 1, a layout under reading 2 that reading 1 leaves, then carrying.
fn held_lines(out: &mut Out<impl Print>, first: &str, start: McDecodeState) -> McDecodeState {
    let one = read_line(out, first, three_one(0.25), 1, start);
    let two = read_line(out, "then 2/2, reading 1", two_two(0.5), 1, one);
    let three = read_line(out, "then 3/1, reading 2", three_one(0.75), 2, two);
    let four = read_line(out, "then 2/2, reading 2", two_two(0.125), 2, three);
    let five = read_line(out, "then 2/2, reading 1", two_two(0.375), 1, four);
    let six = read_line(out, "then 2/2, reading 2", two_two(0.625), 2, five);
    carry_line(out, "then carrying", six)
}

// A state that may not be lent: a frame on it, and carrying.
fn wrong_lines(out: &mut Out<impl Print>, name: &str, carrying: &str, layout_len: u8, layout: u8) {
    let state = McDecodeState {
        layout_len,
        layout,
        ..McDecodeState::new()
    };
    line(out, name, three_two(0.5), state);
    carry_line(out, carrying, state);
}

// Layouts that are held, and carrying.
pub fn carry_lines(out: &mut Out<impl Print>) {
    let fresh = McDecodeState::new();
    let first = held_lines(out, "3/1, reading 1", fresh);
    let other = read_line(out, "then 3/2, reading 2", three_two(0.875), 2, first);
    let second = held_lines(out, "then 3/1, reading 1", other);
    read_line(out, "then 2/2, reading 2", two_two(0.875), 2, second);
    carry_line(out, "fresh state, carrying", fresh);
    wrong_lines(out, "layout count 6", "layout count 6, carrying", 6, 0);
    wrong_lines(
        out,
        "layout 34 of 4 channels",
        "layout 34 of 4 channels, carrying",
        4,
        34,
    );
    wrong_lines(
        out,
        "layout 31 of 5 channels",
        "layout 31 of 5 channels, carrying",
        5,
        31,
    );
}

// Group codes on both sides of the cube of their step count, which is 27.
pub fn group_code_lines(out: &mut Out<impl Print>) {
    let fresh = McDecodeState::new();
    line(out, "group code 26 of 3 steps", group_code(26), fresh);
    line(out, "group code 27 of 3 steps", group_code(27), fresh);
    line(out, "group code 31 of 3 steps", group_code(31), fresh);
}
