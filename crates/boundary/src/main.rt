// Runs the boundary frames, each of the ten refusals, centre code 2 and the phantom centre under both readings,
// changes of reading with and without carrying, desks and conversion, and group codes with and without an excess, and writes a line on each: what the
// call answered, and what became of the buffers and of the state.
#![tactic(auto)]

mod desks;
mod frames;
mod heads;
mod lines;
mod print;

use desks::{convert_lines, desk_lines};
use lines::{
    carry_lines, group_code_lines, layout_lines, mono_lines, phantom_lines, reading_lines,
    refusal_lines, string_lines,
};
use program_out::Out;
use std::io;

fn main(rt: HostRuntime) -> io::Result<()> {
    let mut out = Out::new(&rt);
    string_lines(&mut out);
    layout_lines(&mut out);
    mono_lines(&mut out);
    refusal_lines(&mut out);
    reading_lines(&mut out);
    phantom_lines(&mut out);
    carry_lines(&mut out);
    desk_lines(&mut out);
    convert_lines(&mut out);
    group_code_lines(&mut out);
    out.end()
}
