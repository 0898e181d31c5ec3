// Reads a frame file (docs/FRAME_FILE.md) from standard input, decodes its frames in a row through one state, and prints what comes out of each.
#![tactic(auto)]

use input::run;
use program_out::Out;
use std::io;
use std::io::Input;

mod bad_file;
mod input;
mod report;

fn main(rt: HostRuntime) -> io::Result<()> {
    let mut out = Out::new(&rt);
    let read = run(&mut rt.reader(), &mut out);
    out.end()?;
    read
}
