// Reading standard input, frame after frame. No contract can say what is read.
ghost use Rattle.std.specs.Prelude.{◌≡◌, ◌≤◌, IfOk, length};
ghost use Rattle.mcread.specs.Step.{before_frame, after_frame, step_of, marked_of};

use crate::bad_file::{BadFile, Stop};
use crate::report;
use frame_body::{Body, first_state, second_state};
use frame_file::{Frame, Opening, Version, numbers_of, opening_of};
use mc_state::{Buffers, McDecodeState, carry_mc_state};
use program_out::Out;
use std::io;
use std::io::Read;

// Whether a frame was accepted, and the desk that it names.
#[derive(Clone, Copy)]
struct Step {
    accepted: bool,
    desk: u32,
}

// Reads until `buf` is full or the input ends, and says how many bytes it read, which std's `read_exact` does not.
fn read_full(input: &mut impl Read, buf: &mut [u8]) -> io::Result<usize>
    ensures { IfOk result (λ n. n ≤ length buf.new) }
{
    let mut done = 0;
    while done < buf.len() {
        match input.read(&mut buf[done..])? {
            0 => break,
            n => done += n,
        }
    }
    Ok(done)
}

// Reads as many bytes as `buf` holds; where the input ends before, the file is bad by `cut`.
fn read_whole(input: &mut impl Read, buf: &mut [u8], cut: BadFile) -> Result<(), Stop> {
    if read_full(input, buf)? < buf.len() {
        return Err(Stop::BadFile(cut));
    }
    Ok(())
}

// Carries the state where the frame asks for it, and prints that. What is printed to, the state and the frame's number go from function to function
// by themselves: no function here works on all that `run` has, as the methods of `Replay` of replay do.
fn before_frame(out: &mut Out<impl Print>, state: &mut McDecodeState, number: u64, frame: Frame)
    ensures { state.new ≡ before_frame frame.numbers state.old }
{
    if frame.numbers.carried == 1 {
        let carried = carry_mc_state(state);
        report::put_carried(out, number, carried);
    }
}

// Decodes a frame whose bytes were read, and prints it.
fn decode_frame(
    out: &mut Out<impl Print>,
    state: &mut McDecodeState,
    number: u64,
    body: Body<'_>,
) -> Step
    ensures next { state.new ≡ (after_frame body.entry.frame.numbers body.entry.bytes.now state.old).state }
    ensures step { result ≡ step_of body.entry.frame.numbers (after_frame body.entry.frame.numbers body.entry.bytes.now state.old) }
{
    let mut raw = [0.0f64; 3456];
    let mut work = [0.0f64; 3456];
    let mut output = [0.0f64; 5760];
    let mut lfe = [0.0f64; 12];
    before_frame(out, state, number, body.frame);
    let mut buffers = Buffers {
        raw: &mut raw,
        work: &mut work,
        output: &mut output,
        lfe: &mut lfe,
    };
    let decoded = body.decode(state, &mut buffers);
    report::put_decoded(out, number, body, decoded, &lfe, &output);
    Step {
        accepted: decoded.is_ok(),
        desk: body.frame.numbers.desk,
    }
}

fn read_frame(
    input: &mut impl Read,
    out: &mut Out<impl Print>,
    state: &mut McDecodeState,
    version: Version,
    number: u64,
) -> Result<Step, Stop> {
    let mut first = [0u8; 32];
    let first = &mut first[..version.number_bytes()];
    read_whole(input, first, BadFile::FrameCut(number))?;
    let numbers = numbers_of(version, first);
    let frame = Frame::try_from(numbers).map_err(|fault| BadFile::Frame(number, fault))?;
    let mut space = [0u8; 53888];
    let bytes = &mut space[..frame.body_bytes()];
    read_whole(input, bytes, BadFile::FrameCut(number))?;
    Ok(decode_frame(out, state, number, Body { frame, bytes }))
}

// One desk more that frames name; above 7 there is none. By an `if`: after `get_mut`, which was tried, a proof is told nothing of the array, and it did not close.
fn mark(desks: &mut [bool; 8], desk: u32)
    ensures { desks.new ≡ marked_of desks.old desk }
{
    let at = desk as usize;
    if at < desks.len() {
        desks[at] = true;
    }
}

// Reads all frames; bytes after the last one are a fault.
fn read_frames(
    input: &mut impl Read,
    out: &mut Out<impl Print>,
    mut state: McDecodeState,
    opening: Opening,
) -> Result<(), Stop> {
    let mut desks = [false; 8];
    let mut accepted: u32 = 0;
    for k in 0..opening.frames {
        let step = read_frame(input, out, &mut state, opening.version, u64::from(k) + 1)?;
        if step.accepted {
            accepted += 1;
        }
        mark(&mut desks, step.desk);
    }
    let mut more = [0u8; 1];
    if read_full(input, &mut more)? != 0 {
        return Err(Stop::BadFile(BadFile::LeftOver));
    }
    report::put_totals(out, accepted, opening.frames - accepted);
    report::put_tallies(out, desks, state.accepted);
    Ok(())
}

// Reads the state that follows the opening.
fn read_state(input: &mut impl Read, version: Version) -> Result<McDecodeState, Stop> {
    match version {
        Version::First => {
            let mut bytes = [0u8; 4613];
            read_whole(input, &mut bytes, BadFile::StateCut)?;
            first_state(&bytes).map_err(|_| Stop::BadFile(BadFile::StateRefused(bytes[0])))
        }
        Version::Second => {
            let mut bytes = [0u8; 4642];
            read_whole(input, &mut bytes, BadFile::StateCut)?;
            Ok(second_state(&bytes))
        }
    }
}

fn read_file(input: &mut impl Read, out: &mut Out<impl Print>) -> Result<(), Stop> {
    let mut bytes = [0u8; 13];
    let got = read_full(input, &mut bytes)?;
    let opening = opening_of(&bytes[..got]).map_err(BadFile::Opening)?;
    let state = if opening.state_follows {
        read_state(input, opening.version)?
    } else {
        McDecodeState::new()
    };
    read_frames(input, out, state, opening)
}

// Reads a frame file.
pub fn run(input: &mut impl Read, out: &mut Out<impl Print>) -> io::Result<()> {
    match read_file(input, out) {
        Ok(()) => Ok(()),
        Err(Stop::Io(e)) => Err(e),
        Err(Stop::BadFile(fault)) => {
            writeln!(out, "bad file: {fault}");
            Ok(())
        }
    }
}
