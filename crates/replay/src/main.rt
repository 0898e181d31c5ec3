// Runs a list of frames with the oracle's answers through the frame call and compares every output bit, by hashes.
#![tactic(auto)]

ghost use Rattle.std.specs.Prelude.{◌≡◌, eqb, codes};
ghost use Rattle.std.specs.List.{starts_with};

mod frame;
mod report;

use encoding::number_at;
use frame::replay_frame;
use mc_error::McError;
use mc_state::{Accepted, Buffers, McDecodeState};
use replay_list::{
    Left, Outcome, Tally, compare, hashed_values, lent_bytes, listed, reached, tallied,
};
use std::io;
use std::io::{ErrorKind, Input, Read};

// Whether a list opens with its name.
fn opens(bytes: &[u8]) -> bool
    ensures { result ≡ starts_with eqb bytes.now (codes "MCREPLAY") }
{
    bytes.starts_with(b"MCREPLAY")
}

// Whether the list ended before all of it was read.
fn is_cut(e: &io::Error) -> bool {
    e.kind() == ErrorKind::UnexpectedEof
}

// Reads a frame: its opening, its head and its payload.
fn read_frame(
    rt: &impl Input,
    opening: &mut [u8; 256],
    head: &mut [u8; 65536],
    payload: &mut [u8; 65536],
) -> io::Result<()> {
    rt.reader().read_exact(opening)?;
    rt.reader().read_exact(&mut head[..64])?;
    let blocks = number_at(opening, 28, 4);
    // longer than any payload
    if 129 < blocks {
        return Err(ErrorKind::UnexpectedEof.into());
    }
    // by `as`: `usize` has no `From<u64>`
    rt.reader().read_exact(&mut payload[..blocks as usize * 64])
}

// What goes on from frame to frame: the state, the four buffers and the counts.
#[derive(Drop)]
struct Replay<'a> {
    state: McDecodeState,
    buffers: Buffers<'a>,
    tally: Tally,
}

impl Replay<'_> {
    // The outcome that a frame reached, and how many values its hashes are of.
    fn reached(&self, answer: Result<Accepted, McError>) -> (Outcome, u64) {
        let left = Left {
            raw: self.buffers.raw,
            work: self.buffers.work,
            output: self.buffers.output,
            lfe: self.buffers.lfe,
        };
        (reached(answer, &self.state, left), hashed_values(left))
    }

    // Compares what a frame left with what the list says, prints each difference and counts the frame.
    fn compare(
        &mut self,
        rt: &impl Print,
        opening: &[u8],
        answer: Result<Accepted, McError>,
    ) -> io::Result<()> {
        let (found, values) = self.reached(answer);
        let wanted = listed(opening);
        report::differing(rt, self.tally.frames, compare(found, wanted))?;
        self.tally = tallied(self.tally, found.answer, values, found != wanted);
        Ok(())
    }

    // Reads the next frame of the list, runs it and compares.
    fn next_frame(&mut self, rt: &(impl Input + Print)) -> io::Result<()> {
        let mut opening = [0u8; 256];
        // as many bytes as two bytes of the opening can ask for; those that are not in the list are 0
        let mut head = [0u8; 65536];
        let mut payload = [0u8; 65536];
        read_frame(rt, &mut opening, &mut head, &mut payload)?;
        let head = &head[..lent_bytes(&opening, 0, head.len())];
        let payload = &payload[..lent_bytes(&opening, 2, payload.len())];
        let answer = replay_frame(&mut self.state, &opening, head, payload, &mut self.buffers);
        self.compare(rt, &opening, answer)
    }
}

// Whether the list ends here.
fn ends(rt: &impl Input) -> io::Result<bool> {
    match rt.reader().read_exact(&mut [0u8; 1]) {
        Ok(()) => Ok(false),
        Err(e) if is_cut(&e) => Ok(true),
        Err(e) => Err(e),
    }
}

// Runs so many frames and prints what was compared.
fn run_list(rt: &(impl Input + Print), count: u64) -> io::Result<()> {
    let mut raw = [1.0; 3456];
    let mut work = [1.0; 3456];
    let mut output = [1.0; 5760];
    let mut lfe = [1.0; 12];
    let mut replay = Replay {
        state: McDecodeState::new(),
        buffers: Buffers {
            raw: &mut raw,
            work: &mut work,
            output: &mut output,
            lfe: &mut lfe,
        },
        tally: Tally::default(),
    };
    for _ in 0..count {
        replay.next_frame(rt)?;
    }
    if ends(rt)? {
        report::totals(rt, &replay.tally)
    } else {
        println!(rt; "the list has bytes left over")
    }
}

fn main(rt: HostRuntime) -> io::Result<()> {
    let mut opening = [0u8; 64];
    match rt.reader().read_exact(&mut opening) {
        Err(e) if is_cut(&e) => return println!(rt; "the list is cut in its opening"),
        read => read?,
    }
    if !opens(&opening) {
        return println!(rt; "this is no list of frames: its opening is wrong");
    }
    match run_list(&rt, number_at(&opening, 8, 4)) {
        Err(e) if is_cut(&e) => println!(rt; "the list is cut within a frame"),
        replayed => replayed,
    }
}
