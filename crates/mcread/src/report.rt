// What is said of frames; the numbers and words in it are made by the functions of the other crates. The functions `put_..` write a line to what is lent to print:
// a type with a `Display` for each would hold the parameters that the function has.
use frame_body::Body;
use frame_summary::{Decimal, summary_of};
use frame_text::name_of;
use mc_error::McError;
use mc_state::Accepted;
use program_out::Out;
use std::fmt;

pub fn put_accepted(out: &mut Out<impl Print>, number: u64, layout: &[u8], used: Accepted) {
    write!(out, "frame {number}: ");
    for channel in layout {
        write!(out, "{} ", name_of(*channel));
    }
    writeln!(
        out,
        "- {} head bits, {} payload bits, {} excess codes",
        used.head_bits, used.payload_bits, used.excess_codes
    );
}

// The LFE samples.
pub fn put_lfe(out: &mut Out<impl Print>, lfe: &[f64]) {
    write!(out, "  lfe");
    for x in lfe {
        write!(out, " {}", Decimal(*x));
    }
    writeln!(out, "");
}

// One output channel.
fn put_channel(out: &mut Out<impl Print>, channel: u8, values: &[f64]) {
    let name = name_of(channel);
    let summary = summary_of(values);
    let peak = Decimal(summary.peak);
    let nonzero = summary.nonzero;
    let hash = summary.hash;
    writeln!(
        out,
        "  {name}: peak {peak}, not 0: {nonzero}, hash {hash:016x}"
    );
}

// Each output channel of the layout.
pub fn put_channels(out: &mut Out<impl Print>, layout: &[u8], output: &[f64]) {
    for (channel, values) in layout.iter().zip(output.chunks_exact(1152)) {
        put_channel(out, *channel, values);
    }
}

// The values of an accepted frame; LFE samples only where there are some.
pub fn put_values(
    out: &mut Out<impl Print>,
    lfe_allocation: u8,
    layout: &[u8],
    lfe: &[f64],
    output: &[f64],
) {
    if 0 < lfe_allocation {
        put_lfe(out, lfe);
    }
    put_channels(out, layout, output);
}

// A refusal's number and words.
#[derive(Clone, Copy)]
struct Refusal(McError);

impl fmt::Display for Refusal {
    fn fmt<W: fmt::Write>(&self, f: &mut fmt::Formatter<W>) -> fmt::Result {
        write!(f, "{}, {}", self.0.number(), self.0)?;
        if let McError::ForbiddenDynCrossMode { sbgr, mode } = self.0 {
            write!(f, " (group {sbgr}, code {mode})")?;
        }
        Ok(())
    }
}

pub fn put_refused(out: &mut Out<impl Print>, number: u64, e: McError) {
    writeln!(out, "frame {number}: refused: {}", Refusal(e));
}

// What became of a frame, and the values that an accepted one left.
pub fn put_decoded(
    out: &mut Out<impl Print>,
    number: u64,
    body: Body<'_>,
    decoded: Result<Accepted, McError>,
    lfe: &[f64],
    output: &[f64],
) {
    match decoded {
        Ok(used) => {
            let layout = body.layout();
            put_accepted(out, number, layout, used);
            put_values(out, body.frame.numbers.lfe_allocation, layout, lfe, output);
        }
        Err(e) => put_refused(out, number, e),
    }
}

// Whether the state was carried before a frame.
pub fn put_carried(out: &mut Out<impl Print>, number: u64, carried: Result<(), McError>) {
    match carried {
        Ok(()) => writeln!(out, "frame {number}: the state is carried over"),
        Err(e) => {
            let refusal = Refusal(e);
            writeln!(
                out,
                "frame {number}: the state is not carried over: {refusal}"
            );
        }
    }
}

pub fn put_totals(out: &mut Out<impl Print>, accepted: u32, refused: u32) {
    let frames = u64::from(accepted) + u64::from(refused);
    writeln!(
        out,
        "{frames} frames read, {accepted} accepted, {refused} refused"
    );
}

// The tally of each desk that frames name. Two lists side by side: the tallies are the state's, and which desks are named is what was read.
pub fn put_tallies(out: &mut Out<impl Print>, desks: [bool; 8], tallies: [u32; 8]) {
    for (desk, (named, tally)) in desks.iter().zip(&tallies).enumerate() {
        if *named {
            writeln!(out, "desk {desk}: tally {tally}");
        }
    }
}
