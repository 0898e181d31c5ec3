// Writes lines. The functions `say_..` write a line's parts to what is lent to print: a type with a `Display` for each would hold the parameters that the function has.
ghost use Rattle.std.specs.Prelude.{◌≡◌};
ghost use Rattle.boundary_look.specs.Look.{same_values};
ghost use Rattle.boundary_run.specs.Run.{same_counts, stored_by};

use boundary_look::{is_stored, same_values};
use boundary_run::{Found, Loan, Told, ramp};
use mc_error::McError;
use mc_state::McDecodeState;
use program_out::Out;
use std::fmt;

// The count, the layout where it is known, and the tallies of all desks.
#[derive(Drop)]
struct Counts<'a>(&'a McDecodeState);

impl fmt::Display for Counts<'_> {
    fn fmt<W: fmt::Write>(&self, f: &mut fmt::Formatter<W>) -> fmt::Result {
        write!(f, "layout count {}", self.0.layout_len)?;
        if self.0.layout != 0 {
            write!(f, ", layout {}", self.0.layout)?;
        }
        write!(f, ", tallies")?;
        for tally in self.0.accepted {
            write!(f, " {tally}")?;
        }
        Ok(())
    }
}

// Whether the history holds the base's last slots; one base channel stands in both halves.
fn stored(loan: Loan, state: McDecodeState) -> bool
    ensures { result ≡ stored_by loan state.pred_hist }
{
    let left = ramp(loan.left);
    if loan.base_channels == 1 {
        return is_stored(&state.pred_hist, &left, &left);
    }
    let right = ramp(loan.right);
    is_stored(&state.pred_hist, &left, &right)
}

// Whether the history is the same. It and the counts are compared apart, as lines say them apart. The states before and after are two
// parameters here and below: what is compared is a state with another, and a type of both would be made for these calls alone.
fn same_history(before: McDecodeState, after: McDecodeState) -> bool
    ensures { result ≡ same_values before.pred_hist after.pred_hist }
{
    same_values(&before.pred_hist, &after.pred_hist)
}

// Whether the count, the layout and the tallies are the same.
fn same_counts(before: McDecodeState, after: McDecodeState) -> bool
    ensures { result ≡ same_counts before after }
{
    before.held() == after.held() && before.accepted == after.accepted
}

// What became of the state.
fn say_state(out: &mut Out<impl Print>, loan: Loan, before: McDecodeState, after: McDecodeState) {
    let counts = same_counts(before, after);
    if counts && same_history(before, after) {
        write!(out, "; state as it was");
        return;
    }
    let history = if stored(loan, after) {
        "stored"
    } else {
        "neither stored nor as it was"
    };
    write!(out, "; history {history}, {}", Counts(&after));
    if counts {
        write!(out, " as they were");
    }
}

// The answer, the buffers and the state, without the line's end.
pub fn say_found(out: &mut Out<impl Print>, loan: Loan, before: McDecodeState, found: Found) {
    write!(out, ": {}", Told(found.answer));
    if found.kept {
        write!(out, "; buffers as they were");
    }
    say_state(out, loan, before, found.state);
}

// What carrying answered, and what became of the state, without the line's end.
pub fn say_carried(
    out: &mut Out<impl Print>,
    carried: Result<(), McError>,
    before: McDecodeState,
    after: McDecodeState,
) {
    match carried {
        Ok(()) => write!(out, ": carried"),
        Err(e) => write!(out, ": refusal {}", e.number()),
    }
    let history = same_history(before, after);
    if history && same_counts(before, after) {
        write!(out, "; state as it was");
        return;
    }
    let kept = if history {
        "as it was"
    } else {
        "not as it was"
    };
    write!(out, "; history {kept}, {}", Counts(&after));
}

// What conversion answered, and what became of the older state's history or, after a refusal, of the state before, without the line's end.
pub fn say_converted(
    out: &mut Out<impl Print>,
    history: &[f64],
    converted: Result<(), McError>,
    before: McDecodeState,
    after: McDecodeState,
) {
    match converted {
        Ok(()) => {
            let kept = if same_values(&after.pred_hist, history) {
                "kept"
            } else {
                "not kept"
            };
            write!(out, ": converted; history {kept}, {}", Counts(&after));
        }
        Err(e) => {
            write!(out, ": refusal {}", e.number());
            if same_history(before, after) && same_counts(before, after) {
                write!(out, "; state as it was");
            }
        }
    }
}
