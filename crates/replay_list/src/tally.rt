// What was compared so far.
ghost use Rattle.std.specs.Prelude.{◌≡◌};
ghost use Rattle.replay_list.specs.Outcome.{answered_of, tallied_of};

#[derive(Clone, Copy, Default)]
pub struct Tally {
    pub frames: u64,
    // accepted frames, then those of each refusal by its number
    pub answers: [u64; 15],
    // f64 values that entered the hashes
    pub values: u64,
    // frames with a difference
    pub different: u64,
}

// One frame more with an answer of this number; above 14 there is none. By an `if`: after `get_mut` a proof is told nothing of the array.
fn answered(answers: [u64; 15], n: usize) -> [u64; 15]
    ensures { result ≡ answered_of answers n }
{
    let mut next = answers;
    if n < 15 {
        next[n] = answers[n].wrapping_add(1);
    }
    next
}

// One frame more, by the packed answer, which a list has too: its low byte is the refusal's number, 0 for none.
pub fn tallied(t: Tally, answer: u64, values: u64, different: bool) -> Tally
    ensures { result ≡ tallied_of t answer values different }
{
    Tally {
        frames: t.frames.wrapping_add(1),
        answers: answered(t.answers, (answer % 256) as usize),
        values: t.values.wrapping_add(values),
        different: t.different.wrapping_add(u64::from(different)),
    }
}
