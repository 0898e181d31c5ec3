// What a frame answers and leaves behind, as six numbers, and how two such outcomes differ.
ghost use Rattle.std.specs.Prelude.{◌≡◌, ◌+◌, length, map};
ghost use Rattle.mc_state.specs.Answer.{buffers_from};
ghost use Rattle.replay_list.specs.Outcome.{hash_of, hash_numbers, state_hash, listed_of, reached_of, differences_of, named_of};

use encoding::number_at;
use hash::{START, hash_floats, hash_number};
use mc_error::McError;
use mc_state::{Accepted, EachBuffer, McDecodeState, pack};

// Something of each part that is compared: the packed answer, the four buffers and the state.
#[derive(Clone, Copy, PartialEq, Eq)]
pub struct Parts<T> {
    pub answer: T,
    pub raw: T,
    pub work: T,
    pub output: T,
    pub lfe: T,
    pub state: T,
}

// What a frame left in the four buffers.
pub type Left<'a> = EachBuffer<&'a [f64]>;

// The packed answer, and the hashes of the four buffers and of the state.
pub type Outcome = Parts<u64>;

// Which of the six numbers differ.
pub type Differences = Parts<bool>;

impl Parts<bool> {
    // Each with the words for its part.
    pub fn named(self) -> [(&'static str, bool); 6]
        ensures { map (λ p. (p.0.now, p.1)) result ≡ named_of self }
    {
        [
            ("its answer", self.answer),
            ("raw", self.raw),
            ("work", self.work),
            ("output", self.output),
            ("lfe", self.lfe),
            ("its state", self.state),
        ]
    }
}

fn hash(xs: &[f64]) -> u64
    ensures { result ≡ hash_of xs.now }
{
    hash_floats(START, xs)
}

// The hash h, eight tallies more.
fn hash_tallies(h: u64, tallies: [u32; 8]) -> u64
    ensures { result ≡ hash_numbers h tallies 8 }
{
    tallies
        .iter()
        .fold(h, |hash, tally| hash_number(hash, u64::from(*tally)))
}

// The hash of the history, the layout count, the layout and the tallies.
#[tactic(auto, unfolding(crate::specs::Outcome::state_hash))]
fn hash_state(state: &McDecodeState) -> u64
    ensures { result ≡ state_hash state.now }
{
    let history = hash(&state.pred_hist);
    let counted = hash_number(history, u64::from(state.layout_len));
    let laid = hash_number(counted, u64::from(state.layout));
    hash_tallies(laid, state.accepted)
}

// How many floats those hashes are of.
pub fn hashed_values(left: Left<'_>) -> u64
    ensures { let w = left.entry in result ≡ length w.raw.now + length w.work.now + length w.output.now + length w.lfe.now + 576 }
{
    (left.raw.len() + left.work.len() + left.output.len() + left.lfe.len() + 576) as u64
}

// The outcome that the frame call reached.
pub fn reached(answer: Result<Accepted, McError>, state: &McDecodeState, left: Left<'_>) -> Outcome
    ensures { let w = left.entry in result ≡ reached_of answer state.now (buffers_from w.raw.now w.work.now w.output.now w.lfe.now) }
{
    Parts {
        answer: pack(answer),
        raw: hash(left.raw),
        work: hash(left.work),
        output: hash(left.output),
        lfe: hash(left.lfe),
        state: hash_state(state),
    }
}

// The outcome that the list has.
pub fn listed(opening: &[u8]) -> Outcome
    ensures { result ≡ listed_of opening.now }
{
    Parts {
        answer: number_at(opening, 40, 8),
        raw: number_at(opening, 48, 8),
        work: number_at(opening, 56, 8),
        output: number_at(opening, 64, 8),
        lfe: number_at(opening, 72, 8),
        state: number_at(opening, 80, 8),
    }
}

// Part by part: that two outcomes are not equal would not say where they differ.
pub fn compare(a: Outcome, b: Outcome) -> Differences
    ensures { result ≡ differences_of a b }
{
    Parts {
        answer: a.answer != b.answer,
        raw: a.raw != b.raw,
        work: a.work != b.work,
        output: a.output != b.output,
        lfe: a.lfe != b.lfe,
        state: a.state != b.state,
    }
}
