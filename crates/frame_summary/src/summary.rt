// What is said of a channel's values, and a value as millionths.
ghost use Rattle.std.specs.Prelude.{◌≡◌};
ghost use Rattle.frame_summary.specs.Summary.{magnitude as Summary·magnitude, larger as Summary·larger, peak_of, nonzero_of, whole_of, millionths_of, summary_of};

use hash::{START, hash_floats};

#[derive(Clone, Copy)]
pub struct Summary {
    pub peak: f64,
    pub nonzero: usize,
    pub hash: u64,
}

// By a test: `abs`, which makes +0 of -0, answers another value than the definition.
fn magnitude(x: f64) -> f64
    ensures { result ≡ Summary·magnitude x }
{
    if x < 0.0 { -x } else { x }
}

// The larger one; the first where one is no number. By a test: where the first is no number, `max` answers the second.
fn larger(a: f64, b: f64) -> f64
    ensures { result ≡ Summary·larger a b }
{
    if a < b { b } else { a }
}

// The largest magnitude.
fn peak(xs: &[f64]) -> f64
    ensures { result ≡ peak_of xs.now }
{
    xs.iter().fold(0.0, |most, x| larger(most, magnitude(*x)))
}

// How many values are not 0.
fn nonzero(xs: &[f64]) -> usize
    ensures { result ≡ nonzero_of xs.now }
{
    xs.iter().filter(|x| **x != 0.0).count()
}

pub fn summary_of(xs: &[f64]) -> Summary
    ensures { result ≡ summary_of xs.now }
{
    Summary {
        peak: peak(xs),
        nonzero: nonzero(xs),
        hash: hash_floats(START, xs),
    }
}

// The whole part of a value from 0 to below 2^64; else 0.
fn whole_of(x: f64) -> u64
    ensures { result ≡ whole_of x }
{
    if -1.0 < x && x < 18446744073709551616.0 {
        std::num::truncating_f64_to_u64(x)
    } else {
        0
    }
}

// The whole part of a value's magnitude times 1,000,000, the product rounded once.
pub fn millionths_of(x: f64) -> u64
    ensures { result ≡ millionths_of x }
{
    whole_of(magnitude(x) * 1000000.0)
}
