// A value as a decimal number.
ghost use Rattle.std.specs.Prelude.{Some};

use crate::summary::millionths_of;
use std::fmt;

// Prints the last six decimal digits of a number.
#[derive(Clone, Copy)]
pub struct SixDigits(pub u64);

impl fmt::Display for SixDigits {
    ghost use Rattle.frame_summary.specs.Decimal.{last_digits};

    ghost output = { λ n. Some (last_digits 10 6 n.0) };

    #[tactic(auto, using(crate::proofs::DigitLaws::six))]
    fn fmt<W: fmt::Write>(&self, f: &mut fmt::Formatter<W>) -> fmt::Result {
        write!(f, "{:06}", self.0 % 1_000_000)
    }
}

// Prints a value with six decimal places, cut off and not rounded.
#[derive(Clone, Copy)]
pub struct Decimal(pub f64);

impl fmt::Display for Decimal {
    ghost use Rattle.frame_summary.specs.Decimal.{decimal_of};

    ghost output = { λ x. Some (decimal_of x.0) };

    fn fmt<W: fmt::Write>(&self, f: &mut fmt::Formatter<W>) -> fmt::Result {
        let sign = if self.0 < 0.0 { "-" } else { "" };
        let millionths = millionths_of(self.0);
        let digits = SixDigits(millionths);
        write!(f, "{sign}{}.{digits}", millionths / 1_000_000)
    }
}
