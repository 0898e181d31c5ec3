// Step counts and values in a row.
ghost use Rattle.std.specs.Prelude.{◌≡◌, ◌≤◌, length};
ghost use Rattle.fill.specs.Tab.{tab};
ghost use Rattle.frame_file.specs.File.{step_at, value_at};

use encoding::{float_of, number_at, u32_at};
use fill::fill_by;

// Reads step counts of four bytes.
pub fn fill_steps(bytes: &[u8], out: &mut [u32])
    requires { length out.old ≤ 160 }
    ensures { out.new ≡ tab (step_at bytes.now) (length out.old) }
{
    fill_by(out, |k| u32_at(bytes, 4 * k));
}

// Reads f64 values from the byte `at` on.
pub fn fill_values(bytes: &[u8], at: usize, out: &mut [f64])
    requires { (at ≤ 65536) × (length out.old ≤ 4608) }
    ensures { out.new ≡ tab (value_at bytes.now at) (length out.old) }
{
    fill_by(out, |k| float_of(number_at(bytes, at + 8 * k, 8)));
}
