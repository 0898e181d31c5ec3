// Buffers filled with zeros and by their index, and in proofs/ the laws of loops that fill a buffer.
#![tactic(auto)]

ghost use Rattle.std.specs.Prelude.{◌≡◌, ℕ, ◌<◌, length};
ghost use Rattle.floats.specs.Binary64.{zero64};
ghost use Rattle.fill.specs.By.{FilledBy};
ghost use Rattle.fill.specs.Tab.{tab};

// +0 in every place. The slice's own `fill` states this under a law of `clone`; here it is a table, as the definitions of buffers have it.
// `write_raw` of mc_samples starts from the table; mc_scale and mc_output start from the slice's law, and mc_codes clears numbers.
pub fn clear(values: &mut [f64])
    ensures { values.new ≡ tab (λ (k : ℕ). zero64) (length values.old) }
{
    values.fill(0.0);
}

// In each place what `value` gives for its index.
pub fn fill_by<T: Drop, F: Fn(usize) -> T>(out: &mut [T], value: F)
    requires { (k : ℕ) → k < length out.old → F.pre value k }
    ensures len { length out.new ≡ length out.old }
    ensures each { FilledBy (F.post value) out.new (length out.old) }
{
    for (k, element) in out.iter_mut().enumerate() {
        *element = value(k);
    }
}
