// Writes the buffers of an accepted frame.
ghost use Rattle.std.specs.Prelude.{◌≡◌, length};
ghost use Rattle.mc_codes.specs.Outcome.{codes_of};
ghost use Rattle.mc_places.specs.PlacesBy.{places_of};
ghost use Rattle.mc_payload.specs.Record.{raw_of, record_of};
ghost use Rattle.mc_unpack.specs.Writable.{Writable};
ghost use Rattle.mc_base.specs.Base.{lent};
ghost use Rattle.mc_finish.specs.Finish.{BaseFits};
ghost use Rattle.mc_output.specs.Output.{work_of, output_of};
ghost use Rattle.mc_state.specs.Long.{Delayed};

use mc_base::Base;
use mc_finish::finish;
use mc_payload::McSettings;
use mc_unpack::McPayload;
use mc_values::{coefs, delays};

// Work and output, from the raw values. What `recorded` says, delays of at most 7 among it, is known of an accepted payload only: a `McPayload` is
// lent empty and filled in place, so its type does not say it.
pub fn finish_payload(
    s: &McSettings,
    p: &McPayload,
    raw: &[f64; 3456],
    base: Base<'_>,
    history: &[f64; 576],
    work: &mut [f64; 3456],
    output: &mut [f64; 5760],
)
    requires recorded { (raw.now ≡ raw_of s.now (codes_of p.now.codes)) × (p.now.places ≡ places_of s.now) × Writable s.now (codes_of p.now.codes) × Delayed p.now.codes.predictors }
    requires base_fits { BaseFits s.now (lent base) }
    ensures { (work.new ≡ work_of s.now (record_of s.now (codes_of p.now.codes)) (lent base.entry) history.now) × (output.new ≡ output_of s.now (lent base.entry) work.new) }
{
    let d = delays(&p.codes.predictors);
    let c = coefs(&s.status.mc_prediction, &p.codes.predictors);
    finish(
        s,
        &p.places,
        raw,
        &p.codes.scalefactors,
        &d,
        &c,
        base,
        history,
        work,
        output,
    );
}
