// From the record to dematrixed subbands (ISO/IEC 13818-3, 2.5.3.2): scaling, prediction, dematrixing and output.
#![tactic(auto)]

ghost use Rattle.std.specs.Prelude.{◌≡◌};
ghost use Rattle.mc_output.specs.Output.{work_of, output_of};
ghost use Rattle.mc_base.specs.Base.{lent};
ghost use Rattle.mc_finish.specs.Finish.{record_from, Tables, BaseFits, RecordFits};

use mc_base::Base;
use mc_payload::McSettings;
use mc_places::Places;

// Fills work and output from the record, the base and the history, by the tables of the places. `delays` and `coefs` are two tables of the
// record, which the definition of the record names one by one.
pub fn finish(
    s: &McSettings,
    places: &Places,
    raw: &[f64; 3456],
    scalefactor: &[u8; 288],
    delays: &[[u8; 6]; 8],
    coefs: &[[[f64; 3]; 6]; 8],
    base: Base,
    history: &[f64; 576],
    work: &mut [f64; 3456],
    output: &mut [f64; 5760],
)
    requires tables { Tables s.now places.now.steps places.now.source places.now.base }
    requires record_fits { RecordFits (record_from raw.now scalefactor.now delays.now coefs.now) }
    requires base_fits { BaseFits s.now (lent base) }
    ensures work { work.new ≡ work_of s.now (record_from raw.now scalefactor.now delays.now coefs.now) (lent base.entry) history.now }
    ensures output { output.new ≡ output_of s.now (lent base.entry) work.new }
{
    mc_scale::scale(places, scalefactor, raw, base.raw, work);
    mc_predict::predict(s, delays, coefs, base.scaled, history, work);
    mc_output::write_output(s, base.scaled, work, output);
}
