// Multichannel prediction (ISO/IEC 13818-3, 2.5.3.2.1.3): from both base channels, in subbands 0 to 7.
#![tactic(auto)]

ghost use Rattle.std.specs.Prelude.{◌≡◌, cond, [], ℕ, ◌+◌, ◌-◌, ◌*◌, ◌<◌, ◌≤◌, eqb, length, get_or};
ghost use Rattle.std.specs.Float.{nan};
ghost use Rattle.floats.specs.Binary64.{◌⊕◌};
ghost use Rattle.mc_crosstalk.specs.Crosstalk.{predicted_of};
ghost use Rattle.mc_scale.specs.Code.Strided.{column};
ghost use Rattle.mc_predict.specs.Code.PredictByLine.{line_at, line_of, term_of, terms_of, pair_sum, subband_of, predicted_by, predicted_work};

use mc_base::Stereo;
use mc_config::McConfig;
use mc_payload::McSettings;
use mc_predictors::predictable_channels;

// A base channel in one subband at a time: 9 values of the history, then the frame's 36. Each function here that takes an index by number asks for
// its limit, since a type of numbers below 32 would be turned back at each place that is computed from one.
fn line_at(history: &[f64; 576], base: &[f64; 1152], ch: usize, sb: usize, t: usize) -> f64
    requires { (ch < 2) × (sb < 32) × (t < 45) }
    ensures { result ≡ line_at history.now base.now ch sb t }
{
    if t < 9 {
        history[(32 * ch + sb) * 9 + t]
    } else {
        base[32 * (t - 9) + sb]
    }
}

fn line_of(history: &[f64; 576], base: &[f64; 1152], ch: usize, sb: usize) -> [f64; 45]
    requires { (ch < 2) × (sb < 32) }
    ensures { result ≡ line_of history.now base.now ch sb }
{
    std::array::from_fn(|t| line_at(history, base, ch, sb, t))
}

// One more term, where the coefficient is not 0.
fn with_term(sum: f64, coef: f64, x: f64) -> f64
    ensures { result ≡ term_of sum coef x }
{
    if coef != 0.0 { sum + coef * x } else { sum }
}

// A channel's value with its prediction, which is added even where it is +0: -0 becomes +0.
fn with_prediction(x: f64, sum: f64) -> f64
    ensures { result ≡ x ⊕ sum }
{
    x + sum
}

// A predictor, and its base channel in the subband.
#[derive(Clone, Copy)]
struct Predictor<'a> {
    delay: u8,
    coefs: [f64; 3],
    line: &'a [f64; 45],
    ghost low: { delay ≤ 7 },
}

impl Predictor<'_> {
    // The sum with its three terms at a slot.
    #[tactic(auto, unfolding(crate::specs::Code::PredictByLine::terms_of))]
    fn with_terms(&self, sum: f64, slot: usize) -> f64
        requires { slot < 36 }
        ensures { result ≡ terms_of sum self.now.coefs self.now.line.now (9 + slot - self.now.delay) }
    {
        let t = 9 + slot - usize::from(self.delay);
        let one = with_term(sum, self.coefs[0], self.line[t]);
        let two = with_term(one, self.coefs[1], self.line[t - 1]);
        with_term(two, self.coefs[2], self.line[t - 2])
    }
}

// Adds the prediction to one subband of a channel: the left predictor's terms, then the right one's, from +0.
fn predict_column(by: &Stereo<Predictor>, work: &mut [f64; 3456], at: usize)
    requires { at + 1120 < 3456 }
    ensures { work.new ≡ column (λ (slot : ℕ). get_or work.old (at + 32 * slot) nan ⊕ pair_sum by.now.left.delay by.now.left.coefs by.now.left.line.now by.now.right.delay by.now.right.coefs by.now.right.line.now slot) at work.old }
{
    // by index: the slot is a place in the two lines, and places in work are 32 apart, so that iterators over both would be no plainer
    for slot in 0usize..36 {
        let one = by.left.with_terms(0.0, slot);
        let sum = by.right.with_terms(one, slot);
        work[at + 32 * slot] = with_prediction(work[at + 32 * slot], sum);
    }
}

// One subband: the predicted channels in order, each by its two predictors, which stand in pairs by the channel's place k in the list.
// `delays` and `coefs` go side by side, and their limit is asked for here and in `predict`: they are two tables of the record, of all groups
// and predictors, from which a `Predictor`, that has the limit as a ghost field, is made for one channel.
#[tactic(auto, using(crate::proofs::Laws::PlaceIn::predicted_few))]
fn predict_subband(
    pair: u32,
    mode: u8,
    sb: usize,
    delays: &[u8; 6],
    coefs: &[[f64; 3]; 6],
    lines: &Stereo<[f64; 45]>,
    work: &mut [f64; 3456],
)
    requires place { sb < 32 }
    requires delays_low { (px : ℕ) → px < 6 → get_or delays.now px 0 ≤ 7 }
    ensures { work.new ≡ subband_of sb (predicted_of pair mode) delays.now coefs.now lines.now.left lines.now.right work.old }
{
    let predicted = predictable_channels(pair, mode);
    // by number: `chunks_exact` of both tables would give pairs that are indexed again
    for (k, &m) in predicted.iter().enumerate() {
        let left = Predictor {
            delay: delays[2 * k],
            coefs: coefs[2 * k],
            line: &lines.left,
        };
        let right = Predictor {
            delay: delays[2 * k + 1],
            coefs: coefs[2 * k + 1],
            line: &lines.right,
        };
        predict_column(&Stereo { left, right }, work, 1152 * usize::from(m) + sb);
    }
}

// Adds the predictions to the scaled values in work: in the groups whose flag is set, from the channels that stand for both of a base.
pub fn predict_of_both(
    s: &McSettings,
    delays: &[[u8; 6]; 8],
    coefs: &[[[f64; 3]; 6]; 8],
    base: Stereo<&[f64; 1152]>,
    history: &[f64; 576],
    work: &mut [f64; 3456],
)
    requires { (g px : ℕ) → g < 8 → px < 6 → get_or (get_or delays.now g []) px 0 ≤ 7 }
    ensures { work.new ≡ predicted_by s.now delays.now coefs.now base.entry.left.now base.entry.right.now history.now work.old }
{
    let pair = McConfig::from_header(s.header, s.base_channels).pair();
    // by index, since the subband is a place in each of the tables
    for sb in 0usize..8 {
        if s.status.mc_prediction[7 * sb] == 1 {
            let lines = Stereo {
                left: line_of(history, base.left, 0, sb),
                right: line_of(history, base.right, 1, sb),
            };
            let mode = s.status.dyn_cross[2 * sb];
            predict_subband(pair, mode, sb, &delays[sb], &coefs[sb], &lines, work);
        }
    }
}

// The same from a base as it is lent, whose second channel is empty where there is one alone.
pub fn predict(
    s: &McSettings,
    delays: &[[u8; 6]; 8],
    coefs: &[[[f64; 3]; 6]; 8],
    base: Stereo<&[f64]>,
    history: &[f64; 576],
    work: &mut [f64; 3456],
)
    requires lengths { (length base.left.now ≡ 1152) × (length base.right.now ≡ cond (eqb s.now.base_channels 1) 0 1152) }
    requires delays_low { (g px : ℕ) → g < 8 → px < 6 → get_or (get_or delays.now g []) px 0 ≤ 7 }
    ensures { work.new ≡ predicted_work s.now delays.now coefs.now base.entry.left.now base.entry.right.now history.now work.old }
{
    predict_of_both(s, delays, coefs, base.both(s.base_channels), history, work);
}
