// The history that the next frame predicts from (ISO/IEC 13818-3, 2.5.3.2.1.3).
#![tactic(auto)]

ghost use Rattle.std.specs.Prelude.{◌≡◌, cond, ◌<◌, eqb, length};
ghost use Rattle.fill.specs.Tab.{tab};
ghost use Rattle.mc_base.specs.Base.{Base};
ghost use Rattle.mc_payload.specs.declared.McSettings.{McSettings};
ghost use Rattle.mc_predict.specs.Predict.{Both};
ghost use Rattle.mc_history.specs.History.{history_of};
ghost use Rattle.mc_history.specs.HistoryBy.{line_by};

use mc_base::Stereo;
use mc_payload::McSettings;

// The last nine slots of one subband of a channel, oldest first.
fn line_of(base: &[f64; 1152], sb: usize) -> [f64; 9]
    requires { sb < 32 }
    ensures { result ≡ tab (line_by base.now sb) 9 }
{
    std::array::from_fn(|k| base[32 * (27 + k) + sb])
}

// The last nine slots of the channels that stand for both of a base, for the next frame's prediction.
pub fn history_of_both(base: Stereo<&[f64; 1152]>) -> [f64; 576]
    ensures { (s : McSettings) (b : Base) → Both s b base.entry.left.now base.entry.right.now → result ≡ history_of s b }
{
    let mut values = [0.0; 576];
    // by index, a line of nine a turn: a `from_fn` over all 576, which was tried, divides for each of them
    for line in 0usize..64 {
        let channel = if line < 32 { base.left } else { base.right };
        values[9 * line..9 * line + 9].copy_from_slice(&line_of(channel, line % 32));
    }
    values
}

// The same of a base as it is lent, whose second channel is empty where there is one alone.
pub fn history(s: &McSettings, base: Stereo<&[f64]>) -> [f64; 576]
    requires { (length base.left.now ≡ 1152) × (length base.right.now ≡ cond (eqb s.now.base_channels 1) 0 1152) }
    ensures { (b : Base) → b.scaled_left ≡ base.entry.left.now → b.scaled_right ≡ base.entry.right.now → result ≡ history_of s.now b }
{
    history_of_both(base.both(s.base_channels))
}
