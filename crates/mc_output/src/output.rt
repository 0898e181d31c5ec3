// The output by channel, slot and subband (ISO/IEC 13818-3, 2.5.3.2.1).
ghost use Rattle.std.specs.Prelude.{◌≡◌, cond, ℕ, ◌<◌, ◌≤◌, eqb, length, get_or};
ghost use Rattle.std.specs.Float.{nan};
ghost use Rattle.mc_scale.specs.Code.Strided.{across};
ghost use Rattle.mc_base.specs.Base.{Base};
ghost use Rattle.mc_predict.specs.Predict.{Both};
ghost use Rattle.mc_output.specs.Output.{output_of};
ghost use Rattle.mc_output.specs.Code.OutputByMix.{mix_of, tcs_of, main_by, mixed_by, SecondFits, mixed_of, with_second, beyond, base_alone};

use mc_base::Stereo;
use mc_config::McConfig;
use mc_dematrix::{Signals, dematrix};
use mc_groups::sbgr_of_subband;
use mc_payload::{McSettings, msblimit};

// What the output goes by in every slot and subband.
#[derive(Clone, Copy)]
struct Mix {
    pair: u32,
    procedure: u8,
    // main channels of the extension, and output channels
    main: usize,
    channels: usize,
    second_stereo: bool,
    // no samples are sent for subbands from here on
    limit: usize,
}

fn mix_of(s: &McSettings) -> Mix
    ensures { result ≡ mix_of s.now }
{
    let config = McConfig::from_header(s.header, s.base_channels);
    Mix {
        pair: config.pair(),
        procedure: s.header.dematrix_procedure,
        main: config.main_nmch(),
        channels: config.layout().len(),
        second_stereo: config.second_stereo,
        limit: msblimit(s.rate),
    }
}

// tc_allocation by subband.
fn tcs_of(tc: &[u8; 12]) -> [u8; 32]
    ensures { result ≡ tcs_of tc.now }
{
    std::array::from_fn(|sb| tc[sbgr_of_subband(sb)])
}

// Main channel m at place j of its 1152, as dematrixing takes it. Functions and no methods of `Mix`, which definitions take beside the rest; bounds
// of m and j are each of the function's own index, and a type for one would be unwrapped at its first use.
fn main_at(x: &Mix, work: &[f64; 3456], m: usize, j: usize) -> f64
    requires { (m < 3) × (j < 1152) }
    ensures { result ≡ main_by x.now work.now m j }
{
    if m < x.main && j % 32 < x.limit {
        work[1152 * m + j]
    } else {
        0.0
    }
}

// The five dematrixed values at place j.
fn mixed_at(x: &Mix, tc: u8, base: Stereo<&[f64; 1152]>, work: &[f64; 3456], j: usize) -> [f64; 5]
    requires { j < 1152 }
    ensures { result ≡ mixed_by x.now tc base.entry.left.now base.entry.right.now work.now j }
{
    let signals = Signals {
        lo: base.left[j],
        ro: base.right[j],
        t2: main_at(x, work, 0, j),
        t3: main_at(x, work, 1, j),
        t4: main_at(x, work, 2, j),
    };
    dematrix(x.pair, x.procedure, tc, signals)
}

// Stores five values at place j of the channels.
fn store_five(values: [f64; 5], j: usize, output: &mut [f64; 5760])
    requires { j < 1152 }
    ensures { output.new ≡ across (λ (ch : ℕ). get_or values ch nan) j output.old }
{
    // by index: the places are 1152 apart, so that a chain of `step_by` and `zip` over the rest of the output is no plainer than `j + 1152 * ch`
    for (ch, value) in values.iter().enumerate() {
        output[j + 1152 * ch] = *value;
    }
}

// The dematrixed values of all slots and subbands, from both base channels and work.
fn write_mixed(
    x: &Mix,
    tcs: &[u8; 32],
    base: Stereo<&[f64; 1152]>,
    work: &[f64; 3456],
    output: &mut [f64; 5760],
)
    ensures { output.new ≡ mixed_of x.now tcs.now base.entry.left.now base.entry.right.now work.now }
{
    // by index: the place is the same in both base channels, in the channels of work and in those of the output
    for j in 0usize..1152 {
        store_five(mixed_at(x, tcs[j % 32], base, work, j), j, output);
    }
}

// A second stereo programme, as it was sent, takes the last two channels below the subband limit.
fn write_second(x: &Mix, work: &[f64; 3456], output: &mut [f64; 5760])
    requires { (2 ≤ x.now.channels) × (x.now.channels ≤ 5) × (x.now.main ≤ 1) }
    ensures { output.new ≡ with_second x.now work.now output.old }
{
    let at = 1152 * (x.channels - 2);
    let from = 1152 * x.main;
    // work is read by index: tried `zip`, after which a proof is told none of the elements that the loop has written
    for (i, value) in output[at..at + 2304].iter_mut().enumerate() {
        if i % 32 < x.limit {
            *value = work[from + i];
        }
    }
}

// +0 in the channels beyond the layout. That there are at most five is asked here and of who calls: the definition makes a `Mix` of any settings.
fn clear_beyond(channels: usize, output: &mut [f64; 5760])
    requires { channels ≤ 5 }
    ensures { output.new ≡ beyond channels output.old }
{
    output[1152 * channels..].fill(0.0);
}

// A second stereo programme, and +0 beyond the layout, in place of dematrixed values.
fn lay_out(x: &Mix, work: &[f64; 3456], output: &mut [f64; 5760])
    requires { (x.now.channels ≤ 5) × SecondFits x.now }
    ensures { output.new ≡ beyond x.now.channels (cond x.now.second_stereo (with_second x.now work.now output.old) output.old) }
{
    if x.second_stereo {
        write_second(x, work, output);
    }
    clear_beyond(x.channels, output);
}

// All slots and subbands where the output is the base alone: its channels as they are, and +0 beyond them.
fn write_base(x: &Mix, base: Stereo<&[f64; 1152]>, output: &mut [f64; 5760])
    ensures { output.new ≡ base_alone x.now base.entry.left.now base.entry.right.now }
{
    // by index, both channels a turn: a copy of each, by `copy_from_slice` or by assignment, was tried, and the archive for C then needs `memmove` from outside
    for j in 0usize..1152 {
        output[j] = base.left[j];
        output[1152 + j] = base.right[j];
    }
    clear_beyond(x.channels.min(2), output);
}

// Writes the whole output, from the channels that stand for both of a base: channel, slot and subband at (36 * channel + slot) * 32 + subband.
pub fn write_output_of_both(
    s: &McSettings,
    base: Stereo<&[f64; 1152]>,
    work: &[f64; 3456],
    output: &mut [f64; 5760],
)
    ensures { (b : Base) → Both s.now b base.entry.left.now base.entry.right.now → output.new ≡ output_of s.now b work.now }
{
    let x = mix_of(s);
    if x.main == 0 && !x.second_stereo {
        write_base(&x, base, output);
    } else {
        write_mixed(&x, &tcs_of(&s.status.tc_allocation), base, work, output);
        lay_out(&x, work, output);
    }
}

// The same from a base as it is lent, whose second channel is empty where there is one alone.
pub fn write_output(
    s: &McSettings,
    base: Stereo<&[f64]>,
    work: &[f64; 3456],
    output: &mut [f64; 5760],
)
    requires { (length base.left.now ≡ 1152) × (length base.right.now ≡ cond (eqb s.now.base_channels 1) 0 1152) }
    ensures { (b : Base) → b.scaled_left ≡ base.entry.left.now → b.scaled_right ≡ base.entry.right.now → output.new ≡ output_of s.now b work.now }
{
    write_output_of_both(s, base.both(s.base_channels), work, output);
}
