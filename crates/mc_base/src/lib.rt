// The lent base: one or two channels, slot and subband at 32 * slot + subband.
#![tactic(auto)]

ghost use Rattle.std.specs.Prelude.{◌≡◌, ◌≤◌, cond, eqb, length};
ghost use Rattle.mc_base.specs.Base.{chosen, second_length};

// What belongs to each of two base channels.
#[derive(Clone, Copy)]
pub struct Stereo<T> {
    pub left: T,
    pub right: T,
}

// Values by slot and subband; with one base channel the right ones are empty.
impl<'a> Stereo<&'a [f64]> {
    // The chosen channel.
    pub fn chosen(self, ch: u8) -> &'a [f64]
        ensures { result.now ≡ chosen ch self.entry.left.now self.entry.right.now }
    {
        chosen(ch, self.left, self.right)
    }

    // The channel that stands for the second: with one base channel the first.
    pub fn second(self, base_channels: u8) -> &'a [f64]
        ensures { result.now ≡ chosen (cond (eqb base_channels 1) 0 1) self.entry.left.now self.entry.right.now }
    {
        if base_channels == 1 {
            self.left
        } else {
            self.right
        }
    }

    // The channels as they stand for the first and the second.
    pub fn both(self, base_channels: u8) -> Stereo<&'a [f64; 1152]>
        requires { (length self.left.now ≡ 1152) × (length self.right.now ≡ second_length base_channels 1152) }
        ensures left { result.left.now ≡ self.entry.left.now }
        ensures right { result.right.now ≡ chosen (cond (eqb base_channels 1) 0 1) self.entry.left.now self.entry.right.now }
    {
        Stereo {
            left: self.left.as_array().unwrap(),
            right: self.second(base_channels).as_array().unwrap(),
        }
    }
}

// The base's values as they were sent, and times their scalefactors.
#[derive(Clone, Copy)]
pub struct Base<'a> {
    pub raw: Stereo<&'a [f64]>,
    pub scaled: Stereo<&'a [f64]>,
}

// The chosen one of two lent base channels. By a number: any u8 is taken, and a narrower type would ask more. A function of two slices, as the project asks of this
// place (docs/PROOFS.md, "Forms by place"), under the method.
pub fn chosen<'a>(ch: u8, left: &'a [f64], right: &'a [f64]) -> &'a [f64]
    ensures { result.now ≡ chosen ch left.now right.now }
{
    if ch == 0 { left } else { right }
}

// How many there are of a second base channel, of which a first one has n.
pub fn second_length(base_channels: u8, n: usize) -> usize
    ensures value { result ≡ second_length base_channels n }
    ensures upper_bound { result ≤ n }
{
    if base_channels == 1 { 0 } else { n }
}
