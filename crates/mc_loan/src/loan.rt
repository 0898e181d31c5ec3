// What a payload is read under, as lent: the tests of wrong loan, refusal 6, and the settings that it makes.
ghost use Rattle.std.specs.Prelude.{◌≡◌, ℕ, length, get_or};
ghost use Rattle.fill.specs.Tab.{tab};
ghost use Rattle.std.specs.List.{list_all};
ghost use Rattle.mc_payload.specs.Unpack.{rate_fits, steps_fit, loan_fits, settings_of};
ghost use Rattle.mc_loan.specs.Lent.{loan_with};

use mc_config::McHeader;
use mc_fields::McStatus;
use mc_payload::McSettings;

fn rate_fits(rate: u32) -> bool
    ensures { result ≡ rate_fits rate }
{
    matches!(rate, 48000 | 44100 | 32000)
}

// 0 or the step count of a class.
fn steps_fit(n: u32) -> bool
    ensures { result ≡ steps_fit n }
{
    n == 0 || bitalloc::class_index(n).is_some()
}

fn all_fit(steps: &[u32]) -> bool
    ensures { result ≡ list_all steps_fit steps.now }
{
    steps.iter().all(|n| steps_fit(*n))
}

// The list as a table of fixed length, 0 past its end.
fn table<const N: usize>(list: &[u32]) -> [u32; N]
    ensures { result ≡ tab (λ (k : ℕ). get_or list.now k 0) N }
{
    std::array::from_fn(|k| list.get(k).copied().unwrap_or(0))
}

// What a payload is read under beside its head.
#[derive(Clone, Copy)]
pub struct Loan<'a> {
    // of the transfer guide, 1 or 2
    pub reading: u32,
    pub rate: u32,
    pub base_channels: u8,
    pub lfe_allocation: u8,
    pub nb_steps: &'a [u32],
    pub base_nb_steps: &'a [u32],
}

impl Loan<'_> {
    // Reading, rate, base channel count, LFE allocation, the number of step counts, and base step counts.
    #[tactic(auto, unfolding(mc_payload::specs::Unpack::loan_fits))]
    pub fn fits(&self) -> bool
        ensures { let l = self.now in result ≡ loan_fits l.reading l.rate l.base_channels l.lfe_allocation l.nb_steps.now l.base_nb_steps.now }
    {
        mc_config::reading_fits(self.reading)
            && rate_fits(self.rate)
            && mc_fields::base_fits(self.base_channels)
            && self.lfe_allocation <= 15
            && self.nb_steps.len() == 96
            && self.base_nb_steps.len() == 32 * usize::from(self.base_channels)
            && all_fit(self.base_nb_steps)
    }

    // The lists as tables of fixed length, with the head.
    #[tactic(auto, unfolding(mc_payload::specs::Unpack::settings_of))]
    pub fn settings(&self, header: McHeader, status: McStatus) -> McSettings
        ensures { result ≡ settings_of (loan_with self.now header status) }
    {
        McSettings {
            reading: self.reading,
            rate: self.rate,
            base_channels: self.base_channels,
            header,
            status,
            lfe_allocation: self.lfe_allocation,
            nb_steps: table(self.nb_steps),
            base_nb_steps: table(self.base_nb_steps),
        }
    }
}
