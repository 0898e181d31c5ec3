// Which allocations the head admits; else wrong allocation, refusal 8.
ghost use Rattle.std.specs.Prelude.{◌≡◌, ◌+◌, ◌*◌, ◌/◌, ◌%◌, get_or};
ghost use Rattle.std.specs.List.{list_all, enumerate_from};
ghost use Rattle.mc_payload.specs.Places.{own_of};
ghost use Rattle.mc_payload.specs.Unpack.{allocations_fit};
ghost use Rattle.mc_allocations.specs.AllocationsBy.{allocation_by};

use mc_payload::McSettings;

// A transmitted step count beside that of the samples in its place: none is lent where the place has no samples.
// Not by mc_loan's `steps_fit`: `steps_fit(n) && (n == 0 || own != 0)` tests twice whether n is 0.
#[tactic(auto, unfolding(crate::specs::AllocationsBy::allocation_by))]
fn allocation_fits(n: u32, own: u32) -> bool
    ensures { result ≡ allocation_by n own }
{
    n == 0 || (own != 0 && bitalloc::class_index(n).is_some())
}

// All step counts, each beside its place's. By number: `steps` goes by channel, then subband, and `own` by subband, then channel.
fn all_fit(steps: &[u32; 96], own: &[u32; 96]) -> bool
    ensures { result ≡ list_all (λ p. allocation_by p.1 (get_or own.now (3 * (p.0 % 32) + p.0 / 32) 0)) (enumerate_from 0 steps.now) }
{
    steps
        .iter()
        .enumerate()
        .all(|(k, n)| allocation_fits(*n, own[3 * (k % 32) + k / 32]))
}

// The allocations by the step counts of the samples in the payload.
pub fn allocations_fit(s: &McSettings, own: &[u32; 96]) -> bool
    requires { own.now ≡ own_of s.now }
    ensures { result ≡ allocations_fit s.now }
{
    all_fit(&s.nb_steps, own) && (s.lfe_allocation == 0 || s.header.lfe)
}
