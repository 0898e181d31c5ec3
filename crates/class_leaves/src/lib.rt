// The columns of a class for other languages. Each function takes any number of steps: of one that is no class's, it
// answers 0, and a float answer is +0. The C interface has a function for each column.
#![tactic(auto)]

ghost use Rattle.std.specs.Prelude.{◌≡◌};
ghost use Rattle.bitalloc.specs.Classes.{c_of, d_of, bits_per_sample, bits_per_codeword};
ghost use Rattle.class_leaves.specs.Grouping.{grouping_leaf};

use bitalloc::class_or_zero;

#[unsafe(no_mangle)]
pub extern "C" fn mc_leaf_class_bits_per_sample(nb_steps: u32) -> u32
    ensures { result ≡ bits_per_sample nb_steps }
{
    class_or_zero(nb_steps).bits_per_sample
}

#[unsafe(no_mangle)]
pub extern "C" fn mc_leaf_class_bits_per_codeword(nb_steps: u32) -> u32
    ensures { result ≡ bits_per_codeword nb_steps }
{
    class_or_zero(nb_steps).bits_per_codeword
}

#[unsafe(no_mangle)]
pub extern "C" fn mc_leaf_class_grouping(nb_steps: u32) -> u32
    ensures { result ≡ grouping_leaf nb_steps }
{
    u32::from(class_or_zero(nb_steps).grouping)
}

#[unsafe(no_mangle)]
pub extern "C" fn mc_leaf_class_c(nb_steps: u32) -> f64
    ensures { result ≡ c_of nb_steps }
{
    class_or_zero(nb_steps).c
}

#[unsafe(no_mangle)]
pub extern "C" fn mc_leaf_class_d(nb_steps: u32) -> f64
    ensures { result ≡ d_of nb_steps }
{
    class_or_zero(nb_steps).d
}
