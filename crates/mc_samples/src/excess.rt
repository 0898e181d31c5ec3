// The excesses of group codes, as the record holds them.
ghost use Rattle.std.specs.Prelude.{◌≡◌, ◌<◌};
ghost use Rattle.bitalloc.specs.Classes.{grouped};
ghost use Rattle.requant.specs.Requant.{excess_of as Requant·excess_of};
ghost use Rattle.mc_values.specs.Values.{excesses_from};

// Whether the samples of n steps have group codes.
fn has_groups(n: u32) -> bool
    ensures { result ≡ grouped n }
{
    n != 0 && bitalloc::class_or_zero(n).grouping
}

// The excess of a code of n steps. `0 < n`: a place without samples has 0, and no code.
fn excess_of(n: u32, code: u16) -> u16
    requires { 0 < n }
    ensures { result ≡ Requant·excess_of n code }
{
    requant::degroup(n, u32::from(code)).excess as u16
}

// By place and granule; 0 where a place has no group codes. Both loops count: a place's number gives its part of the table, and with a granule's
// number its code in `granules`, where 289 numbers are a granule's.
pub fn excesses(own: &[u32; 96], granules: &[u16; 3468]) -> [u16; 1152]
    ensures { result ≡ excesses_from own.now granules.now }
{
    let mut table = [0u16; 1152];
    for (i, n) in own.iter().enumerate() {
        if has_groups(*n) {
            for (gr, excess) in table[12 * i..12 * i + 12].iter_mut().enumerate() {
                *excess = excess_of(*n, granules[289 * gr + 1 + 3 * i]);
            }
        }
    }
    table
}
