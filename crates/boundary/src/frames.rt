// The frames.
ghost use Rattle.std.specs.Prelude.{◌≡◌};
ghost use Rattle.boundary.specs.Frames.{empty, three_two, three_one, two_two, one_place, scalefactor_frame, group_code_frame, lfe_frame, longest_frame, phantom_frame, mono_surround, forbidden_frame, layer_three, barred_frame, centre_frame};

use crate::heads::{crossed_head, longest_head, plain_head};
use boundary_run::{Bits, Loan, bytes, first_steps, payload_from, payload_of_ones};

// Nothing transmitted; the base begins with this value.
fn empty(head: Bits, left: f64) -> Loan
    ensures { result ≡ empty head left }
{
    Loan {
        left,
        ..Loan::new(head)
    }
}

// 3/2 here, 3/1 and 2/2 below: each is named, as the lines name it, where a caller would have five numbers of a head.
pub fn three_two(left: f64) -> Loan
    ensures { result ≡ three_two left }
{
    empty(plain_head(1, 2, 3, 0, 0), left)
}

pub fn three_one(left: f64) -> Loan
    ensures { result ≡ three_one left }
{
    empty(plain_head(1, 1, 3, 0, 0), left)
}

pub fn two_two(left: f64) -> Loan
    ensures { result ≡ two_two left }
{
    empty(plain_head(0, 2, 2, 0, 0), left)
}

// 3/2 with this step count in one place; the payload has so many bits, first these and then zeros.
fn one_place(count: u32, start: Bits, payload_bits: usize) -> Loan
    ensures { result ≡ one_place count start payload_bits }
{
    Loan {
        payload: payload_from(&bytes(&start.bits)),
        payload_bits,
        steps: first_steps(1, 1, count),
        ..Loan::new(plain_head(1, 2, 3, 0, 0))
    }
}

// 3/2 with 7 steps in one place, whose last scalefactor is `code`.
pub fn scalefactor(code: u32) -> Loan
    ensures { result ≡ scalefactor_frame code }
{
    let start = Bits::new()
        .field(2, 0) // scfsi: three scalefactors
        .field(6, 0)
        .field(6, 0)
        .field(6, code);
    // 12 granules of three samples of 3 bits
    one_place(7, start, 20 + 12 * 9)
}

// 3/2 with 3 steps in one place, whose first group code is `code`.
pub fn group_code(code: u32) -> Loan
    ensures { result ≡ group_code_frame code }
{
    let start = Bits::new()
        .field(2, 0) // scfsi: three scalefactors
        .fields(3, 6, 0)
        .field(5, code);
    // 12 granules of one code of 5 bits
    one_place(3, start, 20 + 12 * 5)
}

// 3/2 with an LFE allocation of 1 (2 bits to a sample) and this LFE scalefactor.
pub fn lfe_scalefactor(code: u32) -> Loan
    ensures { result ≡ lfe_frame code }
{
    let start = Bits::new().field(6, code);
    Loan {
        payload: payload_from(&bytes(&start.bits)),
        payload_bits: 6 + 12 * 2,
        lfe_allocation: 1,
        ..Loan::new(plain_head(1, 2, 3, 1, 0))
    }
}

// Every field at its longest: 65,535 steps in all 30 subbands of three channels.
pub fn longest(head_bits: usize, payload_bits: usize) -> Loan
    ensures { result ≡ longest_frame head_bits payload_bits }
{
    Loan {
        head_bits,
        payload_bits,
        lfe_allocation: 15,
        steps: first_steps(3, 30, 65535),
        ..Loan::new(longest_head())
    }
}

// Mono base, phantom centre, second stereo, under a reading; 7 steps in the first subbands of second left. Each has an scfsi code and three
// scalefactors, 20 bits that are 0, and samples of 108 bits, which are 1 from the first whole byte on.
pub fn phantom(subbands: u8, reading: u32) -> Loan
    ensures { result ≡ phantom_frame subbands reading }
{
    let n = usize::from(subbands);
    Loan {
        reading,
        base_channels: 1,
        payload: payload_of_ones((20 * n + 7) / 8, 16 * n),
        payload_bits: 128 * n,
        steps: first_steps(1, n, 7),
        ..Loan::new(plain_head(3, 3, 0, 0, 0))
    }
}

// Mono base, no centre, stereo surround.
pub fn mono_surround() -> Loan
    ensures { result ≡ mono_surround }
{
    Loan {
        base_channels: 1,
        ..Loan::new(plain_head(0, 2, 0, 0, 0))
    }
}

// 3/2 with a crosstalk code in group 5.
pub fn forbidden(code: u32) -> Loan
    ensures { result ≡ forbidden_frame code }
{
    Loan::new(crossed_head(5, code, 6))
}

// 3/2 with the Layer III flag.
pub fn layer_three() -> Loan
    ensures { result ≡ layer_three }
{
    Loan::new(plain_head(1, 2, 3, 0, 1))
}

// 3/2 with a phantom centre and a step count in its subband 12.
pub fn barred() -> Loan
    ensures { result ≡ barred_frame }
{
    Loan {
        steps: first_steps(1, 13, 7),
        ..Loan::new(plain_head(3, 2, 3, 0, 0))
    }
}

// A centre code without surround, under a reading; nothing transmitted, the base begins with this value.
pub fn centre_code(code: u32, reading: u32, left: f64) -> Loan
    ensures { result ≡ centre_frame code reading left }
{
    Loan {
        reading,
        left,
        ..Loan::new(plain_head(code, 0, 0, 0, 0))
    }
}
