// The values of a frame, drawn from its seed.
ghost use Rattle.std.specs.Prelude.{◌≡◌, length};
ghost use Rattle.replay_list.specs.Values.{drawn, drawn_to, fraction_of, magnitude_of, value_of, values_after, wild_of, with_wild};

// The number that is drawn after x: xorshift64.
#[tactic(auto, unfolding(crate::specs::Values::drawn))]
pub fn draw(x: u64) -> u64
    ensures { result ≡ drawn x }
{
    let a = x ^ (x << 13);
    let b = a ^ (a >> 7);
    b ^ (b << 17)
}

// The number after n draws.
pub fn draw_on(x: u64, n: usize) -> u64
    ensures { result ≡ drawn_to n x }
{
    (0..n).fold(x, |next, _| draw(next))
}

pub fn fraction(k: u32) -> f64
    ensures { result ≡ fraction_of k }
{
    f64::from(k) / 1048576.0
}

#[tactic(auto, unfolding(crate::specs::Values::magnitude_of))]
fn magnitude(x: u64) -> u32
    ensures { result ≡ magnitude_of x }
{
    match x % 16 {
        0 => 0,
        1 => 4194304,
        _ => (x / 256 % 4194305) as u32,
    }
}

// The value of a drawn number.
#[tactic(auto, unfolding(crate::specs::Values::value_of))]
pub fn value_of(x: u64) -> f64
    ensures { result ≡ value_of x }
{
    let value = fraction(magnitude(x));
    if x / 16 % 2 == 1 { -value } else { value }
}

// Fills dst with the values that are drawn after the first `before`. Each is drawn from the one before it, so a function of its index would draw all again.
pub fn fill_values(dst: &mut [f64], seed: u64, before: usize)
    ensures { dst.new ≡ values_after seed before (length dst.old) }
{
    let mut x = draw_on(seed, before);
    for value in dst {
        x = draw(x);
        *value = value_of(x);
    }
}

// A value that no frame may have. The kind is a byte of the opening, of which each is allowed: hence no enum.
#[tactic(auto, unfolding(crate::specs::Values::wild_of))]
pub fn wild_value(kind: u8) -> f64
    ensures { result ≡ wild_of kind }
{
    match kind {
        1 => fraction(4194305),
        2 => -fraction(4194305),
        3 => f64::INFINITY,
        4 => f64::NEG_INFINITY,
        _ => f64::NAN,
    }
}

// Puts the wild value at its place, where dst, which starts at the place `first`, has it. Kind 0 is none, as the byte of an opening has it.
#[tactic(auto, unfolding(crate::specs::Values::with_wild))]
pub fn put_wild(dst: &mut [f64], first: usize, kind: u8, place: usize)
    ensures { dst.new ≡ with_wild first kind place dst.old }
{
    if kind != 0 && first <= place && place - first < dst.len() {
        dst[place - first] = wild_value(kind);
    }
}
