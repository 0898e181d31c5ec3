// The tables of a record in lent buffers.
ghost use Rattle.std.specs.Prelude.{◌≡◌, length, Ok};
ghost use Rattle.mc_unpack.specs.Answer.{answered};
ghost use Rattle.mc_values.specs.Values.{delays_from, coefs_from};
ghost use Rattle.part_tables.specs.Payload.{room_fits, flat_delays, flat_coefs};
ghost use Rattle.part_tables.specs.PayloadCode.{buffers_now, SameSlices, tables_after, packed_tables};

use mc_error::McError;
use mc_unpack::Unpacked;

// The buffers of a record.
#[derive(Drop)]
pub struct Buffers<'a> {
    pub scfsi: &'a mut [u8],
    pub delays: &'a mut [u8],
    pub coefs: &'a mut [f64],
    pub scalefactors: &'a mut [u8],
    pub excesses: &'a mut [u16],
    pub raw: &'a mut [f64],
    pub lfe: &'a mut [f64],
}

// The delays of all predictors, by group. By place, as the definitions of these tables go: coefficients by `as_flattened` would take it twice, and a
// promise would take the places apart again.
fn flat_delays(codes: &[u8; 192]) -> [u8; 48]
    ensures { result ≡ flat_delays (delays_from codes.now) }
{
    let delays = mc_values::delays(codes);
    std::array::from_fn(|k| delays[k / 6][k % 6])
}

// Their coefficients.
fn flat_coefs(predsi: &[u8; 56], codes: &[u8; 192]) -> [f64; 144]
    ensures { result ≡ flat_coefs (coefs_from predsi.now codes.now) }
{
    let coefs = mc_values::coefs(predsi, codes);
    std::array::from_fn(|k| coefs[k / 18][k / 3 % 6][k % 3])
}

impl Buffers<'_> {
    // Whether each is as long as what it is for.
    pub fn fit(&self) -> bool
        ensures { let w = buffers_now self.now in result ≡ room_fits (length w.scfsi) (length w.delays) (length w.coefs) (length w.scalefactors) (length w.excesses) (length w.raw) (length w.lfe) }
    {
        self.scfsi.len() == 96
            && self.delays.len() == 48
            && self.coefs.len() == 144
            && self.scalefactors.len() == 288
            && self.excesses.len() == 1152
            && self.raw.len() == 3456
            && self.lfe.len() == 12
    }

    // Writes the tables of an accepted payload.
    pub fn write_tables(&mut self, u: &Unpacked, predsi: &[u8; 56])
        requires { let w = buffers_now self.old in (length w.scfsi ≡ 96) × (length w.delays ≡ 48) × (length w.coefs ≡ 144) × (length w.scalefactors ≡ 288) × (length w.excesses ≡ 1152) }
        ensures same_slices { SameSlices self.old self.new }
        ensures tables { buffers_now self.new ≡ tables_after predsi.now (answered (Ok u.now)) (buffers_now self.old) }
    {
        self.scfsi.copy_from_slice(&u.scfsi);
        self.delays.copy_from_slice(&flat_delays(&u.predictors));
        self.coefs
            .copy_from_slice(&flat_coefs(predsi, &u.predictors));
        self.scalefactors.copy_from_slice(&u.scalefactors);
        self.excesses.copy_from_slice(&u.excesses);
    }
}

// An accepted payload's answer as one number. It has a function of its own: of fields that a match binds behind a reference a proof has no ranges.
fn pack_accepted(u: &Unpacked) -> u64
    ensures { result ≡ packed_tables (answered (Ok u.now)) }
{
    (u.payload_bits % 16777216) as u64 * 256
        + u64::from(u.lf_scalefactor) * 4294967296
        + u64::from(u.excess_codes % 16777216) * 1099511627776
}

// The answer as one number. No `From`: neither `Result` nor `u64` is this crate's.
pub fn pack_tables(unpacked: &Result<Unpacked, McError>) -> u64
    ensures { result ≡ packed_tables (answered unpacked.now) }
{
    match unpacked {
        Ok(u) => pack_accepted(u),
        Err(e) => e.packed(),
    }
}
