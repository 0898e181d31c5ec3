// The unpacking call: all is decided on what is lent and not written, and only then are the buffers written.
ghost use Rattle.std.specs.Prelude.{◌≡◌, ◌≤◌, ◌&&◌, length, IfErr};
ghost use Rattle.mc_error.specs.Error.{refusal_of};
ghost use Rattle.mc_fields.specs.Lent.{string_fits};
ghost use Rattle.mc_payload.specs.Record.{raw_of, lfe_of, excesses_of, excess_codes};
ghost use Rattle.mc_payload.specs.Unpack.{loan_fits};
ghost use Rattle.mc_loan.specs.Lent.{loan_with};
ghost use Rattle.mc_codes.specs.Outcome.{codes_of, outcome_of};
ghost use Rattle.mc_places.specs.PlacesBy.{places_of};
ghost use Rattle.mc_unpack.specs.Answer.{after_of, room_fits, unpack_call};
ghost use Rattle.mc_unpack.specs.Settled.{settled_of, Numbered};
ghost use Rattle.mc_unpack.specs.Writable.{Writable};

use bit_reader::BitString;
use mc_allocations::allocations_fit;
use mc_codes::{PayloadCodes, read_payload};
use mc_config::McHeader;
use mc_error::McError;
use mc_fields::{LfeAllocation, McStatus};
use mc_loan::Loan;
use mc_payload::McSettings;
use mc_places::{Places, places_of};
use mc_samples::{excesses, write_lfe, write_raw};

// A payload as decided: the places that it was read for, and its codes.
#[derive(Clone, Copy, Default)]
pub struct McPayload {
    pub places: Places,
    pub codes: PayloadCodes,
}

impl McPayload {
    // Writes the raw and LFE values of a payload that was read under s. Answers how many of its group codes have an excess.
    pub fn write_samples(&self, s: &McSettings, raw: &mut [f64; 3456], lfe: &mut [f64; 12]) -> u32
        requires { (self.now.places ≡ places_of s.now) × (s.now.lfe_allocation ≤ 15) × Writable s.now (codes_of self.now.codes) }
        ensures { (raw.new ≡ raw_of s.now (codes_of self.now.codes)) × (lfe.new ≡ lfe_of s.now.lfe_allocation (codes_of self.now.codes)) × (result ≡ excess_codes (excesses_of s.now (codes_of self.now.codes))) }
    {
        let codes = &self.codes;
        // Made here and in `read_mc_payload`: McSettings holds any number, as lent, and each of the two public functions requires that it fits.
        let allocation = LfeAllocation {
            value: s.lfe_allocation,
        };
        write_lfe(allocation, codes.lf_scalefactor, &codes.granules, lfe);
        write_raw(&self.places.own, &codes.granules, raw)
    }
}

// The allocations are tested, then the payload is read into `payload`, for the reason that `read_payload` names.
pub fn read_mc_payload(
    string: BitString<'_>,
    s: &McSettings,
    payload: &mut McPayload,
) -> Result<(), McError>
    requires { s.now.lfe_allocation ≤ 15 }
    ensures settled { outcome_of result payload.new.codes ≡ settled_of s.now string.entry.bytes.now string.entry.bits }
    ensures places { payload.new.places ≡ places_of s.now }
{
    let places = places_of(s);
    payload.places = places;
    if !allocations_fit(s, &places.own) {
        return Err(McError::InvalidAllocation);
    }
    read_payload(
        string,
        s.header.multi_lingual_layer3,
        LfeAllocation {
            value: s.lfe_allocation,
        },
        &s.status.mc_prediction,
        &places.steps,
        &places.own,
        &mut payload.codes,
    )
}

// Whether all that is lent is as it has to be.
fn lent_fits(string: BitString<'_>, loan: &Loan<'_>, raw: &[f64], lfe: &[f64]) -> bool
    ensures { let l = loan.now in result ≡ (room_fits (length raw.now) (length lfe.now) && (string_fits string.entry.bytes.now string.entry.bits && loan_fits l.reading l.rate l.base_channels l.lfe_allocation l.nb_steps.now l.base_nb_steps.now)) }
{
    raw.len() == 3456 && lfe.len() == 12 && mc_fields::string_fits(string) && loan.fits()
}

// The bits that a payload uses, how many of its group codes have an excess, and the tables of the record. Delays and coefficients are
// made of `predictors` by `delays` and `coefs`, which return arrays of arrays outside any struct, as the project asks of them (docs/PROOFS.md, "Forms
// by place"). The codes of granules, 6,936 bytes, are left out: hence not `PayloadCodes` itself.
#[derive(Clone, Copy)]
pub struct Unpacked {
    pub payload_bits: usize,
    pub excess_codes: u32,
    pub scfsi: [u8; 96],
    pub predictors: [u8; 192],
    pub lf_scalefactor: u8,
    pub scalefactors: [u8; 288],
    // what group codes hold beyond their digits, by place and granule at 12 * place + granule
    pub excesses: [u16; 1152],
}

// Unpacks the payload in a string into `raw` and `lfe`. Both are as they were after any refusal. Header and status, here and in
// `Loan::settings`, are not lent as McHead: it has the check word and the bits used too, which unpacking does not look at, and would ask
// more of callers.
pub fn unpack(
    string: BitString<'_>,
    loan: &Loan<'_>,
    header: McHeader,
    status: McStatus,
    raw: &mut [f64],
    lfe: &mut [f64],
) -> Result<Unpacked, McError>
    ensures after { after_of result raw.new lfe.new ≡ unpack_call (loan_with loan.now header status) string.entry.bytes.now string.entry.bits raw.old lfe.old }
    ensures numbered { IfErr result (λ e. Numbered (refusal_of e).number) }
{
    if !lent_fits(string, loan, raw, lfe) {
        return Err(McError::InvalidArgument);
    }
    let s = loan.settings(header, status);
    let mut payload = McPayload::default();
    read_mc_payload(string, &s, &mut payload)?;
    let raw = raw.as_mut_array().unwrap();
    let excess_codes = payload.write_samples(&s, raw, lfe.as_mut_array().unwrap());
    let codes = &payload.codes;
    Ok(Unpacked {
        payload_bits: codes.bits,
        excess_codes,
        scfsi: codes.scfsi,
        predictors: codes.predictors,
        lf_scalefactor: codes.lf_scalefactor,
        scalefactors: codes.scalefactors,
        excesses: excesses(&payload.places.own, &codes.granules),
    })
}
