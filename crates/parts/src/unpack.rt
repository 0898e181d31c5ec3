// Unpacking a payload under its head, for other languages. The function for C takes any input.
ghost use Rattle.std.specs.Prelude.{◌≡◌, true};
ghost use Rattle.mc_unpack.specs.Answer.{answered};
ghost use Rattle.part_tables.specs.Payload.{lent_of, buffers_from, after_by, lent_fits, part_of};
ghost use Rattle.part_tables.specs.PayloadCode.{buffers_now, SameSlices, packed_tables};

use bit_reader::BitString;
use mc_error::McError;
use mc_fields::string_fits;
use mc_head::read_head;
use mc_loan::Loan;
use mc_unpack::{Unpacked, unpack};
use part_tables::{Buffers, pack_tables};

// Whether all that is lent is as it has to be (refusal 6).
#[tactic(auto, unfolding(part_tables::specs::Payload::lent_by))]
fn lent_fits(
    head: BitString<'_>,
    payload: BitString<'_>,
    loan: &Loan<'_>,
    buffers: &Buffers<'_>,
) -> bool
    ensures { let l = loan.now in result ≡ lent_fits (lent_of head.entry.bytes.now head.entry.bits payload.entry.bytes.now payload.entry.bits l.reading l.rate l.base_channels l.lfe_allocation l.nb_steps.now l.base_nb_steps.now) (buffers_now buffers.now) }
{
    string_fits(head) && string_fits(payload) && loan.fits() && buffers.fit()
}

// Reads the head, then unpacks the payload under it into the buffers of the record. After a refusal all are as they were.
fn unpack_part(
    head: BitString<'_>,
    payload: BitString<'_>,
    loan: &Loan<'_>,
    buffers: &mut Buffers<'_>,
) -> Result<Unpacked, McError>
    requires { let l = loan.now in lent_fits (lent_of head.bytes.now head.bits payload.bytes.now payload.bits l.reading l.rate l.base_channels l.lfe_allocation l.nb_steps.now l.base_nb_steps.now) (buffers_now buffers.old) ≡ true }
    ensures same_slices { SameSlices buffers.old buffers.new }
    ensures part { let l = loan.now in after_by (packed_tables (answered result)) (buffers_now buffers.new) ≡ part_of (lent_of head.entry.bytes.now head.entry.bits payload.entry.bytes.now payload.entry.bits l.reading l.rate l.base_channels l.lfe_allocation l.nb_steps.now l.base_nb_steps.now) (buffers_now buffers.old) }
{
    let head = read_head(head, loan.reading, loan.base_channels)?;
    let raw = &mut *buffers.raw;
    let unpacked = unpack(
        payload,
        loan,
        head.header,
        head.status,
        raw,
        &mut *buffers.lfe,
    )?;
    buffers.write_tables(&unpacked, &head.status.mc_prediction);
    Ok(unpacked)
}

// The same, and the answer as one number. Apart from the function for C, which tests before: what is unpacked is cleared where it begins, and a wrong
// loan needs none of it.
fn packed_part(
    head: BitString<'_>,
    payload: BitString<'_>,
    loan: &Loan<'_>,
    buffers: &mut Buffers<'_>,
) -> u64
    requires { let l = loan.now in lent_fits (lent_of head.bytes.now head.bits payload.bytes.now payload.bits l.reading l.rate l.base_channels l.lfe_allocation l.nb_steps.now l.base_nb_steps.now) (buffers_now buffers.old) ≡ true }
    ensures same_slices { SameSlices buffers.old buffers.new }
    ensures part { let l = loan.now in after_by result (buffers_now buffers.new) ≡ part_of (lent_of head.entry.bytes.now head.entry.bits payload.entry.bytes.now payload.entry.bits l.reading l.rate l.base_channels l.lfe_allocation l.nb_steps.now l.base_nb_steps.now) (buffers_now buffers.old) }
{
    let unpacked = unpack_part(head, payload, loan, buffers);
    pack_tables(&unpacked)
}

// The answer is one number. C lends what is lent one by one: hence the long list.
#[unsafe(no_mangle)]
pub extern "C" fn mc_part_unpack(
    head: &[u8],
    head_bits: usize,
    payload: &[u8],
    payload_bits: usize,
    reading: u32,
    rate: u32,
    base_channels: u8,
    lfe_allocation: u8,
    nb_steps: &[u32],
    base_nb_steps: &[u32],
    scfsi: &mut [u8],
    delays: &mut [u8],
    coefs: &mut [f64],
    scalefactors: &mut [u8],
    excesses: &mut [u16],
    raw: &mut [f64],
    lfe: &mut [f64],
) -> u64
    ensures { after_by result (buffers_from scfsi.new delays.new coefs.new scalefactors.new excesses.new raw.new lfe.new) ≡ part_of (lent_of head.now head_bits payload.now payload_bits reading rate base_channels lfe_allocation nb_steps.now base_nb_steps.now) (buffers_from scfsi.old delays.old coefs.old scalefactors.old excesses.old raw.old lfe.old) }
{
    let head = BitString {
        bytes: head,
        bits: head_bits,
    };
    let payload = BitString {
        bytes: payload,
        bits: payload_bits,
    };
    let loan = Loan {
        reading,
        rate,
        base_channels,
        lfe_allocation,
        nb_steps,
        base_nb_steps,
    };
    let mut buffers = Buffers {
        scfsi,
        delays,
        coefs,
        scalefactors,
        excesses,
        raw,
        lfe,
    };
    if !lent_fits(head, payload, &loan, &buffers) {
        return McError::InvalidArgument.packed();
    }
    packed_part(head, payload, &loan, &mut buffers)
}
