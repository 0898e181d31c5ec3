// Reading a head, and unpacking a payload under it, for other languages. The functions take any input.
#![tactic(auto)]

ghost use Rattle.std.specs.Prelude.{◌≡◌, ◌<◌, length};
ghost use Rattle.fill.specs.Tab.{tab};
ghost use Rattle.part_tables.specs.Parts.{flag, first_bytes, byte_of, head_byte, head_for, packed_head, bytes_after};

use bit_reader::BitString;
use mc_error::McError;
use mc_fields::McStatus;
use mc_head::{McHead, read_head};

mod unpack;

// The bytes of a head's fields.
pub const HEAD_BYTES: usize = 110;

// The fields before tc_allocation.
fn first_bytes(head: &McHead) -> [u8; 17]
    ensures { result ≡ first_bytes head.now.header head.now.check_word head.now.status }
{
    let header = head.header;
    let word = head.check_word;
    let status = &head.status;
    [
        u8::from(header.ext_bit_stream_present),
        header.n_ad_bytes,
        header.centre,
        header.surround,
        u8::from(header.lfe),
        u8::from(header.audio_mix),
        header.dematrix_procedure,
        header.no_of_multi_lingual_ch,
        u8::from(header.multi_lingual_fs_half),
        u8::from(header.multi_lingual_layer3),
        u8::from(header.copyright_identification_bit),
        u8::from(header.copyright_identification_start),
        // as the definition has them; of `to_be_bytes` the first is word / 256 % 256
        (word / 256) as u8,
        (word % 256) as u8,
        u8::from(status.tc_sbgr_select),
        u8::from(status.dyn_cross_on),
        u8::from(status.mc_prediction_on),
    ]
}

// Byte k of a head's fields.
fn byte_of(first: &[u8; 17], status: &McStatus, k: usize) -> u8
    requires { k < 110 }
    ensures { let s = status.now in result ≡ byte_of first.now s.tc_allocation (flag s.dyn_cross_lr) s.dyn_cross s.mc_prediction k }
{
    match k {
        0..17 => first[k],
        17..29 => status.tc_allocation[k - 17],
        29 => u8::from(status.dyn_cross_lr),
        30..54 => status.dyn_cross[k - 30],
        _ => status.mc_prediction[k - 54],
    }
}

// A head's fields.
fn head_bytes(head: &McHead) -> [u8; HEAD_BYTES]
    ensures { let h = head.now in result ≡ tab (head_byte h.header h.check_word h.status) 110 }
{
    let first = first_bytes(head);
    let status = &head.status;
    std::array::from_fn(|k| byte_of(&first, status, k))
}

// Reads the head in the first `bits` bits and writes its fields; nothing after a refusal. The answer is one number. C lends what
// is read one by one.
#[unsafe(no_mangle)]
pub extern "C" fn mc_part_head(
    bytes: &[u8],
    bits: usize,
    reading: u32,
    base_channels: u8,
    out: &mut [u8],
) -> u64
    ensures { (result ≡ packed_head (head_for reading bytes.now bits base_channels (length out.old))) × (out.new ≡ bytes_after (head_for reading bytes.now bits base_channels (length out.old)) out.old) }
{
    if out.len() != HEAD_BYTES {
        return McError::InvalidArgument.packed();
    }
    match read_head(BitString { bytes, bits }, reading, base_channels) {
        Ok(head) => {
            out.copy_from_slice(&head_bytes(&head));
            (head.used % 16777216) as u64 * 256
        }
        Err(e) => e.packed(),
    }
}
