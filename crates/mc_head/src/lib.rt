// Reads a head string: mc_header(), the check word, and mc_composite_status_info() (ISO/IEC 13818-3, 2.5.1.13 to 2.5.1.15).
#![tactic(auto)]

ghost use Rattle.std.specs.Prelude.{◌≡◌};
ghost use Rattle.mc_head.specs.Answer.{outcome_of};
ghost use Rattle.mc_fields.specs.Lent.{head_fits, head_of};

use bit_reader::{BitReader, BitString};
use mc_config::{McConfig, McHeader, centre_stops, reading_fits};
use mc_error::McError;
use mc_fields::{McStatus, base_fits, read_mc_header, string_fits};
use mc_status::read_status;

// A head, and the bits that it uses.
#[derive(Clone, Copy)]
pub struct McHead {
    pub header: McHeader,
    pub check_word: u16,
    pub status: McStatus,
    pub used: usize,
}

// A reading that there is, a string that fits, and one or two base channels.
#[tactic(auto, unfolding(mc_fields::specs::Lent::head_fits))]
fn head_fits(string: BitString<'_>, reading: u32, base_channels: u8) -> bool
    ensures { result ≡ head_fits reading string.entry.bytes.now string.entry.bits base_channels }
{
    reading_fits(reading) && string_fits(string) && base_fits(base_channels)
}

// Reads the head in a string. A wrong loan is refused before any bit is read, a centre code after the header, and a forbidden
// crosstalk code after the last bit. Reading and base channels stand beside the string, which a payload is lent as too, without them.
pub fn read_head(string: BitString<'_>, reading: u32, base_channels: u8) -> Result<McHead, McError>
    ensures { outcome_of result ≡ head_of reading string.entry.bytes.now string.entry.bits base_channels }
{
    if !head_fits(string, reading, base_channels) {
        return Err(McError::InvalidArgument);
    }
    let mut reader = BitReader::new(string, 0);
    let header = read_mc_header(&mut reader)?;
    if centre_stops(reading, header.centre) {
        return Err(McError::UndefinedCentre);
    }
    let check_word = reader.read(16)? as u16;
    let status = read_status(&mut reader, McConfig::from_header(header, base_channels))?;
    Ok(McHead {
        header,
        check_word,
        status,
        used: reader.at,
    })
}
