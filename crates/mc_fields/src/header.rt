// mc_header() (ISO/IEC 13818-3, 2.5.1.13).
ghost use Rattle.std.specs.Prelude.{◌≡◌};
ghost use Rattle.bit_reader.specs.Reads.{Reads};
ghost use Rattle.mc_fields.specs.Head.{bits_if, mc_header};

use bit_reader::BitReader;
use mc_config::McHeader;
use mc_error::McError;

// The bits of a field that is there only where the test holds.
pub fn bits_if(there: bool, n: usize) -> usize
    ensures { result ≡ bits_if there n }
{
    if there { n } else { 0 }
}

pub fn read_mc_header(reader: &mut BitReader<'_>) -> Result<McHeader, McError>
    ensures { Reads reader.old mc_header result reader.new }
{
    let ext_bit_stream_present = reader.read(1)? == 1;
    let n_ad_bytes = reader.read(bits_if(ext_bit_stream_present, 8))? as u8;
    let centre = reader.read(2)? as u8;
    let surround = reader.read(2)? as u8;
    let lfe = reader.read(1)? == 1;
    let audio_mix = reader.read(1)? == 1;
    let dematrix_procedure = reader.read(2)? as u8;
    let no_of_multi_lingual_ch = reader.read(3)? as u8;
    let multi_lingual_fs_half = reader.read(1)? == 1;
    let multi_lingual_layer3 = reader.read(1)? == 1;
    let copyright_identification_bit = reader.read(1)? == 1;
    let copyright_identification_start = reader.read(1)? == 1;
    Ok(McHeader {
        ext_bit_stream_present,
        n_ad_bytes,
        centre,
        surround,
        lfe,
        audio_mix,
        dematrix_procedure,
        no_of_multi_lingual_ch,
        multi_lingual_fs_half,
        multi_lingual_layer3,
        copyright_identification_bit,
        copyright_identification_start,
    })
}
