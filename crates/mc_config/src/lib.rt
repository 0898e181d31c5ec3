// What a header of the multichannel extension decides: channels and layout (ISO/IEC 13818-3, 2.5.2.13); and the readings of the transfer guide.
#![tactic(auto)]

mod config;
mod layout;
mod reading;

pub use layout::{
    CENTRE, LEFT, LEFT_SURROUND, MONO_SURROUND, RIGHT, RIGHT_SURROUND, SECOND_LEFT, SECOND_RIGHT,
};
pub use reading::{centre_stops, phantom_of, reading_fits};

// The fields of mc_header() as read: centre code 2, which the standard leaves undefined, is kept. Codes stay the numbers of their bits, since
// a header may hold any, and the settings that callers lend and the exported bytes hold them so.
#[derive(Clone, Copy)]
pub struct McHeader {
    pub ext_bit_stream_present: bool,
    pub n_ad_bytes: u8,
    pub centre: u8,
    pub surround: u8,
    pub lfe: bool,
    pub audio_mix: bool,
    pub dematrix_procedure: u8,
    pub no_of_multi_lingual_ch: u8,
    pub multi_lingual_fs_half: bool,
    pub multi_lingual_layer3: bool,
    pub copyright_identification_bit: bool,
    pub copyright_identification_start: bool,
}

// What follows from centre, surround and the number of base channels; nmch counts the channels of the extension.
#[derive(Clone, Copy)]
pub struct McConfig {
    pub front: u8,
    pub surround: u8,
    pub second_stereo: bool,
    pub nmch: usize,
    pub tc_allocation_bits: usize,
    pub dyn_cross_bits: usize,
    pub phantom_centre: bool,
}
