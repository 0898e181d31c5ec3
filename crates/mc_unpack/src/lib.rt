// Reads a payload string (ISO/IEC 13818-3, 2.5.1.17): allocations, then codes, then raw and LFE values.
#![tactic(auto)]

mod entry;

pub use entry::{McPayload, Unpacked, read_mc_payload, unpack};
