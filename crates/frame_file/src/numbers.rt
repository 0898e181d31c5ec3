// The numbers that open a frame.
ghost use Rattle.std.specs.Prelude.{◌≡◌, ◌≤◌};
ghost use Rattle.frame_file.specs.File.{numbers_from, numbers_of};

use crate::opening::Version;
use encoding::{u8_at, u32_at};

// As they stand in the file, right or wrong, since a fault tells them; lengths are in bytes.
#[derive(Clone, Copy)]
pub struct Numbers {
    // 1: head and payload
    pub call: u8,
    // 1 where the state is carried before the frame, else 0
    pub carried: u8,
    pub reading: u32,
    pub desk: u32,
    pub rate: u32,
    pub base_channels: u8,
    pub lfe_allocation: u8,
    pub head_bytes: u32,
    pub head_bits: u32,
    pub payload_bytes: u32,
    pub payload_bits: u32,
}

// The numbers of both versions, from the byte `at` on, after those of the second.
fn numbers_from(call: u8, carried: u8, reading: u32, desk: u32, bytes: &[u8], at: usize) -> Numbers
    requires { at ≤ 10 }
    ensures { result ≡ numbers_from call carried reading desk bytes.now at }
{
    Numbers {
        call,
        carried,
        reading,
        desk,
        rate: u32_at(bytes, at),
        base_channels: u8_at(bytes, at + 4),
        lfe_allocation: u8_at(bytes, at + 5),
        head_bytes: u32_at(bytes, at + 6),
        head_bits: u32_at(bytes, at + 10),
        payload_bytes: u32_at(bytes, at + 14),
        payload_bits: u32_at(bytes, at + 18),
    }
}

pub fn numbers_of(version: Version, bytes: &[u8]) -> Numbers
    ensures { result ≡ numbers_of version bytes.now }
{
    match version {
        Version::First => numbers_from(1, 0, 1, 0, bytes, 0),
        Version::Second => numbers_from(
            u8_at(bytes, 0),
            u8_at(bytes, 1),
            u32_at(bytes, 2),
            u32_at(bytes, 6),
            bytes,
            10,
        ),
    }
}
