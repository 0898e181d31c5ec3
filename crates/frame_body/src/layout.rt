// The output channels that a head names.
ghost use Rattle.std.specs.Prelude.{◌≡◌};
ghost use Rattle.mc_fields.specs.Lent.{head_of};
ghost use Rattle.frame_body.specs.Lent.{layout_for};

use mc_config::McConfig;
use mc_head::read_head;
use mc_state::BitString;

// The output channels of a head; none of a refused one.
pub fn layout_of(head: BitString<'_>, reading: u32, base_channels: u8) -> &'static [u8]
    ensures { result.now ≡ layout_for (head_of reading head.entry.bytes.now head.entry.bits base_channels) base_channels }
{
    match read_head(head, reading, base_channels) {
        Ok(head) => McConfig::from_header(head.header, base_channels).layout(),
        Err(_) => &[],
    }
}
