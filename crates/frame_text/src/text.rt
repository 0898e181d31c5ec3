// Names of channels.
ghost use Rattle.std.specs.Prelude.{◌≡◌};
ghost use Rattle.frame_text.specs.Text.{name_of};

// The name of an output channel. A function and no `Display`: a `&'static str` serves as it is.
pub fn name_of(channel: u8) -> &'static str
    ensures { result.now ≡ name_of channel }
{
    match channel {
        mc_config::LEFT => "L",
        mc_config::RIGHT => "R",
        mc_config::CENTRE => "C",
        mc_config::LEFT_SURROUND => "LS",
        mc_config::RIGHT_SURROUND => "RS",
        mc_config::MONO_SURROUND => "S",
        mc_config::SECOND_LEFT => "L2",
        _ => "R2",
    }
}
