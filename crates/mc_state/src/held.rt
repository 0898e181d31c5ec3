// What a state holds of the layout.
ghost use Rattle.std.specs.Prelude.{◌≡◌, length, eqb};
ghost use Rattle.mc_config.specs.Config.{surround_of, front_channels, surround_channels};
ghost use Rattle.mc_state.specs.Held.{channels_by, is_layout, held_fits, follows_by, layout_after};

use crate::McDecodeState;

// Front channels of a layout.
fn front_count(front: u8) -> u8
    ensures { result ≡ length (front_channels front) }
{
    match front {
        1 => 1,
        3 => 3,
        _ => 2,
    }
}

// Channels beyond the front, by the surround code.
fn surround_count(surround: u8) -> u8
    ensures { result ≡ length (surround_channels (surround_of surround) (eqb surround 3)) }
{
    match surround {
        2 | 3 => 2,
        1 => 1,
        _ => 0,
    }
}

// Output channels of a layout, by its front and surround code.
pub fn channel_count(front: u8, surround: u8) -> u8
    ensures { result ≡ length (channels_by front surround) }
{
    front_count(front) + surround_count(surround)
}

// A layout that some header gives, by number.
fn is_layout(layout: u8) -> bool
    ensures { result ≡ is_layout layout }
{
    10 <= layout && layout <= 33 && layout % 10 <= 3
}

// A number of output channels, and their layout, 10 * front + surround code: those of a frame; or those that a state holds, which is 0 channels
// before the first frame, and layout 0 where only the number is known. Numbers and no `Option`, since C has them as fields of the state.
#[derive(Clone, Copy, PartialEq, Eq)]
pub struct HeldLayout {
    pub count: u8,
    pub layout: u8,
}

impl HeldLayout {
    // A count of at most five, and no layout or one of that count.
    pub fn fits(self) -> bool
        ensures { result ≡ held_fits self.count self.layout }
    {
        let (front, surround) = (self.layout / 10, self.layout % 10);
        self.count <= 5
            && (self.layout == 0
                || is_layout(self.layout) && self.count == channel_count(front, surround))
    }

    // Whether a frame of these channels may follow where `held` is held.
    pub fn follows(self, held: HeldLayout, reading: u32) -> bool
        ensures { result ≡ follows_by reading held.count held.layout self.count self.layout }
    {
        if reading == 2 && held.layout != 0 {
            held.count == 0 || held.layout == self.layout
        } else {
            held.count == 0 || held.count == self.count
        }
    }

    // What is held after an accepted frame of the channels `own`.
    pub fn after(self, own: HeldLayout, reading: u32) -> HeldLayout
        ensures { (result.count ≡ own.count) × (result.layout ≡ layout_after reading self.layout own.layout) }
    {
        let layout = if reading == 2 {
            own.layout
        } else {
            self.layout
        };
        HeldLayout {
            count: own.count,
            layout,
        }
    }
}

impl McDecodeState {
    pub fn held(&self) -> HeldLayout
        ensures { (result.count ≡ self.now.layout_len) × (result.layout ≡ self.now.layout) }
    {
        HeldLayout {
            count: self.layout_len,
            layout: self.layout,
        }
    }
}
