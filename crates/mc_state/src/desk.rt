// The desks' tallies.
ghost use Rattle.std.specs.Prelude.{◌≡◌, ◌≤◌};
ghost use Rattle.mc_state.specs.Desk.{tallied as Desk·tallied};

// The tallies after one more accepted frame of a desk.
pub fn tallied(mut accepted: [u32; 8], desk: u32) -> [u32; 8]
    requires { desk ≤ 7 }
    ensures { result ≡ Desk·tallied desk accepted }
{
    let at = desk as usize;
    accepted[at] = accepted[at].saturating_add(1);
    accepted
}
