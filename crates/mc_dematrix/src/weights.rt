// Inverse weighting (ISO/IEC 13818-3, 2.5.3.2.5).
ghost use Rattle.std.specs.Prelude.{◌≡◌, cond, eqb};
ghost use Rattle.floats.specs.Binary64.{◌⊗◌};
ghost use Rattle.mc_dematrix.specs.Dematrix.{root2, two, denorm};

const ROOT2: f64 = 1.4142135623730951;

// Of a procedure: what undoes the encoder's attenuation, and that of a surround channel.
#[derive(Clone, Copy)]
pub(crate) struct Weights {
    denorm: f64,
    surround: f64,
}

impl Weights {
    #[tactic(auto, unfolding(crate::specs::Dematrix::denorm))]
    pub(crate) fn of(procedure: u8) -> Weights
        ensures { (result.denorm ≡ denorm procedure) × (result.surround ≡ cond (eqb procedure 1) two root2) }
    {
        if procedure == 1 {
            Weights {
                denorm: 1.5 + 0.5 * ROOT2,
                surround: 2.0,
            }
        } else {
            Weights {
                denorm: 1.0 + ROOT2,
                surround: ROOT2,
            }
        }
    }

    pub(crate) fn front(self, x: f64) -> f64
        ensures { result ≡ x ⊗ self.denorm }
    {
        x * self.denorm
    }

    pub(crate) fn centre(self, x: f64) -> f64
        ensures { result ≡ x ⊗ root2 ⊗ self.denorm }
    {
        x * ROOT2 * self.denorm
    }

    pub(crate) fn surround(self, x: f64) -> f64
        ensures { result ≡ x ⊗ self.surround ⊗ self.denorm }
    {
        x * self.surround * self.denorm
    }
}
