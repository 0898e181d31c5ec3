// What a line says of an answer.
ghost use Rattle.std.specs.Prelude.{Some};
ghost use Rattle.boundary_run.specs.Told.{told_of};

use mc_error::McError;
use mc_state::Accepted;
use std::fmt;

#[derive(Clone, Copy)]
pub struct Told(pub Result<Accepted, McError>);

impl fmt::Display for Told {
    ghost output = { λ told. Some (told_of told.0) };

    fn fmt<W: fmt::Write>(&self, f: &mut fmt::Formatter<W>) -> fmt::Result {
        match self.0 {
            Ok(
                Accepted {
                    head_bits,
                    payload_bits,
                    excess_codes,
                },
            ) => write!(
                f,
                "accepted, {head_bits} head bits, {payload_bits} payload bits, {excess_codes} excess codes"
            ),
            Err(e) => write!(
                f,
                "refusal {}, group {}, code {}",
                e.number(),
                e.group(),
                e.code()
            ),
        }
    }
}
