//! A writer that lets all bytes go.

ghost use Rattle.std.specs.Prelude.{None, ⊤};

use crate::writer::ByteWriter;
use jx_io::Refused;

/// Takes bytes and keeps none, where just their number is asked.
#[derive(Drop)]
pub struct BlindWriter;

impl ByteWriter for BlindWriter {
    ghost Kept = { Unit {0} };

    ghost kept = { λ _. tt };

    ghost can_write = { λ _. ⊤ };

    ghost written = { λ _. None };

    ghost faults = { λ _. 0 };

    fn is_blind(&self) -> bool {
        true
    }

    fn write(&mut self, _bytes: &[u8]) -> Result<(), Refused> {
        Ok(())
    }
}
