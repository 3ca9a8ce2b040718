//! The file that is made on a device, as a writer of bytes.

ghost use Rattle.std.specs.Prelude.{◌≡◌, IsTrue, OnOk};
ghost use Rattle.jx_io.specs.Causes.{HasCause};
ghost use Rattle.jx_rounds.specs.FileBytes.{Device, bytes_of, told_beside};
ghost use Rattle.jx_rounds.specs.Taken.{SomeFront, followed_by};

use crate::writer::ByteWriter;
use jx_io::{Files, Refused};

/// A device on which a file was created takes bytes at the end of that file.
impl<F: Files> ByteWriter for F {
    ghost Kept = { Device };

    ghost kept = { λ f. record { told = told_beside (F.meaning f); read_faults = F.read_faults f } };

    ghost can_write = { λ d. IsTrue d.told.making };

    ghost written = { λ f. bytes_of (F.meaning f) };

    ghost faults = { λ f. F.write_faults f };

    fn is_blind(&self) -> bool {
        false
    }

    fn write(&mut self, bytes: &[u8]) -> Result<(), Refused> {
        write_all(self, bytes)
    }
}

/// Writes all of these bytes to the file that is made; after an error, a front of them.
fn write_all<F: Files>(files: &mut F, bytes: &[u8]) -> Result<(), Refused>
    requires { IsTrue (F.meaning files.old).making }
    ensures ok { OnOk result (bytes_of (F.meaning files.new) ≡ followed_by bytes.now (bytes_of (F.meaning files.old))) }
    ensures front { SomeFront (bytes_of (F.meaning files.old)) (bytes_of (F.meaning files.new)) bytes.now }
    ensures cause { HasCause (F.write_faults files.old) (F.write_faults files.new) result }
    ensures told { told_beside (F.meaning files.new) ≡ told_beside (F.meaning files.old) }
    ensures other { F.read_faults files.new ≡ F.read_faults files.old }
{
    let mut rest = bytes;
    while !rest.is_empty() {
        let count = files.write(rest)?;
        rest = &rest[count..];
    }
    Ok(())
}
