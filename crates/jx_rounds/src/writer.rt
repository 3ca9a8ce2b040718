//! Where the bytes of a codestream go.

ghost use Rattle.std.specs.Prelude.{◌≡◌, ℕ, true, List, Option, None, OnOk};
ghost use Rattle.jx_io.specs.Causes.{HasCause};
ghost use Rattle.jx_rounds.specs.Taken.{SomeFront, followed_by};

use jx_io::Refused;

/// What takes bytes, one after another: a file that was created, a buffer in memory, or what lets them go.
///
/// `write` answers `Failed` exactly where the count of faults rose in that call (a count of 64 bits that stands still at its end). It
/// changes nothing but the bytes and the faults, so what may be written to once may be written to after every call.
pub trait ByteWriter {
    /// What else there is, which no call changes.
    ghost Kept: { Type 0 };

    ghost kept: { Self → Kept };

    /// The writers that may be written to.
    ghost can_write: { Kept → Type 0 };

    /// The bytes written so far, where they are told.
    ghost written: { Self → Option (List ℕ) };

    /// The faults so far. It never falls.
    ghost faults: { Self → ℕ };

    /// Whether bytes are let go, so that none need be written.
    fn is_blind(&self) -> bool
        ensures { result ≡ true → written self.now ≡ None };

    /// Writes all of these bytes, or is refused after a front of them.
    fn write(&mut self, bytes: &[u8]) -> Result<(), Refused>
        requires { can_write (kept self.old) }
        ensures ok { OnOk result (written self.new ≡ followed_by bytes.now (written self.old)) }
        ensures front { SomeFront (written self.old) (written self.new) bytes.now }
        ensures cause { HasCause (faults self.old) (faults self.new) result }
        ensures other { kept self.new ≡ kept self.old };
}
