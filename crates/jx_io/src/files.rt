//! The trait of a device with files.

ghost use Rattle.std.specs.Prelude.{◌≡◌, ◌≢◌, ◌≤◌, ◌<◌, ℕ, List, Some, None, length, take, IfOk, OnOk, OnErr, IfSome, IsTrue};
ghost use Rattle.jx_io.specs.Causes.{HasCause};
ghost use Rattle.jx_io.specs.Device.{Meaning, Takes, after_open, after_read, after_create, after_write, after_finish, Allows};

use crate::Refused;

/// A device with files, of which one is read and one is made at a time.
///
/// Every call is refused with `Failed` exactly where its own count of faults rose in that call (a
/// count of 64 bits that stands still at its end), and leaves the other count as it was. A refused
/// call leaves all else as before. What a call may be asked for, it may be asked for after every
/// other call.
pub trait Files {
    /// What the device holds, reads and makes, as far as it is told.
    ghost meaning: { Self → Meaning };

    /// The faults of `open` and `read`. It never falls.
    ghost read_faults: { Self → ℕ };

    /// The faults of `create`, `write` and `finish`. It never falls.
    ghost write_faults: { Self → ℕ };

    /// The names that `open` may be asked for.
    ghost can_open: { Self → List ℕ → Type 0 };

    /// The names that `create` may be asked for.
    ghost can_create: { Self → List ℕ → Type 0 };

    /// Opens the file of this name to be read from its front. A name that isn't there is a failure.
    fn open(&mut self, name: &str) -> Result<(), Refused>
        requires { can_open self.old name.now }
        ensures ok { OnOk result (meaning self.new ≡ after_open name.now (meaning self.old)) }
        ensures there { OnOk result ((meaning self.old).holds name.now ≢ Some None) }
        ensures err { OnErr result (meaning self.new ≡ meaning self.old) }
        ensures opens { Allows (can_open self.old) (can_open self.new) }
        ensures creates { Allows (can_create self.old) (can_create self.new) }
        ensures cause { HasCause (read_faults self.old) (read_faults self.new) result }
        ensures other { write_faults self.new ≡ write_faults self.old };

    /// Takes the next bytes of the file that is read, at most as many as fit, and gives their
    /// number: 0 only where nothing fits or nothing is left.
    fn read(&mut self, into: &mut [u8]) -> Result<usize, Refused>
        requires { IsTrue (meaning self.old).reading }
        ensures ok { IfOk result (λ n. meaning self.new ≡ after_read n (meaning self.old)) }
        ensures room { IfOk result (λ n. n ≤ length into.new) }
        ensures takes { IfOk result (λ n. IfSome (meaning self.old).left (λ left. Takes left n (length into.new) into.new)) }
        ensures err { OnErr result (meaning self.new ≡ meaning self.old) }
        ensures opens { Allows (can_open self.old) (can_open self.new) }
        ensures creates { Allows (can_create self.old) (can_create self.new) }
        ensures cause { HasCause (read_faults self.old) (read_faults self.new) result }
        ensures other { write_faults self.new ≡ write_faults self.old };

    /// How many bytes the file that is read may have in all, where the device can tell without
    /// reading. Nothing is promised of it: it is for taking room at once, and may be wrong.
    fn length_hint(&self) -> Option<u64> {
        None
    }

    /// Makes a file of this name, with no bytes yet.
    fn create(&mut self, name: &str) -> Result<(), Refused>
        requires { can_create self.old name.now }
        ensures ok { OnOk result (meaning self.new ≡ after_create name.now (meaning self.old)) }
        ensures err { OnErr result (meaning self.new ≡ meaning self.old) }
        ensures opens { Allows (can_open self.old) (can_open self.new) }
        ensures creates { Allows (can_create self.old) (can_create self.new) }
        ensures cause { HasCause (write_faults self.old) (write_faults self.new) result }
        ensures other { read_faults self.new ≡ read_faults self.old };

    /// Appends the first of these bytes to the file that is made, and gives their number: at least
    /// one where there is one. A device that takes nothing of them is a failure.
    fn write(&mut self, from: &[u8]) -> Result<usize, Refused>
        requires { IsTrue (meaning self.old).making }
        ensures ok { IfOk result (λ n. meaning self.new ≡ after_write (take n from.now) (meaning self.old)) }
        ensures room { IfOk result (λ n. n ≤ length from.now) }
        ensures some { IfOk result (λ n. 0 < length from.now → 0 < n) }
        ensures err { OnErr result (meaning self.new ≡ meaning self.old) }
        ensures opens { Allows (can_open self.old) (can_open self.new) }
        ensures creates { Allows (can_create self.old) (can_create self.new) }
        ensures cause { HasCause (write_faults self.old) (write_faults self.new) result }
        ensures other { read_faults self.new ≡ read_faults self.old };

    /// Ends the file that is made, which is then found under its name.
    fn finish(&mut self) -> Result<(), Refused>
        requires { IsTrue (meaning self.old).making }
        ensures ok { OnOk result (meaning self.new ≡ after_finish (meaning self.old)) }
        ensures err { OnErr result (meaning self.new ≡ meaning self.old) }
        ensures opens { Allows (can_open self.old) (can_open self.new) }
        ensures creates { Allows (can_create self.old) (can_create self.new) }
        ensures cause { HasCause (write_faults self.old) (write_faults self.new) result }
        ensures other { read_faults self.new ≡ read_faults self.old };
}
