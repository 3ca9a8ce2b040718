//! The trait of a sink for text.

ghost use Rattle.std.specs.Prelude.{◌≡◌, ◌++◌, ℕ, List, Option, OnOk, OnErr};
ghost use Rattle.std.specs.Option.{option_map};
ghost use Rattle.jx_io.specs.Causes.{HasCause};

use crate::Refused;

/// Where text is said.
pub trait Sink {
    /// The text so far, where it is told.
    ghost said: { Self → Option (List ℕ) };

    /// The faults of `say`. It never falls.
    ghost faults: { Self → ℕ };

    /// Appends the whole text, or is refused and appends nothing. It answers `Failed` exactly where
    /// the count of faults rose in this call (a count of 64 bits that stands still at its end).
    fn say(&mut self, text: &str) -> Result<(), Refused>
        ensures ok { OnOk result (said self.new ≡ option_map (λ t. t ++ text.now) (said self.old)) }
        ensures err { OnErr result (said self.new ≡ said self.old) }
        ensures cause { HasCause (faults self.old) (faults self.new) result };
}
