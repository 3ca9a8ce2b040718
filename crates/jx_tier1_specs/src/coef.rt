//! A quantized coefficient, as far as it was decoded.

ghost use Rattle.std.specs.Prelude.{◌≡◌};
ghost use Rattle.jx_tier1_specs.specs.Cells.{significant};

/// A quantized coefficient, as far as it was decoded (T.800 D.1).
#[derive(Clone, Copy, Debug, PartialEq, Eq)]
pub struct Coef {
    /// Whether it is below 0. False where all its bits are 0.
    pub negative: bool,
    /// Its magnitude in whole coded planes: a plane that wasn't decided counts 0.
    pub bits: u128,
    /// In how many coded planes, from the highest on, its bit was decided.
    pub planes: u8,
}

impl Coef {
    /// Whether one of its bits is 1 (T.800 D.3).
    pub fn is_significant(self) -> bool
        ensures { result ≡ significant self }
    {
        self.bits != 0
    }
}
