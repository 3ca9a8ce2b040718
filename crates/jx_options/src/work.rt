//! How the work is done, of which the written file doesn't depend.

ghost use Rattle.std.specs.Prelude.{◌≡◌};
ghost use Rattle.jx_options.specs.Work.{default_work};

use std::marker::Model;

/// How the work is done.
#[derive(Clone, Copy, Debug)]
pub struct Work {
    /// How many workers recode blocks, 1 to 64; 0 for as many as the system has free.
    pub threads: u32,
    /// How many blocks may stand between claim and sequence, 1 to 1,024.
    pub window: u32,
    /// How many bytes the pieces of several such blocks may have together, 1 to 2^32 - 1.
    pub most: u32,
}

impl Model for Work {
    ghost use Rattle.jx_options.specs.Work.{Work};

    ghost Value = { Work };

    ghost view = { λ w. record { threads = w.threads; window = w.window; most = w.most } };

    ghost inverse = { λ w. record { threads = w.threads; window = w.window; most = w.most } };
}

impl Work {
    /// How it is done where no option is among the words.
    pub fn by_default() -> Work
        ensures { result ≡ default_work }
    {
        Work {
            threads: 0,
            window: 64,
            most: 268_435_456,
        }
    }
}
