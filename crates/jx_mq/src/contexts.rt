ghost use Rattle.std.specs.Prelude.{◌≡◌, ◌/◌, ◌<◌, ℕ, All, slice_index_or};
ghost use Rattle.jx_coder_specs.specs.MqTable.{MqContexts, mq_fresh, mq_row_of, mq_mps, mq_adapted};
ghost use Rattle.jx_mq.specs.States.{contexts_of, row_in, symbol_in, IsNarrowed};

use crate::table::state_after;
use std::marker::Model;

/// The adaptive state of the 19 labels: each label's row in the table of estimates, and its more
/// probable symbol (Annex C.2.5), as 2 * row + symbol.
#[derive(Drop)]
pub struct Contexts {
    states: [u8; 19],
}

impl Model for Contexts {
    ghost Value = { MqContexts };

    ghost view = { λ x. contexts_of x.states };

    ghost invariant = { λ x. All (λ s. s < 94) x.states };
}

impl Contexts {
    /// The contexts at the start of a block, or after a reset (Annex D, Table D.7).
    pub fn new() -> Contexts
        ensures { result ≡ mq_fresh }
    {
        let mut states = [0; 19];
        states[0] = 8;
        states[17] = 6;
        states[18] = 92;
        Contexts { states }
    }

    /// The state of a label, which is below 19.
    #[inline(always)]
    pub(crate) fn state(&self, label: u8) -> u8
        requires { label < 19 }
        ensures row { row_in result ≡ slice_index_or self.now.rows label 0 }
        ensures symbol { symbol_in result ≡ mq_mps self.now label }
        ensures known { result < 94 }
    {
        self.states[label as usize]
    }

    /// Moves a label, whose state is given, after a decision that is the more probable symbol, or
    /// isn't. A is the part's width before its shifts, in the upper half of 32 bits.
    #[inline(always)]
    pub(crate) fn adapt(&mut self, label: u8, state: u8, a: u32, is_mps: bool)
        requires label { label < 19 }
        requires row { row_in state ≡ slice_index_or self.old.rows label 0 }
        requires symbol { symbol_in state ≡ mq_mps self.old label }
        requires known { state < 94 }
        ensures { (before : ℕ) → IsNarrowed before (mq_row_of self.old label).qe (a / 65536) is_mps → self.new ≡ mq_adapted before self.old label is_mps }
    {
        self.states[label as usize] = state_after(state, a, is_mps);
    }
}
