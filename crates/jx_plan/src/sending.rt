//! The layers of a code-block's passes, put together pass by pass.

ghost use Rattle.std.specs.Prelude.{◌≡◌, ◌+◌, ◌<◌, ℕ, OnOk, IfOk};
ghost use Rattle.jx_codeblock.specs.Jobs.{AreEnds};
ghost use Rattle.jx_plan.specs.Layers.{Divide, greatest_to};
ghost use Rattle.jx_plan.specs.Sent.{AreSent};

use jx_base::NoMemory;
use jx_codeblock::{Ends, LayerEnd};
use std::alloc::Global;

/// The passes of a block up to one.
#[derive(Drop)]
pub(crate) struct Sending {
    /// The layers that are complete.
    pub(crate) ends: Ends,
    /// The layer of the last pass.
    pub(crate) last: u16,
    /// How many passes there are so far.
    pub(crate) passes: u16,
}

impl Sending {
    /// No pass. It takes no memory.
    pub(crate) fn new(alloc: Global) -> Sending
        ensures sent { (g : ℕ → ℕ) → AreSent g result.passes result.last result.ends }
        ensures passes { result.passes ≡ 0 }
    {
        Sending {
            ends: Ends::new(alloc),
            last: 0,
            passes: 0,
        }
    }

    /// One pass more, for which a layer was answered: it lies in the greatest that was answered so far.
    #[tactic(auto, using(crate::proofs::SentLemmas::sent_first, crate::proofs::SentLemmas::sent_same, crate::proofs::SentLemmas::sent_next))]
    pub(crate) fn put(&mut self, layer: u16) -> Result<(), NoMemory>
        requires { self.old.passes < 65535 }
        ensures passes { OnOk result (self.new.passes ≡ self.old.passes + 1) }
        ensures sent { OnOk result ((g : ℕ → ℕ) → AreSent g self.old.passes self.old.last self.old.ends → layer ≡ g self.old.passes
            → AreSent g self.new.passes self.new.last self.new.ends) }
    {
        if self.passes == 0 {
            self.last = layer;
            self.passes = 1;
            return Ok(());
        }
        if layer <= self.last {
            self.passes += 1;
            return Ok(());
        }
        self.ends.push(LayerEnd {
            layer: self.last,
            passes: self.passes,
        })?;
        self.last = layer;
        self.passes += 1;
        Ok(())
    }

    /// The layers of all passes.
    #[tactic(auto, using(crate::proofs::SentLemmas::sent_none, crate::proofs::SentLemmas::sent_all))]
    pub(crate) fn finish(self) -> Result<Ends, NoMemory>
        ensures ends { IfOk result (λ ends. (g : ℕ → ℕ) → AreSent g self.passes self.last self.ends → AreEnds 0 0 self.passes ends × Divide (greatest_to g) 0 ends) }
    {
        let mut ends = self.ends;
        if self.passes == 0 {
            return Ok(ends);
        }
        ends.push(LayerEnd {
            layer: self.last,
            passes: self.passes,
        })?;
        Ok(ends)
    }
}
