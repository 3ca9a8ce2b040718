//! Laws of tapes, over the definitions alone.

ghost use Rattle.std.specs.Prelude.{◌≡◌, List, map};
ghost use Rattle.jx_codeblock.specs.Recoded.{WrittenBlock};
ghost use Rattle.jx_codeblock.specs.declared.job.Job.{Job};
ghost use Rattle.jx_store.specs.declared.event.Taped.{Taped};
ghost use Rattle.jx_store.specs.declared.work.Named.{Named};
ghost use Rattle.jx_workers.specs.Tapes.{IsTapeOf};

/// Two tapes of the same jobs say the same of each, whatever the workers, the windows and the order of
/// their commits were.
#[tactic(auto, using(crate::proofs::TapeLemmas::one_tape))]
pub fn tapes_say_the_same()
    ensures { (jobs : List Job) → (a : List (Taped (Named WrittenBlock))) → (b : List (Taped (Named WrittenBlock))) → IsTapeOf jobs a → IsTapeOf jobs b →
        map (λ (t : Taped (Named WrittenBlock)). t.named) a ≡ map (λ (t : Taped (Named WrittenBlock)). t.named) b }
{}
