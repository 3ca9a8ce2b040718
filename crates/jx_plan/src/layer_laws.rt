//! Laws over the layers that a rule gives code-blocks: that passes are put into layers in one way, that layers that are kept are those
//! of the input, and which blocks may be asked for a style. They run no code.

ghost use Rattle.std.specs.Prelude.{◌≡◌, ◌≤◌, ◌<◌, ℕ, List, length, map, true, false, Option, Some, None, slice_get};
ghost use Rattle.std.specs.Option.{option_map};
ghost use Rattle.std.specs.List.{All};
ghost use Rattle.jx_base.specs.declared.pieces.Block.{Block};
ghost use Rattle.jx_base.specs.declared.style.Style.{Style};
ghost use Rattle.jx_base.specs.Pieces.{PieceValue};
ghost use Rattle.jx_base.specs.Sound.{IsSound};
ghost use Rattle.jx_codeblock.specs.declared.LayerEnd.{LayerEnd};
ghost use Rattle.jx_codeblock.specs.declared.job.Job.{Job};
ghost use Rattle.jx_codeblock.specs.Jobs.{IsAsked, KeepsCausal};
ghost use Rattle.jx_codeblock.specs.Recoding.{layer_ends};
ghost use Rattle.jx_codeblock.specs.Laws.{asked_at};
ghost use Rattle.jx_codeblock.specs.Written.{block_asked, style_for, written_in};
ghost use Rattle.jx_plan.specs.Causal.{breaks_plane, first_broken};
ghost use Rattle.jx_layers.specs.Rule.{Rule};
ghost use Rattle.jx_layers.specs.Rule.Rule.{Keep};
ghost use Rattle.jx_codestream.specs.declared.Stream.{Stream};
ghost use Rattle.jx_codestream.specs.First.{tile_number};
ghost use Rattle.jx_codestream.specs.Shapes.{layers_of};
ghost use Rattle.jx_plan.specs.Facts.{IsReached, most_layers, most_planes};
ghost use Rattle.jx_plan.specs.Crowded.{IsLowestCrowded, IsLowestCrowdedBlock};
ghost use Rattle.jx_plan.specs.Layers.{AreJobs, IsJobOf, ends_of, written_by};

/// What is asked of a block is determined: by a rule, all blocks and the block's number there is one list of layers. They
/// are layers that are written.
pub fn jobs_are_determined()
    ensures one { (style : Option Style) (rule : Rule) (layers : ℕ) (blocks : List Block) (number : ℕ) (b : Block) (job other : Job)
        → IsJobOf style rule layers blocks number b job → IsJobOf style rule layers blocks number b other → job.ends ≡ other.ends }
    ensures written { (style : Option Style) (rule : Rule) (layers : ℕ) (blocks : List Block) (number : ℕ) (b : Block) (job : Job) → 1 ≤ layers
        → IsJobOf style rule layers blocks number b job → All (λ (e : LayerEnd). e.layer < layers) job.ends }
{}

/// What is asked of a sound block may be asked of it, where the style doesn't change its causal bit within a plane.
pub fn jobs_may_be_asked()
    ensures { (style : Option Style) (rule : Rule) (layers : ℕ) (blocks : List Block) (number : ℕ) (b : Block) (job : Job) → IsSound b
        → breaks_plane style b ≡ false → IsJobOf style rule layers blocks number b job → IsAsked job.block.now job.style job.ends }
{}

/// The choice of a style is in the way of just those blocks that may not be asked for it; where it isn't, it is in the way of none.
pub fn breaks_are_told()
    ensures kept { (style : Option Style) (b : Block) → breaks_plane style b ≡ false → KeepsCausal b (style_for style b) }
    ensures broken { (style : Option Style) (b : Block) → breaks_plane style b ≡ true → KeepsCausal b (style_for style b) → ⊥ }
    ensures none { (style : Option Style) (blocks : List Block) → first_broken style blocks ≡ None → All (λ (b : Block). breaks_plane style b ≡ false) blocks }
{}

/// Layers that are kept are those in which a sound block's pieces lie, where there are as many.
pub fn kept_layers_stay()
    ensures { (style : Option Style) (layers : ℕ) (blocks : List Block) (number : ℕ) (b : Block) (job : Job) → 1 ≤ layers → IsSound b
        → All (λ (p : PieceValue). p.layer < layers) b.pieces → IsJobOf style Keep layers blocks number b job → job.ends ≡ layer_ends b.pieces }
{}

/// The number of layers that a planner is told is that of some tile, and no tile has more; no block has more planes than the
/// planner is told.
pub fn facts_are_greatest()
    ensures layers { (s : Stream) (t : ℕ) → t < tile_number s.siz → layers_of s t ≤ most_layers s }
    ensures reached { (s : Stream) → 1 ≤ tile_number s.siz → IsReached (layers_of s) 0 (tile_number s.siz) (most_layers s) }
    ensures planes { (blocks : List Block) (n : ℕ) (b : Block) → slice_get blocks n ≡ Some b → b.planes ≤ most_planes blocks }
{}

/// The layers of what is asked of a block are those that the rule gives it: each layer in which some of its passes lie, with the passes that
/// are sent by its end. They are layers that are written; they may be asked of a sound block, where the style doesn't change its causal bit
/// within a plane; and the rule that keeps gives a block the layers in which its pieces lie.
pub fn jobs_have_these_ends()
    ensures ends { (style : Option Style) (rule : Rule) (layers : ℕ) (blocks : List Block) (number : ℕ) (b : Block) (job : Job) → 1 ≤ layers
        → IsJobOf style rule layers blocks number b job → job.ends ≡ ends_of rule layers blocks number b }
    ensures asked { (style : Option Style) (rule : Rule) (layers : ℕ) (blocks : List Block) (number : ℕ) (b : Block) → 1 ≤ layers → IsSound b
        → breaks_plane style b ≡ false → IsAsked b (style_for style b) (ends_of rule layers blocks number b) }
    ensures written { (rule : Rule) (layers : ℕ) (blocks : List Block) (number : ℕ) (b : Block) → 1 ≤ layers
        → All (λ (e : LayerEnd). e.layer < layers) (ends_of rule layers blocks number b) }
    ensures kept { (layers : ℕ) (blocks : List Block) (number : ℕ) (b : Block) → 1 ≤ layers → IsSound b
        → All (λ (p : PieceValue). p.layer < layers) b.pieces → ends_of Keep layers blocks number b ≡ layer_ends b.pieces }
{}

/// The blocks as they are written stand under their numbers, each in the layers that the rule gives it; they are what the jobs ask for.
pub fn blocks_are_written()
    ensures count { (style : Option Style) (rule : Rule) (layers : ℕ) (blocks : List Block) → length (written_by style rule layers blocks) ≡ length blocks }
    ensures each { (style : Option Style) (rule : Rule) (layers : ℕ) (blocks : List Block) (n : ℕ)
        → slice_get (written_by style rule layers blocks) n ≡ option_map (λ (b : Block). written_in style (ends_of rule layers blocks n b) b) (slice_get blocks n) }
    ensures jobs { (style : Option Style) (rule : Rule) (layers : ℕ) (blocks : List Block) (jobs : List Job) → 1 ≤ layers → AreJobs style rule layers blocks jobs
        → map block_asked jobs ≡ written_by style rule layers blocks }
{}

/// The lowest crowded one of all jobs is the lowest crowded block, by its number; of a rule and blocks there is one answer.
pub fn crowds_are_told()
    ensures jobs { (style : Option Style) (rule : Rule) (layers : ℕ) (blocks : List Block) (jobs : List Job) (lowest : Option ℕ) → 1 ≤ layers → AreJobs style rule layers blocks jobs
        → IsLowestCrowded jobs lowest → IsLowestCrowdedBlock rule layers blocks lowest }
    ensures some { (rule : Rule) (layers : ℕ) (blocks : List Block) → (lowest : Option ℕ) × IsLowestCrowdedBlock rule layers blocks lowest }
    ensures one { (rule : Rule) (layers : ℕ) (blocks : List Block) (a b : Option ℕ) → IsLowestCrowdedBlock rule layers blocks a → IsLowestCrowdedBlock rule layers blocks b → a ≡ b }
    ensures few { (rule : Rule) (layers : ℕ) (blocks : List Block) (n : ℕ) (b : Block) (layer : ℕ) → IsLowestCrowdedBlock rule layers blocks None → slice_get blocks n ≡ Some b
        → asked_at layer 0 (ends_of rule layers blocks n b) ≤ 164 }
{}
