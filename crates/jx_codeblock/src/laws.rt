//! Laws on what becomes of a block, over the definitions alone.

ghost use Rattle.std.specs.Prelude.{◌≡◌, ◌≢◌, ◌≤◌, ◌<◌, ℕ, true, false, List, [], All, length, Option, Some, None};
ghost use Rattle.jx_base.specs.declared.pieces.Block.{Block};
ghost use Rattle.jx_base.specs.declared.style.Style.{Style};
ghost use Rattle.jx_base.specs.Passes.{bypasses};
ghost use Rattle.jx_base.specs.Pieces.{ArePieces, PieceValue, bytes_in, passes_at};
ghost use Rattle.jx_base.specs.Sound.{IsSound};
ghost use Rattle.jx_codeblock.specs.declared.LayerEnd.{LayerEnd};
ghost use Rattle.jx_codeblock.specs.Jobs.{IsAsked, KeepsCausal};
ghost use Rattle.jx_codeblock.specs.Laws.{AreCutAtEnds, AreCutInLayers, IsWithin, KeepsFirst, asked_at, decoded_first};
ghost use Rattle.jx_codeblock.specs.FirstLayers.{HasFirstLayers};
ghost use Rattle.jx_codeblock.specs.Recoded.{is_bad, recoding_in};
ghost use Rattle.jx_codeblock.specs.declared.job.Job.{Job};
ghost use Rattle.jx_codeblock.specs.Recoding.{Recoding, decoded_in, layer_ends, new_segments, own_segments, recoded_pieces, recoding, wrong_in};
ghost use Rattle.jx_codeblock.specs.Segments.{segments_of};
ghost use Rattle.jx_codeblock.specs.Written.{block_with, is_wrong, own_cells, style_for, written_as, written_in};
ghost use Rattle.jx_base.specs.Limits.{most_bytes};

/// A sound block may be kept in the layers that it has.
#[tactic(auto, using(crate::proofs::LawLemmas::own_asked))]
pub fn own_layers_may_be_asked()
    ensures { (b : Block) → IsSound b → IsAsked b None (layer_ends b.pieces) }
{}

/// A block that is kept in the layers that it has, and whose pieces are cut in each layer as packets cut
/// them, has its own pieces.
#[tactic(auto, using(crate::proofs::LawLemmas::kept_pieces))]
pub fn kept_is_kept()
    ensures { (b : Block) → (r : Recoding) → IsSound b → AreCutAtEnds b.style.bits b.pieces →
        Some r ≡ recoding b None (layer_ends b.pieces) → recoded_pieces r ≡ b.pieces }
{}

/// Each part of a kept block lies within the block's bytes.
#[tactic(auto, using(crate::proofs::LawLemmas::kept_within))]
pub fn parts_lie_in_the_bytes()
    ensures { (b : Block) → (ends : List LayerEnd) → (r : Recoding) → IsAsked b None ends → Some r ≡ recoding b None ends →
        All (IsWithin (length r.bytes)) r.parts }
{}

/// Where in each layer the passes are cut exactly after each pass that ends a segment, a piece that is
/// followed by one of its own layer ends a segment.
#[tactic(auto, using(crate::proofs::CutLemmas::cut_in_layers))]
pub fn cut_in_layers_is_cut_at_ends()
    ensures { (style : ℕ) → (passes : ℕ) → (pieces : List PieceValue) → ArePieces style 0 0 passes pieces → AreCutInLayers style pieces →
        AreCutAtEnds style pieces }
{}

/// The parts of a kept block are again pieces of a sound block with its passes, in the layers that were
/// asked: each pass is in one of them, none crosses the end of a segment, and no marker stands in their
/// bytes.
#[tactic(auto, using(crate::proofs::SoundLemmas::kept_sound))]
pub fn kept_is_sound()
    ensures { (b : Block) → (ends : List LayerEnd) → (r : Recoding) → IsAsked b None ends → Some r ≡ recoding b None ends →
        ArePieces b.style.bits 0 0 b.passes (recoded_pieces r) }
{}

/// A kept block has its own segments, whatever the layers.
#[tactic(auto, using(crate::proofs::RegroupLemmas::kept_segments))]
pub fn kept_has_its_segments()
    ensures { (b : Block) → (ends : List LayerEnd) → (r : Recoding) → IsAsked b None ends → Some r ≡ recoding b None ends →
        segments_of b.style.bits b.passes (recoded_pieces r) ≡ own_segments b }
{}

/// Each part of a block that is coded anew lies within the new bytes.
pub fn new_parts_lie_in_the_bytes()
    ensures { (b : Block) → (style : Style) → (ends : List LayerEnd) → (r : Recoding) → IsAsked b (Some style) ends →
        Some r ≡ recoding b (Some style) ends → All (IsWithin (length r.bytes)) r.parts }
{}

/// The parts of a block that is coded anew are pieces of a sound block with its passes, in the style and
/// the layers that were asked.
#[tactic(auto, using(crate::proofs::AnewParts::anew_sound))]
pub fn coded_anew_is_sound()
    ensures { (b : Block) → (style : Style) → (ends : List LayerEnd) → (r : Recoding) → IsAsked b (Some style) ends →
        Some r ≡ recoding b (Some style) ends → ArePieces style.bits 0 0 b.passes (recoded_pieces r) }
{}

/// A block that is coded anew has the segments of its coefficients in the style that was asked, whatever
/// the layers.
#[tactic(auto, using(crate::proofs::AnewLemmas::new_are, crate::proofs::AnewParts::anew_segments))]
pub fn coded_anew_has_new_segments()
    ensures { (b : Block) → (style : Style) → (ends : List LayerEnd) → (r : Recoding) → IsAsked b (Some style) ends →
        Some r ≡ recoding b (Some style) ends → Some (segments_of style.bits b.passes (recoded_pieces r)) ≡ new_segments b (Some style) }
{}

/// A block that is coded anew keeps its coefficients: its new segments decode to what its own decode to,
/// place by place, with the same passes and zero planes, and each segmentation symbol is right. The same
/// holds of the first passes, where the causal bit stays or these are whole planes of whole planes.
pub fn coded_anew_keeps_coefficients()
    ensures cells { (b : Block) → (style : Style) → (ends : List LayerEnd) → (r : Recoding) → IsAsked b (Some style) ends →
        Some r ≡ recoding b (Some style) ends →
        (decoded_in b style.bits (segments_of style.bits b.passes (recoded_pieces r))).cells ≡ (decoded_in b b.style.bits (own_segments b)).cells }
    ensures right { (b : Block) → (style : Style) → (ends : List LayerEnd) → (r : Recoding) → IsAsked b (Some style) ends →
        Some r ≡ recoding b (Some style) ends →
        (decoded_in b style.bits (segments_of style.bits b.passes (recoded_pieces r))).wrong ≡ None }
    ensures first { (b : Block) → (style : Style) → (ends : List LayerEnd) → (r : Recoding) → (first : ℕ) → IsAsked b (Some style) ends →
        Some r ≡ recoding b (Some style) ends → first ≤ b.passes → KeepsFirst b style first →
        (decoded_first b style.bits (segments_of style.bits b.passes (recoded_pieces r)) first).cells ≡ (decoded_first b b.style.bits (own_segments b) first).cells }
{
    jx_tier1_specs::laws::written_is_read_back();
    jx_tier1_specs::laws::decoded_fits();
    jx_tier1_specs::laws::recoding_keeps_coefficients();
    jx_tier1_specs::laws::recoding_keeps_whole_planes();
}

/// Nothing is made of a block exactly where it is to be coded anew and one of its segmentation symbols is
/// wrong; a block that keeps its segments isn't decoded for them.
pub fn nothing_of_wrong_symbols()
    ensures kept { (b : Block) → (ends : List LayerEnd) → recoding b None ends ≢ None }
    ensures right { (b : Block) → (style : Style) → (ends : List LayerEnd) → wrong_in b ≡ None → recoding b (Some style) ends ≢ None }
    ensures wrong { (b : Block) → (style : Style) → (ends : List LayerEnd) → wrong_in b ≢ None → recoding b (Some style) ends ≡ None }
{}

/// A block that is coded anew has at most 2^32 - 1 bytes, as each block of a file.
pub fn new_bytes_are_few()
    ensures { (b : Block) → (style : Style) → (ends : List LayerEnd) → (r : Recoding) → IsAsked b (Some style) ends →
        Some r ≡ recoding b (Some style) ends → length r.bytes ≤ most_bytes }
{}

/// With the bypass the pieces of one of at most 37 coding passes, as 13 planes have, have at most 309,123 bytes: 19 passes go through
/// the arithmetic coder, with six shifts for a decision, the others are raw (ITU-T T.800, D.6).
pub fn new_bytes_with_bypass()
    ensures { (b : Block) → (style : Style) → (ends : List LayerEnd) → (r : Recoding) → IsAsked b (Some style) ends →
        Some r ≡ recoding b (Some style) ends → bypasses style.bits ≡ true → b.passes ≤ 37 → bytes_in (recoded_pieces r) ≤ 309123 }
{}

/// A job is bad exactly where nothing can be made of it.
pub fn bad_is_nothing()
    ensures bad { (j : Job) → is_bad j ≡ true → recoding_in j ≡ None }
    ensures nothing { (j : Job) → recoding_in j ≡ None → is_bad j ≡ true }
{}

/// What is made of a block has the block's coefficients, place by place, with its passes and zero planes, in whatever style and layers.
pub fn written_keeps_coefficients()
    ensures asked { (b : Block) → (style : Option Style) → (ends : List LayerEnd) → (r : Recoding) → IsAsked b style ends →
        Some r ≡ recoding b style ends → own_cells (block_with b (Some r)) ≡ own_cells b }
    ensures own { (asked : Option Style) → (b : Block) → IsSound b → KeepsCausal b (style_for asked b) → own_cells (written_as asked b) ≡ own_cells b }
{
    coded_anew_keeps_coefficients();
}

/// It is a sound block, of which just so many passes are sent by the end of each layer as were asked, cut in each layer exactly after
/// each pass that ends a segment, as packets cut them (B.10.7); it has pieces exactly where the block has passes.
pub fn written_is_sound()
    ensures sound { (b : Block) → (style : Option Style) → (ends : List LayerEnd) → (r : Recoding) → IsAsked b style ends →
        Some r ≡ recoding b style ends → IsSound (block_with b (Some r)) }
    ensures cuts { (b : Block) → (style : Option Style) → (ends : List LayerEnd) → (r : Recoding) → IsAsked b style ends →
        Some r ≡ recoding b style ends → AreCutInLayers r.style (recoded_pieces r) }
    ensures layers { (b : Block) → (style : Option Style) → (ends : List LayerEnd) → (r : Recoding) → IsAsked b style ends →
        Some r ≡ recoding b style ends → layer_ends (recoded_pieces r) ≡ ends }
    ensures passes { (b : Block) → (style : Option Style) → (ends : List LayerEnd) → (r : Recoding) → (layer : ℕ) → IsAsked b style ends →
        Some r ≡ recoding b style ends → layer_ends b.pieces ≡ ends → passes_at layer (recoded_pieces r) ≡ passes_at layer b.pieces }
{}

/// In its own layers a sound block becomes one with the style that is asked, of which just the pieces are others; without a style, or
/// with its own, it stays as it is, where its pieces are cut as packets cut them.
pub fn written_in_own_layers()
    ensures sound { (asked : Option Style) → (b : Block) → IsSound b → KeepsCausal b (style_for asked b) → IsSound (written_as asked b) }
    ensures name { (asked : Option Style) → (b : Block) → (written_as asked b).name ≡ b.name }
    ensures rect { (asked : Option Style) → (b : Block) → (written_as asked b).rect ≡ b.rect }
    ensures planes { (asked : Option Style) → (b : Block) → (written_as asked b).planes ≡ b.planes }
    ensures zero { (asked : Option Style) → (b : Block) → (written_as asked b).zero ≡ b.zero }
    ensures passes { (asked : Option Style) → (b : Block) → (written_as asked b).passes ≡ b.passes }
    ensures style { (asked : Style) → (b : Block) → is_wrong (Some asked) b ≡ false → (written_as (Some asked) b).style ≡ asked }
    ensures kept { (b : Block) → IsSound b → AreCutInLayers b.style.bits b.pieces → written_as None b ≡ b }
    ensures same { (b : Block) → IsSound b → AreCutInLayers b.style.bits b.pieces → written_as (Some b.style) b ≡ b }
    ensures empty { (asked : Option Style) → (b : Block) → IsSound b → KeepsCausal b (style_for asked b) → (written_as asked b).pieces ≡ [] → b.pieces ≡ [] }
    ensures layers { (asked : Option Style) → (b : Block) → (most : ℕ) → IsSound b → KeepsCausal b (style_for asked b) →
        All (λ (p : PieceValue). p.layer < most) b.pieces → All (λ (p : PieceValue). p.layer < most) (written_as asked b).pieces }
    ensures each { (asked : Option Style) → (b : Block) → (layer : ℕ) → IsSound b → KeepsCausal b (style_for asked b) →
        passes_at layer (written_as asked b).pieces ≡ passes_at layer b.pieces }
    ensures cuts { (asked : Option Style) → (b : Block) → IsSound b → KeepsCausal b (style_for asked b) → is_wrong asked b ≡ false →
        AreCutInLayers (written_as asked b).style.bits (written_as asked b).pieces }
{}

/// Nothing is made of a block, in whatever layers, exactly where it is wrong.
pub fn wrong_is_nothing()
    ensures wrong { (asked : Option Style) → (b : Block) → (ends : List LayerEnd) → is_wrong asked b ≡ true → recoding b (style_for asked b) ends ≡ None }
    ensures right { (asked : Option Style) → (b : Block) → (ends : List LayerEnd) → is_wrong asked b ≡ false → recoding b (style_for asked b) ends ≢ None }
{}

/// In layers that may be asked of it a block becomes one with the style that is asked, of which just the pieces are others: they lie in
/// these layers, with so many passes in each as were asked, cut as packets cut them (B.10.7).
pub fn written_in_layers()
    ensures own { (asked : Option Style) → (b : Block) → written_as asked b ≡ written_in asked (layer_ends b.pieces) b }
    ensures sound { (asked : Option Style) → (ends : List LayerEnd) → (b : Block) → IsAsked b (style_for asked b) ends → IsSound (written_in asked ends b) }
    ensures cells { (asked : Option Style) → (ends : List LayerEnd) → (b : Block) → IsAsked b (style_for asked b) ends → own_cells (written_in asked ends b) ≡ own_cells b }
    ensures name { (asked : Option Style) → (ends : List LayerEnd) → (b : Block) → (written_in asked ends b).name ≡ b.name }
    ensures rect { (asked : Option Style) → (ends : List LayerEnd) → (b : Block) → (written_in asked ends b).rect ≡ b.rect }
    ensures planes { (asked : Option Style) → (ends : List LayerEnd) → (b : Block) → (written_in asked ends b).planes ≡ b.planes }
    ensures zero { (asked : Option Style) → (ends : List LayerEnd) → (b : Block) → (written_in asked ends b).zero ≡ b.zero }
    ensures passes { (asked : Option Style) → (ends : List LayerEnd) → (b : Block) → (written_in asked ends b).passes ≡ b.passes }
    ensures style { (asked : Style) → (ends : List LayerEnd) → (b : Block) → is_wrong (Some asked) b ≡ false → (written_in (Some asked) ends b).style ≡ asked }
    ensures kept { (ends : List LayerEnd) → (b : Block) → (written_in None ends b).style ≡ b.style }
    ensures empty { (asked : Option Style) → (ends : List LayerEnd) → (b : Block) → IsAsked b (style_for asked b) ends → (written_in asked ends b).pieces ≡ [] → b.pieces ≡ [] }
    ensures layers { (asked : Option Style) → (ends : List LayerEnd) → (b : Block) → (most : ℕ) → IsAsked b (style_for asked b) ends → is_wrong asked b ≡ false →
        All (λ (e : LayerEnd). e.layer < most) ends → All (λ (p : PieceValue). p.layer < most) (written_in asked ends b).pieces }
    ensures ends { (asked : Option Style) → (ends : List LayerEnd) → (b : Block) → IsAsked b (style_for asked b) ends → is_wrong asked b ≡ false →
        layer_ends (written_in asked ends b).pieces ≡ ends }
    ensures each { (asked : Option Style) → (ends : List LayerEnd) → (b : Block) → (layer : ℕ) → IsAsked b (style_for asked b) ends → is_wrong asked b ≡ false →
        passes_at layer (written_in asked ends b).pieces ≡ asked_at layer 0 ends }
    ensures cuts { (asked : Option Style) → (ends : List LayerEnd) → (b : Block) → IsAsked b (style_for asked b) ends → is_wrong asked b ≡ false →
        AreCutInLayers (written_in asked ends b).style.bits (written_in asked ends b).pieces }
{
    coded_anew_keeps_coefficients();
}

/// The first layers of a block that is written hold the passes that were asked, and give them the values that all layers give them. The
/// one exception is a block that is kept in layers that all end where layers of the input ended: it gives what those gave. The values
/// are those of the input's block, unless its causal bit changes and the layers end within a plane.
pub fn first_layers_are_final()
    ensures { (asked : Option Style) → (ends : List LayerEnd) → (b : Block) → (layer : ℕ) → IsAsked b (style_for asked b) ends → is_wrong asked b ≡ false →
        HasFirstLayers asked ends b layer }
{
    coded_anew_keeps_coefficients();
}
