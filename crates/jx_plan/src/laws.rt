//! Laws over what is planned: the headers that are written, and the plans. The functions do nothing: their contracts
//! carry the laws.

ghost use Rattle.std.specs.Prelude.{◌≡◌, ◌≤◌, ◌<◌, ◌^◌, ◌++◌, ◌⊎◌, ℕ, List, [], None, Some, false, find, length, map, Option};
ghost use Rattle.std.specs.List.{All, filter, list_any};
ghost use Rattle.jx_base.specs.declared.names.Band.{Band};
ghost use Rattle.jx_marker.specs.declared.Segment.{Segment};
ghost use Rattle.jx_codestream.specs.declared.headers.HeaderKind.TheVariants.{First, Later};
ghost use Rattle.jx_tier2_reader.specs.Another.{HaveSameBlocks};
ghost use Rattle.jx_tier2_reader.specs.BlockOf.{AreBlocksOf};
ghost use Rattle.jx_tile.specs.Covered.{IsWhole};
ghost use Rattle.jx_tier2_reader.specs.Gathered.{IsGathered};
ghost use Rattle.jx_tile.specs.Totals.{block_total, packet_total, totals_fault};
ghost use Rattle.jx_codestream.specs.declared.parts.PlacedPart.{PlacedPart};
ghost use Rattle.jx_codestream.specs.declared.Stream.{Stream};
ghost use Rattle.jx_codestream.specs.declared.Tile.{Tile};
ghost use Rattle.jx_codestream.specs.First.{tile_number};
ghost use Rattle.jx_codestream.specs.InRange.{StreamInRange};
ghost use Rattle.jx_codestream.specs.Params.{cod_of, cod_or, header_of, params_by, params_of, planes_at, planes_by, planes_fault, step_by, step_of, tile_has_too_few};
ghost use Rattle.jx_codestream.specs.Parts.{parts_of};
ghost use Rattle.jx_codestream.specs.Read.{IsRead};
ghost use Rattle.jx_codestream.specs.Shapes.{geometry, layers_of, shapes_of, style_of, tile_at};
ghost use Rattle.jx_codestream.specs.Spells.{AreSegments};
ghost use Rattle.jx_codestream.specs.Tiles.{tile_from, tiles_of};
ghost use Rattle.jx_plan.specs.Asides.{is_informational, is_left_out, is_plt, IsAside, IsTileWithMore, IsWithMore};
ghost use Rattle.jx_plan.specs.Changes.{MainOrder, entries_by, main_order};
ghost use Rattle.jx_plan.specs.Headers.{cod_written, comp_written, main_written, params_written, stream_written, style_written, tile_written, HeaderOptions, MayBeInHeaders};
ghost use Rattle.jx_plan.specs.ReadBack.{HaveHeaders};
ghost use Rattle.jx_plan.specs.Standing.{HeadersStand};
ghost use Rattle.jx_base.specs.declared.pieces.Block.{Block};
ghost use Rattle.jx_base.specs.Sound.{IsSound};
ghost use Rattle.jx_plan.specs.Fits.{Fits, first_zero};
ghost use Rattle.jx_options.specs.Wanted.{MayBeWanted, Wanted};
ghost use Rattle.jx_plan.specs.declared.faults.PlanFault.{PlanFault};
ghost use Rattle.jx_codeblock.specs.Written.{block_asked, is_wrong};
ghost use Rattle.jx_plan.specs.Causal.{first_broken};
ghost use Rattle.jx_plan.specs.Meaning.{meaning_of};
ghost use Rattle.jx_plan.specs.Plan.{IsPlan, MayBePlanned, Plan, headers_with};
ghost use Rattle.jx_plan.specs.Planned.{CanBePlannedBy, HasPlanCause, IsCrowded, IsFreeBy, IsPlanned, IsPlannedBy, MakesLayers, blocks_written, layers_of_rule};
ghost use Rattle.jx_layers.specs.Rule.{Rule};
ghost use Rattle.jx_layers.specs.Rule.Rule.{Keep};
ghost use Rattle.jx_plan.specs.declared.faults.PlanFault.TheVariants as plan_fault;
ghost use Rattle.jx_base.specs.Limits.{most_bytes};

use crate::layer_laws::{blocks_are_written, crowds_are_told, jobs_have_these_ends};
use jx_codeblock::laws::{written_in_layers, written_in_own_layers};

/// The headers of a stream that was read stand in its file.
pub fn read_headers_stand()
    ensures { (b : List ℕ) (s : Stream) → IsRead b s → HeadersStand s }
{}

/// What is written of headers that stand in a file stands in one too, with 1 to 65,535 layers, precincts that give no
/// exponent 0 above resolution 0 and a style of six bits: none of the rules 1 to 19 is violated (T.800, A.3 to A.9),
/// and none of the limits 3 and 4 is passed.
pub fn written_headers_stand()
    ensures { (a : HeaderOptions) (s : Stream) → MayBeInHeaders a → first_zero a.wanted.precincts s ≡ None → HeadersStand s → HeadersStand (stream_written a s) }
{}

/// The stream that is written is in range.
pub fn written_is_in_range()
    ensures { (a : HeaderOptions) (s : Stream) → MayBeInHeaders a → first_zero a.wanted.precincts s ≡ None → HeadersStand s → StreamInRange s → StreamInRange (stream_written a s) }
{}

/// The stream that is written has the parameters of its stream, but for the order, the layers, the precincts and the
/// style (T.800, A.6).
pub fn parameters_stay()
    ensures params { (a : HeaderOptions) (s : Stream) (t c : ℕ) → HeadersStand s → params_of (stream_written a s) t c ≡ params_written a (params_of s t c) }
    ensures steps { (a : HeaderOptions) (s : Stream) (t c r : ℕ) (band : Band) → HeadersStand s → step_of (stream_written a s) t c r band ≡ step_of s t c r band }
    ensures planes { (a : HeaderOptions) (s : Stream) (t c r : ℕ) (band : Band) → HeadersStand s → planes_at (stream_written a s) t c r band ≡ planes_at s t c r band }
    ensures shapes { (a : HeaderOptions) (s : Stream) (t : ℕ) → HeadersStand s → shapes_of (stream_written a s) t ≡ map (comp_written a.wanted.precincts) (shapes_of s t) }
    ensures geometries { (a : HeaderOptions) (s : Stream) (t : ℕ) → HeadersStand s → geometry (stream_written a s) t ≡ record (geometry s t) { shapes = map (comp_written a.wanted.precincts) (shapes_of s t) } }
    ensures layers { (a : HeaderOptions) (s : Stream) (t : ℕ) → HeadersStand s → layers_of (stream_written a s) t ≡ a.layers }
    ensures styles { (a : HeaderOptions) (s : Stream) (t c : ℕ) → HeadersStand s → style_of (stream_written a s) t c ≡ (style_written a.wanted.style (record { bits = style_of s t c })).bits }
    ensures tiles { (a : HeaderOptions) (s : Stream) → tile_number (stream_written a s).siz ≡ tile_number s.siz }
{}

/// A stream whose precincts are kept has them: none gives an exponent 0 above resolution 0, and its code-blocks stay
/// (T.800, A.6.1 and B.7).
pub fn kept_precincts_fit()
    ensures { (s : Stream) → HeadersStand s → Fits None s }
{}

/// COM and PLT segments may follow in the header of a tile's first tile-part, and stand alone in that of a later one
/// (T.800, A.3).
pub fn asides_may_follow()
    ensures first { (comps : ℕ) (own more : List Segment) → AreSegments First comps [] own → All (IsAside comps) more → AreSegments First comps [] (own ++ more) }
    ensures later { (comps : ℕ) (more : List Segment) → All (IsAside comps) more → AreSegments Later comps [] more }
{}

/// They change no parameter of the tile.
pub fn asides_give_nothing()
    ensures params { (comps : ℕ) (own more main : List Segment) (c : ℕ) → All (IsAside comps) more → params_by (own ++ more) main c ≡ params_by own main c }
    ensures steps { (comps : ℕ) (own more main : List Segment) (c r : ℕ) (band : Band) → All (IsAside comps) more → step_by (own ++ more) main c r band ≡ step_by own main c r band }
    ensures planes { (comps : ℕ) (own more main : List Segment) (c r : ℕ) (band : Band) → All (IsAside comps) more → planes_by (own ++ more) main c r band ≡ planes_by own main c r band }
{}

/// So a stream with such segments more in its tiles' headers has the same view, and violates rule 9 and passes limit
/// 4 no more than the stream without them.
pub fn view_stays_with_more()
    ensures params { (s other : Stream) (t c : ℕ) → IsWithMore s other → params_of other t c ≡ params_of s t c }
    ensures steps { (s other : Stream) (t c r : ℕ) (band : Band) → IsWithMore s other → step_of other t c r band ≡ step_of s t c r band }
    ensures planes { (s other : Stream) (t c r : ℕ) (band : Band) → IsWithMore s other → planes_at other t c r band ≡ planes_at s t c r band }
    ensures shapes { (s other : Stream) (t : ℕ) → IsWithMore s other → shapes_of other t ≡ shapes_of s t }
    ensures layers { (s other : Stream) (t : ℕ) → IsWithMore s other → layers_of other t ≡ layers_of s t }
    ensures styles { (s other : Stream) (t c : ℕ) → IsWithMore s other → style_of other t c ≡ style_of s t c }
    ensures geometries { (s other : Stream) (t : ℕ) → IsWithMore s other → geometry other t ≡ geometry s t }
    ensures entries { (s other : Stream) → IsWithMore s other → find (tile_has_too_few s.main (length s.siz.comps)) s.tiles ≡ None
        → find (tile_has_too_few other.main (length other.siz.comps)) other.tiles ≡ None }
    ensures over { (s other : Stream) → IsWithMore s other
        → planes_fault other.main (length other.siz.comps) other.tiles ≡ planes_fault s.main (length s.siz.comps) s.tiles }
{}

/// The stream that is written has the code-blocks of its stream, where it can have the precincts that are asked, its
/// style isn't changed, and no tile has fewer layers than it had (T.800, B.7). So has one with COM and PLT segments
/// more.
pub fn blocks_stay()
    ensures written { (a : HeaderOptions) (s : Stream) → a.wanted.style ≡ None → Fits a.wanted.precincts s → HeadersStand s → ((t : ℕ) → t < tile_number s.siz → layers_of s t ≤ a.layers) → HaveSameBlocks s (stream_written a s) }
    ensures more { (s other : Stream) → IsWithMore s other → HaveSameBlocks s other }
    ensures through { (s between other : Stream) → HaveSameBlocks s between → HaveSameBlocks between other → HaveSameBlocks s other }
{}

/// The code-blocks of a stream as they are written by a rule are those of the headers that are written, where each of
/// them may be asked for its style and is right, and no layer has too many passes of one; and they are sound. The
/// rule that keeps leaves them as they are where no style is asked.
pub fn written_blocks_stand()
    ensures blocks { (w : Wanted) (r : Rule) (s : Stream) (blocks : List Block) → 1 ≤ layers_of_rule r s blocks → Fits w.precincts s → HeadersStand s
        → AreBlocksOf s blocks → All IsSound blocks → first_broken w.style blocks ≡ None → All (λ (b : Block). is_wrong w.style b ≡ false) blocks → IsCrowded r s blocks None
        → AreBlocksOf (headers_with w (layers_of_rule r s blocks) s) (blocks_written w r s blocks) }
    ensures sound { (w : Wanted) (r : Rule) (s : Stream) (blocks : List Block) → 1 ≤ layers_of_rule r s blocks → All IsSound blocks → first_broken w.style blocks ≡ None
        → All IsSound (blocks_written w r s blocks) }
    ensures kept { (w : Wanted) (s : Stream) (blocks : List Block) → w.style ≡ None → MayBePlanned s blocks → blocks_written w Keep s blocks ≡ blocks }
{
    written_in_layers();
    written_in_own_layers();
    jobs_have_these_ends();
    blocks_are_written();
    crowds_are_told();
}

/// What is written means what was read: the canvas, the components, how they are transformed and quantized, and each
/// coefficient with its decoded planes (T.800, A.5, A.6, D and E). So does a stream with COM and PLT segments more.
pub fn meaning_stays()
    ensures written { (w : Wanted) (r : Rule) (s : Stream) (blocks : List Block) → 1 ≤ layers_of_rule r s blocks → HeadersStand s → All IsSound blocks → first_broken w.style blocks ≡ None
        → meaning_of (headers_with w (layers_of_rule r s blocks) s) (blocks_written w r s blocks) ≡ meaning_of s blocks }
    ensures more { (s other : Stream) (blocks : List Block) → IsWithMore s other → meaning_of other blocks ≡ meaning_of s blocks }
{
    written_in_layers();
    jobs_have_these_ends();
}

/// A plan by a rule writes the blocks that the rule says, and nothing is in its way.
pub fn plans_write_these_blocks()
    ensures blocks { (s : Stream) (blocks : List Block) (w : Wanted) (r : Rule) (p : Plan) → IsPlan p → IsPlannedBy r s blocks w p → map block_asked p.jobs ≡ blocks_written w r s blocks }
    ensures free { (s : Stream) (blocks : List Block) (w : Wanted) (r : Rule) (p : Plan) → IsPlan p → IsPlannedBy r s blocks w p → IsFreeBy r s blocks w }
{
    blocks_are_written();
    crowds_are_told();
}

/// Where no progression changes are written, the one entry of a tile covers each of its packets (T.800, A.6.6 and
/// B.12).
pub fn written_is_covered()
    ensures written { (a : HeaderOptions) (s : Stream) (t : ℕ) → MayBeInHeaders a → a.wanted.changes ≡ Some [] → first_zero a.wanted.precincts s ≡ None → HeadersStand s → StreamInRange s → t < tile_number s.siz
        → IsWhole (stream_written a s) t }
    ensures more { (s other : Stream) (t : ℕ) → IsWithMore s other → t < length s.tiles → IsWhole s t → IsWhole other t }
{}

/// COM and PLT segments more change no count of code-blocks or packets, and pass no limit.
pub fn totals_stay_with_more()
    ensures blocks { (s other : Stream) → IsWithMore s other → block_total other ≡ block_total s }
    ensures packets { (s other : Stream) → IsWithMore s other → packet_total other ≡ packet_total s }
    ensures limits { (s other : Stream) → IsWithMore s other → totals_fault other ≡ totals_fault s }
{}

/// What is written is read back: where a tile's tile-parts have its headers, they make the tile that is written, but
/// for its place, its data and the segments that follow in its header; and the stream of such tiles is the one that
/// is written, with these segments more.
pub fn written_is_read_back()
    ensures tile { (a : HeaderOptions) (comps : ℕ) (main : List Segment) (m : MainOrder) (t : Tile) (own : List PlacedPart) → HaveHeaders a comps m t own
        → IsTileWithMore comps (tile_written a comps m (main_order (main_written a comps main)) t) (tile_from (main_written a comps main) own) }
    ensures stream { (a : HeaderOptions) (s other : Stream) (parts : List PlacedPart) → HeadersStand s → other.siz ≡ (stream_written a s).siz → other.main ≡ (stream_written a s).main
        → other.tiles ≡ tiles_of other.main parts (tile_number s.siz)
        → ((t : ℕ) → t < tile_number s.siz → HaveHeaders a (length s.siz.comps) (main_order s.main) (tile_at s t) (parts_of t parts)) → IsWithMore (stream_written a s) other }
{}

/// No TLM, PLM, PLT, PPM, PPT or skipped marker is written, and the main header has its CRG and COM segments in their
/// order (T.800, A.7 and A.9); the packets of a tile stand in the order that the written headers say, as a reader
/// takes them, and its COD has the marks, the order, the layers, the precincts and the style that are asked (T.800,
/// A.6.1 and A.6.6); and where its precincts fit, the limits 5 and 6 are those on its packets alone.
pub fn written_headers_are_plain()
    ensures header { (a : HeaderOptions) (s : Stream) (t : ℕ) → HeadersStand s → MayBeInHeaders a → first_zero a.wanted.precincts s ≡ None → t < length s.tiles
        → AreSegments First (length s.siz.comps) [] (header_of (stream_written a s) t) }
    ensures lengths { (a : HeaderOptions) (s : Stream) (t : ℕ) → HeadersStand s → t < length s.tiles → list_any is_plt (header_of (stream_written a s) t) ≡ false }
    ensures left_main { (a : HeaderOptions) (s : Stream) → HeadersStand s → list_any is_left_out (stream_written a s).main ≡ false }
    ensures left_header { (a : HeaderOptions) (s : Stream) (t : ℕ) → HeadersStand s → t < length s.tiles → list_any is_left_out (header_of (stream_written a s) t) ≡ false }
    ensures informs { (a : HeaderOptions) (s : Stream) → HeadersStand s → filter is_informational (stream_written a s).main ≡ filter is_informational s.main }
    ensures order { (a : HeaderOptions) (s : Stream) (t : ℕ) → HeadersStand s → t < length s.tiles → (tile_at (stream_written a s) t).progressions
        ≡ entries_by (main_order (stream_written a s).main) (header_of (stream_written a s) t) }
    ensures cods { (a : HeaderOptions) (s : Stream) (t : ℕ) → HeadersStand s
        → cod_or (cod_of (header_of (stream_written a s) t) (stream_written a s).main) ≡ cod_written a (cod_or (cod_of (header_of s t) s.main)) }
    ensures limits { (a : HeaderOptions) (s : Stream) → Fits a.wanted.precincts s → HeadersStand s → totals_fault s ≡ None → packet_total (stream_written a s) ≤ 2 ^ 22
        → totals_fault (stream_written a s) ≡ None }
{}

/// A stream that was read may be planned with the blocks that were gathered of it.
pub fn gathered_may_be_planned()
    ensures { (b : List ℕ) (s : Stream) (blocks : List Block) → IsRead b s → length b ≤ most_bytes → totals_fault s ≡ None → IsGathered b s blocks → MayBePlanned s blocks }
{}

/// By a rule a stream has one answer, but for want of memory: nothing is in the way of its plan, or there is one
/// cause for which nothing is planned.
pub fn one_answer()
    ensures planned { (s : Stream) (blocks : List Block) (w : Wanted) (o : Option Rule) (p : Plan) (e : PlanFault) → IsPlan p → IsPlanned o s blocks w p → HasPlanCause o s blocks w e
        → e ≡ plan_fault.NoMemory }
    ensures free { (s : Stream) (blocks : List Block) (w : Wanted) (o : Option Rule) (e : PlanFault) → CanBePlannedBy o s blocks w → HasPlanCause o s blocks w e → e ≡ plan_fault.NoMemory }
    ensures cause { (s : Stream) (blocks : List Block) (w : Wanted) (o : Option Rule) (e f : PlanFault) → (e ≡ plan_fault.NoMemory → ⊥) → (f ≡ plan_fault.NoMemory → ⊥)
        → HasPlanCause o s blocks w e → HasPlanCause o s blocks w f → e ≡ f }
    ensures some { (s : Stream) (blocks : List Block) (w : Wanted) (o : Option Rule) → MayBePlanned s blocks → MayBeWanted w → MakesLayers o s blocks
        → CanBePlannedBy o s blocks w ⊎ ((e : PlanFault) × (e ≡ plan_fault.NoMemory → ⊥) × HasPlanCause o s blocks w e) }
{
    crowds_are_told();
}
