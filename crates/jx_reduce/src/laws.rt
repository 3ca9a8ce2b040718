//! Laws over what is left of a codestream. The functions do nothing: their contracts carry the laws.

ghost use Rattle.std.specs.Prelude.{◌≡◌, ◌<◌, ◌+◌, ◌↔◌, ℕ, List, None, length};
ghost use Rattle.jx_base.specs.declared.names.Band.{Band};
ghost use Rattle.jx_base.specs.declared.pieces.Block.{Block};
ghost use Rattle.jx_geom.specs.Geometry.{HasResolution, band_in, blocks_in, precincts_in, rect_of_tile, reference_across, reference_down, shape_of};
ghost use Rattle.jx_geom.specs.Rects.{block_rect, precinct_blocks, precinct_part};
ghost use Rattle.jx_codestream.specs.declared.Stream.{Stream};
ghost use Rattle.jx_codestream.specs.Params.{planes_at, step_of};
ghost use Rattle.jx_codestream.specs.Shapes.{geometry, layers_of, style_of};
ghost use Rattle.jx_tile.specs.Covered.{IsWhole};
ghost use Rattle.jx_plan.specs.Meaning.{meaning_of};
ghost use Rattle.jx_plan.specs.Plan.{MayBePlanned};
ghost use Rattle.jx_plan.specs.Standing.{HeadersStand};
ghost use Rattle.jx_reduce.specs.Left.{IsLeft};
ghost use Rattle.jx_reduce.specs.Reduction.{blocks_left, stream_left};
ghost use Rattle.jx_reduce.specs.Unreducible.{first_choice};

/// The tiles stay, and each resolution that is left has the bands, precincts, code-blocks and reference points that it had (T.800, B.3, B.5
/// to B.7 and B.12.1.3).
pub fn geometry_stays()
    ensures tiles { (d : ℕ) (s : Stream) (t : ℕ)
        → rect_of_tile (geometry (stream_left d s) t) ≡ rect_of_tile (geometry s t) }
    ensures resolutions { (d : ℕ) (s : Stream) (t c r : ℕ) → HeadersStand s → first_choice d s ≡ None
        → HasResolution (geometry (stream_left d s) t) c r ↔ HasResolution (geometry s t) c (r + d) }
    ensures bands { (d : ℕ) (s : Stream) (t c r : ℕ) (b : Band) → HeadersStand s → first_choice d s ≡ None
        → HasResolution (geometry (stream_left d s) t) c r
        → band_in (geometry (stream_left d s) t) c r b ≡ band_in (geometry s t) c r b }
    ensures precincts { (d : ℕ) (s : Stream) (t c r : ℕ) → HeadersStand s → first_choice d s ≡ None
        → HasResolution (geometry (stream_left d s) t) c r
        → precincts_in (geometry (stream_left d s) t) c r ≡ precincts_in (geometry s t) c r }
    ensures parts { (d : ℕ) (s : Stream) (t c r k : ℕ) (b : Band) → HeadersStand s → first_choice d s ≡ None
        → HasResolution (geometry (stream_left d s) t) c r
        → precinct_part (rect_of_tile (geometry (stream_left d s) t))
        (shape_of (geometry (stream_left d s) t) c) r b k
        ≡ precinct_part (rect_of_tile (geometry s t)) (shape_of (geometry s t) c) r b k }
    ensures leaves { (d : ℕ) (s : Stream) (t c r k : ℕ) (b : Band) → HeadersStand s → first_choice d s ≡ None
        → HasResolution (geometry (stream_left d s) t) c r
        → precinct_blocks (rect_of_tile (geometry (stream_left d s) t))
        (shape_of (geometry (stream_left d s) t) c) r b k
        ≡ precinct_blocks (rect_of_tile (geometry s t)) (shape_of (geometry s t) c) r b k }
    ensures blocks { (d : ℕ) (s : Stream) (t c r : ℕ) (b : Band) → HeadersStand s → first_choice d s ≡ None
        → HasResolution (geometry (stream_left d s) t) c r
        → blocks_in (geometry (stream_left d s) t) c r b ≡ blocks_in (geometry s t) c r b }
    ensures places { (d : ℕ) (s : Stream) (t c r i : ℕ) (b : Band) → HeadersStand s → first_choice d s ≡ None
        → HasResolution (geometry (stream_left d s) t) c r
        → block_rect (rect_of_tile (geometry (stream_left d s) t)) (shape_of (geometry (stream_left d s) t) c) r b i
        ≡ block_rect (rect_of_tile (geometry s t)) (shape_of (geometry s t) c) r b i }
    ensures across { (d : ℕ) (s : Stream) (t c r k : ℕ) → HeadersStand s → first_choice d s ≡ None
        → HasResolution (geometry (stream_left d s) t) c r
        → reference_across (geometry (stream_left d s) t) c r k ≡ reference_across (geometry s t) c r k }
    ensures down { (d : ℕ) (s : Stream) (t c r k : ℕ) → HeadersStand s → first_choice d s ≡ None
        → HasResolution (geometry (stream_left d s) t) c r
        → reference_down (geometry (stream_left d s) t) c r k ≡ reference_down (geometry s t) c r k }
{}

/// The step and the planes of each band that is left stay in every style of quantization, also where the step is derived from that of the
/// lowest band; so do the layers and the style of code-blocks (T.800, A.6 and E.1).
pub fn parameters_stay()
    ensures steps { (d : ℕ) (s : Stream) (t c r : ℕ) (b : Band) → HeadersStand s → first_choice d s ≡ None
        → HasResolution (geometry (stream_left d s) t) c r
        → step_of (stream_left d s) t c r b ≡ step_of s t c r b }
    ensures planes { (d : ℕ) (s : Stream) (t c r : ℕ) (b : Band) → HeadersStand s → first_choice d s ≡ None
        → HasResolution (geometry (stream_left d s) t) c r
        → planes_at (stream_left d s) t c r b ≡ planes_at s t c r b }
    ensures layers { (d : ℕ) (s : Stream) (t : ℕ) → layers_of (stream_left d s) t ≡ layers_of s t }
    ensures styles { (d : ℕ) (s : Stream) (t c : ℕ) → style_of (stream_left d s) t c ≡ style_of s t c }
{}

/// The packets that are left are covered where all were, also where an entry begins above the resolutions that are left (T.800, A.6.6).
pub fn packets_stay_covered()
    ensures { (d : ℕ) (s : Stream) (t : ℕ) → HeadersStand s → first_choice d s ≡ None → t < length s.tiles
        → IsWhole s t → IsWhole (stream_left d s) t }
{}

/// What is left of a codestream may be planned again, and means what is left of its meaning.
pub fn left_means()
    ensures may { (d : ℕ) (s : Stream) (blocks : List Block) → MayBePlanned s blocks → first_choice d s ≡ None
        → MayBePlanned (stream_left d s) (blocks_left d s blocks) }
    ensures meaning { (d : ℕ) (s : Stream) (blocks : List Block) → HeadersStand s → first_choice d s ≡ None
        → IsLeft d (meaning_of s blocks) (meaning_of (stream_left d s) (blocks_left d s blocks)) }
{}

/// Where no resolution is left out a codestream stays as it is, and nothing is in the way.
pub fn whole_stays()
    ensures stream { (s : Stream) → HeadersStand s → stream_left 0 s ≡ s }
    ensures blocks { (s : Stream) (blocks : List Block) → MayBePlanned s blocks → blocks_left 0 s blocks ≡ blocks }
    ensures free { (s : Stream) → HeadersStand s → first_choice 0 s ≡ None }
{}
