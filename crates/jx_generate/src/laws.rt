//! Laws of made files. The functions do nothing: their contracts carry the laws.

ghost use Rattle.std.specs.Prelude.{◌≡◌, ◌+◌, ◌*◌, ◌/◌, ◌<◌, ◌≤◌, ◌^◌, ◌↔◌, ℕ, List, [], ◌∷◌, length};
ghost use Rattle.std.specs.List.{All};
ghost use Rattle.jx_base.specs.declared.pieces.Block.{Block};
ghost use Rattle.jx_base.specs.Markers.{HasNoMarker};
ghost use Rattle.jx_base.specs.Sound.{IsSound};
ghost use Rattle.jx_geom.specs.Counts.{tile_precincts};
ghost use Rattle.jx_geom.specs.Geometry.{HasResolution, rect_of_tile};
ghost use Rattle.jx_geom.specs.Precincts.{leaves};
ghost use Rattle.jx_progression.specs.declared.names.PacketName.{PacketName};
ghost use Rattle.jx_progression.specs.Packets.{IsOrder};
ghost use Rattle.jx_tier2_reader.specs.Accepted.{IsAccepted};
ghost use Rattle.jx_tier2_reader.specs.BlockOf.{AreBlocksOf};
ghost use Rattle.jx_tier2_reader.specs.WellFormed.{IsWellFormed};
ghost use Rattle.jx_codestream.specs.First.{tile_number};
ghost use Rattle.jx_codestream.specs.Shapes.{geometry};
ghost use Rattle.jx_generate.specs.Drawn.{first_pass, pass_bytes};
ghost use Rattle.jx_generate.specs.Headers.{AreSizes};
ghost use Rattle.jx_generate.specs.Made.{body_made, file_made};
ghost use Rattle.jx_generate.specs.OneLayer.{entry_of_layers};
ghost use Rattle.jx_generate.specs.Packets.{layer_names};
ghost use Rattle.jx_generate.specs.Plain.{IsPlain};
ghost use Rattle.jx_generate.specs.Reading.{stream_made};

use jx_progression::laws::orders_are_one;

/// A made file has at most 2^28 bytes.
pub fn made_is_short()
    ensures { (seed w h : ℕ) → AreSizes w h → length (file_made seed w h) ≤ 2 ^ 28 }
{}

/// A made file violates no rule and passes no limit.
pub fn made_is_well_formed()
    ensures formed { (seed w h : ℕ) → AreSizes w h → IsWellFormed (file_made seed w h) }
    ensures accepted { (seed w h : ℕ) → AreSizes w h → IsAccepted (file_made seed w h) (stream_made w h (length (body_made seed w h))) }
{}

/// Pass i of n lies in layer 12 * i / n, that is from the first pass of the layer on and below that of the next.
pub fn passes_lie_in_layers()
    ensures { (n i layer : ℕ) → i < n → (12 * i / n ≡ layer) ↔ ((first_pass n layer ≤ i) × (i < first_pass n (layer + 1))) }
{}

/// No pass ends with FF, so the byte before a pass's first one isn't FF, whichever pass comes before; and no FF stands before a
/// byte above 8F.
pub fn passes_hold_no_marker()
    ensures { (state : ℕ) → HasNoMarker 0 (pass_bytes state) }
{}

/// Whatever code-blocks are read of a made file, none has a style bit, and none more than 37 coding passes.
pub fn made_blocks_are_plain()
    ensures { (w h size : ℕ) (blocks : List Block) → AreSizes w h → AreBlocksOf (stream_made w h size) blocks → All IsSound blocks → All IsPlain blocks }
{}

/// The stream that is read of a made file has one tile, in it at most 18 precincts (T.800, B.6), so as many packets in each layer, and no
/// resolution above 5 (B.5).
pub fn made_geometry()
    ensures tiles { (w h size : ℕ) → AreSizes w h → tile_number (stream_made w h size).siz ≡ 1 }
    ensures precincts { (w h size : ℕ) → AreSizes w h → tile_precincts (rect_of_tile (geometry (stream_made w h size) 0)) (geometry (stream_made w h size) 0).shapes ≤ 18 }
    ensures levels { (w h size c r : ℕ) → HasResolution (geometry (stream_made w h size) 0) c r → r ≤ 5 }
{}

/// Written anew in one layer and in the order RPCL (T.800, B.12.1.3), a made file has three packets in each resolution, one for each
/// component, of at most 3,072 code-blocks.
pub fn made_in_one_layer()
    ensures order { (w h size : ℕ) (names : List PacketName) → AreSizes w h → IsOrder (geometry (stream_made w h size) 0) 1 (entry_of_layers 1 ∷ []) 1 names → names ≡ layer_names 0 }
    ensures leaves { (w h size c r : ℕ) → AreSizes w h → c < 3 → r < 6 → leaves (geometry (stream_made w h size) 0) c r 0 ≤ 3072 }
{
    orders_are_one();
}
