//! Laws over the file that is written from headers and code-blocks. The functions do nothing but cite laws of the crates below:
//! their contracts carry the laws.

ghost use Rattle.std.specs.Prelude.{◌≡◌, ◌<◌, ◌≤◌, ◌+◌, ◌^◌, ℕ, List, None, Some, drop, false, length, map, slice_get, take, true};
ghost use Rattle.std.specs.List.{All, flat_map, list_any};
ghost use Rattle.jx_base.specs.declared.pieces.Block.{Block};
ghost use Rattle.jx_base.specs.Joined.{joined};
ghost use Rattle.jx_base.specs.Sound.{IsSound};
ghost use Rattle.jx_geom.specs.Geometry.{GeometryInRange};
ghost use Rattle.jx_marker.specs.Ranges.{InRange};
ghost use Rattle.jx_progression.specs.declared.names.PacketName.{PacketName};
ghost use Rattle.jx_codestream.specs.declared.Stream.{Stream};
ghost use Rattle.jx_codestream.specs.First.{tile_number};
ghost use Rattle.jx_codestream.specs.InRange.{StreamInRange};
ghost use Rattle.jx_codestream.specs.Read.{IsRead};
ghost use Rattle.jx_codestream.specs.Shapes.{geometry};
ghost use Rattle.jx_codestream.specs.Spells.{TilePart, first_sot, part_bytes};
ghost use Rattle.jx_tier2_reader.specs.Accepted.{IsAccepted};
ghost use Rattle.jx_tier2_reader.specs.Another.{HaveSameBlocks};
ghost use Rattle.jx_tier2_reader.specs.BlockOf.{AreBlocksOf};
ghost use Rattle.jx_tile.specs.Covered.{IsListOf, IsWhole};
ghost use Rattle.jx_tier2_reader.specs.Gathered.{IsGathered};
ghost use Rattle.jx_tile.specs.Totals.{totals_fault};
ghost use Rattle.jx_tier2_reader.specs.WellFormed.{IsWellFormed};
ghost use Rattle.jx_tier2_writer.specs.Index.{entries_told, entry_of, index_of, length_before, length_in};
ghost use Rattle.jx_tier2_writer.specs.Kept.{IsKeptIn};
ghost use Rattle.jx_tier2_writer.specs.Lengths.{length_bytes, length_segments};
ghost use Rattle.jx_tier2_writer.specs.Ready.{AllShort, AreReady, HasList, stream_read};
ghost use Rattle.jx_tier2_writer.specs.SameHeaders.{HasHeadersOf};
ghost use Rattle.jx_tier2_writer.specs.Strict.{IsStrict};
ghost use Rattle.jx_tier2_writer.specs.Told.{length_total, lengths_from};
ghost use Rattle.jx_options.specs.declared.Marks.{Marks};
ghost use Rattle.jx_layers.specs.Rule.{Rule};
ghost use Rattle.jx_plan.specs.Asides.{is_left_out};
ghost use Rattle.jx_plan.specs.Causes.{IsFree};
ghost use Rattle.jx_codeblock.specs.Written.{is_wrong};
ghost use Rattle.jx_plan.specs.Plan.{MayBePlanned, headers_with};
ghost use Rattle.jx_plan.specs.Planned.{IsFreeBy, MakesLayers, blocks_written, layers_of_rule};
ghost use Rattle.jx_options.specs.Wanted.{MayBeWanted, Wanted};
ghost use Rattle.jx_plan.specs.Standing.{HeadersStand};
ghost use Rattle.jx_tier2_writer.specs.TileParts.{AreTilePartsOf, IsOutput};
ghost use Rattle.jx_base.specs.Limits.{most_bytes};

use jx_codeblock::laws::first_layers_are_final;
use jx_plan::laws::{
    meaning_stays, parameters_stay, written_blocks_stand, written_headers_are_plain,
    written_headers_stand,
};
use jx_plan::layer_laws::{breaks_are_told, jobs_have_these_ends};

/// A written file spells the stream of the headers that it was written from, with its tile-parts' own headers, places and data: no
/// rule from 1 to 24 is violated, nor rule 37, and neither limit 3 nor 4 is passed (T.800, A.2 to A.7).
pub fn output_is_spelled()
    ensures { (m : Marks) (s : Stream) (blocks : List Block) (b : List ℕ) (out : IsOutput m s blocks b) → AreReady m s
        → AllShort out.parts (tile_number s.siz) → IsRead b (stream_read m s out.parts) }
{}

/// This stream says what the headers say that the file was written from: the main header has the index behind it, where it is asked,
/// and each tile's header PLT segments at most, so all parameters, steps, planes, places and entries are the same.
pub fn output_has_headers()
    ensures { (m : Marks) (s : Stream) (blocks : List Block) (b : List ℕ) (out : IsOutput m s blocks b) → AreReady m s
        → AllShort out.parts (tile_number s.siz) → HasHeadersOf (index_of m (joined out.parts 0 (tile_number s.siz))) s (stream_read m s out.parts) }
{}

/// Its code-blocks are just those that it was written from, and it is well-formed: no rule from 25 to 31 is violated; nor is limit 5
/// or 6 passed.
pub fn output_is_gathered()
    ensures blocks { (m : Marks) (s : Stream) (blocks : List Block) (b : List ℕ) (out : IsOutput m s blocks b) → AreReady m s
        → AllShort out.parts (tile_number s.siz) → AreBlocksOf s blocks → All IsSound blocks → IsGathered b (stream_read m s out.parts) blocks }
    ensures accepted { (m : Marks) (s : Stream) (blocks : List Block) (b : List ℕ) (out : IsOutput m s blocks b) → AreReady m s
        → AllShort out.parts (tile_number s.siz) → AreBlocksOf s blocks → All IsSound blocks → IsAccepted b (stream_read m s out.parts) }
    ensures formed { (m : Marks) (s : Stream) (blocks : List Block) (b : List ℕ) (out : IsOutput m s blocks b) → AreReady m s
        → AllShort out.parts (tile_number s.siz) → AreBlocksOf s blocks → All IsSound blocks → IsWellFormed b }
{}

/// The code-blocks that were gathered from one file stand in the file that is written from them, whatever its headers change of the
/// order, the precincts, the layers or the marks, as long as they have the same code-blocks and no fewer layers.
pub fn output_keeps_blocks()
    ensures { (m : Marks) (s input : Stream) (blocks : List Block) (a b : List ℕ) (out : IsOutput m s blocks b) → IsRead a input → length a ≤ most_bytes → totals_fault input ≡ None
        → IsGathered a input blocks → HaveSameBlocks input s → AreReady m s → AllShort out.parts (tile_number s.siz)
        → IsGathered b (stream_read m s out.parts) blocks }
{}

/// A written file keeps to more than a reader asks for: each tile-part tells its tile's number of tile-parts, SOP and EPH stand with
/// each packet exactly where the tile's COD announces them, PLT segments that are asked for tell the packets' lengths, the index that is
/// asked for names just these tile-parts, and EOC ends the file.
pub fn output_is_strict()
    ensures { (m : Marks) (s : Stream) (blocks : List Block) (b : List ℕ) (out : IsOutput m s blocks b) → AreReady m s
        → AllShort out.parts (tile_number s.siz) → AreBlocksOf s blocks → All IsSound blocks → IsStrict m b (stream_read m s out.parts) }
{}

/// The index of a written file, as it is read from its main header, names each of its tile-parts in their order by the tile and Psot
/// (`told`), where it is asked and nothing of what isn't written stands in the headers. A tile-part stands behind the main header and
/// as many bytes as those before it have together (`stand`), so a reader that takes the index at its word finds each (T.800, A.7.1).
pub fn index_finds_parts()
    ensures told { (m : Marks) (s : Stream) (blocks : List Block) (b : List ℕ) (out : IsOutput m s blocks b) → AreReady m s
        → AllShort out.parts (tile_number s.siz) → m.tlm ≡ true → list_any is_left_out s.main ≡ false
        → entries_told (stream_read m s out.parts).main ≡ map entry_of (joined out.parts 0 (tile_number s.siz)) }
    ensures stand { (m : Marks) (s : Stream) (blocks : List Block) (b : List ℕ) (out : IsOutput m s blocks b) → AreReady m s
        → AllShort out.parts (tile_number s.siz) → (i : ℕ) (p : TilePart) → slice_get (joined out.parts 0 (tile_number s.siz)) i ≡ Some p
        → take p.sot.psot (drop (first_sot s.siz (stream_read m s out.parts).main + length_before i (map entry_of (joined out.parts 0 (tile_number s.siz)))) b)
        ≡ part_bytes (length s.siz.comps) p }
{}

/// What the index tells of a tile's tile-parts are the tile and how many bytes each has (`lengths`); where it is asked it has room
/// for those of all tiles (`few`).
pub fn entries_are_lengths()
    ensures lengths { (m : Marks) (s : Stream) (blocks : List Block) (t : ℕ) (parts : List TilePart) → AreTilePartsOf m s blocks t parts
        → map entry_of parts ≡ map (length_in t) (map (part_bytes (length s.siz.comps)) parts) }
    ensures few { (m : Marks) (s : Stream) (blocks : List Block) (b : List ℕ) (out : IsOutput m s blocks b) → AreReady m s → m.tlm ≡ true
        → length (map entry_of (joined out.parts 0 (tile_number s.siz))) ≤ 2795776 }
{}

/// Headers that a file may be written from are within the ranges that geometry and packets ask for; each of their tiles has an entry
/// that covers each packet, and a list of its packets.
pub fn ready_is_in_range()
    ensures stream { (m : Marks) (s : Stream) → AreReady m s → StreamInRange s }
    ensures geometry { (m : Marks) (s : Stream) → AreReady m s → (t : ℕ) → t < tile_number s.siz → GeometryInRange (geometry s t) }
    ensures whole { (m : Marks) (s : Stream) → AreReady m s → (t : ℕ) → t < tile_number s.siz → IsWhole s t }
    ensures list { (m : Marks) (s : Stream) → AreReady m s → (t : ℕ) → t < tile_number s.siz → HasList s t }
{}

/// A tile has at most 2^22 packets where limit 6 isn't passed.
pub fn tile_has_few_packets()
    ensures { (s : Stream) (t : ℕ) (names : List PacketName) → totals_fault s ≡ None → t < tile_number s.siz → IsListOf s t names → length names ≤ 2 ^ 22 }
{}

/// So many packets, whose lengths come to less than 2^32, need at most 256 PLT segments, each of which is in its range (T.800, A.7.3).
pub fn lengths_fit()
    ensures few { (lengths : List ℕ) → length lengths ≤ 2 ^ 22 → length_total lengths < 2 ^ 32 → length (length_segments lengths) ≤ 256 }
    ensures range { (comps : ℕ) (lengths : List ℕ) → length lengths ≤ 2 ^ 22 → length_total lengths < 2 ^ 32 → All (InRange comps) (length_segments lengths) }
{}

/// The bytes of lengths below 2^32 are read as just these lengths.
pub fn lengths_are_told()
    ensures { (lengths : List ℕ) → All (λ (n : ℕ). n < 2 ^ 32) lengths → lengths_from 0 (flat_map length_bytes lengths) ≡ lengths }
{}

/// Headers and code-blocks give one file, and no other; a tile of it has one list of tile-parts, since its progression entries send
/// its packets in one order (T.800, A.6.6 and B.12).
pub fn one_output()
    ensures some { (m : Marks) (s : Stream) (blocks : List Block) → AreReady m s → (b : List ℕ) × IsOutput m s blocks b }
    ensures one { (m : Marks) (s : Stream) (blocks : List Block) (b c : List ℕ) → IsOutput m s blocks b → IsOutput m s blocks c → b ≡ c }
    ensures parts { (m : Marks) (s : Stream) (blocks : List Block) (t : ℕ) (xs ys : List TilePart) → AreTilePartsOf m s blocks t xs → AreTilePartsOf m s blocks t ys
        → xs ≡ ys }
{}

/// The headers that are written, with 1 to 65,535 layers, are such as a file may be written from, where nothing is in
/// the way: no POC, PLT, PPM or PPT stands in them, each COD announces SOP and EPH as asked, no tile is cut into over
/// 255 tile-parts, and the index has room for all tile-parts where it is asked (T.800, A.4, A.6 to A.8).
pub fn written_is_ready()
    ensures { (w : Wanted) (layers : ℕ) (s : Stream) → 1 ≤ layers → layers < 2 ^ 16 → MayBeWanted w → HeadersStand s → StreamInRange s → totals_fault s ≡ None
        → IsFree s w layers → AreReady w.marks (headers_with w layers s) }
{
    written_headers_stand();
    written_headers_are_plain();
    parameters_stay();
}

/// A stream and code-blocks that may be planned, written in the layers of a rule that makes 1 to 65,535, where nothing is in the way and each code-block
/// that is coded anew is right, is read as a stream that has its code-blocks as they are written, SIZ but for Rsiz, the parameters but for
/// the order, the layers, the precincts and the style, the steps and the places, and that means what it meant; the first layers of each
/// code-block hold the passes that the rule puts there, with their final values.
pub fn rewritten_is_read()
    ensures { (w : Wanted) (rule : Rule) (before : Stream) (blocks : List Block) (out : List ℕ)
        (is : IsOutput w.marks (headers_with w (layers_of_rule rule before blocks) before) (blocks_written w rule before blocks) out)
        → MayBePlanned before blocks → MakesLayers (Some rule) before blocks
        → MayBeWanted w → IsFreeBy rule before blocks w → All (λ (b : Block). is_wrong w.style b ≡ false) blocks → AllShort is.parts (tile_number before.siz)
        → (after : Stream) × IsKeptIn w rule before after blocks out }
{
    written_headers_stand();
    written_headers_are_plain();
    parameters_stay();
    written_blocks_stand();
    meaning_stays();
    first_layers_are_final();
    jobs_have_these_ends();
    breaks_are_told();
}
