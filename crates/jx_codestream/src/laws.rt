//! Laws over the definitions of a codestream. The functions do nothing: their contracts carry the laws.

ghost use Rattle.std.specs.Prelude.{◌≡◌, ◌≤◌, ◌<◌, ◌+◌, ◌*◌, ◌%◌, ◌⊎◌, ℕ, List, None, Some, length, true};
ghost use Rattle.std.specs.List.{range_with_len};
ghost use Rattle.std.specs.Option.{option_or};
ghost use Rattle.jx_marker.specs.Ranges.{AreBytes};
ghost use Rattle.jx_codestream.specs.declared.Stream.{Stream};
ghost use Rattle.jx_codestream.specs.declared.faults.StreamFault.{StreamFault};
ghost use Rattle.jx_codestream.specs.First.{canvas_of, first_fault, stream_in, tile_number, tiles_fault};
ghost use Rattle.jx_codestream.specs.Params.{band_count, headers_at, level_of, number_of, planes_fault};
ghost use Rattle.jx_codestream.specs.Spells.{Spells};
ghost use Rattle.jx_codestream.specs.FirstViolated.{IsFirst};
ghost use Rattle.jx_codestream.specs.Read.{IsRead};
ghost use Rattle.jx_codestream.specs.InRange.{HeadersInRange, StreamInRange};
ghost use Rattle.jx_marker.specs.declared.Segment.{Segment};
ghost use Rattle.jx_marker.specs.declared.Siz.{Siz};
ghost use Rattle.jx_marker.specs.Rules.{siz_fits};
ghost use Rattle.jx_geom.specs.declared.shape.CompShape.{CompShape};
ghost use Rattle.jx_geom.specs.Ranges.{CanvasInRange, HasBand};
ghost use Rattle.jx_geom.specs.Rects.{band_level};
ghost use Rattle.jx_base.specs.declared.names.Band.{Band};
ghost use Rattle.jx_codestream.specs.Headers.{coc_slot, cod_slot, crg_slot, packed_slot, poc_slot, qcc_slot, qcd_slot, rgn_slot, slot_of};
ghost use Rattle.jx_codestream.specs.Kinds.{IsCoc, IsCod, IsCrg, IsPacked, IsPoc, IsQcc, IsQcd, IsRgn};
ghost use Rattle.jx_codestream.specs.BandNumbers.{all_numbers};

/// A file that violates no rule from 1 to 24 and passes none of the limits 3 and 4 spells the stream that is
/// read from it.
pub fn reading_is_spelled()
    ensures { (b : List ℕ) → AreBytes b → first_fault b ≡ None → Spells b (stream_in b) }
{}

/// A file that spells a stream violates none of the rules: what it passes first is limit 3, else limit 4, else
/// nothing, each by that stream, which is the one that is read.
pub fn spelling_is_read()
    ensures stream { (b : List ℕ) (stream : Stream) → Spells b stream → stream ≡ stream_in b }
    ensures fault { (b : List ℕ) (stream : Stream) → Spells b stream
        → first_fault b ≡ option_or (tiles_fault stream.siz) (planes_fault stream.main (length stream.siz.comps) stream.tiles) }
{}

/// A file spells at most one stream.
pub fn one_stream()
    ensures { (b : List ℕ) (one other : Stream) → Spells b one → Spells b other → one ≡ other }
{}

/// What the reader finds first is the first rule that the file violates or limit that it passes.
pub fn first_is_told()
    ensures { (b : List ℕ) (fault : StreamFault) → AreBytes b → first_fault b ≡ Some fault → IsFirst b fault }
{}

/// The first rule that a file violates or limit that it passes is what the reader finds first.
pub fn told_is_first()
    ensures { (b : List ℕ) (fault : StreamFault) → IsFirst b fault → first_fault b ≡ Some fault }
{}

/// One rule at one place or one limit is the first.
pub fn one_first()
    ensures { (b : List ℕ) (one other : StreamFault) → IsFirst b one → IsFirst b other → one ≡ other }
{}

/// A file violates a rule or passes a limit first, or it spells a stream within the limits 3 and 4, and never both.
pub fn violated_or_spelled()
    ensures either { (b : List ℕ) → AreBytes b
        → ((fault : StreamFault) × IsFirst b fault) ⊎ ((stream : Stream) × IsRead b stream) }
    ensures never_both { (b : List ℕ) (fault : StreamFault) (stream : Stream) → IsFirst b fault → IsRead b stream → ⊥ }
{}

/// The headers of a stream that was read, and those of each of its tiles, are within their ranges.
pub fn read_is_in_range()
    ensures stream { (b : List ℕ) (stream : Stream) → IsRead b stream → StreamInRange stream }
    ensures tiles { (stream : Stream) (tile : ℕ) → StreamInRange stream → tile < tile_number stream.siz → HeadersInRange (headers_at stream tile) }
{}

/// The canvas of a SIZ that rule 4 lets through is in its range.
pub fn siz_is_in_range()
    ensures { (siz : Siz) → siz_fits siz ≡ true → CanvasInRange (canvas_of siz) }
{}

/// The numbers by which a header's segments are found tell their kind, and their component.
pub fn slots_are_kinds()
    ensures cod { (s : Segment) → (slot_of s ≡ cod_slot → IsCod s) × (IsCod s → slot_of s ≡ cod_slot) }
    ensures qcd { (s : Segment) → (slot_of s ≡ qcd_slot → IsQcd s) × (IsQcd s → slot_of s ≡ qcd_slot) }
    ensures poc { (s : Segment) → (slot_of s ≡ poc_slot → IsPoc s) × (IsPoc s → slot_of s ≡ poc_slot) }
    ensures crg { (s : Segment) → (slot_of s ≡ crg_slot → IsCrg s) × (IsCrg s → slot_of s ≡ crg_slot) }
    ensures packed { (s : Segment) (index : ℕ) → (slot_of s ≡ packed_slot index → (other : ℕ) × IsPacked other s × (other % 256 ≡ index % 256)) × (IsPacked index s → slot_of s ≡ packed_slot index) }
    ensures coc { (s : Segment) (comp : ℕ) → (slot_of s ≡ coc_slot comp → IsCoc comp s) × (IsCoc comp s → slot_of s ≡ coc_slot comp) }
    ensures qcc { (s : Segment) (comp : ℕ) → (slot_of s ≡ qcc_slot comp → IsQcc comp s) × (IsQcc comp s → slot_of s ≡ qcc_slot comp) }
    ensures rgn { (s : Segment) (comp : ℕ) → (slot_of s ≡ rgn_slot comp → IsRgn comp s) × (IsRgn comp s → slot_of s ≡ rgn_slot comp) }
{}

/// The bands of a component, by resolution and in their order, have the numbers from 0 to 3 times the levels, and the
/// level of each is that of its geometry.
pub fn bands_are_numbered()
    ensures numbers { (levels : ℕ) → all_numbers levels ≡ range_with_len 0 (band_count levels) }
    ensures levels { (shape : CompShape) (res : ℕ) (band : Band) → res ≤ shape.levels → HasBand res band
        → level_of shape.levels (number_of res band) ≡ band_level shape res band }
{}
