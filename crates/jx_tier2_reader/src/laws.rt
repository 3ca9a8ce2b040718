//! Laws of tile data. Each function's contract is a law over the definitions that `gather` cites, so its body does nothing but
//! cite a law of the crates below.

ghost use Rattle.std.specs.Prelude.{◌≡◌, ◌⊎◌, ◌≤◌, ◌<◌, ◌^◌, ◌++◌, ℕ, List, None, Some, false, length};
ghost use Rattle.std.specs.List.{All};
ghost use Rattle.jx_base.specs.declared.pieces.Block.{Block};
ghost use Rattle.jx_base.specs.Sound.{IsSound};
ghost use Rattle.jx_marker.specs.Codes.{EPH};
ghost use Rattle.jx_packet_header.specs.LeavesFit.{InTypes, LeavesFit};
ghost use Rattle.jx_packet_header.specs.Packet.{State};
ghost use Rattle.jx_progression.specs.declared.names.PacketName.{PacketName};
ghost use Rattle.jx_codestream.specs.declared.Body.{Body};
ghost use Rattle.jx_codestream.specs.declared.Stream.{Stream};
ghost use Rattle.jx_geom.specs.Geometry.{Geometry};
ghost use Rattle.jx_codestream.specs.First.{tile_number};
ghost use Rattle.jx_codestream.specs.declared.faults.StreamFault.{StreamFault};
ghost use Rattle.jx_codestream.specs.Read.{IsRead};
ghost use Rattle.jx_codestream.specs.Shapes.{geometry, layers_of, style_of, tile_at};
ghost use Rattle.jx_tile.specs.Totals.{totals_fault};
ghost use Rattle.jx_tier2_reader.specs.Either.{HasBlocks, HasFault};
ghost use Rattle.jx_tile.specs.Covered.{IsListOf, IsWhole};
ghost use Rattle.jx_tier2_reader.specs.Gathered.{IsBroken, IsCutUp, IsGathered};
ghost use Rattle.jx_tier2_reader.specs.Another.{HaveSameBlocks};
ghost use Rattle.jx_tier2_reader.specs.Blocks.{founds_of};
ghost use Rattle.jx_tier2_reader.specs.Cuts.{AreCuts, Cut, IsCut, Left, names_of};
ghost use Rattle.jx_tier2_reader.specs.Data.{begins_with, due};
ghost use Rattle.jx_tier2_reader.specs.InPlace.{AreFilledBy, IsPlaced, all_of, placed, placed_all, placed_cut, placed_cuts};
ghost use Rattle.jx_tier2_reader.specs.BlockOf.{AreBlocksOf};
ghost use Rattle.jx_tile.specs.Cells.{precinct_bands};
ghost use Rattle.jx_geom.specs.Precincts.{HasPrecinct};
ghost use Rattle.jx_tier2_reader.specs.Carries.{AllCarry};
ghost use Rattle.jx_tier2_reader.specs.Planned.{ArePlanned, leaves_of_blocks};
ghost use Rattle.jx_tier2_reader.specs.WellFormed.{IsWellFormed};
ghost use Rattle.jx_tier2_reader.specs.Written.{AreFilled, AreWritten, IsLaid, Packets, cuts_at, WrittenPacket, laid_blocks, packet_bytes, packets_in};
ghost use Rattle.jx_base.specs.Limits.{most_bytes};

use jx_progression::laws::orders_exist;

/// Tile data have one reading: the blocks of a codestream are given by its bytes.
pub fn one_gathering()
    ensures { (b : List ℕ) (s : Stream) (blocks others : List Block) → IsRead b s → length b < 2 ^ 64 → totals_fault s ≡ None
        → IsGathered b s blocks → IsGathered b s others → blocks ≡ others }
{}

/// At most one rule or limit is the first one that is violated or passed.
pub fn one_violation()
    ensures { (b : List ℕ) (s : Stream) (fault other : StreamFault) → IsRead b s → length b < 2 ^ 64 → IsBroken b s fault → IsBroken b s other → fault ≡ other }
{}

/// Where the blocks are there, no rule is violated.
pub fn never_both()
    ensures { (b : List ℕ) (s : Stream) (blocks : List Block) (fault : StreamFault) → IsRead b s → length b < 2 ^ 64 → totals_fault s ≡ None
        → IsGathered b s blocks → IsBroken b s fault → ⊥ }
{}

/// There are always blocks or a first violation.
pub fn one_of_both()
    ensures { (b : List ℕ) (s : Stream) → IsRead b s → length b < 2 ^ 64 → HasBlocks b s ⊎ HasFault b s }
{
    orders_exist();
}

/// A file of which the blocks are there is well-formed.
pub fn gathered_is_well_formed()
    ensures { (b : List ℕ) (s : Stream) (blocks : List Block) → IsRead b s → IsGathered b s blocks → IsWellFormed b }
{}

/// What is known of the blocks of a codestream: each name has its block at its number, with the rect, planes and style that the
/// headers say, and pieces in layers of its tile, in one layer of at most 164 passes and cut at the ends of segments; each block can
/// be recoded or kept.
pub fn blocks_are_named()
    ensures named { (b : List ℕ) (s : Stream) (blocks : List Block) → IsRead b s → length b ≤ most_bytes → totals_fault s ≡ None → IsGathered b s blocks → AreBlocksOf s blocks }
    ensures sound { (b : List ℕ) (s : Stream) (blocks : List Block) → IsRead b s → length b ≤ most_bytes → totals_fault s ≡ None → IsGathered b s blocks → All IsSound blocks }
{}

/// A tile whose packets stand one after another in the order of its entries, cut into tile-parts between them, is cut up into
/// just these packets: none of the rules 26 to 31 is violated (T.800, A.4.2, A.8, B.9 to B.12).
pub fn laid_is_cut_up()
    ensures { (b : List ℕ) (s : Stream) (t : ℕ) (packets : Packets) (groups : List (List PacketName)) → IsRead b s → totals_fault s ≡ None
        → t < tile_number s.siz → IsWhole s t → IsLaid b s t packets groups → IsCutUp b s t (cuts_at packets (packets_in groups)) }
{}

/// A codestream of such tiles is gathered, with the blocks that its packets tell of.
pub fn laid_is_gathered()
    ensures { (b : List ℕ) (s : Stream) (packets : ℕ → Packets) (groups : ℕ → List (List PacketName)) → IsRead b s → totals_fault s ≡ None
        → ((t : ℕ) → t < tile_number s.siz → IsWhole s t) → ((t : ℕ) → t < tile_number s.siz → IsLaid b s t (packets t) (groups t))
        → IsGathered b s (laid_blocks s packets groups) }
{}

/// Where the packets carry the pieces of given blocks, which are blocks of the stream, the codestream is gathered with just
/// these blocks, whatever the order of the packets is and wherever tile-parts are cut.
pub fn carried_is_gathered()
    ensures { (b : List ℕ) (s : Stream) (blocks : List Block) (packets : ℕ → Packets) (groups : ℕ → List (List PacketName)) → IsRead b s → totals_fault s ≡ None
        → AreBlocksOf s blocks → All IsSound blocks
        → ((t : ℕ) → t < tile_number s.siz → IsWhole s t) → ((t : ℕ) → t < tile_number s.siz → IsLaid b s t (packets t) (groups t))
        → ((t : ℕ) → t < tile_number s.siz → AllCarry s t blocks (packets t)) → IsGathered b s blocks }
{}

/// The blocks of a stream are blocks of another that has the same, as where it sends packets in another order or has other precincts
/// (`jx_geom` has the law for the shapes).
pub fn blocks_of_another()
    ensures { (s other : Stream) (blocks : List Block) → HaveSameBlocks s other → AreBlocksOf s blocks → AreBlocksOf other blocks }
{}

/// The blocks of a stream, sound ones, with their pieces fit the leaves of its precincts, as `jx_packet_header` asks for them where it writes
/// headers: so the blocks that were gathered from one file may be written into another whose stream has them too.
pub fn blocks_fit()
    ensures fit { (b : List ℕ) (s : Stream) (t : ℕ) (blocks : List Block) (c r k : ℕ) → IsRead b s → totals_fault s ≡ None → t < tile_number s.siz → AreBlocksOf s blocks
        → All IsSound blocks → HasPrecinct (geometry s t) c r k
        → LeavesFit (style_of s t c) (layers_of s t) (precinct_bands s (geometry s t) c r k) (leaves_of_blocks s t blocks c r k) }
    ensures types { (b : List ℕ) (s : Stream) (t : ℕ) (blocks : List Block) (c r k : ℕ) → IsRead b s → totals_fault s ≡ None → t < tile_number s.siz → AreBlocksOf s blocks
        → All IsSound blocks → HasPrecinct (geometry s t) c r k → InTypes (layers_of s t) (leaves_of_blocks s t blocks c r k) }
{}

/// Packets of which each precinct's headers are written from the blocks, as `jx_packet_header` writes them, and whose coded bytes are those of
/// the blocks' pieces, are a chain in each precinct, and carry these pieces.
pub fn planned_is_written()
    ensures written { (b : List ℕ) (s : Stream) (t : ℕ) (blocks : List Block) (packets : Packets) → IsRead b s → totals_fault s ≡ None → t < tile_number s.siz
        → AreBlocksOf s blocks → All IsSound blocks → ArePlanned s t blocks packets → AreWritten s t packets }
    ensures carries { (b : List ℕ) (s : Stream) (t : ℕ) (blocks : List Block) (packets : Packets) → IsRead b s → totals_fault s ≡ None → t < tile_number s.siz
        → AreBlocksOf s blocks → All IsSound blocks → ArePlanned s t blocks packets → AllCarry s t blocks packets }
{}

/// A codestream that is written from blocks of its stream is gathered with just these blocks: each tile's packets, written from them,
/// stand in the order of its entries, which cover each packet, and are cut into tile-parts between them.
pub fn planned_is_gathered()
    ensures { (b : List ℕ) (s : Stream) (blocks : List Block) (packets : ℕ → Packets) (groups : ℕ → List (List PacketName)) → IsRead b s → totals_fault s ≡ None
        → AreBlocksOf s blocks → All IsSound blocks
        → ((t : ℕ) → t < tile_number s.siz → IsWhole s t) → ((t : ℕ) → t < tile_number s.siz → IsListOf s t (packets_in (groups t)))
        → ((t : ℕ) → t < tile_number s.siz → (tile_at s t).heads ≡ None)
        → ((t : ℕ) → t < tile_number s.siz → AreFilled b (packets t) 0 (tile_at s t).bodies (groups t))
        → ((t : ℕ) → t < tile_number s.siz → ArePlanned s t blocks (packets t)) → IsGathered b s blocks }
{}

/// A packet whose header stands apart is cut off with the same parts, coded bytes and state where its header, with its
/// EPH, stands in its place before its pieces, whatever follows that isn't an EPH (T.800, A.7.4, A.7.5, A.8 and B.10).
pub fn placed_is_cut()
    ensures { (packed w rest : List ℕ) (number : ℕ) (k : State) (c : Cut) → IsCut (Some packed) w number k c → begins_with rest EPH ≡ false
        → IsCut None (packet_bytes number (placed packed w c) ++ rest) number k (placed_cut packed w c) }
{}

/// Tile data whose packet headers stand apart, and tile data in which each header, with its EPH, stands in its place
/// before its packet's pieces, cut into tile-parts between packets, are cut up alike: into packets of the same names with
/// the same parts, coded bytes and states, so the same pieces of blocks (T.800, A.7.4, A.7.5, B.9 and B.10).
pub fn same_as_in_place()
    ensures cut { (b file : List ℕ) (g : Geometry) (number : ℕ) (bodies : List Body) (old here : Left) (cuts : List Cut) (new : Left) (packed : List ℕ) (groups : List (List WrittenPacket))
        (are : AreCuts b g number old cuts new) → old.packed ≡ Some packed → here.packed ≡ None → here.states ≡ old.states → due here.bodies ≡ due bodies
        → AreFilledBy file number bodies groups → all_of groups ≡ placed_all b g number old cuts new are
        → IsPlaced file g number here (placed_cuts b g number old cuts new are) }
    ensures names { (b : List ℕ) (g : Geometry) (number : ℕ) (old : Left) (cuts : List Cut) (new : Left) (are : AreCuts b g number old cuts new)
        → names_of (placed_cuts b g number old cuts new are) ≡ names_of cuts }
    ensures pieces { (b : List ℕ) (g : Geometry) (number : ℕ) (old : Left) (cuts : List Cut) (new : Left) (are : AreCuts b g number old cuts new)
        → founds_of g (placed_cuts b g number old cuts new are) ≡ founds_of g cuts }
{}
