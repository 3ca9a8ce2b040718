//! The packets of a tile in their order, and rule 25 (ITU-T T.800, A.6.6 and B.12).

ghost use Rattle.std.specs.Prelude.{◌≡◌, ◌≢◌, ◌<◌, ◌≤◌, ◌^◌, ◌↔◌, ℕ, None, length, IfOk, IfErr, OnOk};
ghost use Rattle.std.specs.List.{All, AllPairs, Contains};
ghost use Rattle.jx_progression.specs.declared.names.PacketName.{PacketName};
ghost use Rattle.jx_progression.specs.Packets.{IsPacketName};
ghost use Rattle.jx_marker.specs.RuleNumbers.{UNCOVERED};
ghost use Rattle.jx_codestream.specs.First.{tile_number};
ghost use Rattle.jx_codestream.specs.InRange.{StreamInRange};
ghost use Rattle.jx_codestream.specs.Shapes.{geometry, layers_of};
ghost use Rattle.jx_tile.specs.Covered.{IsListOf, IsUncovered, IsWhole, LacksPacket};
ghost use Rattle.jx_tile.specs.Faults.{HasCause};
ghost use Rattle.jx_tile.specs.Totals.{totals_fault};

use crate::TileFrame;
use jx_codestream::{MainView, Stream, StreamFault, Tile};
use jx_marker::rule_numbers;
use jx_progression::{OrderFault, PacketName, are_covered, packets};
use std::alloc::Global;

/// Rule 25 at a tile's first SOT.
fn uncovered(tile: &Tile) -> StreamFault
    ensures { result ≡ StreamFault.Rule UNCOVERED tile.now.place }
{
    StreamFault::Rule {
        number: rule_numbers::UNCOVERED,
        place: tile.place,
    }
}

impl<'a> TileFrame<'a> {
    /// The packets of the tile, at most 2^22, each once, in the order in which they are sent (T.800, B.12).
    ///
    /// # Errors
    ///
    /// Rule 25 at the tile's first SOT where some packet is in no progression entry; `NoMemory` where memory is refused.
    pub fn names(&self, alloc: Global) -> Result<Vec<PacketName>, StreamFault>
        ensures order { IfOk result (λ list. IsListOf self.now.stream self.now.number list.items) }
        ensures whole { OnOk result (IsWhole self.now.stream self.now.number) }
        ensures every { IfOk result (λ list. (p : PacketName) → Contains list.items p ↔ IsPacketName (geometry self.now.stream self.now.number) (layers_of self.now.stream self.now.number) p) }
        ensures once { IfOk result (λ list. AllPairs (λ p q. p ≢ q) list.items) }
        ensures each { IfOk result (λ list. All (IsPacketName (geometry self.now.stream self.now.number) (layers_of self.now.stream self.now.number)) list.items) }
        ensures few { IfOk result (λ list. length list.items ≤ 2 ^ 22) }
        ensures uncovered { IfErr result (λ fault. HasCause (LacksPacket self.now.stream self.now.number) fault) }
    {
        let tile = self.tile();
        let (_, view, geom) = self.parts();
        match packets(alloc, geom, view.layers(), tile.progressions.as_slice()) {
            Ok(list) => Ok(list),
            Err(OrderFault::Uncovered) => Err(uncovered(tile)),
            Err(OrderFault::NoMemory) => Err(StreamFault::NoMemory),
        }
    }

    /// Whether each packet of the tile is in some progression entry (T.800, A.6.6), without a list of them.
    ///
    /// # Errors
    ///
    /// Rule 25 at the tile's first SOT where one isn't; `NoMemory` where memory is refused.
    pub fn check(&self, alloc: Global) -> Result<(), StreamFault>
        ensures whole { OnOk result (IsWhole self.now.stream self.now.number) }
        ensures uncovered { IfErr result (λ fault. HasCause (LacksPacket self.now.stream self.now.number) fault) }
    {
        let tile = self.tile();
        let (_, view, geom) = self.parts();
        let whole = match are_covered(alloc, geom, view.layers(), tile.progressions.as_slice()) {
            Ok(whole) => whole,
            Err(_) => return Err(StreamFault::NoMemory),
        };
        if whole {
            return Ok(());
        }
        Err(uncovered(tile))
    }
}

/// Whether the packets of one tile are covered.
fn check_tile(
    alloc: Global,
    stream: &Stream,
    main: &MainView<'_>,
    tile: u16,
) -> Result<(), StreamFault>
    requires main { main.now ≡ record { siz = stream.now.siz; main = stream.now.main } }
    requires range { StreamInRange stream.now }
    requires totals { totals_fault stream.now ≡ None }
    requires tile { tile < tile_number stream.now.siz }
    ensures whole { OnOk result (IsWhole stream.now tile) }
    ensures uncovered { IfErr result (λ fault. HasCause (LacksPacket stream.now tile) fault) }
{
    let frame = TileFrame::new(alloc, stream, main, tile)?;
    let result = frame.check(alloc);
    drop(frame);
    result
}

/// Whether the packets of each tile from one on are covered, where those of the tiles below it are.
///
/// # Errors
///
/// Rule 25 at the first SOT of the lowest tile where one isn't; `NoMemory` where memory is refused.
pub fn check_covered(
    alloc: Global,
    stream: &Stream,
    main: &MainView<'_>,
    from: u16,
) -> Result<(), StreamFault>
    requires main { main.now ≡ record { siz = stream.now.siz; main = stream.now.main } }
    requires range { StreamInRange stream.now }
    requires totals { totals_fault stream.now ≡ None }
    requires before { (t : ℕ) → t < from → IsWhole stream.now t }
    ensures whole { OnOk result ((t : ℕ) → t < tile_number stream.now.siz → IsWhole stream.now t) }
    ensures uncovered { IfErr result (λ fault. HasCause (IsUncovered stream.now) fault) }
{
    for tile in from..stream.tile_count() {
        check_tile(alloc, stream, main, tile)?;
    }
    Ok(())
}
