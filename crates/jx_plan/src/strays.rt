//! Packets that no volume has, as a stream is to be written (ITU-T T.800, A.6.6 and B.12).

ghost use Rattle.std.specs.Prelude.{◌≡◌, ◌<◌, ◌≤◌, ℕ, [], true, IfErr, IfOk, MatchOption, OnOk, None, Some, length};
ghost use Rattle.std.specs.Bool.{Decides};
ghost use Rattle.jx_codestream.specs.First.{tile_number};
ghost use Rattle.jx_codestream.specs.InRange.{StreamInRange};
ghost use Rattle.jx_options.specs.Wanted.{MayBeWanted};
ghost use Rattle.jx_codestream.specs.Shapes.{tile_at};
ghost use Rattle.jx_plan.specs.Changes.{has_long, has_outside, main_order};
ghost use Rattle.jx_plan.specs.Fits.{Fits};
ghost use Rattle.jx_plan.specs.Plan.{headers_with, most_packets};
ghost use Rattle.jx_plan.specs.Standing.{HeadersStand};
ghost use Rattle.jx_plan.specs.Steps.{IsAnyStray};
ghost use Rattle.jx_plan.specs.Strays.{HasNoStray, HasNoStrayIn, IsFirstStray};
ghost use Rattle.jx_tile.specs.Covered.{IsWhole, LacksPacket};
ghost use Rattle.jx_tile.specs.Faults.{HasCause};
ghost use Rattle.jx_tile.specs.Totals.{packet_total, totals_fault};

use crate::PlanFault;
use crate::changes::{MainOrder, has_outside};
use crate::own_entries::has_long;
use jx_base::NoMemory;
use jx_codestream::{MainView, Stream, StreamFault};
use jx_options::{Options, PocChoice};
use jx_tile::TileFrame;
use std::alloc::Global;

/// Whether each packet of a tile is in some entry that applies, as a fault where one isn't.
fn check_tile(
    alloc: Global,
    written: &Stream,
    main: &MainView<'_>,
    tile: u16,
) -> Result<(), StreamFault>
    requires main { main.now ≡ record { siz = written.now.siz; main = written.now.main } }
    requires range { StreamInRange written.now }
    requires totals { totals_fault written.now ≡ None }
    requires tile { tile < tile_number written.now.siz }
    ensures whole { OnOk result (IsWhole written.now tile) }
    ensures uncovered { IfErr result (λ fault. HasCause (LacksPacket written.now tile) fault) }
{
    let frame = TileFrame::new(alloc, written, main, tile)?;
    let result = frame.check(alloc);
    drop(frame);
    result
}

/// Whether each packet of a tile is in some entry that applies.
fn is_whole(
    alloc: Global,
    written: &Stream,
    main: &MainView<'_>,
    tile: u16,
) -> Result<bool, NoMemory>
    requires main { main.now ≡ record { siz = written.now.siz; main = written.now.main } }
    requires range { StreamInRange written.now }
    requires totals { totals_fault written.now ≡ None }
    requires tile { tile < tile_number written.now.siz }
    ensures { IfOk result (λ whole. Decides whole (IsWhole written.now tile)) }
{
    match check_tile(alloc, written, main, tile) {
        Ok(()) => Ok(true),
        Err(StreamFault::NoMemory) => Err(NoMemory),
        Err(StreamFault::Rule { .. }) => Ok(false),
        Err(StreamFault::Limit { .. }) => Ok(false),
    }
}

fn comp_count(stream: &Stream) -> u16
    requires { StreamInRange stream.now }
    ensures { result ≡ length stream.now.siz.comps }
{
    stream.siz.comps.as_slice().len() as u16
}

/// Whether a tile's own entries, where they are kept, pass what a POC segment holds.
fn tile_has_long(
    alloc: Global,
    stream: &Stream,
    options: &Options,
    order: &MainOrder,
    tile: u16,
) -> Result<bool, NoMemory>
    requires order { order.now ≡ main_order stream.now.main }
    requires own { StreamInRange stream.now }
    requires tile { tile < tile_number stream.now.siz }
    ensures { IfOk result (λ long. long
        ≡ has_long (length stream.now.siz.comps) options.now.changes (main_order stream.now.main) (tile_at stream.now tile)) }
{
    has_long(
        alloc,
        comp_count(stream),
        &options.poc,
        order,
        stream.tile(tile),
    )
}

/// A tile has no packet without a volume, and its own entries have room in a POC segment.
fn has_no_stray(
    alloc: Global,
    stream: &Stream,
    options: &Options,
    layers: u16,
    written: &Stream,
    main: &MainView<'_>,
    order: &MainOrder,
    tile: u16,
) -> Result<bool, NoMemory>
    requires written { written.now ≡ headers_with options.now layers stream.now }
    requires main { main.now ≡ record { siz = written.now.siz; main = written.now.main } }
    requires range { StreamInRange written.now }
    requires totals { totals_fault written.now ≡ None }
    requires order { order.now ≡ main_order stream.now.main }
    requires own { StreamInRange stream.now }
    requires tile { tile < tile_number stream.now.siz }
    ensures { IfOk result (λ placed. Decides placed (HasNoStrayIn stream.now options.now layers tile)) }
{
    let long = tile_has_long(alloc, stream, options, order, tile)?;
    if long {
        return Ok(false);
    }
    is_whole(alloc, written, main, tile)
}

/// The lowest tile of which it isn't so.
fn first_stray(
    alloc: Global,
    stream: &Stream,
    options: &Options,
    layers: u16,
    written: &Stream,
) -> Result<Option<u16>, NoMemory>
    requires written { written.now ≡ headers_with options.now layers stream.now }
    requires range { StreamInRange written.now }
    requires totals { totals_fault written.now ≡ None }
    requires own { StreamInRange stream.now }
    ensures { IfOk result (λ first. MatchOption first
        ((t : ℕ) → t < tile_number stream.now.siz → HasNoStrayIn stream.now options.now layers t)
        (λ tile. IsFirstStray stream.now options.now layers tile)) }
{
    let main = written.main_view(alloc)?;
    let order = MainOrder::new(alloc, stream.main.as_slice())?;
    for tile in 0..stream.tile_count() {
        let placed = has_no_stray(alloc, stream, options, layers, written, &main, &order, tile)?;
        if !placed {
            return Ok(Some(tile));
        }
    }
    Ok(None)
}

/// No progression change is written.
fn writes_none(options: &Options) -> bool
    ensures { result ≡ true → options.now.changes ≡ Some [] }
{
    matches!(options.poc, PocChoice::None)
}

/// Whether some volume that is asked begins above the components.
fn is_outside(stream: &Stream, options: &Options) -> bool
    requires { StreamInRange stream.now }
    ensures { result ≡ has_outside (length stream.now.siz.comps) options.now.changes }
{
    has_outside(comp_count(stream), &options.poc)
}

/// Whether the volumes that are asked, or those of the input where they are kept, have each packet that is written.
/// Without either nothing is done: the one entry of a COD has all packets.
///
/// # Errors
///
/// Choice 12 at 0 exactly where a volume begins above the components; else exactly where a packet of a tile is in no
/// volume that applies, or a tile's joined entries pass what a POC segment holds, at the lowest such tile. `NoMemory`
/// where memory is refused.
pub(crate) fn check_changes(
    alloc: Global,
    stream: &Stream,
    options: &Options,
    layers: u16,
    written: &Stream,
) -> Result<(), PlanFault>
    requires stand { HeadersStand stream.now }
    requires range { StreamInRange stream.now }
    requires totals { totals_fault stream.now ≡ None }
    requires wanted { MayBeWanted options.now }
    requires fits { Fits options.now.precincts stream.now }
    requires some { 1 ≤ layers }
    requires written { written.now ≡ headers_with options.now layers stream.now }
    requires few { packet_total (headers_with options.now layers stream.now) ≤ most_packets }
    ensures placed { OnOk result (HasNoStray stream.now options.now layers) }
    ensures cause { IfErr result (λ e. IsAnyStray stream.now options.now layers e) }
{
    if writes_none(options) {
        return Ok(());
    }
    if is_outside(stream, options) {
        return Err(PlanFault::Choice {
            number: 12,
            place: 0,
        });
    }
    match first_stray(alloc, stream, options, layers, written) {
        Ok(None) => Ok(()),
        Ok(Some(tile)) => Err(PlanFault::Choice {
            number: 12,
            place: u32::from(tile),
        }),
        Err(NoMemory) => Err(PlanFault::NoMemory),
    }
}
