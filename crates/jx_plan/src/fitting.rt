//! Whether a codestream can have the precincts that are asked (ITU-T T.800, A.6.1 and B.7).

ghost use Rattle.std.specs.Prelude.{◌≡◌, ◌<◌, ◌≤◌, ◌-◌, ◌/◌, ◌%◌, ◌||◌, not, ℕ, length, map, min, slice_index, IfErr, IfOk, MatchOption, OnOk, None, Some};
ghost use Rattle.std.specs.List.{list_any, position, range_with_len};
ghost use Rattle.std.specs.Bool.{Decides};
ghost use Rattle.jx_geom.specs.Geometry.{ShapesInRange};
ghost use Rattle.jx_geom.specs.Ranges.{exponent_across, exponent_down};
ghost use Rattle.jx_geom.specs.Same.{AllSameBlocks};
ghost use Rattle.jx_marker.specs.Rules.{has_zero_exponent};
ghost use Rattle.jx_codestream.specs.First.{tile_number};
ghost use Rattle.jx_codestream.specs.InRange.{StreamInRange};
ghost use Rattle.jx_codestream.specs.Params.{precincts_of};
ghost use Rattle.jx_options.specs.Choices.{bytes_in};
ghost use Rattle.jx_plan.specs.Fits.{AreUnfit, CompKeeps, Fits, IsChangedAt, IsChangedFrom, IsMisfitAt, IsMisfitIn, IsSameAt, KeepsBlocks, first_zero, has_zero, shape_has_zero, tile_has_zero};
ghost use Rattle.jx_plan.specs.Headers.{bytes_for, comp_written, item_at};
ghost use Rattle.jx_plan.specs.Standing.{HeadersStand};
ghost use Rattle.jx_plan.specs.Changes.{is_coding};
ghost use Rattle.jx_plan.specs.Steps.{IsKnown};

use crate::{Misfit, PlanFault};
use jx_base::NoMemory;
use jx_codestream::{MainView, Stream, Tile};
use jx_geom::CompShape;
use jx_marker::{Segment, Shape};
use jx_options::PrecinctChoice;
use std::alloc::Global;

/// The byte of a resolution, of which the last stands for all above.
fn item_at(items: &[u8], res: usize) -> u8
    requires { 0 < length items.now }
    ensures { result ≡ item_at items.now res }
{
    items[res.min(items.len() - 1)]
}

fn has_zero_exponent(sizes: u8) -> bool
    ensures { result ≡ has_zero_exponent sizes }
{
    sizes % 16 == 0 || sizes / 16 == 0
}

/// An exponent is 0 above resolution 0.
#[tactic(auto, using(jx_base::proofs::Lists::range_next))]
fn zero_above(items: &[u8], levels: u8) -> bool
    requires { 0 < length items.now }
    ensures { result ≡ list_any has_zero_exponent (map (item_at items.now) (range_with_len 1 levels)) }
{
    for res in 1..usize::from(levels) + 1 {
        if has_zero_exponent(item_at(items, res)) {
            return true;
        }
    }
    false
}

/// A shape with these precincts would have an exponent 0 above resolution 0.
#[tactic(auto, using(crate::proofs::FitLemmas::zero_above, crate::proofs::FitLemmas::zero_none))]
fn shape_has_zero(items: &[u8], shape: &Shape) -> bool
    ensures { result ≡ shape_has_zero (Some items.now) shape.now }
{
    if items.is_empty() {
        return false;
    }
    zero_above(items, shape.levels)
}

fn has_zero(items: &[u8], segment: &Segment) -> bool
    ensures { result ≡ has_zero (Some items.now) segment.now }
{
    match segment {
        Segment::Cod(cod) => shape_has_zero(items, &cod.shape),
        Segment::Coc { comp: _, shape } => shape_has_zero(items, shape),
        _ => false,
    }
}

fn header_has_zero(items: &[u8], header: &[Segment]) -> bool
    ensures { result ≡ list_any (has_zero (Some items.now)) header.now }
{
    for segment in header {
        if has_zero(items, segment) {
            return true;
        }
    }
    false
}

fn tile_has_zero(items: &[u8], tile: &Tile) -> bool
    ensures { result ≡ tile_has_zero (Some items.now) tile.now }
{
    header_has_zero(items, tile.header.as_slice())
}

/// The lowest tile of which a header would have an exponent 0 above resolution 0.
fn zero_tile(items: &[u8], tiles: &[Tile]) -> Option<u32>
    requires { length tiles.now ≤ 65535 }
    ensures { result ≡ position (tile_has_zero (Some items.now)) tiles.now }
{
    for tile in 0..tiles.len() {
        if tile_has_zero(items, &tiles[tile]) {
            return Some(tile as u32);
        }
    }
    None
}

/// Where a header would have an exponent 0 above resolution 0.
fn first_zero(items: &[u8], stream: &Stream) -> Option<u32>
    requires { length stream.now.tiles ≤ 65535 }
    ensures { result ≡ first_zero (Some items.now) stream.now }
{
    if header_has_zero(items, stream.main.as_slice()) {
        return Some(0);
    }
    zero_tile(items, stream.tiles.as_slice())
}

/// The exponents of a resolution with these precincts.
#[tactic(auto, using(crate::proofs::FitLemmas::exponent_none, crate::proofs::FitLemmas::exponent_some))]
fn exponents_at(items: &[u8], res: u8) -> u8
    ensures { (levels : ℕ) → res ≤ levels → levels ≤ 32 → result ≡ slice_index (precincts_of (bytes_for items.now levels)) res }
{
    if items.is_empty() {
        return 255;
    }
    item_at(items, usize::from(res))
}

/// A code-block's exponents at a resolution, of which a precinct has these (B.7, equations B-17 and B-18).
fn block_at(shape: &CompShape, sizes: u8, res: u8) -> (u8, u8)
    ensures across { result.0 ≡ min shape.now.xcb (sizes % 16 - min res 1) }
    ensures down { result.1 ≡ min shape.now.ycb (sizes / 16 - min res 1) }
{
    let part = res.min(1);
    let across = (sizes % 16).saturating_sub(part);
    let down = (sizes / 16).saturating_sub(part);
    (shape.xcb.min(across), shape.ycb.min(down))
}

/// The blocks of a resolution keep their exponents.
fn keeps_at(shape: &CompShape, items: &[u8], res: u8) -> bool
    requires level { res ≤ shape.now.levels }
    requires levels { shape.now.levels ≤ 32 }
    ensures { Decides result (IsSameAt shape.now (comp_written (Some items.now) shape.now) res) }
{
    let before = block_at(shape, shape.precincts[usize::from(res)], res);
    let after = block_at(shape, exponents_at(items, res), res);
    before.0 == after.0 && before.1 == after.1
}

/// The lowest resolution of a component at which a block would have other exponents.
fn first_res(shape: &CompShape, items: &[u8]) -> Option<u8>
    requires { shape.now.levels ≤ 32 }
    ensures { MatchOption result (CompKeeps (Some items.now) shape.now) (λ res. IsChangedFrom (Some items.now) shape.now res) }
{
    for res in 0..shape.levels + 1 {
        if !keeps_at(shape, items, res) {
            return Some(res);
        }
    }
    None
}

/// What a component has at a resolution.
fn misfit_at(shape: &CompShape, comp: u16, res: u8) -> Misfit
    requires { res ≤ 32 }
    ensures place { (result.comp ≡ comp) × (result.res ≡ res) }
    ensures across { result.across ≡ exponent_across shape.now res }
    ensures down { result.down ≡ exponent_down shape.now res }
{
    let sizes = shape.precincts[usize::from(res)];
    Misfit {
        comp,
        res,
        across: sizes % 16,
        down: sizes / 16,
    }
}

/// Where components would change their blocks first.
fn misfit_in(shapes: &[CompShape], items: &[u8]) -> Option<Misfit>
    requires few { length shapes.now ≤ 16384 }
    requires range { ShapesInRange shapes.now }
    ensures { MatchOption result (AllSameBlocks shapes.now (map (comp_written (Some items.now)) shapes.now)) (λ misfit. IsMisfitIn (Some items.now) shapes.now misfit) }
{
    for comp in 0..shapes.len() {
        match first_res(&shapes[comp], items) {
            Some(res) => return Some(misfit_at(&shapes[comp], comp as u16, res)),
            None => {}
        }
    }
    None
}

/// Where the components of a tile would.
fn tile_misfit(
    alloc: Global,
    stream: &Stream,
    main: &MainView<'_>,
    tile: u16,
    items: &[u8],
) -> Result<Option<Misfit>, NoMemory>
    requires main { main.now ≡ record { siz = stream.now.siz; main = stream.now.main } }
    requires range { StreamInRange stream.now }
    requires tile { tile < tile_number stream.now.siz }
    ensures { IfOk result (λ first. MatchOption first (KeepsBlocks (Some items.now) stream.now tile) (λ misfit. IsMisfitAt (Some items.now) stream.now tile misfit)) }
{
    let view = stream.tile_view(alloc, main, tile)?;
    Ok(misfit_in(view.shapes(), items))
}

/// A tile's components keep their blocks.
fn tile_keeps(
    alloc: Global,
    stream: &Stream,
    main: &MainView<'_>,
    tile: u16,
    items: &[u8],
) -> Result<bool, NoMemory>
    requires main { main.now ≡ record { siz = stream.now.siz; main = stream.now.main } }
    requires range { StreamInRange stream.now }
    requires tile { tile < tile_number stream.now.siz }
    ensures { IfOk result (λ keeps. Decides keeps (KeepsBlocks (Some items.now) stream.now tile)) }
{
    let first = tile_misfit(alloc, stream, main, tile, items)?;
    Ok(first.is_none())
}

/// A COD or COC is there.
fn has_coding(header: &[Segment]) -> bool
    ensures { result ≡ list_any is_coding header.now }
{
    for segment in header {
        if matches!(segment, Segment::Cod(_) | Segment::Coc { .. }) {
            return true;
        }
    }
    false
}

/// The same of a tile where it may be known that tiles without COD and COC keep their blocks.
fn known_keeps(
    alloc: Global,
    stream: &Stream,
    main: &MainView<'_>,
    tile: u16,
    items: &[u8],
    known: bool,
) -> Result<bool, NoMemory>
    requires main { main.now ≡ record { siz = stream.now.siz; main = stream.now.main } }
    requires range { StreamInRange stream.now }
    requires tile { tile < tile_number stream.now.siz }
    requires known { IsKnown known (Some items.now) stream.now }
    ensures { IfOk result (λ keeps. Decides keeps (KeepsBlocks (Some items.now) stream.now tile)) }
{
    if known && !has_coding(stream.header(tile)) {
        return Ok(true);
    }
    tile_keeps(alloc, stream, main, tile, items)
}

/// It was known, or the header has neither COD nor COC.
fn is_known(known: bool, header: &[Segment]) -> bool
    ensures { result ≡ (known || not (list_any is_coding header.now)) }
{
    if known {
        return true;
    }
    !has_coding(header)
}

/// The lowest tile in which some effective exponent of a code-block would be another.
fn first_changed(alloc: Global, stream: &Stream, items: &[u8]) -> Result<Option<u16>, NoMemory>
    requires range { StreamInRange stream.now }
    requires above { first_zero (Some items.now) stream.now ≡ None }
    ensures { IfOk result (λ first. MatchOption first (Fits (Some items.now) stream.now) (λ tile. IsChangedAt (Some items.now) stream.now tile)) }
{
    let main = stream.main_view(alloc)?;
    let mut known = false;
    for tile in 0..stream.tile_count() {
        if !known_keeps(alloc, stream, &main, tile, items, known)? {
            return Ok(Some(tile));
        }
        known = is_known(known, stream.header(tile));
    }
    Ok(None)
}

/// Whether a stream can have these precincts.
fn check_items(alloc: Global, stream: &Stream, items: &[u8]) -> Result<(), PlanFault>
    requires { StreamInRange stream.now }
    ensures fits { OnOk result (Fits (Some items.now) stream.now) }
    ensures unfit { IfErr result (λ e. AreUnfit stream.now (Some items.now) e) }
{
    if let Some(place) = first_zero(items, stream) {
        return Err(PlanFault::Choice { number: 3, place });
    }
    if let Some(tile) = first_changed(alloc, stream, items)? {
        return Err(PlanFault::Choice {
            number: 2,
            place: u32::from(tile),
        });
    }
    Ok(())
}

/// Whether a stream can have the precincts that are asked. Time follows the headers, the tiles, and the components of those tiles of
/// which a COD or COC stands in the header, and of one other; where precincts are kept nothing is done.
///
/// # Errors
///
/// Choice 3 exactly where a COD or COC would have an exponent 0 above resolution 0, at 0 where one stands in the main header,
/// else at the lowest tile that has one. Else choice 2 exactly where a code-block's effective exponent would be another at some
/// resolution of some component (B.7, equations B-17 and B-18), at the lowest such tile. `NoMemory` where memory is refused.
pub fn check_precincts(
    alloc: Global,
    stream: &Stream,
    precincts: &PrecinctChoice,
) -> Result<(), PlanFault>
    requires headers { HeadersStand stream.now }
    requires range { StreamInRange stream.now }
    ensures fits { OnOk result (Fits (bytes_in precincts.now) stream.now) }
    ensures unfit { IfErr result (λ e. AreUnfit stream.now (bytes_in precincts.now) e) }
{
    match precincts.bytes() {
        Some(items) => check_items(alloc, stream, items),
        None => Ok(()),
    }
}

/// Where the precincts that are asked would change the code-blocks of a tile: its lowest component, and the lowest resolution of that, at
/// which a code-block's effective exponents would be others (B.7, equations B-17 and B-18), with the exponents of the input's own precincts
/// there. None exactly where the tile keeps its code-blocks. Time follows the headers and the tile's components.
///
/// # Errors
///
/// `NoMemory` where memory is refused.
pub fn first_misfit(
    alloc: Global,
    stream: &Stream,
    tile: u16,
    precincts: &PrecinctChoice,
) -> Result<Option<Misfit>, NoMemory>
    requires range { StreamInRange stream.now }
    requires tile { tile < tile_number stream.now.siz }
    ensures { IfOk result (λ first. MatchOption first (KeepsBlocks (bytes_in precincts.now) stream.now tile) (λ misfit. IsMisfitAt (bytes_in precincts.now) stream.now tile misfit)) }
{
    match precincts.bytes() {
        Some(items) => {
            let main = stream.main_view(alloc)?;
            tile_misfit(alloc, stream, &main, tile, items)
        }
        None => Ok(None),
    }
}
