//! What is tested once all tile-parts were read. Tiles whose headers give no parameter are tested once for all.

ghost use Rattle.std.specs.Prelude.{◌≡◌, ◌≤◌, ◌<◌, ◌+◌, ◌-◌, ◌*◌, ◌^◌, nat_lt, length, map, IfOk, ℕ, [], None, true, false};
ghost use Rattle.std.specs.List.{find, flat_map, list_any, range_with_len};
ghost use Rattle.jx_codestream.specs.Faults.{Answers};
ghost use Rattle.jx_codestream.specs.Index.{has_named};
ghost use Rattle.jx_codestream.specs.Params.{band_count, band_planes, entries_fault, has_too_few, header_has_too_few, header_planes, planes_fault, planes_of, quant_of, shape_of, shift_of};

use crate::index::{Index, comp_named, has_default};
use crate::precedence::{quant_of, shape_of, shift_of};
use crate::steps::planes_of;
use crate::{StreamFault, Tile};
use jx_marker::{Quant, Segment, rule_numbers};
use std::alloc::{AllocError, Global};

fn comp_has_too_few(tile: &Index, main: &Index, comp: u16) -> bool
    ensures { result ≡ has_too_few (quant_of tile.now.segments.now main.now.segments.now comp) (shape_of tile.now.segments.now main.now.segments.now comp) }
{
    let Some(quant) = quant_of(tile, main, comp) else {
        return false;
    };
    let Some(shape) = shape_of(tile, main, comp) else {
        return false;
    };
    let style = quant.sqcd % 32;
    (style == 0 || style == 2) && quant.entries.as_slice().len() < 3 * usize::from(shape.levels) + 1
}

/// The planes of the component's first band that has too many.
fn comp_over(tile: &Index, main: &Index, comp: u16) -> Option<u32>
    ensures { result ≡ find (nat_lt 74) (band_planes (quant_of tile.now.segments.now main.now.segments.now comp) (shape_of tile.now.segments.now main.now.segments.now comp) (shift_of tile.now.segments.now main.now.segments.now comp)) }
{
    let Some(quant) = quant_of(tile, main, comp) else {
        return None;
    };
    let Some(shape) = shape_of(tile, main, comp) else {
        return None;
    };
    first_over(quant, shape.levels, shift_of(tile, main, comp))
}

fn first_over(quant: &Quant, levels: u8, shift: u8) -> Option<u32>
    ensures { result ≡ find (nat_lt 74) (map (planes_of quant.now levels shift) (range_with_len 0 (band_count levels))) }
{
    let count = 3 * usize::from(levels) + 1;
    for number in 0..count {
        let planes = planes_of(quant, levels, shift, number);
        if planes > 74 {
            return Some(planes);
        }
    }
    None
}

fn has_too_few(tile: &Index, main: &Index, comps: u16) -> bool
    ensures { result ≡ header_has_too_few main.now.segments.now comps tile.now.segments.now }
{
    for comp in 0..comps {
        if comp_has_too_few(tile, main, comp) {
            return true;
        }
    }
    false
}

fn tile_over(tile: &Index, main: &Index, comps: u16) -> Option<u32>
    ensures { result ≡ find (nat_lt 74) (header_planes main.now.segments.now comps tile.now.segments.now) }
{
    for comp in 0..comps {
        let over = comp_over(tile, main, comp);
        if over.is_some() {
            return over;
        }
    }
    None
}

/// Whether a component of which some of these segments gives parameters has too few entries.
fn names_short(tile: &Index, main: &Index, segments: &[Segment]) -> bool
    ensures { result ≡ false → (comp : ℕ) → has_named comp segments.now ≡ true → has_too_few (quant_of tile.now.segments.now main.now.segments.now comp) (shape_of tile.now.segments.now main.now.segments.now comp) ≡ false }
{
    for segment in segments {
        if let Some(comp) = comp_named(segment) {
            if comp_has_too_few(tile, main, comp) {
                return true;
            }
        }
    }
    false
}

/// Whether a component of which some of these segments gives parameters has a band with too many planes.
fn names_over(tile: &Index, main: &Index, segments: &[Segment]) -> bool
    ensures { result ≡ false → (comp : ℕ) → has_named comp segments.now ≡ true → find (nat_lt 74) (band_planes (quant_of tile.now.segments.now main.now.segments.now comp) (shape_of tile.now.segments.now main.now.segments.now comp) (shift_of tile.now.segments.now main.now.segments.now comp)) ≡ None }
{
    for segment in segments {
        if let Some(comp) = comp_named(segment) {
            if comp_over(tile, main, comp).is_some() {
                return true;
            }
        }
    }
    false
}

/// Whether some component of a tile with this header has too few entries. `bare` says it of a tile whose header gives
/// no parameter.
#[tactic(auto, using(crate::proofs::BareLemmas::bare_too_few, crate::proofs::NamedLemmas::named_too_few))]
fn is_short(
    alloc: Global,
    main: &Index,
    comps: u16,
    header: &[Segment],
    bare: bool,
) -> Result<bool, AllocError>
    requires { bare ≡ header_has_too_few main.now.segments.now comps [] }
    ensures { IfOk result (λ short. short ≡ header_has_too_few main.now.segments.now comps header.now) }
{
    let own = Index::new(alloc, header, comps)?;
    if own.bare {
        return Ok(bare);
    }
    if !bare && !has_default(header) && !names_short(&own, main, header) {
        return Ok(false);
    }
    Ok(has_too_few(&own, main, comps))
}

/// Whether each component of each tile has quantization entries for its bands.
#[tactic(auto, unfolding(crate::specs::Params::tile_has_too_few))]
pub fn check_entries(
    alloc: Global,
    main: &Index,
    comps: u16,
    tiles: &[Tile],
) -> Result<(), StreamFault>
    ensures { Answers result (entries_fault main.now.segments.now comps tiles.now) (λ _. Unit {0}) }
{
    let bare = has_too_few(&Index::listed(&[]), main, comps);
    for tile in tiles {
        if is_short(alloc, main, comps, tile.header.as_slice(), bare)? {
            return Err(StreamFault::Rule {
                number: rule_numbers::QUANTIZATION,
                place: tile.place,
            });
        }
    }
    Ok(())
}

/// The first number over 74 of the planes of a tile with this header. `bare_over` is that of a tile whose header gives no
/// parameter.
#[tactic(auto, using(crate::proofs::BareLemmas::bare_over))]
fn over_of(
    alloc: Global,
    main: &Index,
    comps: u16,
    header: &[Segment],
    bare_over: Option<u32>,
) -> Result<Option<u32>, AllocError>
    requires { bare_over ≡ find (nat_lt 74) (header_planes main.now.segments.now comps []) }
    ensures { IfOk result (λ over. over ≡ find (nat_lt 74) (header_planes main.now.segments.now comps header.now)) }
{
    let own = Index::new(alloc, header, comps)?;
    if own.bare {
        return Ok(bare_over);
    }
    if bare_over.is_none() && !has_default(header) && !names_over(&own, main, header) {
        return Ok(None);
    }
    Ok(tile_over(&own, main, comps))
}

/// Whether no band has more than 74 planes.
#[tactic(auto, unfolding(crate::specs::Params::tile_planes))]
pub fn check_planes(
    alloc: Global,
    main: &Index,
    comps: u16,
    tiles: &[Tile],
) -> Result<(), StreamFault>
    ensures { Answers result (planes_fault main.now.segments.now comps tiles.now) (λ _. Unit {0}) }
{
    let bare_over = tile_over(&Index::listed(&[]), main, comps);
    for tile in tiles {
        if let Some(planes) = over_of(alloc, main, comps, tile.header.as_slice(), bare_over)? {
            return Err(StreamFault::Limit {
                number: 4,
                found: u128::from(planes),
            });
        }
    }
    Ok(())
}
