//! The resolutions of a tile in order, each with what stands before it.

ghost use Rattle.std.specs.Prelude.{◌≡◌, ◌≤◌, ◌<◌, ◌+◌, ◌++◌, ◌∷◌, [], ◌^◌, ◌↔◌, ◌⊎◌, IfOk, IsTrue, OnOk, Some, length, slice_get, slice_index};
ghost use Rattle.jx_base.specs.Joined.{joined};
ghost use Rattle.jx_base.specs.Places.{size_of};
ghost use Rattle.jx_geom.specs.Counts.{
  component_blocks,
  component_precincts,
  precinct_count,
  resolution_blocks,
  tile_blocks,
  tile_precincts,
};
ghost use Rattle.jx_geom.specs.Geometry.{ShapesInRange};
ghost use Rattle.jx_geom.specs.Ranges.{ShapeInRange};
ghost use Rattle.jx_geom.specs.Rects.{component_rect};
ghost use Rattle.jx_geom.specs.Resolutions.{all_places, all_resolutions, one_behind, resolutions_behind};
ghost use Rattle.jx_base.specs.Limits.{most_blocks};

use crate::counts::{count_precincts_at, count_resolution};
use crate::empty::{has_no_place, is_empty_after};
use crate::shape::CompShape;
use jx_base::{NoMemory, Rect};
use std::alloc::Global;

/// A resolution of a tile, and what stands before it there.
#[derive(Clone, Copy, Debug, PartialEq, Eq)]
pub struct Resolution {
    /// The component's number.
    pub comp: u16,
    /// The resolution's number; 0 is the smallest.
    pub res: u8,
    /// How many precincts it has, at most 2^22.
    pub precincts: u32,
    /// The precincts of the tile before its first one: the number of that one.
    pub precincts_before: u32,
    /// The code-blocks of the tile before its first one.
    pub blocks_before: u32,
}

/// How many precincts and code-blocks came before.
#[derive(Clone, Copy)]
struct Before {
    precincts: u32,
    blocks: u32,
}

/// Lists a resolution, and counts it.
fn push_resolution(
    tile: Rect,
    shape: &CompShape,
    comp: u16,
    res: u8,
    before: Before,
    list: &mut Vec<Resolution>,
) -> Result<Before, NoMemory>
    requires shape { ShapeInRange shape.now }
    requires res { res ≤ shape.now.levels }
    requires precincts { before.precincts + precinct_count tile shape.now res ≤ 2 ^ 22 }
    requires blocks { before.blocks + resolution_blocks tile shape.now res ≤ most_blocks }
    ensures list { OnOk result (list.new.items ≡ list.old.items ++ record { comp = comp; res = res; precincts = precinct_count tile shape.now res; precincts_before = before.precincts; blocks_before = before.blocks } ∷ []) }
    ensures precincts { IfOk result (λ b. b.precincts ≡ before.precincts + precinct_count tile shape.now res) }
    ensures blocks { IfOk result (λ b. b.blocks ≡ before.blocks + resolution_blocks tile shape.now res) }
{
    let precincts = count_precincts_at(tile, shape, res) as u32;
    list.push(Resolution {
        comp,
        res,
        precincts,
        precincts_before: before.precincts,
        blocks_before: before.blocks,
    })?;
    Ok(Before {
        precincts: before.precincts + precincts,
        blocks: before.blocks + count_resolution(tile, shape, res) as u32,
    })
}

/// Lists the resolutions of a component behind what came before it.
fn push_resolutions(
    tile: Rect,
    shape: &CompShape,
    comp: u16,
    before: Before,
    list: &mut Vec<Resolution>,
) -> Result<Before, NoMemory>
    requires shape { ShapeInRange shape.now }
    requires precincts { before.precincts + component_precincts tile shape.now ≤ 2 ^ 22 }
    requires blocks { before.blocks + component_blocks tile shape.now ≤ most_blocks }
    ensures list { OnOk result (list.new.items ≡ list.old.items ++ joined (one_behind tile shape.now comp before.precincts before.blocks) 0 (shape.now.levels + 1)) }
    ensures precincts { IfOk result (λ b. b.precincts ≡ before.precincts + component_precincts tile shape.now) }
    ensures blocks { IfOk result (λ b. b.blocks ≡ before.blocks + component_blocks tile shape.now) }
{
    let mut now = before;
    for res in 0..shape.levels + 1 {
        now = push_resolution(tile, shape, comp, res, now, list)?;
    }
    Ok(now)
}

/// The same of a component that may have no place, and then has none.
#[tactic(auto, using(crate::proofs::EmptyLemmas::no_precincts, crate::proofs::EmptyLemmas::no_blocks), unfolding(crate::specs::Resolutions::resolutions_behind))]
fn push_component(
    tile: Rect,
    shape: &CompShape,
    comp: u16,
    none: bool,
    before: Before,
    list: &mut Vec<Resolution>,
) -> Result<Before, NoMemory>
    requires shape { ShapeInRange shape.now }
    requires none { IsTrue none ↔ (size_of (component_rect tile shape.now) ≡ 0) }
    requires precincts { before.precincts + component_precincts tile shape.now ≤ 2 ^ 22 }
    requires blocks { before.blocks + component_blocks tile shape.now ≤ most_blocks }
    ensures list { OnOk result (list.new.items ≡ list.old.items ++ resolutions_behind tile shape.now comp before.precincts before.blocks) }
    ensures precincts { IfOk result (λ b. b.precincts ≡ before.precincts + component_precincts tile shape.now) }
    ensures blocks { IfOk result (λ b. b.blocks ≡ before.blocks + component_blocks tile shape.now) }
{
    if none {
        return Ok(before);
    }
    push_resolutions(tile, shape, comp, before, list)
}

/// The resolutions of a tile.
#[derive(Debug, Drop)]
pub(crate) struct Table {
    /// Where those of a component begin; nothing where no component has a place.
    pub(crate) places: Vec<usize>,
    /// Those of the components that have a place.
    pub(crate) list: Vec<Resolution>,
}

impl Table {
    /// A resolution of a component that has a place.
    pub(crate) fn entry(&self, comp: u16, res: u8) -> Resolution
        requires place { comp < length self.now.places.items }
        requires there { slice_index self.now.places.items comp + res < length self.now.list.items }
        ensures { slice_get self.now.list.items (slice_index self.now.places.items comp + res) ≡ Some result }
    {
        self.list[self.places[usize::from(comp)] + usize::from(res)]
    }
}

/// The resolutions of a tile with components of these shapes.
pub(crate) fn table_of(alloc: Global, tile: Rect, comps: &[CompShape]) -> Result<Table, NoMemory>
    requires few { length comps.now ≤ 2 ^ 14 }
    requires comps { ShapesInRange comps.now }
    requires blocks { tile_blocks tile comps.now ≤ most_blocks }
    requires precincts { tile_precincts tile comps.now ≤ 2 ^ 22 }
    ensures places { IfOk result (λ t. (t.list.items ≡ []) ⊎ (t.places.items ≡ all_places tile comps.now)) }
    ensures list { IfOk result (λ t. t.list.items ≡ all_resolutions tile comps.now) }
{
    if has_no_place(tile, comps) {
        return Ok(Table {
            places: Vec::new(alloc),
            list: Vec::new(alloc),
        });
    }
    let mut places = Vec::with_capacity(alloc, comps.len())?;
    let mut list = Vec::new(alloc);
    let mut before = Before {
        precincts: 0,
        blocks: 0,
    };
    let mut none = false;
    for comp in 0..comps.len() {
        places.push(list.len())?;
        none = is_empty_after(tile, comps, comp, none);
        before = push_component(tile, &comps[comp], comp as u16, none, before, &mut list)?;
    }
    Ok(Table { places, list })
}
