//! The blocks of a precinct as leaves of its tag trees.

ghost use Rattle.std.specs.Prelude.{◌≡◌, ◌≤◌, ◌<◌, ℕ, length, map, Some, IfOk};
ghost use Rattle.jx_geom.specs.Precincts.{HasPrecinct, leaf_number, leaves};
ghost use Rattle.jx_packet_header.specs.Leafs.{leaf_of};
ghost use Rattle.jx_tier2_reader.specs.Planned.{leaf_from};
ghost use Rattle.jx_tier2_writer.specs.Leaves.{leaf_part_from};
ghost use Rattle.jx_tier2_writer.specs.Own.{own_leaves};
ghost use Rattle.jx_base.specs.Limits.{most_blocks};

use crate::block_parts::block_at;
use crate::parts::Coded;
use jx_base::NoMemory;
use jx_codeblock::LayerPart;
use jx_geom::TileGeom;
use jx_packet_header::{HeaderPart, Leaf, LeafPart};
use std::alloc::Global;

/// A part as a leaf has it.
fn part_at(part: &LayerPart, block: u32) -> LeafPart
    requires { part.now.from ≤ part.now.to }
    ensures { result ≡ leaf_part_from block part.now }
{
    let told = HeaderPart {
        block,
        first: part.first,
        passes: part.passes,
        length: part.to - part.from,
    };
    LeafPart {
        layer: part.layer,
        told,
    }
}

/// A block as the leaf of a number.
fn leaf_of<B: Coded>(alloc: Global, block: &B, leaf: u32) -> Result<Leaf, NoMemory>
    ensures { IfOk result (λ made. leaf_of made ≡ leaf_from leaf (Some (B.block block.now))) }
{
    let list = block.parts();
    let mut parts = Vec::with_capacity(alloc, list.len())?;
    for part in list {
        parts.push(part_at(part, leaf))?;
    }
    let zero = block.zero();
    Ok(Leaf { zero, parts })
}

/// The leaves of a precinct, from the blocks of its tile.
pub(crate) fn leaves_of<B: Coded>(
    alloc: Global,
    geom: &TileGeom,
    comp: u16,
    res: u8,
    precinct: u32,
    values: &[B],
) -> Result<Vec<Leaf>, NoMemory>
    requires precinct { HasPrecinct geom.now comp res precinct }
    requires few { leaves geom.now comp res precinct ≤ most_blocks }
    requires all { (j : ℕ) → j < leaves geom.now comp res precinct → leaf_number geom.now comp res precinct j < length values.now }
    ensures { IfOk result (λ made. map leaf_of made.items ≡ own_leaves geom.now (map B.block values.now) comp res precinct) }
{
    let leaves = geom.leaves(comp, res, precinct);
    let mut made = Vec::with_capacity(alloc, leaves.count())?;
    for leaf in 0..leaves.count() as u32 {
        let block = block_at(values, leaves.number(leaf));
        made.push(leaf_of(alloc, block, leaf)?)?;
    }
    Ok(made)
}
