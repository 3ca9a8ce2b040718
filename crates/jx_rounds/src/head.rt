//! What stands before the first tile-part.

ghost use Rattle.std.specs.Prelude.{◌≡◌, ◌++◌, true, IfOk};
ghost use Rattle.jx_plan.specs.Plan.{IsPlan, headers_of};
ghost use Rattle.jx_tier2_writer.specs.Tile.{main_bytes};
ghost use Rattle.jx_rounds.specs.Heads.{AreMeasured, IsHead};

use crate::making::Making;
use jx_base::NoMemory;
use jx_tier2_writer::{PartLength, index_bytes};
use std::alloc::Global;

/// Bytes with others behind them.
fn with_behind(bytes: Vec<u8>, behind: &[u8]) -> Result<Vec<u8>, NoMemory>
    ensures { IfOk result (λ all. all.items ≡ bytes.items ++ behind.now) }
{
    let mut all = bytes;
    all.extend_from_slice(behind)?;
    Ok(all)
}

/// The main header of a plan with the index of all tile-parts behind it, of which these are the lengths.
pub fn indexed_head(
    alloc: Global,
    making: &Making<'_, '_>,
    header: Vec<u8>,
    lengths: &[PartLength],
) -> Result<Vec<u8>, NoMemory>
    requires plan { IsPlan making.now }
    requires asked { making.now.wanted.marks.tlm ≡ true }
    requires header { header.items ≡ main_bytes (headers_of making.now) }
    requires measured { AreMeasured making.now lengths.now }
    ensures { IfOk result (λ head. IsHead making.now head.items) }
{
    let index = index_bytes(alloc, lengths)?;
    with_behind(header, &index)
}
