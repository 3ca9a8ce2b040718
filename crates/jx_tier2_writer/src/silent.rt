//! A precinct of which nothing is sent: no block has a part, so each of its packets is empty (ITU-T T.800, B.10.3).

ghost use Rattle.std.specs.Prelude.{◌≡◌, ◌≤◌, ◌<◌, [], ℕ, true, length, map};
ghost use Rattle.jx_geom.specs.Precincts.{HasPrecinct, leaf_number, leaves};
ghost use Rattle.jx_tier2_writer.specs.Silent.{AreSilent};
ghost use Rattle.jx_base.specs.Limits.{most_blocks};

use crate::block_parts::block_at;
use crate::parts::Coded;
use jx_geom::TileGeom;

/// Whether a block has no part.
fn is_silent<B: Coded>(block: &B) -> bool
    ensures { result ≡ true → (B.block block.now).pieces ≡ [] }
{
    block.parts().is_empty()
}

/// Whether no block of a precinct has a part, from the blocks of its tile.
pub(crate) fn are_silent<B: Coded>(
    geom: &TileGeom,
    comp: u16,
    res: u8,
    precinct: u32,
    values: &[B],
) -> bool
    requires precinct { HasPrecinct geom.now comp res precinct }
    requires few { leaves geom.now comp res precinct ≤ most_blocks }
    requires all { (j : ℕ) → j < leaves geom.now comp res precinct → leaf_number geom.now comp res precinct j < length values.now }
    ensures { result ≡ true → AreSilent geom.now (map B.block values.now) comp res precinct }
{
    let leaves = geom.leaves(comp, res, precinct);
    for leaf in 0..leaves.count() as u32 {
        if !is_silent(block_at(values, leaves.number(leaf))) {
            return false;
        }
    }
    true
}
