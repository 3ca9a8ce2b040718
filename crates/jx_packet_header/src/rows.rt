//! Blocks under one node of a tag tree, by their rows and columns (T.800, B.10.2).

ghost use Rattle.std.specs.Prelude.{◌≡◌, ◌≤◌, ◌+◌, ◌*◌, ◌/◌, ◌^◌};
ghost use Rattle.jx_base.specs.Limits.{most_blocks};

/// The row or column behind those of the blocks under a node, at a place of the way of a block of one of them.
pub(crate) fn end_under(at: u32, place: usize) -> u32
    requires at { at ≤ most_blocks }
    requires place { place ≤ 22 }
    ensures { result ≡ (at / 2 ^ place + 1) * 2 ^ place }
{
    let size = 1u32 << place;
    (at / size + 1) * size
}
