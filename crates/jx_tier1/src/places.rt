//! Masks of places that a pass works with (T.800, D.1).

ghost use Rattle.std.specs.Prelude.{◌≡◌, ◌+◌, ◌-◌, ◌*◌, ◌<◌, ◌≤◌, ℕ, true, min};
ghost use Rattle.std.specs.Int.{bit_at};
ghost use Rattle.jx_tier1_specs.specs.Cells.{Cells};
ghost use Rattle.jx_tier1.specs.Places.{IsWord};
ghost use Rattle.jx_tier1.specs.WordPasses.{Picks};

use crate::block::BlockState;
use crate::words::{first_columns, rows};

/// The places of the block in a word, its stripe and its group counted from 0.
#[inline(always)]
pub(crate) fn places_of(block: &BlockState, stripe: u16, group: u16) -> u64
    requires wide { block.now.width ≤ 1024 }
    requires high { block.now.height ≤ 1024 }
    requires stripe { 4 * stripe < block.now.height }
    requires group { 8 * group < block.now.width }
    ensures places { (g : Cells) → g.width ≡ block.now.width → g.height ≡ block.now.height → Picks (λ c. true) g (8 * group) (4 * stripe) result }
    ensures word { IsWord result }
{
    let high = 4u16.min(block.height() - 4 * stripe);
    let wide = 8u16.min(block.width() - 8 * group);
    rows(high) & first_columns(wide)
}

/// A word's own places of a window, of those of the block.
#[inline(always)]
pub(crate) fn own_places(window: u64, places: u64) -> u64
    ensures bits { (i : ℕ) → bit_at result i ≡ min (bit_at window (i + 7)) (bit_at places i) }
    ensures word { IsWord places → IsWord result }
{
    window >> 7 & places
}

/// The places that aren't among others.
#[inline(always)]
pub(crate) fn without(places: u64, others: u64) -> u64
    ensures bits { (i : ℕ) → bit_at result i ≡ min (bit_at places i) (1 - bit_at others i) }
    ensures word { IsWord places → IsWord result }
{
    places & !others
}
