//! The first code-block of a tile, by the tiles in the names of code-blocks.

ghost use Rattle.std.specs.Prelude.{◌≡◌, ◌<◌, ◌≤◌, ℕ, true, false, length};
ghost use Rattle.jx_same.specs.Runs.{AreBlocksBelow};

use jx_base::Block;

/// Whether the code-block of a number is of a tile below one; then the code-blocks of these tiles are more than its number, where they
/// stand before all others.
#[tactic(auto, using(crate::proofs::TileLemmas::not_behind, crate::proofs::TileLemmas::not_before))]
fn is_below(blocks: &[Block<'_>], number: usize, tile: u16) -> bool
    requires { number < length blocks.now }
    ensures below { result ≡ true → (count : ℕ) → AreBlocksBelow blocks.now tile count → number < count }
    ensures past { result ≡ false → (count : ℕ) → AreBlocksBelow blocks.now tile count → count ≤ number }
{
    blocks[number].name.tile < tile
}

/// How many code-blocks are of tiles below one, where they stand before all others.
pub(crate) fn blocks_before(blocks: &[Block<'_>], tile: u16) -> usize
    ensures { (count : ℕ) → AreBlocksBelow blocks.now tile count → result ≡ count }
{
    let mut low = 0;
    let mut high = blocks.len();
    while low < high {
        let middle = low + (high - low) / 2;
        if is_below(blocks, middle, tile) {
            low = middle + 1;
        } else {
            high = middle;
        }
    }
    low
}
