//! A shorter borrow of code-blocks.

ghost use Rattle.std.specs.Prelude.{◌≡◌};

use jx_base::Block;

/// The same code-blocks, as if their bytes were borrowed for no longer than the slice is.
pub fn shortened<'a, 'b: 'a>(blocks: &'a [Block<'b>]) -> &'a [Block<'a>]
    ensures { result.now ≡ blocks.now }
{
    blocks
}
