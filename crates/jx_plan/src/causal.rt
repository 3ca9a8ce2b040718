//! The style that is asked of code-blocks.

ghost use Rattle.std.specs.Prelude.{◌≡◌, ◌≤◌, length};
ghost use Rattle.jx_codeblock.specs.Written.{style_for};
ghost use Rattle.jx_plan.specs.Causal.{breaks_plane, first_broken};
ghost use Rattle.jx_base.specs.Limits.{most_blocks};

use jx_base::{Block, Style};

/// The style in which a block is to be coded anew, where one is asked of all: none where it has that style already, in all six bits.
pub fn style_for(asked: Option<Style>, block: &Block<'_>) -> Option<Style>
    ensures { result ≡ style_for asked block.now }
{
    match asked {
        Some(style) if style.bits != block.style.bits => Some(style),
        _ => None,
    }
}

/// Whether a block would change its causal bit within a plane: it has passes, and the last one isn't a cleanup pass (T.800 D.7).
fn breaks_plane(asked: Option<Style>, block: &Block<'_>) -> bool
    ensures { result ≡ breaks_plane asked block.now }
{
    match asked {
        Some(style) => {
            style.causal() != block.style.causal() && block.passes != 0 && block.passes % 3 != 1
        }
        None => false,
    }
}

/// The number of the lowest of at most 2^22 blocks that would change its causal bit within a plane, so that the style can't be had; none
/// where there is no such block. It takes no memory.
pub fn first_broken(asked: Option<Style>, blocks: &[Block<'_>]) -> Option<u32>
    requires few { length blocks.now ≤ most_blocks }
    ensures { result ≡ first_broken asked blocks.now }
{
    for number in 0..blocks.len() {
        if breaks_plane(asked, &blocks[number]) {
            return Some(number as u32);
        }
    }
    None
}
