//! The code-blocks that are left, with their names, places and pieces.

ghost use Rattle.std.specs.Prelude.{◌≡◌, ◌<◌, ◌++◌, ◌∷◌, [], IfOk, OnOk};
ghost use Rattle.std.specs.List.{All, filter};
ghost use Rattle.jx_base.specs.declared.pieces.Block.{Block};
ghost use Rattle.jx_codestream.specs.First.{tile_number};
ghost use Rattle.jx_codestream.specs.InRange.{StreamInRange};
ghost use Rattle.jx_codestream.specs.Params.{headers_at};
ghost use Rattle.jx_reduce.specs.Reduction.{blocks_left, is_left};

use jx_base::{Block, NoMemory, Pieces};
use jx_codestream::{MainView, Stream, TileView};
use std::alloc::Global;

/// The same code-block again; its bytes stay where they are.
fn copy_of<'a>(alloc: Global, block: &Block<'a>) -> Result<Block<'a>, NoMemory>
    ensures { IfOk result (λ copy. copy ≡ block.now) }
{
    let pieces = block.pieces.as_slice().to_vec(alloc)?;
    Ok(Block {
        name: block.name,
        rect: block.rect,
        planes: block.planes,
        zero: block.zero,
        passes: block.passes,
        style: block.style,
        pieces: Pieces::from_vec(pieces),
    })
}

/// Whether the code-block is of a resolution that is left.
fn is_left(view: &TileView<'_>, d: u8, block: &Block<'_>) -> bool
    ensures { result ≡ is_left view.now d block.now }
{
    let params = view.params(block.name.comp);
    u16::from(block.name.res) + u16::from(d) <= u16::from(params.levels)
}

/// Appends the code-block, where it is left.
fn put_left<'a>(
    alloc: Global,
    view: &TileView<'_>,
    d: u8,
    block: &Block<'a>,
    left: &mut Vec<Block<'a>>,
) -> Result<(), NoMemory>
    ensures { OnOk result (left.new.items ≡ left.old.items ++ filter (is_left view.now d) (block.now ∷ [])) }
{
    if is_left(view, d, block) {
        let copy = copy_of(alloc, block)?;
        left.push(copy)?;
    }
    Ok(())
}

/// The view of a tile: the one that is there, where it is of this tile.
fn view_of<'v>(
    alloc: Global,
    stream: &'v Stream,
    main: &'v MainView<'v>,
    last: TileView<'v>,
    of: u16,
    tile: u16,
) -> Result<TileView<'v>, NoMemory>
    requires main { main.now ≡ record { siz = stream.now.siz; main = stream.now.main } }
    requires range { StreamInRange stream.now }
    requires tile { tile < tile_number stream.now.siz }
    requires last { last ≡ headers_at stream.now of }
    ensures { IfOk result (λ view. view ≡ headers_at stream.entry.now tile) }
{
    if of == tile {
        return Ok(last);
    }
    drop(last);
    stream.tile_view(alloc, main, tile)
}

/// The code-blocks that are left, with the view of the main header.
fn left_by<'v, 'a>(
    alloc: Global,
    stream: &'v Stream,
    main: &'v MainView<'v>,
    blocks: &[Block<'a>],
    d: u8,
) -> Result<Vec<Block<'a>>, NoMemory>
    requires main { main.now ≡ record { siz = stream.now.siz; main = stream.now.main } }
    requires range { StreamInRange stream.now }
    requires tiles { All (λ (b : Block). b.name.tile < tile_number stream.now.siz) blocks.now }
    ensures { IfOk result (λ left. left.items ≡ blocks_left d stream.entry.now blocks.now) }
{
    let mut left = Vec::new(alloc);
    if blocks.is_empty() {
        return Ok(left);
    }
    let mut tile = blocks[0].name.tile;
    let mut view = stream.tile_view(alloc, main, tile)?;
    for block in blocks {
        view = view_of(alloc, stream, main, view, tile, block.name.tile)?;
        tile = block.name.tile;
        put_left(alloc, &view, d, block, &mut left)?;
    }
    Ok(left)
}

/// The code-blocks of the resolutions that are left, in their order. A tile's headers are looked at once, where its code-blocks follow
/// one another.
///
/// # Errors
///
/// `NoMemory` where memory is refused.
pub(crate) fn blocks_left<'a>(
    alloc: Global,
    stream: &Stream,
    blocks: &[Block<'a>],
    d: u8,
) -> Result<Vec<Block<'a>>, NoMemory>
    requires range { StreamInRange stream.now }
    requires tiles { All (λ (b : Block). b.name.tile < tile_number stream.now.siz) blocks.now }
    ensures { IfOk result (λ left. left.items ≡ blocks_left d stream.now blocks.now) }
{
    let main = stream.main_view(alloc)?;
    left_by(alloc, stream, &main, blocks, d)
}
