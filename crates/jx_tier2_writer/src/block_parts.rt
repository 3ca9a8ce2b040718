//! What the packets of a precinct have of its code-blocks, layer by layer.

ghost use Rattle.std.specs.Prelude.{◌≡◌, ◌<◌, ◌++◌, ◌∷◌, [], ℕ, length, map, slice_get, slice_index_or, Some, OnOk};
ghost use Rattle.std.specs.List.{All};
ghost use Rattle.jx_tier2_reader.specs.Carries.{pieces_of};
ghost use Rattle.jx_tier2_writer.specs.Coded.{HasLayers};
ghost use Rattle.jx_tier2_writer.specs.BlockParts.{AreBlockParts, layer_bytes, row_at, row_bytes, rows_of, block_parts_in};

use crate::parts::Coded;
use jx_base::NoMemory;
use jx_codeblock::LayerPart;

/// A part of a block that is put into a packet, the block by its number in the tile.
#[derive(Clone, Copy)]
pub(crate) struct BlockPart {
    pub(crate) block: u32,
    pub(crate) part: LayerPart,
}

/// Puts a part that has bytes behind those of its layer.
fn push_sent(rows: &mut Vec<Vec<BlockPart>>, block: u32, part: LayerPart) -> Result<(), NoMemory>
    requires layer { part.layer < length rows.old.items }
    requires some { part.from < part.to }
    ensures long { OnOk result (length rows.new.items ≡ length rows.old.items) }
    ensures each { OnOk result ((l : ℕ) → row_at (rows_of rows.new.items) l ≡ row_at (rows_of rows.old.items) l ++ block_parts_in l block (part ∷ [])) }
{
    rows[usize::from(part.layer)].push(BlockPart { block, part })?;
    Ok(())
}

/// Puts a part behind those of its layer. One without bytes takes no place among them.
#[tactic(auto, using(crate::proofs::SentLemmas::none_put))]
fn put_sent(rows: &mut Vec<Vec<BlockPart>>, block: u32, part: LayerPart) -> Result<(), NoMemory>
    requires { part.layer < length rows.old.items }
    ensures long { OnOk result (length rows.new.items ≡ length rows.old.items) }
    ensures each { OnOk result ((l : ℕ) → row_at (rows_of rows.new.items) l ≡ row_at (rows_of rows.old.items) l ++ block_parts_in l block (part ∷ [])) }
{
    if part.from < part.to {
        return push_sent(rows, block, part);
    }
    Ok(())
}

/// Puts the parts of a block, each behind those of its layer.
fn put_parts(
    rows: &mut Vec<Vec<BlockPart>>,
    block: u32,
    parts: &[LayerPart],
) -> Result<(), NoMemory>
    requires { All (λ p. p.layer < length rows.old.items) parts.now }
    ensures long { OnOk result (length rows.new.items ≡ length rows.old.items) }
    ensures each { OnOk result ((l : ℕ) → row_at (rows_of rows.new.items) l ≡ row_at (rows_of rows.old.items) l ++ block_parts_in l block parts.now) }
{
    for part in parts {
        put_sent(rows, block, *part)?;
    }
    Ok(())
}

/// A block of a tile.
pub(crate) fn block_at<B: Coded>(values: &[B], block: usize) -> &B
    requires { block < length values.now }
    ensures block { slice_get (map B.block values.now) block ≡ Some (B.block result.now) }
    ensures bytes { slice_index_or (map B.bytes values.now) block [] ≡ B.bytes result.now }
{
    &values[block]
}

/// Puts the parts of a block of a tile.
#[tactic(auto, using(crate::proofs::SentLemmas::block_sent, crate::proofs::SentLemmas::block_inside, crate::proofs::SentLemmas::parts_in_layers))]
pub(crate) fn put_block<B: Coded>(
    rows: &mut Vec<Vec<BlockPart>>,
    values: &[B],
    block: u32,
) -> Result<(), NoMemory>
    requires block { block < length values.now }
    requires layers { HasLayers (length rows.old.items) (slice_get (map B.block values.now) block) }
    requires sent { (l : ℕ) → AreBlockParts (map B.bytes values.now) (row_at (rows_of rows.old.items) l) }
    ensures long { OnOk result (length rows.new.items ≡ length rows.old.items) }
    ensures bytes { OnOk result ((l : ℕ) → row_bytes (map B.bytes values.now) (row_at (rows_of rows.new.items) l)
        ≡ row_bytes (map B.bytes values.now) (row_at (rows_of rows.old.items) l) ++ layer_bytes l (pieces_of (slice_get (map B.block values.now) block))) }
    ensures sent { OnOk result ((l : ℕ) → AreBlockParts (map B.bytes values.now) (row_at (rows_of rows.new.items) l)) }
{
    let value = block_at(values, block as usize);
    put_parts(rows, block, value.parts())?;
    Ok(())
}
