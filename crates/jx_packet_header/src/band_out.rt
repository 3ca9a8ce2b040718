//! What packet headers have of the code-blocks of a band, written (T.800, B.10).

ghost use Rattle.std.specs.Prelude.{◌≡◌, ◌≢◌, ◌<◌, ◌≤◌, ◌+◌, ◌*◌, ◌^◌, ◌++◌, ◌-◌, [], true, length, take, drop, map, ℕ, IfOk, OnOk, slice_index, slice_index_or, slice_set};
ghost use Rattle.jx_tagtree.specs.Questions.{all_bits, after_all};
ghost use Rattle.jx_tagtree.specs.Past.{IsPast, AreUnder};
ghost use Rattle.jx_packet_header.specs.Packet.{Entry, asked, block_at, first_bits, first_after, zero_bits, zero_after, told_bits, block_after, entry_bits, entry_after, blocks_bits, blocks_after};
ghost use Rattle.jx_packet_header.specs.Written.{parts_in, passes_of, raise_of, entry_written, entries_written, Writes, least_of, cells_of, values_of};
ghost use Rattle.jx_packet_header.specs.Leafs.{leaf_of};
ghost use Rattle.jx_packet_header.specs.Writable.{IsWrites, SameSize, IsCursor, IsRising, AreRising};

use crate::put::{passes_in, put_lengths, put_passes, put_raise, raise_in};
use crate::rows::end_under;
use crate::{Known, Leaf, LeafPart};
use jx_base::NoMemory;
use jx_tagtree::{BitWriter, TagWriter};
use std::marker::Model;

/// What headers have told of a band that has blocks.
#[derive(Drop)]
pub(crate) struct BandOut {
    /// The tag tree of the layers in which blocks are included first.
    pub(crate) first: TagWriter,
    /// The tag tree of their zero planes.
    pub(crate) zeros: TagWriter,
    pub(crate) planes: u32,
    pub(crate) blocks: Vec<Known>,
    /// For each block its first part that isn't behind, where parts stand in the order of layers.
    pub(crate) cursors: Vec<usize>,
}

impl Model for BandOut {
    ghost use Rattle.jx_packet_header.specs.Written.{Writes};

    ghost Value = { Writes };

    ghost view = { λ b. record { first = b.first; zeros = b.zeros; planes = b.planes; blocks = b.blocks.items; cursors = b.cursors.items } };
}

/// Writes whether a packet of a layer includes a block (T.800 B.10.4).
fn write_inclusion(
    tree: &mut TagWriter,
    zero: Option<u8>,
    leaf: u32,
    layer: u16,
    included: bool,
    bits: &mut BitWriter,
) -> Result<(), NoMemory>
    requires { leaf < tree.old.tree.wide * tree.old.tree.high }
    ensures bits { OnOk result (bits.new ≡ bits.old ++ first_bits zero (least_of tree.old) tree.old.tree leaf layer included) }
    ensures tree { OnOk result (tree.new ≡ record { leaves = tree.old.leaves; tree = first_after zero (least_of tree.old) tree.old.tree leaf layer }) }
{
    match zero {
        None => tree.reach(leaf, u32::from(layer) + 1, bits),
        Some(_) => bits.bit(included),
    }
}

/// Writes the zero planes of a block that is included, where they aren't known yet (T.800 B.10.5).
fn write_zero(
    tree: &mut TagWriter,
    zero: Option<u8>,
    value: u8,
    leaf: u32,
    planes: u32,
    bits: &mut BitWriter,
) -> Result<(), NoMemory>
    requires leaf { leaf < tree.old.tree.wide * tree.old.tree.high }
    requires value { least_of tree.old leaf ≡ value }
    ensures bits { OnOk result (bits.new ≡ bits.old ++ zero_bits zero (least_of tree.old) tree.old.tree leaf planes) }
    ensures tree { OnOk result (tree.new ≡ record { leaves = tree.old.leaves; tree = zero_after zero (least_of tree.old) tree.old.tree leaf planes }) }
{
    match zero {
        None => write_count(tree, leaf, planes.min(u32::from(value) + 1), bits),
        Some(_) => Ok(()),
    }
}

/// Writes whether the value of a leaf is below 1, 2 and on, so many times.
fn write_count(
    tree: &mut TagWriter,
    leaf: u32,
    count: u32,
    bits: &mut BitWriter,
) -> Result<(), NoMemory>
    requires { leaf < tree.old.tree.wide * tree.old.tree.high }
    ensures bits { OnOk result (bits.new ≡ bits.old ++ all_bits (least_of tree.old) tree.old.tree (asked leaf 0 count)) }
    ensures tree { OnOk result (tree.new ≡ record { leaves = tree.old.leaves; tree = after_all (least_of tree.old) tree.old.tree (asked leaf 0 count) }) }
{
    for known in 0..count {
        tree.reach(leaf, known + 1, bits)?;
    }
    Ok(())
}

/// Writes what a layer's packet has of a block that it includes, and gives what is known of the block
/// afterwards.
fn write_entry(
    known: Known,
    zero: u8,
    passes: u32,
    parts: &[LeafPart],
    layer: u16,
    bits: &mut BitWriter,
) -> Result<Known, NoMemory>
    requires is { passes ≡ passes_of (parts_in layer parts.now) }
    requires some { 1 ≤ passes }
    requires few { known.passes + passes < 2 ^ 16 }
    requires lblock { known.lblock ≤ 32 }
    ensures bits { OnOk result (bits.new ≡ bits.old ++ told_bits known.lblock (record { passes = passes; raise = raise_of known.lblock (parts_in layer parts.now); parts = parts_in layer parts.now })) }
    ensures after { IfOk result (λ after. after ≡ block_after known zero (record { passes = passes; raise = raise_of known.lblock (parts_in layer parts.now); parts = parts_in layer parts.now })) }
    ensures lblock { IfOk result (λ after. after.lblock ≤ 32) }
{
    let raise = raise_in(known.lblock, parts, layer);
    let lblock = known.lblock + u128::from(raise);
    put_passes(passes, bits)?;
    put_raise(raise, bits)?;
    put_lengths(lblock, parts, layer, bits)?;
    Ok(Known {
        zero: Some(zero),
        passes: known.passes + passes as u16,
        lblock,
    })
}

/// Writes what a layer's packet has of a block, whose zero planes and parts are these.
pub(crate) fn write_block(
    band: &mut BandOut,
    leaf: u32,
    layer: u16,
    zero: u8,
    parts: &[LeafPart],
    bits: &mut BitWriter,
) -> Result<(), NoMemory>
    requires inside { leaf < length band.old.blocks }
    requires first { leaf < band.old.first.tree.wide * band.old.first.tree.high }
    requires zeros { leaf < band.old.zeros.tree.wide * band.old.zeros.tree.high }
    requires zero { 1 ≤ passes_of (parts_in layer parts.now) → least_of band.old.zeros leaf ≡ zero }
    requires few { (block_at (cells_of band.old) leaf).passes + passes_of (parts_in layer parts.now) < 2 ^ 16 }
    requires lblock { (block_at (cells_of band.old) leaf).lblock ≤ 32 }
    ensures bits { OnOk result (bits.new ≡ bits.old ++ entry_bits (values_of band.old) layer leaf (cells_of band.old) (entry_written layer (block_at (cells_of band.old) leaf) (record { zero = zero; parts = parts.now }))) }
    ensures after { OnOk result (cells_of band.new ≡ entry_after (values_of band.old) layer leaf (cells_of band.old) (entry_written layer (block_at (cells_of band.old) leaf) (record { zero = zero; parts = parts.now }))) }
    ensures first { OnOk result (band.new.first.leaves ≡ band.old.first.leaves) }
    ensures zeros { OnOk result (band.new.zeros.leaves ≡ band.old.zeros.leaves) }
    ensures cursors { OnOk result (band.new.cursors ≡ band.old.cursors) }
{
    let known = band.blocks[leaf as usize];
    let passes = passes_in(parts, layer);
    write_inclusion(&mut band.first, known.zero, leaf, layer, passes > 0, bits)?;
    if passes == 0 {
        return Ok(());
    }
    write_zero(&mut band.zeros, known.zero, zero, leaf, band.planes, bits)?;
    let zero = known.zero.unwrap_or(zero);
    band.blocks[leaf as usize] = write_entry(known, zero, passes, parts, layer, bits)?;
    Ok(())
}

/// Where the parts of a block begin and end among which those of a layer are, and puts the block's cursor
/// behind them. `rising` says that the parts stand in the order of their layers; else all are looked at.
fn next_run(
    band: &mut BandOut,
    leaf: u32,
    parts: &[LeafPart],
    layer: u16,
    rising: bool,
) -> (usize, usize)
    requires inside { leaf < length band.old.cursors }
    requires cursor { IsCursor layer (slice_index_or band.old.cursors leaf 0) parts.now }
    requires rising { rising ≡ true → IsRising 0 parts.now }
    ensures ordered { result.0 ≤ result.1 }
    ensures within { result.1 ≤ length parts.now }
    ensures run { parts_in layer (take (result.1 - result.0) (drop result.0 parts.now)) ≡ parts_in layer parts.now }
    ensures moved { (cursor : ℕ) × IsCursor (layer + 1) cursor parts.now × (band.new ≡ record band.old { cursors = slice_set band.old.cursors leaf cursor }) }
{
    let start = band.cursors[leaf as usize];
    let end = run_end(parts, start, layer, rising);
    if rising {
        band.cursors[leaf as usize] = end;
    }
    (start, end)
}

/// The end of the parts, from a cursor on, behind which none is of a layer.
fn run_end(parts: &[LeafPart], start: usize, layer: u16, rising: bool) -> usize
    requires cursor { IsCursor layer start parts.now }
    requires rising { rising ≡ true → IsRising 0 parts.now }
    ensures ordered { start ≤ result }
    ensures within { result ≤ length parts.now }
    ensures none { parts_in layer (drop result parts.now) ≡ [] }
    ensures cursor { rising ≡ true → IsCursor (layer + 1) result parts.now }
{
    if !rising {
        return parts.len();
    }
    let mut end = start;
    while end < parts.len() && parts[end].layer <= layer {
        end += 1;
    }
    end
}

/// The place on a block's way of a node of which a header of a layer has no further bit: the other blocks
/// under it are passed over. It is 0, a node without other blocks, where none is known, and where parts
/// don't stand in the order of their layers.
fn silent_place(band: &BandOut, layer: u16, leaf: u32, rising: bool) -> usize
    requires inside { leaf < length band.now.blocks }
    requires leaf { leaf < band.now.first.tree.wide * band.now.first.tree.high }
    ensures low { result ≤ 22 }
    ensures past { (other : ℕ) → other < band.now.first.tree.wide * band.now.first.tree.high → other ≢ leaf → AreUnder band.now.first.tree.wide result leaf other →
        (rising ≡ true) × IsPast band.now.first.tree other (layer + 1) }
{
    if !rising {
        return 0;
    }
    if band.blocks[leaf as usize].zero.is_some() {
        return 0;
    }
    match band.first.past(leaf, u32::from(layer) + 1) {
        Some(place) => place,
        None => 0,
    }
}

/// Writes what a layer's packet has of a band, row after row of its blocks.
pub(crate) fn write_band(
    band: &mut BandOut,
    layer: u16,
    leaves: &[Leaf],
    rising: bool,
    bits: &mut BitWriter,
) -> Result<(), NoMemory>
    requires writes { IsWrites layer (map leaf_of leaves.now) band.old }
    requires rising { rising ≡ true → AreRising (map leaf_of leaves.now) }
    ensures bits { OnOk result (bits.new ≡ bits.old ++ blocks_bits (values_of band.old) layer 0 (cells_of band.old) (entries_written layer band.old.blocks (map leaf_of leaves.now))) }
    ensures after { OnOk result (cells_of band.new ≡ blocks_after (values_of band.old) layer 0 (cells_of band.old) (entries_written layer band.old.blocks (map leaf_of leaves.now))) }
    ensures values { OnOk result (values_of band.new ≡ values_of band.old) }
    ensures due { OnOk result (IsWrites (layer + 1) (map leaf_of leaves.now) band.new) }
    ensures first { OnOk result (band.new.first.leaves ≡ band.old.first.leaves) }
    ensures size { OnOk result (SameSize (cells_of band.new) (cells_of band.old)) }
{
    let wide = band.first.wide();
    let high = band.first.high();
    let mut down = 0;
    let mut across = 0;
    let mut next = high;
    while down < high {
        let leaf = down * wide + across;
        let of = &leaves[leaf as usize];
        let (start, end) = next_run(band, leaf, &of.parts, layer, rising);
        write_block(band, leaf, layer, of.zero, &of.parts[start..end], bits)?;
        let place = silent_place(band, layer, leaf, rising);
        next = next.min(end_under(down, place));
        across = end_under(across, place);
        if across >= wide {
            down = next;
            across = 0;
            next = high;
        }
    }
    Ok(())
}
