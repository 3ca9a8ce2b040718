//! What packet headers have of the code-blocks of a band, read (T.800, B.10).

ghost use Rattle.std.specs.Prelude.{◌≡◌, ◌≢◌, ◌<◌, ◌≤◌, ◌+◌, ◌-◌, ◌*◌, ◌^◌, ℕ, length, IfOk, IfErr, OnOk};
ghost use Rattle.jx_tagtree.specs.Header.{to_come};
ghost use Rattle.jx_packet_header.specs.Packet.{Cells, most_passes};
ghost use Rattle.jx_packet_header.specs.Scan.{scan_entry, scan_included, scan_block, scan_blocks, scan_band};
ghost use Rattle.jx_packet_header.specs.Frame.{frame};
ghost use Rattle.jx_packet_header.specs.Kept.{IsKnown, IsBand, IsSilent, AreSilent, KeepsSize};
ghost use Rattle.jx_tagtree.specs.Past.{AreUnder};
ghost use Rattle.jx_packet_header.specs.Said.{Refuses, EntrySaid, BlockSaid, BandSaid};

use crate::parts::read_parts;
use crate::query::{read_inclusion, read_zero};
use crate::rows::end_under;
use crate::words::{read_passes, read_raise};
use crate::{HeadFault, HeaderPart, Known};
use jx_base::Style;
use jx_tagtree::{BitReader, TagReader};
use std::marker::Model;

/// What headers have told of a band that has blocks.
#[derive(Drop)]
pub(crate) struct Band {
    /// The tag tree of the layers in which blocks are included first.
    pub(crate) first: TagReader,
    /// The tag tree of their zero planes.
    pub(crate) zeros: TagReader,
    pub(crate) planes: u32,
    pub(crate) blocks: Vec<Known>,
}

impl Model for Band {
    ghost use Rattle.jx_packet_header.specs.Packet.{Cells};

    ghost Value = { Cells };

    ghost view = { λ b. record { first = b.first; zeros = b.zeros; planes = b.planes; blocks = b.blocks.items } };
}

/// The most passes that a block of so many planes may have.
pub(crate) fn limit(planes: u32, zero: u32) -> u32
    requires below { zero < planes }
    requires planes { planes ≤ 255 }
    ensures { result ≡ most_passes planes zero }
{
    3 * (planes - zero) - 2
}

/// Reads what a header has of a block that it includes, and appends its parts. It gives what is known
/// of the block afterwards.
fn read_entry(
    style: Style,
    block: u32,
    planes: u32,
    zero: u32,
    known: Known,
    bits: &mut BitReader<'_>,
    parts: &mut Vec<HeaderPart>,
) -> Result<Known, HeadFault>
    requires below { zero < planes }
    requires planes { planes ≤ 255 }
    requires known { IsKnown known }
    requires few { (frame bits.old).total < 2 ^ 67 }
    ensures ok { IfOk result (λ after. EntrySaid (scan_entry style.bits block planes zero known (to_come bits.old)) known zero after parts.old.items parts.new.items (to_come bits.new)) }
    ensures frame { OnOk result (frame bits.new ≡ frame bits.old) }
    ensures err { IfErr result (λ e. Refuses e (scan_entry style.bits block planes zero known (to_come bits.old))) }
{
    let passes = match read_passes(bits) {
        Ok(passes) => passes,
        Err(fault) => return Err(fault),
    };
    if u32::from(known.passes) + u32::from(passes) > limit(planes, zero) {
        return Err(HeadFault::Planes);
    }
    let raise = match read_raise(bits) {
        Ok(raise) => raise,
        Err(fault) => return Err(fault),
    };
    let lblock = known.lblock + raise;
    match read_parts(style, lblock, block, known.passes, passes, bits, parts) {
        Ok(()) => Ok(Known {
            zero: Some(zero as u8),
            passes: known.passes + passes,
            lblock,
        }),
        Err(fault) => Err(fault),
    }
}

/// Reads what a header has of a block that it includes, after its inclusion.
fn read_included(
    band: &mut Band,
    style: Style,
    block: u32,
    leaf: u32,
    bits: &mut BitReader<'_>,
    parts: &mut Vec<HeaderPart>,
) -> Result<(), HeadFault>
    requires band { IsBand band.old }
    requires leaf { leaf < length band.old.blocks }
    requires few { (frame bits.old).total < 2 ^ 67 }
    ensures ok { OnOk result (BlockSaid (scan_included style.bits block leaf band.old (to_come bits.old)) parts.old.items parts.new.items band.new (to_come bits.new)) }
    ensures frame { OnOk result (frame bits.new ≡ frame bits.old) }
    ensures err { IfErr result (λ e. Refuses e (scan_included style.bits block leaf band.old (to_come bits.old))) }
{
    let known = band.blocks[leaf as usize];
    let zero = match read_zero(&mut band.zeros, known.zero, leaf, band.planes, bits) {
        Ok(zero) => zero,
        Err(fault) => return Err(fault),
    };
    if zero >= band.planes {
        return Err(HeadFault::Planes);
    }
    match read_entry(style, block, band.planes, zero, known, bits, parts) {
        Ok(after) => {
            band.blocks[leaf as usize] = after;
            Ok(())
        }
        Err(fault) => Err(fault),
    }
}

/// Reads what a header of a layer has of a block, and appends its parts.
pub(crate) fn read_block(
    band: &mut Band,
    style: Style,
    layer: u16,
    block: u32,
    leaf: u32,
    bits: &mut BitReader<'_>,
    parts: &mut Vec<HeaderPart>,
) -> Result<(), HeadFault>
    requires band { IsBand band.old }
    requires leaf { leaf < length band.old.blocks }
    requires few { (frame bits.old).total < 2 ^ 67 }
    ensures ok { OnOk result (BlockSaid (scan_block style.bits layer block leaf band.old (to_come bits.old)) parts.old.items parts.new.items band.new (to_come bits.new)) }
    ensures frame { OnOk result (frame bits.new ≡ frame bits.old) }
    ensures err { IfErr result (λ e. Refuses e (scan_block style.bits layer block leaf band.old (to_come bits.old))) }
{
    let zero = band.blocks[leaf as usize].zero;
    match read_inclusion(&mut band.first, zero, leaf, layer, bits) {
        Ok(true) => read_included(band, style, block, leaf, bits, parts),
        Ok(false) => Ok(()),
        Err(fault) => Err(fault),
    }
}

/// The place on a block's way of a node of which a header of a layer has no further bit: the other blocks
/// under it are silent. It is 0, a node without other blocks, where none is known.
fn silent_place(band: &Band, layer: u16, leaf: u32) -> usize
    requires band { IsBand band.now }
    requires leaf { leaf < length band.now.blocks }
    ensures low { result ≤ 22 }
    ensures silent { (other : ℕ) → other < length band.now.blocks → other ≢ leaf → AreUnder band.now.first.wide result leaf other → IsSilent layer band.now other }
{
    if band.blocks[leaf as usize].zero.is_some() {
        return 0;
    }
    match band.first.past(leaf, u32::from(layer) + 1) {
        Some(place) => place,
        None => 0,
    }
}

/// Reads what a header of a layer has of a row of a band's blocks, and appends the parts. It gives the next
/// row of which the header may have a bit.
fn read_row(
    band: &mut Band,
    style: Style,
    layer: u16,
    base: u32,
    down: u32,
    bits: &mut BitReader<'_>,
    parts: &mut Vec<HeaderPart>,
) -> Result<u32, HeadFault>
    requires band { IsBand band.old }
    requires row { down < band.old.first.high }
    requires room { base + length band.old.blocks < 2 ^ 32 }
    requires few { (frame bits.old).total < 2 ^ 67 }
    ensures ok { OnOk result (BandSaid (scan_blocks style.bits layer base band.old.first.wide (down * band.old.first.wide) band.old (to_come bits.old)) parts.old.items parts.new.items band.new (to_come bits.new)) }
    ensures kept { OnOk result (IsBand band.new) }
    ensures size { OnOk result (KeepsSize band.new band.old) }
    ensures frame { OnOk result (frame bits.new ≡ frame bits.old) }
    ensures next { IfOk result (λ next. down < next) }
    ensures silent { IfOk result (λ next. AreSilent layer band.new (down + 1) next band.new.first.wide) }
    ensures err { IfErr result (λ e. Refuses e (scan_blocks style.bits layer base band.old.first.wide (down * band.old.first.wide) band.old (to_come bits.old))) }
{
    let wide = band.first.wide();
    let first = down * wide;
    let mut next = u32::MAX;
    let mut across = 0;
    while across < wide {
        let leaf = first + across;
        match read_block(band, style, layer, base + leaf, leaf, bits, parts) {
            Ok(()) => {}
            Err(fault) => return Err(fault),
        }
        let place = silent_place(band, layer, leaf);
        next = next.min(end_under(down, place));
        across = end_under(across, place).min(wide);
    }
    Ok(next)
}

/// Reads what a header of a layer has of a band, whose first block has the number `base`, and appends
/// the parts.
pub(crate) fn read_band(
    band: &mut Band,
    style: Style,
    layer: u16,
    base: u32,
    bits: &mut BitReader<'_>,
    parts: &mut Vec<HeaderPart>,
) -> Result<(), HeadFault>
    requires band { IsBand band.old }
    requires room { base + length band.old.blocks < 2 ^ 32 }
    requires few { (frame bits.old).total < 2 ^ 67 }
    ensures ok { OnOk result (BandSaid (scan_band style.bits layer base band.old (to_come bits.old)) parts.old.items parts.new.items band.new (to_come bits.new)) }
    ensures kept { OnOk result (IsBand band.new) }
    ensures long { OnOk result (length band.new.blocks ≡ length band.old.blocks) }
    ensures frame { OnOk result (frame bits.new ≡ frame bits.old) }
    ensures err { IfErr result (λ e. Refuses e (scan_band style.bits layer base band.old (to_come bits.old))) }
{
    let high = band.first.high();
    let mut down = 0;
    while down < high {
        match read_row(band, style, layer, base, down, bits, parts) {
            Ok(next) => down = next.min(high),
            Err(fault) => return Err(fault),
        }
    }
    Ok(())
}
