//! Headers of small precincts, both ways, and what a precinct keeps from one to the next.
ghost use Rattle.std.specs.Prelude.{◌≡◌, ◌<◌, ◌+◌, ◌*◌, ◌^◌, IsTrue, OnOk, map, length};
ghost use Rattle.jx_packet_header.specs.Precinct.{CellsInRange, IsState, cells_in};
ghost use Rattle.jx_packet_header.specs.Leafs.{leaf_of};
ghost use Rattle.jx_packet_header.specs.LeavesFit.{LeavesInRange};
ghost use Rattle.jx_packet_header.specs.Writable.{AllFew, all_passes};

use crate::checks::{check, equal};
use jx_base::{MOST_BLOCKS, Style, ends_segment, is_raw};
use jx_packet_header::{BandCells, HeaderPart, Leaf, LeafPart, Precinct, PrecinctOut};
use std::alloc::{AllocError, Global};
use std::process::Abort;
use std::test::Fail;

/// Whether each block has few passes.
fn few(leaves: &[Leaf]) -> bool
    ensures { IsTrue result → AllFew (map leaf_of leaves.now) }
{
    for leaf in leaves {
        if !few_passes(&leaf.parts) {
            return false;
        }
    }
    true
}

fn few_passes(parts: &[LeafPart]) -> bool
    ensures { IsTrue result → all_passes parts.now < 2 ^ 16 }
{
    let mut passes: u32 = 0;
    for part in parts {
        passes += u32::from(part.told.passes);
        if passes >= 65536 {
            return false;
        }
    }
    true
}

/// Whether a precinct may have these bands.
fn in_range(bands: &[BandCells]) -> bool
    ensures { IsTrue result → CellsInRange bands.now }
{
    let mut left = MOST_BLOCKS;
    for cells in bands {
        let count = u64::from(cells.wide) * u64::from(cells.high);
        if (cells.wide == 0) != (cells.high == 0) || cells.planes > 255 || count > left {
            return false;
        }
        left -= count;
    }
    true
}

/// How many blocks bands have.
fn blocks(bands: &[BandCells]) -> usize
    requires { CellsInRange bands.now }
    ensures { result ≡ cells_in bands.now }
{
    let mut count = 0;
    for cells in bands {
        count += cells.wide as usize * cells.high as usize;
    }
    count
}

/// Whether there are bands as a precinct may have them, and leaves as they are written, one for each block.
fn fit(bands: &[BandCells], leaves: &[Leaf]) -> bool
    ensures { IsTrue result → CellsInRange bands.now × LeavesInRange bands.now (map leaf_of leaves.now) }
{
    in_range(bands) && few(leaves) && leaves.len() == blocks(bands)
}

/// No block, and 15 of them.
const BANDS: [BandCells; 2] = [
    BandCells {
        wide: 0,
        high: 0,
        planes: 9,
    },
    BandCells {
        wide: 5,
        high: 3,
        planes: 12,
    },
];

/// The layer of each part, and its block, first pass, passes and length. Lblock is raised in two packets for the block 3.
const PARTS: [(u16, (u32, u16, u16, u32)); 4] = [
    (0, (3, 0, 3, 5)),
    (1, (3, 3, 2, 100)),
    (2, (3, 5, 20, 70000)),
    (2, (14, 0, 1, 0)),
];

fn part((block, first, passes, length): (u32, u16, u16, u32)) -> HeaderPart {
    HeaderPart {
        block,
        first,
        passes,
        length,
    }
}

fn leaf(alloc: Global, block: u32) -> Result<Leaf, AllocError> {
    let mut parts = Vec::new(alloc);
    for (layer, of) in &PARTS {
        if of.0 == block {
            let told = part(*of);
            parts.push(LeafPart {
                layer: *layer,
                told,
            })?;
        }
    }
    let zero = match block {
        3 => 2,
        14 => 11,
        _ => 0,
    };
    Ok(Leaf { zero, parts })
}

fn uneven(alloc: Global) -> Result<Vec<Leaf>, AllocError> {
    let mut leaves = Vec::new(alloc);
    for block in 0..15 {
        leaves.push(leaf(alloc, block)?)?;
    }
    Ok(leaves)
}

/// Whether these are the parts of a layer.
fn are_of(parts: &[HeaderPart], layer: u16) -> bool {
    let mut left = parts.iter();
    for (at, of) in &PARTS {
        if *at == layer && left.next() != Some(&part(*of)) {
            return false;
        }
    }
    left.next().is_none()
}

/// Writes the header of a layer and reads it back, with a byte behind it.
fn one_packet(
    rt: &impl Abort,
    alloc: Global,
    out: &mut PrecinctOut,
    precinct: &mut Precinct,
    layer: u16,
) -> Result<(), Fail>
    requires written { (out.old.next ≡ layer) × (layer < out.old.layers) }
    requires read { (precinct.old.layer ≡ layer) × IsState precinct.old }
    ensures written { OnOk result ((out.new.next ≡ layer + 1) × (out.new.layers ≡ out.old.layers)) }
    ensures read { OnOk result ((precinct.new.layer ≡ layer + 1) × IsState precinct.new) }
{
    let mut bytes = Vec::new(alloc);
    out.write_header(layer, &mut bytes)?;
    let written = bytes.len();
    bytes.push(0xff)?;
    let (parts, used) = precinct.read_header(layer, &bytes)?;
    equal(rt, used, written);
    check(rt, are_of(&parts, layer));
    Ok(())
}

/// Writes the headers of all layers and reads them back.
fn both_ways(
    rt: &impl Abort,
    alloc: Global,
    bands: &[BandCells],
    layers: u16,
    leaves: Vec<Leaf>,
) -> Result<(), Fail> {
    check(rt, fit(bands, &leaves));
    let mut out = PrecinctOut::new(alloc, bands, PLAIN, layers, leaves)?;
    let mut precinct = Precinct::new(alloc, bands, PLAIN)?;
    'packets: for layer in 0..layers {
        one_packet(rt, alloc, &mut out, &mut precinct, layer)?;
    }
    Ok(())
}

const PLAIN: Style = Style { bits: 0 };

#[test]
fn uneven_blocks(rt: HostRuntime) -> Result<(), Fail> {
    let leaves = uneven(rt.alloc())?;
    both_ways(&rt, rt.alloc(), &BANDS, 3, leaves)
}

#[test]
fn zero_planes_are_told(rt: HostRuntime) -> Result<(), Fail> {
    let bands = [BandCells {
        wide: 1,
        high: 1,
        planes: 9,
    }];
    check(&rt, in_range(&bands));
    equal(&rt, blocks(&bands), 1);
    let mut precinct = Precinct::new(rt.alloc(), &bands, PLAIN)?;
    equal(&rt, precinct.zero(0), None);
    let (parts, used) = precinct.read_header(0, &[0xc0, 0x21])?;
    equal(&rt, parts.as_slice(), [part((0, 0, 1, 1))].as_slice());
    equal(&rt, used, 2);
    equal(&rt, precinct.zero(0), Some(8));
    Ok(())
}

#[test]
fn segments_with_bypass(rt: HostRuntime) {
    let bypass = Style { bits: 1 };
    for pass in 0..13 {
        equal(&rt, is_raw(bypass, pass), pass == 10 || pass == 11);
        equal(&rt, ends_segment(bypass, pass), pass == 9 || pass >= 11);
        check(&rt, !is_raw(Style { bits: 4 }, pass));
        check(&rt, ends_segment(Style { bits: 4 }, pass));
        check(&rt, !ends_segment(PLAIN, pass));
    }
}
