//! The headers of a precinct's packets, written layer by layer (T.800, B.10).

ghost use Rattle.std.specs.Prelude.{◌≡◌, ◌<◌, ◌≤◌, ◌+◌, ◌*◌, ◌^◌, ◌++◌, ◌||◌, nat_lt, false, true, slice_index_or, map, List, ℕ, length, vec_len, vec_capacity, IfOk, OnOk, OnErr};
ghost use Rattle.jx_packet_header.specs.Precinct.{IsBandCells, CellsInRange, cells_in};
ghost use Rattle.jx_packet_header.specs.Written.{first_leaves, zero_leaves, parts_in, passes_of, some_in, next_header, state_of};
ghost use Rattle.jx_packet_header.specs.Leafs.{leaf_of};
ghost use Rattle.jx_packet_header.specs.Writable.{AreDue, BandsDone, AllFew, AllBytes, HeaderDone, AreMade, IsRising, AreRising};
ghost use Rattle.jx_packet_header.specs.LeavesFit.{LeavesFit, LeavesInRange, fresh_writes, parts_at, HasShort, AllShort};
ghost use Rattle.jx_packet_header.specs.ReadBack.{IsOneReading};
ghost use Rattle.jx_base.specs.Limits.{most_blocks};

use crate::band_out::{BandOut, write_band};
use crate::{BandCells, Known, Leaf, LeafPart};
use jx_base::{NoMemory, Style};
use jx_tagtree::{BitWriter, TagWriter};
use std::alloc::Global;
use std::marker::Model;

/// Writes what a layer's packet has of the bands of a precinct.
fn write_bands(
    bands: &mut Vec<BandOut>,
    layer: u16,
    leaves: &[Leaf],
    rising: bool,
    bits: &mut BitWriter,
) -> Result<(), NoMemory>
    requires due { AreDue layer bands.old.items (map leaf_of leaves.now) }
    requires rising { rising ≡ true → AreRising (map leaf_of leaves.now) }
    ensures { OnOk result (BandsDone layer (map leaf_of leaves.now) bands.old.items bands.new.items bits.old bits.new) }
{
    let mut base = 0;
    for at in 0..bands.len() {
        let band = &mut bands[at];
        let count = band.blocks.len();
        write_band(band, layer, &leaves[base..base + count], rising, bits)?;
        base += count;
    }
    Ok(())
}

/// The layers in which blocks are included first.
fn first_layers(alloc: Global, layers: u16, leaves: &[Leaf]) -> Result<Vec<u32>, NoMemory>
    ensures { IfOk result (λ first. first.items ≡ first_leaves layers (map leaf_of leaves.now)) }
{
    let mut first = Vec::new(alloc);
    for leaf in leaves {
        first.push(match leaf.parts.first() {
            None => u32::from(layers),
            Some(part) => u32::from(part.layer),
        })?;
    }
    Ok(first)
}

/// The zero planes of blocks.
fn zero_planes(alloc: Global, planes: u32, leaves: &[Leaf]) -> Result<Vec<u32>, NoMemory>
    ensures { IfOk result (λ zeros. zeros.items ≡ zero_leaves planes (map leaf_of leaves.now)) }
{
    let mut zeros = Vec::new(alloc);
    for leaf in leaves {
        zeros.push(if leaf.parts.is_empty() {
            planes
        } else {
            u32::from(leaf.zero)
        })?;
    }
    Ok(zeros)
}

/// A band of which no packet was written.
fn fresh_band(
    alloc: Global,
    cells: BandCells,
    layers: u16,
    leaves: &[Leaf],
) -> Result<BandOut, NoMemory>
    requires some { 0 < cells.wide }
    requires is { IsBandCells cells }
    requires few { cells.wide * cells.high ≤ most_blocks }
    requires all { length leaves.now ≡ cells.wide * cells.high }
    ensures { IfOk result (λ band. band ≡ fresh_writes layers cells (map leaf_of leaves.now)) }
{
    let unknown = Known {
        zero: None,
        passes: 0,
        lblock: 3,
    };
    let count = cells.wide as usize * cells.high as usize;
    let first = first_layers(alloc, layers, leaves)?;
    let zeros = zero_planes(alloc, cells.planes, leaves)?;
    Ok(BandOut {
        first: TagWriter::new(alloc, cells.wide, cells.high, &first)?,
        zeros: TagWriter::new(alloc, cells.wide, cells.high, &zeros)?,
        planes: cells.planes,
        blocks: vec![in alloc; unknown; count]?,
        cursors: vec![in alloc; 0; count]?,
    })
}

/// Notes the layers to which a block contributes.
fn note_layers(some: &mut Vec<bool>, parts: &[LeafPart])
    ensures long { length some.new.items ≡ length some.old.items }
    ensures each { (layer : ℕ) → layer < length some.old.items →
        slice_index_or some.new.items layer false ≡ (slice_index_or some.old.items layer false || nat_lt 0 (passes_of (parts_in layer parts.now))) }
{
    for part in parts {
        let at = usize::from(part.layer);
        if part.told.passes > 0 && at < some.len() {
            some[at] = true;
        }
    }
}

/// For each layer, whether some block contributes to its packet.
fn contributing(alloc: Global, layers: u16, leaves: &[Leaf]) -> Result<Vec<bool>, NoMemory>
    ensures long { IfOk result (λ some. length some.items ≡ layers) }
    ensures each { IfOk result (λ some. (layer : ℕ) → layer < layers → slice_index_or some.items layer false ≡ some_in layer (map leaf_of leaves.now)) }
{
    let mut some = vec![in alloc; false; usize::from(layers)]?;
    for leaf in leaves {
        note_layers(&mut some, &leaf.parts);
    }
    Ok(some)
}

/// Whether parts stand in the order of their layers.
fn is_rising(parts: &[LeafPart]) -> bool
    ensures { result ≡ true → IsRising 0 parts.now }
{
    let mut last = 0;
    for part in parts {
        if part.layer < last {
            return false;
        }
        last = part.layer;
    }
    true
}

/// Whether the parts of each block do.
fn are_rising(leaves: &[Leaf]) -> bool
    ensures { result ≡ true → AreRising (map leaf_of leaves.now) }
{
    for leaf in leaves {
        if !is_rising(&leaf.parts) {
            return false;
        }
    }
    true
}

/// The bands of which no packet was written.
fn fresh_bands_out(
    alloc: Global,
    bands: &[BandCells],
    layers: u16,
    leaves: &[Leaf],
) -> Result<Vec<BandOut>, NoMemory>
    requires bands { CellsInRange bands.now }
    requires all { length leaves.now ≡ cells_in bands.now }
    requires few { AllFew (map leaf_of leaves.now) }
    requires bytes { AllBytes (map leaf_of leaves.now) }
    ensures { IfOk result (λ made. AreMade layers bands.now (map leaf_of leaves.now) made.items) }
{
    let mut made = Vec::new(alloc);
    let mut base = 0;
    for cells in bands {
        if cells.wide == 0 {
            continue;
        }
        let count = cells.wide as usize * cells.high as usize;
        let mine = &leaves[base..base + count];
        made.push(fresh_band(alloc, *cells, layers, mine)?)?;
        base += count;
    }
    Ok(made)
}

/// Writes the header of a layer's packet, to which some block contributes or none.
fn one_header(
    alloc: Global,
    bands: &mut Vec<BandOut>,
    layer: u16,
    leaves: &[Leaf],
    rising: bool,
    some: bool,
) -> Result<Vec<u8>, NoMemory>
    requires due { AreDue layer bands.old.items (map leaf_of leaves.now) }
    requires rising { rising ≡ true → AreRising (map leaf_of leaves.now) }
    requires some { some ≡ some_in layer (map leaf_of leaves.now) }
    ensures { IfOk result (λ bytes. HeaderDone layer (map leaf_of leaves.now) bands.old.items bands.new.items bytes.items) }
{
    let mut bits = BitWriter::new(alloc);
    if !some {
        bits.bit(false)?;
        return bits.finish();
    }
    bits.bit(true)?;
    write_bands(bands, layer, leaves, rising, &mut bits)?;
    bits.finish()
}

/// A length has 32 bits, as its type says.
fn is_short(length: u32)
    ensures { length < 2 ^ 32 }
{}

/// Says so of a block's lengths.
fn lengths_are_short(parts: &[LeafPart])
    ensures { HasShort parts.now }
{
    for part in parts {
        is_short(part.told.length);
    }
}

/// Zero planes are a byte, as their type says.
fn is_byte(zero: u8)
    ensures { zero < 2 ^ 8 }
{}

/// Says so of all blocks.
fn ranges_of_types(leaves: &[Leaf])
    ensures short { AllShort (map leaf_of leaves.now) }
    ensures bytes { AllBytes (map leaf_of leaves.now) }
{
    for leaf in leaves {
        is_byte(leaf.zero);
        lengths_are_short(&leaf.parts);
    }
}

/// A precinct that is written: the headers of its packets (T.800 B.10). All room that they take is taken
/// when it is made.
#[derive(Drop)]
pub struct PrecinctOut {
    style: Style,
    layers: u16,
    /// The next packet's layer.
    next: u32,
    bands: Vec<BandCells>,
    leaves: Vec<Leaf>,
    /// The headers of all layers, one behind another.
    headers: Vec<u8>,
    /// Where each begins, and where the last ends.
    places: Vec<usize>,
}

impl Model for PrecinctOut {
    ghost use Rattle.std.specs.Prelude.{map, List, ℕ};
    ghost use Rattle.jx_packet_header.specs.Written.{Plan};
    ghost use Rattle.jx_packet_header.specs.Leafs.{leaf_of};
    ghost use Rattle.jx_packet_header.specs.LeavesFit.{IsPlan};

    ghost Value = { Plan };

    ghost view = { λ p. record { style = p.style.bits; layers = p.layers; next = p.next; bands = p.bands.items; leaves = map leaf_of p.leaves.items } };

    ghost invariant = { λ p. IsPlan p.layers p.style.bits p.bands.items (map leaf_of p.leaves.items) p.headers.items p.places.items };
}

impl PrecinctOut {
    /// A precinct of which no packet was written, with one leaf for each block. `layers` is how many
    /// packets it has.
    pub fn new(
        alloc: Global,
        bands: &[BandCells],
        style: Style,
        layers: u16,
        leaves: Vec<Leaf>,
    ) -> Result<PrecinctOut, NoMemory>
        requires bands { CellsInRange bands.now }
        requires leaves { LeavesInRange bands.now (map leaf_of leaves.items) }
        ensures { IfOk result (λ p. p ≡ record { style = style.bits; layers = layers; next = 0; bands = bands.now; leaves = map leaf_of leaves.items }) }
    {
        // Only proofs rest on it: it does no work.
        ranges_of_types(&leaves);
        let mut made = fresh_bands_out(alloc, bands, layers, &leaves)?;
        let rising = are_rising(&leaves);
        let some = contributing(alloc, layers, &leaves)?;
        let mut headers = Vec::new(alloc);
        let mut places = Vec::new(alloc);
        places.push(0)?;
        for layer in 0..layers {
            let here = some[layer as usize];
            let header = one_header(alloc, &mut made, layer, &leaves, rising, here)?;
            headers.extend_from_slice(&header)?;
            places.push(headers.len())?;
        }
        Ok(PrecinctOut {
            style,
            layers,
            next: 0,
            bands: Vec::from_slice(alloc, bands)?,
            leaves,
            headers,
            places,
        })
    }

    /// Appends the header of a layer's packet. Layers come in order from 0. With room for it in `out` it
    /// isn't refused; after an `Err` `out` is as before.
    pub fn write_header(&mut self, layer: u16, out: &mut Vec<u8>) -> Result<(), NoMemory>
        requires layer { self.old.next ≡ layer }
        requires below { layer < self.old.layers }
        ensures ok { OnOk result (out.new.items ≡ out.old.items ++ next_header self.old) }
        ensures next { OnOk result (self.new ≡ record self.old { next = self.old.next + 1 }) }
        ensures err { OnErr result (out.new.items ≡ out.old.items) }
        ensures read_back { OnOk result (LeavesFit self.old.style self.old.layers self.old.bands self.old.leaves → (rest : List ℕ) →
            IsOneReading (next_header self.old ++ rest) (state_of self.old) (parts_at layer self.old.leaves) (length (next_header self.old)) (state_of self.new)) }
        ensures room { OnErr result (vec_capacity out.old < vec_len out.old + length (next_header self.old)) }
    {
        let start = self.places[layer as usize];
        let end = self.places[layer as usize + 1];
        out.extend_from_slice(&self.headers[start..end])?;
        self.next += 1;
        Ok(())
    }
}
