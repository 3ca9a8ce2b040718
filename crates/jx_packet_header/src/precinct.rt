//! The headers of a precinct's packets, read layer by layer (T.800, B.10).

ghost use Rattle.std.specs.Prelude.{◌≡◌, ◌<◌, ◌≤◌, ◌+◌, ◌*◌, ◌^◌, ℕ, List, length, IfOk, IfErr, OnOk, MatchResult, Some, slice_index_or};
ghost use Rattle.jx_tagtree.specs.Header.{to_come};
ghost use Rattle.jx_packet_header.specs.Packet.{Cells, State, IsPacket, BreaksPlanes, unknown_block};
ghost use Rattle.jx_packet_header.specs.Scan.{scan_bands, scan_header};
ghost use Rattle.jx_packet_header.specs.Frame.{frame};
ghost use Rattle.jx_packet_header.specs.Kept.{IsBand, AreBands};
ghost use Rattle.jx_packet_header.specs.Said.{Refuses, BandsSaid, HeaderSaid, HasCause, OnlyPlanes, OnlyMemory};
ghost use Rattle.jx_packet_header.specs.Precinct.{CellsInRange, IsBandCells, cells_in, fresh_cells, fresh_state, all_blocks, IsState};
ghost use Rattle.jx_packet_header.specs.declared.HeaderPart.{HeaderPart};
ghost use Rattle.jx_base.specs.Limits.{most_blocks};

use crate::band::{Band, read_band};
use crate::words::flag;
use crate::{BandCells, HeadFault, HeaderPart, Known};
use jx_base::{NoMemory, Style};
use jx_tagtree::{BitReader, TagReader};
use std::alloc::Global;
use std::marker::Model;

/// What the headers of a precinct's packets have told so far (T.800 B.10).
#[derive(Drop)]
pub struct Precinct {
    style: Style,
    /// The next packet's layer.
    next: u32,
    /// The bands that have blocks.
    bands: Vec<Band>,
}

impl Model for Precinct {
    ghost use Rattle.jx_packet_header.specs.Packet.{State};

    ghost Value = { State };

    ghost view = { λ p. record { style = p.style.bits; layer = p.next; bands = p.bands.items } };
}

/// A band of which no header has told anything.
pub(crate) fn fresh_band(alloc: Global, cells: BandCells) -> Result<Band, NoMemory>
    requires some { 0 < cells.wide }
    requires is { IsBandCells cells }
    requires few { cells.wide * cells.high ≤ most_blocks }
    ensures { IfOk result (λ band. band ≡ fresh_cells cells) }
{
    let unknown = Known {
        zero: None,
        passes: 0,
        lblock: 3,
    };
    let count = cells.wide as usize * cells.high as usize;
    Ok(Band {
        first: TagReader::new(alloc, cells.wide, cells.high)?,
        zeros: TagReader::new(alloc, cells.wide, cells.high)?,
        planes: cells.planes,
        blocks: vec![in alloc; unknown; count]?,
    })
}

/// How many bands have blocks, so that a precinct takes room for these alone.
fn count_filled(bands: &[BandCells]) -> usize {
    let mut count: usize = 0;
    for cells in bands {
        if cells.wide > 0 {
            count = count.saturating_add(1);
        }
    }
    count
}

/// Reads what a header of a layer has of the bands of a precinct, and appends the parts.
fn read_bands(
    bands: &mut Vec<Band>,
    style: Style,
    layer: u16,
    bits: &mut BitReader<'_>,
    parts: &mut Vec<HeaderPart>,
) -> Result<(), HeadFault>
    requires bands { AreBands bands.old.items }
    requires blocks { length (all_blocks bands.old.items) ≤ most_blocks }
    requires few { (frame bits.old).total < 2 ^ 67 }
    ensures ok { OnOk result (BandsSaid (scan_bands style.bits layer 0 bands.old.items (to_come bits.old)) parts.old.items parts.new.items bands.new.items (to_come bits.new)) }
    ensures kept { OnOk result (AreBands bands.new.items) }
    ensures blocks { OnOk result (length (all_blocks bands.new.items) ≡ length (all_blocks bands.old.items)) }
    ensures frame { OnOk result (frame bits.new ≡ frame bits.old) }
    ensures err { IfErr result (λ e. Refuses e (scan_bands style.bits layer 0 bands.old.items (to_come bits.old))) }
{
    let mut base = 0;
    for at in 0..bands.len() {
        let band = &mut bands[at];
        let count = band.blocks.len() as u32;
        match read_band(band, style, layer, base, bits, parts) {
            Ok(()) => {}
            Err(fault) => return Err(fault),
        }
        base += count;
    }
    Ok(())
}

/// Reads the bits of a header, and appends its parts.
fn read_told(
    next: &mut u32,
    bands: &mut Vec<Band>,
    style: Style,
    layer: u16,
    bits: &mut BitReader<'_>,
    parts: &mut Vec<HeaderPart>,
) -> Result<(), HeadFault>
    requires next { next.old ≡ layer }
    requires bands { AreBands bands.old.items }
    requires blocks { length (all_blocks bands.old.items) ≤ most_blocks }
    requires few { (frame bits.old).total < 2 ^ 67 }
    ensures ok { OnOk result (HeaderSaid (scan_header (record { style = style.bits; layer = next.old; bands = bands.old.items }) (to_come bits.old)) parts.old.items parts.new.items
        (record { style = style.bits; layer = next.new; bands = bands.new.items }) (to_come bits.new)) }
    ensures next { OnOk result (next.new ≡ next.old + 1) }
    ensures kept { OnOk result (AreBands bands.new.items) }
    ensures blocks { OnOk result (length (all_blocks bands.new.items) ≡ length (all_blocks bands.old.items)) }
    ensures frame { OnOk result (frame bits.new ≡ frame bits.old) }
    ensures err { IfErr result (λ e. Refuses e (scan_header (record { style = style.bits; layer = next.old; bands = bands.old.items }) (to_come bits.old))) }
{
    let some = match flag(bits) {
        Ok(some) => some,
        Err(fault) => return Err(fault),
    };
    *next += 1;
    if !some {
        return Ok(());
    }
    read_bands(bands, style, layer, bits, parts)
}

impl Precinct {
    /// A precinct of which no packet was read. Its bands have `wide` by `high` blocks, both 0 or both at
    /// least 1 and 2^22 in all, and at most 255 planes.
    pub fn new(alloc: Global, bands: &[BandCells], style: Style) -> Result<Precinct, NoMemory>
        requires { CellsInRange bands.now }
        ensures fresh { IfOk result (λ p. p ≡ fresh_state style.bits bands.now) }
        ensures state { IfOk result (λ p. IsState p) }
        ensures blocks { IfOk result (λ p. length (all_blocks p.bands) ≡ cells_in bands.now) }
    {
        let mut made = Vec::with_capacity(alloc, count_filled(bands))?;
        for cells in bands {
            if cells.wide > 0 {
                made.push(fresh_band(alloc, *cells)?)?;
            }
        }
        Ok(Precinct {
            style,
            next: 0,
            bands: made,
        })
    }

    /// The zero planes of a block that a packet has included, and None of any other.
    pub fn zero(&self, block: u32) -> Option<u8>
        requires { block < length (all_blocks self.now.bands) }
        ensures { result ≡ (slice_index_or (all_blocks self.now.bands) block unknown_block).zero }
    {
        let mut left = block as usize;
        for band in &self.bands {
            if left < band.blocks.len() {
                return band.blocks[left].zero;
            }
            left -= band.blocks.len();
        }
        None
    }

    /// Reads the header of a layer's packet at the front of some bytes: the parts of its blocks, and how
    /// many bytes the header has. Layers come in order from 0. After an `Err` the precinct is given up.
    pub fn read_header(
        &mut self,
        layer: u16,
        bytes: &[u8],
    ) -> Result<(Vec<HeaderPart>, usize), HeadFault>
        // It wasn't given up.
        requires state { IsState self.old }
        requires layer { self.old.layer ≡ layer }
        // What is read is a header of these bytes,
        ensures ok { IfOk result (λ r. IsPacket bytes.now self.old r.0.items r.1 self.new) }
        // and the only one.
        ensures only { (parts : List HeaderPart) (used : ℕ) (after : State) → IsPacket bytes.now self.old parts used after →
            MatchResult result (λ r. (r.0.items ≡ parts) × (r.1 ≡ used) × (self.new ≡ after)) OnlyMemory }
        ensures planes { BreaksPlanes bytes.now self.old → MatchResult result (λ _. ⊥) OnlyPlanes }
        ensures err { IfErr result (λ e. HasCause e bytes.now self.old) }
        ensures state { OnOk result (IsState self.new) }
        ensures next { OnOk result (self.new.layer ≡ self.old.layer + 1) }
        ensures blocks { OnOk result (length (all_blocks self.new.bands) ≡ length (all_blocks self.old.bands)) }
    {
        let mut bits = BitReader::new(bytes);
        let mut parts = Vec::new(*self.bands.allocator());
        match read_told(
            &mut self.next,
            &mut self.bands,
            self.style,
            layer,
            &mut bits,
            &mut parts,
        ) {
            Ok(()) => {}
            Err(fault) => return Err(fault),
        }
        let used = match bits.finish() {
            Ok(used) => used,
            Err(_) => return Err(HeadFault::Bits),
        };
        Ok((parts, used))
    }
}
