//! What the tile-parts of a tile say together.

ghost use Rattle.std.specs.Prelude.{◌≡◌, ◌≤◌, ◌<◌, ◌+◌, ◌==◌, ◌||◌, ◌++◌, ◌∷◌, [], List, length, map, IfOk, OnOk, ℕ, MatchOption, Some, None, if◌then◌else◌, slice_index_or};
ghost use Rattle.std.specs.List.{filter, flat_map, list_any};
ghost use Rattle.std.specs.Option.{option_to_list};
ghost use Rattle.std.specs.List.{All};
ghost use Rattle.jx_marker.specs.declared.Segment.{Segment};
ghost use Rattle.jx_codestream.specs.declared.tiles.Draft.{Draft};
ghost use Rattle.jx_codestream.specs.declared.parts.PlacedPart.{PlacedPart};
ghost use Rattle.jx_codestream.specs.Headers.{cod_slot, slot_of};
ghost use Rattle.jx_codestream.specs.Tiles.{in_slot, entries_joined, is_com, is_plt, entry_in, entries_of, or_list, tile_from, tiles_of, Collects};
ghost use Rattle.jx_codestream.specs.Parts.{parts_of};

use crate::headers::slot_of;
use crate::parts::PlacedPart;
use crate::{Bodies, Body, Entries, Heads, Segments, Tile, slots};
use jx_marker::{Progression, Segment};
use std::alloc::{AllocError, Global};

/// A tile whose tile-parts are being collected.
#[derive(Drop)]
pub struct Draft {
    pub place: u32,
    pub header: Vec<Segment>,
    pub notes: Vec<Segment>,
    pub has_plt: bool,
    pub entries: Vec<Progression>,
    pub heads: Heads,
    pub bodies: Vec<Body>,
}

/// The segment of a slot in a header.
pub fn in_slot(slot: usize, segments: &[Segment]) -> Option<&Segment>
    ensures { MatchOption result (in_slot slot segments.now ≡ None) (λ segment. in_slot slot segments.now ≡ Some segment.now) }
{
    for segment in segments {
        if slot_of(segment) == slot {
            return Some(segment);
        }
    }
    None
}

/// Appends the entries of all POC segments.
fn push_entries(segments: &[Segment], entries: &mut Vec<Progression>) -> Result<(), AllocError>
    ensures { OnOk result (entries.new.items ≡ entries.old.items ++ entries_joined segments.now) }
{
    for segment in segments {
        if let Segment::Poc(more) = segment {
            entries.extend_from_slice(more.as_slice())?;
        }
    }
    Ok(())
}

fn is_com(segment: &Segment) -> bool
    ensures { result ≡ is_com segment.now }
{
    matches!(segment, Segment::Com(_))
}

fn is_plt(segment: &Segment) -> bool
    ensures { result ≡ is_plt segment.now }
{
    matches!(segment, Segment::Plt(_))
}

fn any_plt(segments: &[Segment]) -> bool
    ensures { result ≡ list_any is_plt segments.now }
{
    segments.iter().any(|segment| is_plt(segment))
}

/// Whether a PLT stood before, or is among segments.
fn has_plt(before: bool, segments: &[Segment]) -> bool
    ensures { result ≡ (before || list_any is_plt segments.now) }
{
    if before {
        return true;
    }
    any_plt(segments)
}

/// Appends the COM segments.
fn push_notes(segments: Vec<Segment>, notes: &mut Vec<Segment>) -> Result<(), AllocError>
    ensures { OnOk result (notes.new.items ≡ notes.old.items ++ filter is_com segments.items) }
{
    for segment in segments {
        if is_com(&segment) {
            notes.push(segment)?;
        } else {
            drop(segment);
        }
    }
    Ok(())
}

impl Draft {
    fn new(alloc: Global) -> Self
        ensures { Collects [] result }
    {
        Draft {
            place: 0,
            header: Vec::new(alloc),
            notes: Vec::new(alloc),
            has_plt: false,
            entries: Vec::new(alloc),
            heads: Heads::none(),
            bodies: Vec::new(alloc),
        }
    }

    /// Adds the tile's next tile-part.
    #[tactic(auto, using(crate::proofs::SharesLemmas::heads_on))]
    fn add(&mut self, alloc: Global, part: PlacedPart) -> Result<(), AllocError>
        ensures { OnOk result ((own : List PlacedPart) → Collects own self.old → Collects (own ++ part ∷ []) self.new) }
    {
        push_entries(part.header.as_slice(), &mut self.entries)?;
        self.has_plt = has_plt(self.has_plt, part.header.as_slice());
        self.heads.add(alloc, part.heads)?;
        if self.bodies.is_empty() {
            self.place = part.place;
            self.header = part.header.into_vec();
            self.bodies.push(part.body)?;
            return Ok(());
        }
        push_notes(part.header.into_vec(), &mut self.notes)?;
        self.bodies.push(part.body)?;
        Ok(())
    }
}

/// Drafts of so many tiles without tile-parts.
fn empty_drafts(alloc: Global, count: usize) -> Result<Vec<Draft>, AllocError>
    ensures count { IfOk result (λ drafts. length drafts.items ≡ count) }
    ensures each { IfOk result (λ drafts. (tile : ℕ) (other : Draft) → tile < count → Collects [] (slice_index_or drafts.items tile other)) }
{
    let mut drafts = Vec::new(alloc);
    for _ in 0..count {
        drafts.push(Draft::new(alloc))?;
    }
    Ok(drafts)
}

/// The drafts of so many tiles, each with its tile-parts in their order.
fn collect_parts(
    alloc: Global,
    parts: Vec<PlacedPart>,
    count: usize,
) -> Result<Vec<Draft>, AllocError>
    requires { All (λ (part : PlacedPart). part.sot.tile < count) parts.items }
    ensures count { IfOk result (λ drafts. length drafts.items ≡ count) }
    ensures each { IfOk result (λ drafts. (tile : ℕ) (other : Draft) → tile < count → Collects (parts_of tile parts.items) (slice_index_or drafts.items tile other)) }
{
    let mut drafts = empty_drafts(alloc, count)?;
    for part in parts {
        let tile = usize::from(part.sot.tile);
        drafts[tile].add(alloc, part)?;
    }
    Ok(drafts)
}

/// The entry that a header's COD stands for.
fn cod_entry(segments: &[Segment]) -> Option<Progression>
    ensures { option_to_list result ≡ entry_in (in_slot cod_slot segments.now) }
{
    match in_slot(slots::COD, segments) {
        Some(Segment::Cod(cod)) => Some(Progression {
            rs: 0,
            cs: 0,
            lye: cod.layers,
            re: 33,
            ce: 0,
            order: cod.order,
        }),
        _ => None,
    }
}

fn one_entry(alloc: Global, entry: Option<Progression>) -> Result<Entries, AllocError>
    ensures { IfOk result (λ entries. entries ≡ option_to_list entry) }
{
    let mut entries = Vec::new(alloc);
    if let Some(entry) = entry {
        entries.push(entry)?;
    }
    Entries::new(entries)
}

/// The tile's own entries, else those of the main header, else the one of its COD, else the main COD's.
fn progressions(
    alloc: Global,
    header: &[Segment],
    own: Vec<Progression>,
    main: &Entries,
    default: &Entries,
) -> Result<Entries, AllocError>
    ensures { IfOk result (λ entries. entries ≡ or_list own.items (or_list main.now (or_list (entry_in (in_slot cod_slot header.now)) default.now))) }
{
    if !own.is_empty() {
        return Entries::new(own);
    }
    if !main.as_slice().is_empty() {
        return main.share();
    }
    let entry = cod_entry(header);
    if entry.is_some() {
        return one_entry(alloc, entry);
    }
    default.share()
}

impl Draft {
    /// The tile, with the main header's entries and the one of the main COD.
    fn finish(self, alloc: Global, main: &Entries, default: &Entries) -> Result<Tile, AllocError>
        ensures { IfOk result (λ tile. (own : List PlacedPart) (segments : List Segment) → Collects own self → main.now ≡ entries_joined segments
            → default.now ≡ entry_in (in_slot cod_slot segments) → tile ≡ tile_from segments own) }
    {
        let Draft {
            place,
            header,
            notes,
            has_plt,
            entries,
            heads,
            bodies,
        } = self;
        let progressions = progressions(alloc, &header, entries, main, default)?;
        Ok(Tile {
            place,
            header: Segments::new(header),
            notes: Segments::new(notes),
            has_plt,
            progressions,
            heads,
            bodies: Bodies::new(bodies),
        })
    }
}

/// The entries of the main header.
fn main_entries(alloc: Global, main: &[Segment]) -> Result<Entries, AllocError>
    ensures { IfOk result (λ entries. entries ≡ entries_joined main.now) }
{
    let mut entries = Vec::new(alloc);
    push_entries(main, &mut entries)?;
    Entries::new(entries)
}

/// The tiles of drafts, with the main header's entries and the one of the main COD.
fn finish_all(
    alloc: Global,
    drafts: Vec<Draft>,
    main: &Entries,
    default: &Entries,
) -> Result<Vec<Tile>, AllocError>
    ensures count { IfOk result (λ tiles. length tiles.items ≡ length drafts.items) }
    ensures each { IfOk result (λ tiles. (segments : List Segment) → main.now ≡ entries_joined segments → default.now ≡ entry_in (in_slot cod_slot segments)
        → (tile : ℕ) (other : Draft) (another : Tile) (own : List PlacedPart) → tile < length drafts.items
        → Collects own (slice_index_or drafts.items tile other) → slice_index_or tiles.items tile another ≡ tile_from segments own) }
{
    let mut tiles = Vec::new(alloc);
    for draft in drafts {
        let tile = draft.finish(alloc, main, default)?;
        tiles.push(tile)?;
    }
    Ok(tiles)
}

fn finish_drafts(
    alloc: Global,
    main: &[Segment],
    drafts: Vec<Draft>,
) -> Result<Vec<Tile>, AllocError>
    ensures count { IfOk result (λ tiles. length tiles.items ≡ length drafts.items) }
    ensures each { IfOk result (λ tiles. (tile : ℕ) (other : Draft) (another : Tile) (own : List PlacedPart) → tile < length drafts.items
        → Collects own (slice_index_or drafts.items tile other) → slice_index_or tiles.items tile another ≡ tile_from main.now own) }
{
    let entries = main_entries(alloc, main)?;
    let default = one_entry(alloc, cod_entry(main))?;
    finish_all(alloc, drafts, &entries, &default)
}

/// The tiles that some tile-parts make, whose tiles are below `count`.
pub fn tiles_of(
    alloc: Global,
    main: &[Segment],
    parts: Vec<PlacedPart>,
    count: usize,
) -> Result<Vec<Tile>, AllocError>
    requires { All (λ (part : PlacedPart). part.sot.tile < count) parts.items }
    ensures { IfOk result (λ tiles. tiles.items ≡ tiles_of main.now parts.items count) }
{
    let drafts = collect_parts(alloc, parts, count)?;
    let tiles = finish_drafts(alloc, main, drafts)?;
    Ok(tiles)
}
