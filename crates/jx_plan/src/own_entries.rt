//! A tile's own progression entries, where those of the input are kept (ITU-T T.800, A.6.6, Table A.32).

ghost use Rattle.std.specs.Prelude.{◌≡◌, [], IfOk, map, if◌then◌else◌};
ghost use Rattle.std.specs.List.{list_any};
ghost use Rattle.jx_marker.specs.declared.Segment.TheVariants as segment;
ghost use Rattle.jx_options.specs.Choices.{changes_in};
ghost use Rattle.jx_plan.specs.Changes.{entry_kept, has_long, is_poc, most_entries, own_entries, put_entries, same_entries, same_entry, tile_entries, with_entries};

use crate::changes::MainOrder;
use jx_base::NoMemory;
use jx_codestream::Tile;
use jx_marker::{Progression, Progressions, Segment};
use jx_options::PocChoice;
use std::alloc::Global;

fn is_poc(segment: &Segment) -> bool
    ensures { result ≡ is_poc segment.now }
{
    matches!(segment, Segment::Poc(_))
}

pub(crate) fn has_poc(segments: &[Segment]) -> bool
    ensures { result ≡ list_any is_poc segments.now }
{
    segments.iter().any(|segment| is_poc(segment))
}

fn same_entry(a: Progression, b: Progression) -> bool
    ensures { result ≡ same_entry a b }
{
    a.rs == b.rs
        && a.cs == b.cs
        && a.lye == b.lye
        && a.re == b.re
        && a.ce == b.ce
        && a.order == b.order
}

fn same_entries(a: &[Progression], b: &[Progression]) -> bool
    ensures { result ≡ same_entries a.now b.now }
{
    if a.len() != b.len() {
        return false;
    }
    for place in 0..a.len() {
        if !same_entry(a[place], b[place]) {
            return false;
        }
    }
    true
}

/// Whether a tile has entries of its own.
fn has_own(alloc: Global, main: &MainOrder, tile: &Tile) -> Result<bool, NoMemory>
    ensures { IfOk result (λ own. own_entries main.now tile.now ≡ (if own then tile.now.progressions else [])) }
{
    let header = tile.header.as_slice();
    if has_poc(header) {
        return Ok(true);
    }
    let entries = main.entries_without(alloc, header)?;
    let own = !same_entries(tile.progressions.as_slice(), entries.as_slice());
    drop(entries);
    Ok(own)
}

/// An entry that is kept: CEpoc has 0 for 16,384.
fn entry_kept(entry: Progression) -> Progression
    ensures { result ≡ entry_kept entry }
{
    Progression {
        rs: entry.rs,
        cs: entry.cs,
        lye: entry.lye,
        re: entry.re,
        ce: if entry.ce == 16_384 { 0 } else { entry.ce },
        order: entry.order,
    }
}

/// Entries that are kept.
fn entries_kept(alloc: Global, entries: &[Progression]) -> Result<Vec<Progression>, NoMemory>
    ensures { IfOk result (λ list. list.items ≡ map entry_kept entries.now) }
{
    let mut list = Vec::new(alloc);
    for entry in entries {
        list.push(entry_kept(*entry))?;
    }
    Ok(list)
}

/// A POC segment that is kept.
pub(crate) fn poc_kept(alloc: Global, entries: &Progressions) -> Result<Segment, NoMemory>
    ensures { IfOk result (λ kept. kept ≡ segment.Poc (map entry_kept entries.now)) }
{
    let list = entries_kept(alloc, entries.as_slice())?;
    Ok(Segment::Poc(Progressions::new(list)))
}

/// As many entries as a POC segment holds: Lpoc has two bytes.
fn most_entries(comps: u16) -> usize
    ensures { result ≡ most_entries comps }
{
    if comps < 257 { 65_533 / 7 } else { 65_533 / 9 }
}

/// A tile's own entries, as many as a POC segment holds.
pub(crate) fn tile_entries(
    alloc: Global,
    comps: u16,
    poc: &PocChoice,
    main: &MainOrder,
    tile: &Tile,
) -> Result<Vec<Progression>, NoMemory>
    ensures { IfOk result (λ list. list.items ≡ tile_entries comps (changes_in poc.now) main.now tile.now) }
{
    if !matches!(poc, PocChoice::Keep) || !has_own(alloc, main, tile)? {
        return Ok(Vec::new(alloc));
    }
    let entries = tile.progressions.as_slice();
    let (first, _) = entries.split_at(entries.len().min(most_entries(comps)));
    entries_kept(alloc, first)
}

/// Whether a tile's own entries are more than a POC segment holds.
pub(crate) fn has_long(
    alloc: Global,
    comps: u16,
    poc: &PocChoice,
    main: &MainOrder,
    tile: &Tile,
) -> Result<bool, NoMemory>
    ensures { IfOk result (λ long. long ≡ has_long comps (changes_in poc.now) main.now tile.now) }
{
    if !matches!(poc, PocChoice::Keep) || !has_own(alloc, main, tile)? {
        return Ok(false);
    }
    Ok(tile.progressions.as_slice().len() > most_entries(comps))
}

/// A segment, or these entries in place of a POC.
fn put_entries(segment: Segment, entries: &Progressions) -> Result<Segment, NoMemory>
    ensures { IfOk result (λ put. put ≡ put_entries entries.now segment) }
{
    if !is_poc(&segment) {
        return Ok(segment);
    }
    drop(segment);
    Ok(Segment::Poc(entries.copy()?))
}

/// Segments, with these entries in place of their POC.
fn put_all(
    alloc: Global,
    segments: Vec<Segment>,
    entries: &Progressions,
) -> Result<Vec<Segment>, NoMemory>
    ensures { IfOk result (λ all. all.items ≡ map (put_entries entries.now) segments.items) }
{
    let mut all = Vec::new(alloc);
    for segment in segments {
        let put = put_entries(segment, entries)?;
        all.push(put)?;
    }
    Ok(all)
}

/// A tile's header with these entries, where its POC stands or else behind its segments.
pub(crate) fn with_entries(
    alloc: Global,
    header: Vec<Segment>,
    entries: Vec<Progression>,
) -> Result<Vec<Segment>, NoMemory>
    ensures { IfOk result (λ all. all.items ≡ with_entries entries.items header.items) }
{
    if entries.is_empty() {
        return Ok(header);
    }
    let entries = Progressions::new(entries);
    if has_poc(&header) {
        return put_all(alloc, header, &entries);
    }
    let mut header = header;
    header.push(Segment::Poc(entries))?;
    Ok(header)
}
