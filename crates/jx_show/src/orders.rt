//! The progression orders that POC segments give, of all tiles and of one (ITU-T T.800, A.6.6).

ghost use Rattle.std.specs.Prelude.{◌≡◌, IfOk, ◌++◌};
ghost use Rattle.std.specs.Option.{option_to_list};
ghost use Rattle.jx_codestream.specs.Headers.{cod_slot};
ghost use Rattle.jx_codestream.specs.Tiles.{entries_joined, entry_in, in_slot, or_list};
ghost use Rattle.jx_show.specs.Orders.{given_entries, own_entries, same_entries, same_entry};

use jx_base::NoMemory;
use jx_codestream::Tile;
use jx_marker::{Progression, Segment};
use std::alloc::Global;

/// The entries of all POC segments of a header.
pub(crate) fn entries_joined(
    alloc: Global,
    segments: &[Segment],
) -> Result<Vec<Progression>, NoMemory>
    ensures { IfOk result (λ entries. entries.items ≡ entries_joined segments.now) }
{
    let mut entries = Vec::new(alloc);
    for segment in segments {
        if let Segment::Poc(more) = segment {
            entries.extend_from_slice(more.as_slice())?;
        }
    }
    Ok(entries)
}

fn same_entry(a: &Progression, b: &Progression) -> bool
    ensures { result ≡ same_entry a.now b.now }
{
    let first = a.rs == b.rs && (a.cs == b.cs && a.lye == b.lye);
    first && (a.re == b.re && (a.ce == b.ce && a.order == b.order))
}

fn same_entries(a: &[Progression], b: &[Progression]) -> bool
    ensures { result ≡ same_entries a.now b.now }
{
    if a.len() != b.len() {
        return false;
    }
    for index in 0..a.len() {
        if !same_entry(&a[index], &b[index]) {
            return false;
        }
    }
    true
}

/// The entry that a header's COD stands for.
fn cod_entry(segments: &[Segment]) -> Option<Progression>
    ensures { option_to_list result ≡ entry_in (in_slot cod_slot segments.now) }
{
    for segment in segments {
        if let Segment::Cod(cod) = segment {
            return Some(Progression {
                rs: 0,
                cs: 0,
                lye: cod.layers,
                re: 33,
                ce: 0,
                order: cod.order,
            });
        }
    }
    None
}

/// Whether the entries are just this one, or none where it isn't there.
fn is_only(entries: &[Progression], entry: Option<Progression>) -> bool
    ensures { result ≡ same_entries entries.now (option_to_list entry) }
{
    match entry {
        Some(entry) => same_entries(entries, &[entry]),
        None => same_entries(entries, &[]),
    }
}

/// Whether a tile's entries are those that it has without POC of its own. `entries` are those of the main header's POC.
fn are_given(main: &[Segment], entries: &[Progression], tile: &Tile) -> bool
    requires { entries.now ≡ entries_joined main.now }
    ensures { result ≡ same_entries tile.now.progressions (given_entries main.now tile.now.header) }
{
    let own = tile.progressions.as_slice();
    if !entries.is_empty() {
        return same_entries(own, entries);
    }
    let entry = cod_entry(tile.header.as_slice());
    if entry.is_some() {
        return is_only(own, entry);
    }
    is_only(own, cod_entry(main))
}

/// A tile's entries where POC of its own gives others than it has without.
pub(crate) fn own_entries<'a>(
    main: &[Segment],
    entries: &[Progression],
    tile: &'a Tile,
) -> &'a [Progression]
    requires { entries.now ≡ entries_joined main.now }
    ensures { result.now ≡ own_entries main.now tile.now }
{
    if are_given(main, entries, tile) {
        return &[];
    }
    tile.progressions.as_slice()
}
