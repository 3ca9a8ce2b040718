//! Entries that cover the same packets as an entry before them, and so send nothing (T.800, A.6.6 and B.12.2).

ghost use Rattle.std.specs.Prelude.{◌≡◌, IfOk, false, true, slice_index_or};
ghost use Rattle.jx_progression.specs.Packets.{entry_at};
ghost use Rattle.jx_progression.specs.Repeats.{AreRepeats, CoverSame};

use jx_base::NoMemory;
use jx_marker::Progression;
use std::alloc::Global;

/// Fewer groups of resolutions than this are gone over in less time than it takes to look for an equal entry.
const FEW_GROUPS: usize = 64;

/// Whether two entries cover the same packets, be it in different orders.
fn cover_same(entry: Progression, other: Progression) -> bool
    ensures { result ≡ true → CoverSame entry other }
{
    if entry.rs != other.rs || entry.re != other.re {
        return false;
    }
    if entry.cs != other.cs || entry.ce != other.ce {
        return false;
    }
    entry.lye == other.lye
}

/// A number that entries that cover the same packets share.
fn cover_key(entry: Progression) -> u64 {
    let comps = (u64::from(entry.cs) << 16) | u64::from(entry.ce);
    let rest = (u64::from(entry.lye) << 16) | (u64::from(entry.rs) << 8) | u64::from(entry.re);
    (comps << 32) | rest
}

/// The entry at a place, or one that covers nothing past the end.
fn entry_at(entries: &[Progression], place: usize) -> Progression
    ensures { result ≡ entry_at entries.now place }
{
    match entries.get(place) {
        Some(entry) => *entry,
        None => Progression {
            rs: 0,
            cs: 0,
            lye: 0,
            re: 0,
            ce: 0,
            order: 0,
        },
    }
}

/// Marks the entry at a place if the one at another place stands before it and covers the same packets.
fn mark_repeat(entries: &[Progression], before: usize, place: usize, repeats: &mut [bool])
    requires { AreRepeats entries.now repeats.old }
    ensures { AreRepeats entries.now repeats.new }
{
    if place <= before || repeats.len() <= place {
        return;
    }
    if cover_same(entry_at(entries, before), entry_at(entries, place)) {
        repeats[place] = true;
    }
}

/// Marks each entry that covers the same packets as the one whose place stands before its own in a list.
fn mark_repeats(entries: &[Progression], places: &[usize], repeats: &mut [bool])
    requires { AreRepeats entries.now repeats.old }
    ensures { AreRepeats entries.now repeats.new }
{
    for next in 1..places.len() {
        mark_repeat(entries, places[next - 1], places[next], repeats);
    }
}

/// The places of the entries, sorted by what the entries cover. Those that cover the same packets stand in their order.
fn sorted_places(alloc: Global, entries: &[Progression]) -> Result<Vec<usize>, NoMemory> {
    let mut places = Vec::with_capacity(alloc, entries.len())?;
    for place in 0..entries.len() {
        places.push(place)?;
    }
    places.sort_by_key(|place| cover_key(entry_at(entries, *place)))?;
    Ok(places)
}

/// Marks the entries that cover the same packets as an entry before them. None is marked where there are few groups
/// of resolutions, which are gone over in less time than the search takes.
pub(crate) fn repeats_of(
    alloc: Global,
    entries: &[Progression],
    groups: usize,
) -> Result<Vec<bool>, NoMemory>
    ensures { IfOk result (λ repeats. AreRepeats entries.now repeats.items) }
{
    if entries.len() <= 1 || groups < FEW_GROUPS {
        return Ok(Vec::new(alloc));
    }
    let mut repeats = vec![in alloc; false; entries.len()]?;
    let places = sorted_places(alloc, entries)?;
    mark_repeats(entries, &places, &mut repeats);
    Ok(repeats)
}

/// Whether the entry at a place is marked.
pub(crate) fn is_repeat(repeats: &[bool], place: usize) -> bool
    ensures { result ≡ slice_index_or repeats.now place false }
{
    match repeats.get(place) {
        Some(repeat) => *repeat,
        None => false,
    }
}
