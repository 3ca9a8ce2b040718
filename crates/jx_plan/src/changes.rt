//! The order of packets that headers say, and the volumes that are asked (ITU-T T.800, A.6.6, Table A.32).

ghost use Rattle.std.specs.Prelude.{◌≡◌, ◌≤◌, ◌==◌, ◌++◌, IfOk, OnOk, Some, length};
ghost use Rattle.std.specs.Option.{option_to_list};
ghost use Rattle.jx_codestream.specs.Headers.{cod_slot, slot_of};
ghost use Rattle.jx_codestream.specs.Tiles.{entries_joined, entry_in, in_slot};
ghost use Rattle.jx_options.specs.Choices.{changes_in};
ghost use Rattle.jx_plan.specs.Changes.{coding_end, end_written, entries_by, entries_without, has_comp, has_outside, is_coding, main_order, poc_of, volume_written, volumes_written};

use jx_base::NoMemory;
use jx_codestream::Entries;
use jx_marker::{Progression, Progressions, Segment};
use jx_options::PocChoice;
use std::alloc::Global;
use std::marker::Model;

/// The order of packets that a main header says: the entries of its POC, and the one of its COD.
#[derive(Drop)]
pub(crate) struct MainOrder {
    joined: Entries,
    default: Entries,
}

impl Model for MainOrder {
    ghost use Rattle.jx_plan.specs.Changes.{MainOrder};

    ghost Value = { MainOrder };

    ghost view = { λ m. record { joined = m.joined; default = m.default } };
}

fn is_coding(segment: &Segment) -> bool
    ensures { result ≡ is_coding segment.now }
{
    matches!(segment, Segment::Cod(_) | Segment::Coc { .. })
}

/// How many segments there are up to the last COD or COC.
pub(crate) fn coding_end(segments: &[Segment]) -> usize
    ensures value { result ≡ coding_end segments.now }
    ensures within { result ≤ length segments.now }
{
    let mut end = 0;
    for place in 0..segments.len() {
        if is_coding(&segments[place]) {
            end = place + 1;
        }
    }
    end
}

/// The entries of all POC segments.
fn entries_joined(alloc: Global, segments: &[Segment]) -> Result<Vec<Progression>, NoMemory>
    ensures { IfOk result (λ entries. entries.items ≡ entries_joined segments.now) }
{
    let mut entries = Vec::new(alloc);
    for segment in segments {
        if let Segment::Poc(more) = segment {
            entries.extend_from_slice(more.as_slice())?;
        }
    }
    Ok(entries)
}

pub(crate) fn is_cod(segment: &Segment) -> bool
    ensures { result ≡ (slot_of segment.now == 1) }
{
    matches!(segment, Segment::Cod(_))
}

/// The entry that a COD stands for: all layers, resolutions and components in its order (A.6.6).
fn entry_of(segment: &Segment) -> Option<Progression>
    ensures { option_to_list result ≡ entry_in (Some segment.now) }
{
    match segment {
        Segment::Cod(cod) => Some(Progression {
            rs: 0,
            cs: 0,
            lye: cod.layers,
            re: 33,
            ce: 0,
            order: cod.order,
        }),
        _ => None,
    }
}

/// The entry that a header's COD stands for.
fn cod_entry(segments: &[Segment]) -> Option<Progression>
    ensures { option_to_list result ≡ entry_in (in_slot cod_slot segments.now) }
{
    for segment in segments {
        if is_cod(segment) {
            return entry_of(segment);
        }
    }
    None
}

fn one_entry(alloc: Global, entry: Option<Progression>) -> Result<Entries, NoMemory>
    ensures { IfOk result (λ entries. entries ≡ option_to_list entry) }
{
    let mut entries = Vec::new(alloc);
    if let Some(entry) = entry {
        entries.push(entry)?;
    }
    let entries = Entries::new(entries)?;
    Ok(entries)
}

impl MainOrder {
    /// What these segments of a main header say.
    pub(crate) fn new(alloc: Global, main: &[Segment]) -> Result<MainOrder, NoMemory>
        ensures { IfOk result (λ order. order ≡ main_order main.now) }
    {
        let joined = Entries::new(entries_joined(alloc, main)?)?;
        let default = one_entry(alloc, cod_entry(main))?;
        Ok(MainOrder { joined, default })
    }

    /// The entries of a tile with this header, where it has no POC of its own.
    pub(crate) fn entries_without(
        &self,
        alloc: Global,
        header: &[Segment],
    ) -> Result<Entries, NoMemory>
        ensures { IfOk result (λ entries. entries ≡ entries_without self.now header.now) }
    {
        if !self.joined.as_slice().is_empty() {
            return Ok(self.joined.share()?);
        }
        let entry = cod_entry(header);
        if entry.is_some() {
            return one_entry(alloc, entry);
        }
        Ok(self.default.share()?)
    }

    /// The entries of a tile with this header.
    pub(crate) fn entries_by(&self, alloc: Global, header: &[Segment]) -> Result<Entries, NoMemory>
        ensures { IfOk result (λ entries. entries ≡ entries_by self.now header.now) }
    {
        let own = entries_joined(alloc, header)?;
        if own.is_empty() {
            return self.entries_without(alloc, header);
        }
        Ok(Entries::new(own)?)
    }
}

fn has_comp(comps: u16, entry: Progression) -> bool
    ensures { result ≡ has_comp comps entry }
{
    entry.cs < comps
}

fn some_outside(comps: u16, entries: &[Progression]) -> bool
    ensures { result ≡ has_outside comps (Some entries.now) }
{
    entries.iter().any(|entry| !has_comp(comps, *entry))
}

/// Whether some volume begins above the components.
pub(crate) fn has_outside(comps: u16, poc: &PocChoice) -> bool
    ensures { result ≡ has_outside comps (changes_in poc.now) }
{
    match poc.entries() {
        Some(entries) => some_outside(comps, entries),
        None => false,
    }
}

/// The components' end as it is written: CEpoc has 0 for 256 in one byte and for 16,384 in two.
fn end_written(comps: u16, ce: u16) -> u16
    ensures { result ≡ end_written comps ce }
{
    if ce < comps {
        return ce;
    }
    if comps == 256 || comps == 16_384 {
        0
    } else {
        comps
    }
}

fn volume_written(comps: u16, entry: Progression) -> Progression
    ensures { result ≡ volume_written comps entry }
{
    Progression {
        rs: entry.rs,
        cs: entry.cs,
        lye: entry.lye,
        re: entry.re,
        ce: end_written(comps, entry.ce),
        order: entry.order,
    }
}

/// The volumes of a picture of so many components.
fn some_written(
    alloc: Global,
    comps: u16,
    entries: &[Progression],
) -> Result<Vec<Progression>, NoMemory>
    ensures { IfOk result (λ list. list.items ≡ volumes_written comps (Some entries.now)) }
{
    let mut list = Vec::new(alloc);
    for entry in entries {
        if has_comp(comps, *entry) {
            list.push(volume_written(comps, *entry))?;
        }
    }
    Ok(list)
}

/// Appends a POC of the volumes that are asked, where there are some.
pub(crate) fn push_volumes(
    alloc: Global,
    comps: u16,
    poc: &PocChoice,
    into: &mut Vec<Segment>,
) -> Result<(), NoMemory>
    ensures { OnOk result (into.new.items ≡ into.old.items ++ poc_of (volumes_written comps (changes_in poc.now))) }
{
    let Some(entries) = poc.entries() else {
        return Ok(());
    };
    let list = some_written(alloc, comps, entries)?;
    if list.is_empty() {
        return Ok(());
    }
    into.push(Segment::Poc(Progressions::new(list)))?;
    Ok(())
}
