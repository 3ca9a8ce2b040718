//! How many packets and tile-parts are written, and what TLM can name of them.

ghost use Rattle.std.specs.Prelude.{◌≡◌, ◌<◌, ◌≤◌, ℕ, IfErr, IfOk, OnOk, None};
ghost use Rattle.jx_tile.specs.Totals.{packet_total, totals_fault};
ghost use Rattle.jx_codestream.specs.First.{tile_number};
ghost use Rattle.jx_codestream.specs.InRange.{StreamInRange};
ghost use Rattle.jx_plan.specs.Fits.{Fits};
ghost use Rattle.jx_tile_parts.specs.Groups.{HasFewEntries, HasFewParts};
ghost use Rattle.jx_plan.specs.Plan.{headers_with, most_packets};
ghost use Rattle.jx_plan.specs.Profile.{unclaimed};
ghost use Rattle.jx_plan.specs.Standing.{HeadersStand};
ghost use Rattle.jx_plan.specs.Strays.{HasNoStray};
ghost use Rattle.jx_plan.specs.Steps.{AreAllParts, IsOverEntries, IsOverPackets, IsOverParts, IsTooLate};
ghost use Rattle.jx_options.specs.Wanted.{MayBeWanted};

use crate::PlanFault;
use crate::headers::write_headers;
use crate::parting::all_parts;
use crate::profile::check_profile;
use jx_base::NoMemory;
use jx_codestream::Stream;
use jx_options::{Marks, Options};
use jx_tile::count_all;
use std::alloc::Global;

/// The packets of a stream, one for each precinct and layer (ITU-T T.800, B.9): what limit 7 speaks of where the
/// stream is the one that is written. Time follows the tiles and their components.
///
/// # Errors
///
/// `NoMemory` where memory is refused.
pub(crate) fn count_packets(alloc: Global, stream: &Stream) -> Result<u128, NoMemory>
    requires { StreamInRange stream.now }
    ensures { IfOk result (λ packets. packets ≡ packet_total stream.now) }
{
    let main = stream.main_view(alloc)?;
    let (_, packets) = count_all(alloc, stream, &main)?;
    Ok(packets)
}

/// The headers that are written as the options ask, with so many layers in each tile, at least 1.
///
/// # Errors
///
/// Limit 7 exactly where over 2^22 packets follow them, with their number. `NoMemory` where memory is refused.
pub(crate) fn plan_headers(
    alloc: Global,
    stream: &Stream,
    options: &Options,
    layers: u16,
) -> Result<Stream, PlanFault>
    requires stand { HeadersStand stream.now }
    requires range { StreamInRange stream.now }
    requires wanted { MayBeWanted options.now }
    requires fits { Fits options.now.precincts stream.now }
    requires some { 1 ≤ layers }
    ensures headers { IfOk result (λ written. written ≡ headers_with options.now layers stream.now) }
    ensures few { OnOk result (packet_total (headers_with options.now layers stream.now) ≤ most_packets) }
    ensures cause { IfErr result (λ e. IsOverPackets stream.now options.now layers e) }
{
    let written = write_headers(alloc, stream, options, layers)?;
    let packets = count_packets(alloc, &written)?;
    if packets > 1 << 22 {
        return Err(PlanFault::Limit {
            number: 7,
            found: packets,
        });
    }
    Ok(written)
}

/// How many tile-parts the headers that are written have in all, at most 255 in each tile.
///
/// # Errors
///
/// Choice 5 exactly where one has more, at the lowest such tile. `NoMemory` where memory is refused.
pub(crate) fn check_parts(
    alloc: Global,
    stream: &Stream,
    options: &Options,
    layers: u16,
    written: &Stream,
) -> Result<usize, PlanFault>
    requires stand { HeadersStand stream.now }
    requires range { StreamInRange stream.now }
    requires totals { totals_fault stream.now ≡ None }
    requires wanted { MayBeWanted options.now }
    requires fits { Fits options.now.precincts stream.now }
    requires some { 1 ≤ layers }
    requires written { written.now ≡ headers_with options.now layers stream.now }
    requires few { packet_total (headers_with options.now layers stream.now) ≤ most_packets }
    requires placed { HasNoStray stream.now options.now layers }
    ensures few { OnOk result ((t : ℕ) → t < tile_number stream.now.siz → HasFewParts options.now.marks.parts (headers_with options.now layers stream.now) t) }
    ensures all { IfOk result (λ all. AreAllParts options.now.marks.parts written.now all) }
    ensures cause { IfErr result (λ e. IsOverParts stream.now options.now layers e) }
{
    let counted = all_parts(alloc, written, options.marks.parts)?;
    match counted {
        Ok(all) => Ok(all),
        Err(tile) => Err(PlanFault::Choice {
            number: 5,
            place: u32::from(tile),
        }),
    }
}

/// Whether TLM, where it is asked, can name all tile-parts of headers that are written: it has 256 segments of 10,921
/// entries (ITU-T T.800, A.7.1).
///
/// # Errors
///
/// Choice 10 at 0 exactly where it can't.
pub(crate) fn check_entries(written: &Stream, marks: Marks, all: usize) -> Result<(), PlanFault>
    requires range { StreamInRange written.now }
    requires totals { totals_fault written.now ≡ None }
    requires all { AreAllParts marks.parts written.now all }
    ensures few { OnOk result (HasFewEntries marks written.now) }
    ensures cause { IfErr result (λ e. IsOverEntries marks written.now e) }
{
    if marks.tlm && all > 2_795_776 {
        return Err(PlanFault::Choice {
            number: 10,
            place: 0,
        });
    }
    Ok(())
}

/// Whether the headers that are written can have what is asked of tile-parts, of TLM and of the profile that is
/// claimed.
///
/// # Errors
///
/// Choice 5 as `check_parts` says, else choice 10 as `check_entries` says, else choice 11 as `check_profile` says.
/// `NoMemory` where memory is refused.
pub(crate) fn check_written(
    alloc: Global,
    stream: &Stream,
    options: &Options,
    layers: u16,
    written: &Stream,
) -> Result<(), PlanFault>
    requires stand { HeadersStand stream.now }
    requires range { StreamInRange stream.now }
    requires totals { totals_fault stream.now ≡ None }
    requires wanted { MayBeWanted options.now }
    requires fits { Fits options.now.precincts stream.now }
    requires some { 1 ≤ layers }
    requires written { written.now ≡ headers_with options.now layers stream.now }
    requires few { packet_total (headers_with options.now layers stream.now) ≤ most_packets }
    requires placed { HasNoStray stream.now options.now layers }
    ensures few { OnOk result ((t : ℕ) → t < tile_number stream.now.siz → HasFewParts options.now.marks.parts (headers_with options.now layers stream.now) t) }
    ensures entries { OnOk result (HasFewEntries options.now.marks (headers_with options.now layers stream.now)) }
    ensures claimed { OnOk result (unclaimed options.now.marks (headers_with options.now layers stream.now) ≡ None) }
    ensures cause { IfErr result (λ e. IsTooLate stream.now options.now layers e) }
{
    let all = match check_parts(alloc, stream, options, layers, written) {
        Ok(all) => all,
        Err(fault) => return Err(fault),
    };
    if let Err(fault) = check_entries(written, options.marks, all) {
        return Err(fault);
    }
    check_profile(written, options.marks)
}
