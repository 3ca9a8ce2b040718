//! What profile a written file may claim (ITU-T T.800, A.5.1, Table A.10).

ghost use Rattle.std.specs.Prelude.{◌≡◌, ◌≤◌, ◌+◌, ◌==◌, length, IfErr, None, OnOk, Some};
ghost use Rattle.std.specs.List.{list_all, list_any};
ghost use Rattle.jx_codestream.specs.Headers.{cod_slot};
ghost use Rattle.jx_codestream.specs.InRange.{StreamInRange};
ghost use Rattle.jx_codestream.specs.Params.{header_of};
ghost use Rattle.jx_codestream.specs.Tiles.{in_slot};
ghost use Rattle.jx_plan.specs.Changes.{is_poc};
ghost use Rattle.jx_plan.specs.Profile.{all_meet, are_full, are_squares, are_volumes, by_component, changes_meet, cod_meets, first_failed, first_unmet, guard_bits, guard_meets, guards_meet, has_levels, has_no_offset, has_volumes, is_full, is_ordered, is_parameter, is_small, is_volume, lacks_region, levels_in, levels_meet, main_levels, meets, shape_meets, unclaimed};
ghost use Rattle.jx_plan.specs.Steps.{IsUnmet};

use crate::PlanFault;
use crate::changes::is_cod;
use crate::own_entries::has_poc;
use jx_codestream::Stream;
use jx_marker::{Cod, CompSize, Progression, Segment, Shape, Siz};
use jx_options::{Marks, PartChoice};

/// The profiles of digital cinema.
#[derive(Clone, Copy, Debug, PartialEq, Eq)]
pub enum Cinema {
    /// 3, of pictures of at most 2,048 by 1,080.
    TwoK,
    /// 4, of pictures of at most 4,096 by 2,160.
    FourK,
}

/// What these profiles ask of the segments of headers.
#[derive(Clone, Copy, Debug, PartialEq, Eq)]
pub(crate) enum Demand {
    /// No region of interest.
    Region,
    /// Code-blocks of 32 by 32.
    Blocks,
    /// Their style is 0.
    Style,
    /// Precincts of 128 by 128 at the lowest resolution and 256 by 256 above.
    Precincts,
    /// The order CPRL, without changes.
    Order,
    /// Changes of two volumes, of the resolutions below these levels and of the one above.
    Volumes(u8),
    /// One layer.
    Layers,
    /// So many levels.
    Levels(u8),
    /// The 9-7 wavelet.
    Wavelet,
    /// So many guard bits.
    Guard(u8),
}

fn is_small(siz: &Siz, cinema: Cinema) -> bool
    ensures { result ≡ is_small cinema siz.now }
{
    match cinema {
        Cinema::TwoK => siz.x1 <= 2_048 && siz.y1 <= 1_080,
        Cinema::FourK => siz.x1 <= 4_096 && siz.y1 <= 2_160,
    }
}

fn has_no_offset(siz: &Siz) -> bool
    ensures { result ≡ has_no_offset siz.now }
{
    siz.x0 == 0 && siz.y0 == 0 && siz.tx == 0 && siz.ty == 0
}

fn is_full(comp: &CompSize) -> bool
    ensures { result ≡ is_full comp.now }
{
    comp.ssiz == 11 && comp.dx == 1 && comp.dy == 1
}

fn all_full(comps: &[CompSize]) -> bool
    ensures { result ≡ list_all is_full comps.now }
{
    comps.iter().all(|comp| is_full(comp))
}

fn are_full(comps: &[CompSize]) -> bool
    ensures { result ≡ are_full comps.now }
{
    comps.len() == 3 && all_full(comps)
}

fn all_large(bytes: &[u8]) -> bool
    ensures { result ≡ list_all (λ b. b == 136) bytes.now }
{
    bytes.iter().all(|byte| *byte == 136)
}

/// Bytes of precincts: 7 and 7, then 8 and 8.
fn are_squares(bytes: &[u8]) -> bool
    ensures { result ≡ are_squares bytes.now }
{
    match bytes.split_first() {
        Some((first, above)) => *first == 119 && all_large(above),
        None => false,
    }
}

fn shape_meets(shape: &Shape, demand: Demand) -> bool
    ensures { result ≡ shape_meets demand shape.now }
{
    match demand {
        Demand::Blocks => shape.xcb == 5 && shape.ycb == 5,
        Demand::Style => shape.style == 0,
        Demand::Precincts => are_squares(shape.precincts.as_slice()),
        Demand::Levels(levels) => shape.levels == levels,
        Demand::Wavelet => shape.wavelet == 0,
        _ => true,
    }
}

fn cod_meets(cod: &Cod, demand: Demand) -> bool
    ensures { result ≡ cod_meets demand cod.now }
{
    match demand {
        Demand::Order => cod.order == 4,
        Demand::Layers => cod.layers == 1,
        _ => shape_meets(&cod.shape, demand),
    }
}

fn guard_meets(sqcd: u8, demand: Demand) -> bool
    ensures { result ≡ guard_meets demand sqcd }
{
    match demand {
        Demand::Guard(bits) => sqcd / 32 == bits,
        _ => true,
    }
}

fn lacks_region(demand: Demand) -> bool
    ensures { result ≡ lacks_region demand }
{
    !matches!(demand, Demand::Region)
}

/// A volume of these resolutions, of one layer and three components, in the order CPRL.
fn is_volume(entry: Progression, rs: u16, re: u16) -> bool
    ensures { result ≡ is_volume rs re entry }
{
    u16::from(entry.rs) == rs
        && u16::from(entry.re) == re
        && entry.cs == 0
        && entry.lye == 1
        && entry.ce == 3
        && entry.order == 4
}

/// Two volumes: of the resolutions below so many levels, and of the one above.
fn are_volumes(entries: &[Progression], levels: u8) -> bool
    ensures { result ≡ are_volumes levels entries.now }
{
    let levels = u16::from(levels);
    match entries {
        [low, high] => is_volume(*low, 0, levels) && is_volume(*high, levels, levels + 1),
        _ => false,
    }
}

fn changes_meet(entries: &[Progression], demand: Demand) -> bool
    ensures { result ≡ changes_meet demand entries.now }
{
    match demand {
        Demand::Order => false,
        Demand::Volumes(levels) => are_volumes(entries, levels),
        _ => true,
    }
}

fn meets(segment: &Segment, demand: Demand) -> bool
    ensures { result ≡ meets demand segment.now }
{
    match segment {
        Segment::Cod(cod) => cod_meets(cod, demand),
        Segment::Coc { comp: _, shape } => shape_meets(shape, demand),
        Segment::Qcd(quant) => guard_meets(quant.sqcd, demand),
        Segment::Qcc { comp: _, quant } => guard_meets(quant.sqcd, demand),
        Segment::Rgn { .. } => lacks_region(demand),
        Segment::Poc(entries) => changes_meet(entries.as_slice(), demand),
        _ => true,
    }
}

fn each_meets(segments: &[Segment], demand: Demand) -> bool
    ensures { result ≡ list_all (meets demand) segments.now }
{
    segments.iter().all(|segment| meets(segment, demand))
}

/// Of the main header and the first tile's.
fn all_meet(stream: &Stream, demand: Demand) -> bool
    ensures { result ≡ all_meet demand stream.now }
{
    each_meets(stream.main.as_slice(), demand) && each_meets(stream.header(0), demand)
}

fn is_parameter(segment: &Segment) -> bool
    ensures { result ≡ is_parameter segment.now }
{
    matches!(
        segment,
        Segment::Cod(_) | Segment::Coc { .. } | Segment::Qcd(_) | Segment::Qcc { .. }
    )
}

fn has_parameters(header: &[Segment]) -> bool
    ensures { result ≡ list_any is_parameter header.now }
{
    header.iter().any(|segment| is_parameter(segment))
}

fn by_component(parts: PartChoice) -> bool
    ensures { result ≡ by_component parts }
{
    matches!(parts, PartChoice::Component)
}

/// The number of the first condition that fails, where they have numbers from one on.
fn first_failed(number: u32, met: &[bool]) -> Option<u32>
    requires { number + length met.now ≤ 100 }
    ensures { result ≡ first_failed number met.now }
{
    match met.split_first() {
        Some((first, rest)) => {
            if *first {
                first_failed(number + 1, rest)
            } else {
                Some(number)
            }
        }
        None => None,
    }
}

/// The levels of a COD.
fn levels_of(segment: &Segment) -> u8
    ensures { result ≡ levels_in (Some segment.now) }
{
    match segment {
        Segment::Cod(cod) => cod.shape.levels,
        _ => 0,
    }
}

/// The levels of the first COD.
fn levels_among(segments: &[Segment]) -> u8
    ensures { result ≡ levels_in (in_slot cod_slot segments.now) }
{
    for segment in segments {
        if is_cod(segment) {
            return levels_of(segment);
        }
    }
    0
}

/// The levels of a main header's COD.
fn main_levels(stream: &Stream) -> u8
    ensures { result ≡ main_levels stream.now }
{
    levels_among(stream.main.as_slice())
}

fn main_has_poc(stream: &Stream) -> bool
    ensures { result ≡ list_any is_poc stream.now.main }
{
    has_poc(stream.main.as_slice())
}

fn tile_has_poc(stream: &Stream) -> bool
    ensures { result ≡ list_any is_poc (header_of stream.now 0) }
{
    has_poc(stream.header(0))
}

/// POC stands in the main header alone, with the two volumes of a picture of its levels.
fn has_volumes(stream: &Stream) -> bool
    ensures { result ≡ has_volumes stream.now }
{
    let levels = main_levels(stream);
    main_has_poc(stream) && !tile_has_poc(stream) && all_meet(stream, Demand::Volumes(levels))
}

/// The order of packets is that of a profile.
fn is_ordered(stream: &Stream, cinema: Cinema) -> bool
    ensures { result ≡ is_ordered cinema stream.now }
{
    match cinema {
        Cinema::TwoK => all_meet(stream, Demand::Order),
        Cinema::FourK => has_volumes(stream),
    }
}

fn has_levels(cinema: Cinema, levels: u8) -> bool
    ensures { result ≡ has_levels cinema levels }
{
    match cinema {
        Cinema::TwoK => levels <= 5,
        Cinema::FourK => 1 <= levels && levels <= 6,
    }
}

/// Each component has the levels of the main header's COD, and these are those of a profile.
fn levels_meet(stream: &Stream, cinema: Cinema) -> bool
    ensures { result ≡ levels_meet cinema stream.now }
{
    let levels = main_levels(stream);
    has_levels(cinema, levels) && all_meet(stream, Demand::Levels(levels))
}

fn guard_bits(cinema: Cinema) -> u8
    ensures { result ≡ guard_bits cinema }
{
    match cinema {
        Cinema::TwoK => 1,
        Cinema::FourK => 2,
    }
}

/// Each quantization has the guard bits of a profile.
fn guards_meet(stream: &Stream, cinema: Cinema) -> bool
    ensures { result ≡ guards_meet cinema stream.now }
{
    let bits = guard_bits(cinema);
    all_meet(stream, Demand::Guard(bits))
}

/// The first condition of a profile of digital cinema that written headers with these marks don't meet, 1 to 16; none
/// where they meet all. They are, in their order: Xsiz and Ysiz; no offsets; one tile; three components without
/// subsampling, of 12 bits without a sign; no RGN; COD, COC, QCD and QCC in the main header alone; code-blocks of 32
/// by 32; their style 0; precincts of 128 by 128 at the lowest resolution and 256 by 256 above; the order CPRL
/// without POC, or for 4K a POC of two volumes in the main header alone; one layer; at most five levels, for 4K one
/// to six, the same for each component; the 9-7 wavelet; one guard bit, for 4K two; a tile-part for each component;
/// TLM.
#[tactic(auto, unfolding(crate::specs::Profile::conditions))]
pub fn first_unmet(written: &Stream, marks: Marks, cinema: Cinema) -> Option<u32>
    requires { StreamInRange written.now }
    ensures { result ≡ first_unmet cinema marks written.now }
{
    let met = [
        is_small(&written.siz, cinema),
        has_no_offset(&written.siz),
        written.tile_count() == 1,
        are_full(written.siz.comps.as_slice()),
        all_meet(written, Demand::Region),
        !has_parameters(written.header(0)),
        all_meet(written, Demand::Blocks),
        all_meet(written, Demand::Style),
        all_meet(written, Demand::Precincts),
        is_ordered(written, cinema),
        all_meet(written, Demand::Layers),
        levels_meet(written, cinema),
        all_meet(written, Demand::Wavelet),
        guards_meet(written, cinema),
        by_component(marks.parts),
        marks.tlm,
    ];
    first_failed(1, &met)
}

/// The first condition that the profile that is claimed has and written headers don't meet; 0 where its conditions
/// aren't known.
#[tactic(auto, unfolding(crate::specs::Profile::unclaimed))]
fn unclaimed(written: &Stream, marks: Marks) -> Option<u32>
    requires { StreamInRange written.now }
    ensures { result ≡ unclaimed marks written.now }
{
    match written.siz.rsiz {
        0 => None,
        3 => first_unmet(written, marks, Cinema::TwoK),
        4 => first_unmet(written, marks, Cinema::FourK),
        _ => Some(0),
    }
}

/// Whether written headers meet the profile that they claim.
///
/// # Errors
///
/// Choice 11 exactly where they don't, at the number of the first condition of profile 3 or 4 that fails, or at 0
/// where the conditions of what is claimed aren't known.
pub(crate) fn check_profile(written: &Stream, marks: Marks) -> Result<(), PlanFault>
    requires { StreamInRange written.now }
    ensures met { OnOk result (unclaimed marks written.now ≡ None) }
    ensures cause { IfErr result (λ e. IsUnmet marks written.now e) }
{
    match unclaimed(written, marks) {
        Some(place) => Err(PlanFault::Choice { number: 11, place }),
        None => Ok(()),
    }
}
