//! Whether two headers say the same of components (ITU-T T.800, A.6), segment by segment.

ghost use Rattle.std.specs.Prelude.{◌≡◌, ◌<◌, ◌≤◌, ℕ, IsTrue, MatchOption, None, Some, drop, length, slice_get, true};
ghost use Rattle.jx_codestream.specs.Params.{quant_in};
ghost use Rattle.jx_same.specs.Sayings.{AreAlikeAt, AreAsBefore, concerns, said_of, saying_of, sayings};
ghost use Rattle.jx_marker.specs.declared.Segment.{Segment};

use crate::input::Input;
use jx_codestream::Stream;
use jx_marker::{Quant, Segment};

/// The numbers of a segment that say how components are transformed, and what slot it has in its header; without those of quantization.
#[derive(Clone, Copy)]
pub(crate) struct Said {
    pub(crate) slot: usize,
    pub(crate) levels: u8,
    pub(crate) wavelet: u8,
    pub(crate) transform: u8,
    pub(crate) shift: u8,
}

/// The numbers of a segment of this slot that says nothing of levels and wavelet.
fn said_at(slot: usize, shift: u8) -> Said
    ensures { result ≡ record { slot = slot; levels = 0; wavelet = 0; transform = 0; shift = shift } }
{
    Said {
        slot,
        levels: 0,
        wavelet: 0,
        transform: 0,
        shift,
    }
}

/// The numbers of a segment.
fn said_of(segment: &Segment) -> Said
    ensures { result ≡ said_of segment.now }
{
    match segment {
        Segment::Cod(cod) => Said {
            slot: 1,
            levels: cod.shape.levels,
            wavelet: cod.shape.wavelet,
            transform: cod.transform,
            shift: 0,
        },
        Segment::Coc { comp, shape } => Said {
            slot: 261 + 3 * usize::from(*comp),
            levels: shape.levels,
            wavelet: shape.wavelet,
            transform: 0,
            shift: 0,
        },
        Segment::Qcd(_) => said_at(2, 0),
        Segment::Qcc { comp, .. } => said_at(262 + 3 * usize::from(*comp), 0),
        Segment::Rgn { comp, shift } => said_at(263 + 3 * usize::from(*comp), *shift),
        _ => said_at(0, 0),
    }
}

/// What a segment says of quantization.
fn quant_of(segment: &Segment) -> Option<&Quant>
    ensures { MatchOption result (quant_in (Some segment.now) ≡ None)
        (λ quant. quant_in (Some segment.now) ≡ Some quant.now) }
{
    match segment {
        Segment::Qcd(quant) => Some(quant),
        Segment::Qcc { quant, .. } => Some(quant),
        _ => None,
    }
}

/// Whether the numbers of two segments are the same.
fn same_said(a: Said, b: Said) -> bool
    ensures { IsTrue result → a ≡ b }
{
    let shape = a.levels == b.levels && a.wavelet == b.wavelet;
    let rest = a.transform == b.transform && a.shift == b.shift;
    let all = shape && rest;
    a.slot == b.slot && all
}

/// Whether two lists of numbers are the same.
#[tactic(auto, using(crate::proofs::SegmentLemmas::bytes_go, crate::proofs::SegmentLemmas::bytes_end))]
fn same_entries(a: &[u16], b: &[u16]) -> bool
    ensures { IsTrue result → a.now ≡ b.now }
{
    if a.len() != b.len() {
        return false;
    }
    for at in 0..a.len() {
        if a[at] != b[at] {
            return false;
        }
    }
    true
}

/// Whether two segments say the same of quantization.
fn same_quant(a: &Segment, b: &Segment) -> bool
    ensures { IsTrue result → quant_in (Some a.now) ≡ quant_in (Some b.now) }
{
    let Some(one) = quant_of(a) else {
        return quant_of(b).is_none();
    };
    let Some(two) = quant_of(b) else {
        return false;
    };
    one.sqcd == two.sqcd && same_entries(one.entries.as_slice(), two.entries.as_slice())
}

/// Whether two segments say the same.
fn same_saying(a: &Segment, b: &Segment) -> bool
    ensures { IsTrue result → saying_of a.now ≡ saying_of b.now }
{
    same_said(said_of(a), said_of(b)) && same_quant(a, b)
}

/// Whether a segment gives parameters: of all components, or, where `all` segments count, of one that it names.
fn concerns(all: bool, segment: &Segment) -> bool
    ensures { result ≡ concerns all segment.now }
{
    match segment {
        Segment::Cod(_) => true,
        Segment::Coc { .. } => all,
        Segment::Qcd(_) => true,
        Segment::Qcc { .. } => all,
        Segment::Rgn { .. } => all,
        _ => false,
    }
}

/// The next segment that counts, from an index on; the header's length if there is none.
fn next_concerning(header: &[Segment], all: bool, from: usize) -> usize
    requires { from ≤ length header.now }
    ensures same { sayings all (drop from header.now) ≡ sayings all (drop result header.now) }
    ensures here { (s : Segment) → slice_get header.now result ≡ Some s → concerns all s ≡ true }
    ensures most { result ≤ length header.now }
{
    for at in from..header.len() {
        if concerns(all, &header[at]) {
            return at;
        }
    }
    header.len()
}

/// Whether the segments of two headers that count say the same, in the same order.
fn same_sayings(all: bool, a: &[Segment], b: &[Segment]) -> bool
    ensures { IsTrue result → sayings all a.now ≡ sayings all b.now }
{
    let mut other = 0;
    for at in 0..a.len() {
        if concerns(all, &a[at]) {
            other = next_concerning(b, all, other);
            if other == b.len() {
                return false;
            }
            if !same_saying(&a[at], &b[other]) {
                return false;
            }
            other += 1;
        }
    }
    next_concerning(b, all, other) == b.len()
}

/// Whether both main headers say the same of all components.
pub(crate) fn are_mains_alike(a: &Input<'_>, b: &Input<'_>) -> bool
    ensures { IsTrue result → sayings true a.now.stream.now.main ≡ sayings true b.now.stream.now.main }
{
    same_sayings(true, a.stream.main.as_slice(), b.stream.main.as_slice())
}

/// Whether the headers of a tile say the same of all components, where the main headers do.
pub(crate) fn are_alike(a: &Input<'_>, b: &Input<'_>, mains: bool, tile: u16) -> bool
    requires { IsTrue mains → sayings true a.now.stream.now.main ≡ sayings true b.now.stream.now.main }
    ensures { IsTrue result → AreAlikeAt a.now.stream.now b.now.stream.now tile }
{
    mains && same_sayings(true, a.stream.header(tile), b.stream.header(tile))
}

/// Whether in both codestreams the segments of a tile's header that count say what those of the tile before say.
pub(crate) fn are_as_before(a: &Stream, b: &Stream, all: bool, tile: u16) -> bool
    ensures { IsTrue result → AreAsBefore a.now b.now all tile }
{
    if tile == 0 {
        return false;
    }
    same_sayings(all, a.header(tile), a.header(tile - 1))
        && same_sayings(all, b.header(tile), b.header(tile - 1))
}
