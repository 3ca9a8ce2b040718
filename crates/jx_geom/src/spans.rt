//! One direction, across or down.

ghost use Rattle.std.specs.Prelude.{◌≡◌, ◌+◌, ◌-◌, ◌*◌, ◌<◌, ◌≤◌, ◌^◌, ◌↔◌, IsTrue, if◌then◌else◌};
ghost use Rattle.jx_base.specs.Numbers.{ceil_of};
ghost use Rattle.jx_base.specs.Places.{length_of};
ghost use Rattle.jx_geom.specs.Spans.{tiles_along, tile_span, scaled, band_span, cells, cut, reference_of};

use jx_base::{Span, ceil_div, ceil_shift};

/// How many tiles of a size reach from the offset to the end of the picture.
#[tactic(auto, using(jx_base::proofs::Ceilings::ceil_le_self))]
pub(crate) fn count_tiles(end: u32, offset: u32, size: u32) -> u64
    requires size { 0 < size }
    requires offset { offset ≤ end }
    ensures value { result ≡ tiles_along end offset size }
    ensures bound { result < 2 ^ 32 }
{
    ceil_div(u64::from(end - offset), u64::from(size))
}

/// The tile of a number in one direction.
#[tactic(auto, using(jx_base::proofs::Ceilings::below_ceil), unfolding(crate::specs::Spans::tile_span))]
pub(crate) fn one_tile(start: u32, end: u32, offset: u32, size: u32, place: u64) -> Span
    requires size { 0 < size }
    requires offset { offset ≤ start }
    requires some { start < end }
    requires place { place < tiles_along end offset size }
    ensures { result ≡ tile_span start end offset size place }
{
    let low = u64::from(offset) + place * u64::from(size);
    let high = (low + u64::from(size)).min(u64::from(end));
    Span {
        low: low.max(u64::from(start)) as u32,
        high: high as u32,
    }
}

/// The places that stand for every `step`-th one of a span. Most steps are 1, where nothing is divided.
#[tactic(auto, using(jx_base::proofs::Ceilings::ceil_le_self, crate::proofs::StepLemmas::scaled_by_one), unfolding(crate::specs::Spans::scaled))]
pub(crate) fn every(span: Span, step: u64) -> Span
    requires { 0 < step }
    ensures { result ≡ scaled span step }
{
    if step == 1 {
        return span;
    }
    let low = ceil_div(u64::from(span.low), step);
    let high = ceil_div(u64::from(span.high), step);
    Span {
        low: low as u32,
        high: high as u32,
    }
}

/// A number divided and rounded up. Of 32 bits, for which a processor divides faster than for 64.
#[tactic(auto, using(jx_base::proofs::Ceilings::ceil_le_self), unfolding(jx_base::specs::Numbers::ceil_of))]
fn rounded_up(number: u32, step: u32) -> u32
    requires { 0 < step }
    ensures { result ≡ ceil_of number step }
{
    let whole = number / step;
    if number % step == 0 { whole } else { whole + 1 }
}

/// Whether no place stands for an every `step`-th one of a span: the first multiple from its low end on lies
/// at its high end or behind it. One division, where the places themselves take two.
#[tactic(auto, using(crate::proofs::StepLemmas::none_from, crate::proofs::StepLemmas::none_to))]
pub(crate) fn has_none(span: Span, step: u32) -> bool
    requires { 0 < step }
    ensures { IsTrue result ↔ (length_of (scaled span step) ≡ 0) }
{
    let first = rounded_up(span.low, step);
    u64::from(first) * u64::from(step) >= u64::from(span.high)
}

/// An end of a band of a level, from that of its tile-component.
#[tactic(auto, using(jx_base::proofs::Ceilings::ceil_le_self, std::proofs::lemmas::Nat::pow_pos))]
fn band_end(end: u32, level: u32, off: u32) -> u32
    requires level { level ≤ 32 }
    requires off { off ≤ 1 }
    requires some { off ≤ level }
    ensures { result ≡ ceil_of (end - off * 2 ^ (level - 1)) (2 ^ level) }
{
    let half = if off == 1 { 1u64 << (level - 1) } else { 0 };
    ceil_shift(u64::from(end).saturating_sub(half), level) as u32
}

/// A band of a level in one direction.
#[tactic(auto, unfolding(crate::specs::Spans::band_span))]
pub(crate) fn one_band(span: Span, level: u32, off: u32) -> Span
    requires level { level ≤ 32 }
    requires off { off ≤ 1 }
    requires some { off ≤ level }
    ensures { result ≡ band_span span level off }
{
    Span {
        low: band_end(span.low, level, off),
        high: band_end(span.high, level, off),
    }
}

/// The cells of 2^`exponent` numbers that have a number of the span.
#[tactic(auto, using(jx_base::proofs::Ceilings::ceil_le_self, std::proofs::lemmas::Nat::pow_pos), unfolding(crate::specs::Spans::cells))]
pub(crate) fn cells_of(span: Span, exponent: u32) -> Span
    requires { exponent < 16 }
    ensures { result ≡ cells span (2 ^ exponent) }
{
    let low = span.low >> exponent;
    if span.low < span.high {
        let high = ceil_shift(u64::from(span.high), exponent);
        Span {
            low,
            high: high as u32,
        }
    } else {
        Span { low, high: low }
    }
}

/// The part of a span that lies in one cell of 2^`exponent` numbers.
#[tactic(auto, unfolding(crate::specs::Spans::cut))]
pub(crate) fn part_of(span: Span, exponent: u32, place: u32) -> Span
    requires exponent { exponent < 16 }
    requires place { place * 2 ^ exponent < 2 ^ 32 }
    ensures { result ≡ cut span (2 ^ exponent) place }
{
    let low = u64::from(place) << exponent;
    let high = (u64::from(place) + 1) << exponent;
    Span {
        low: low.max(u64::from(span.low)) as u32,
        high: high.min(u64::from(span.high)) as u32,
    }
}

/// Where the precinct column or row of a number stands on the reference grid.
#[tactic(auto, unfolding(crate::specs::Spans::reference_of))]
pub(crate) fn point_of(start: u32, low: u32, exponent: u32, step: u64, place: u32) -> u64
    requires exponent { exponent < 16 }
    requires cell { place * 2 ^ exponent < 2 ^ 32 }
    requires fits { place * 2 ^ exponent * step < 2 ^ 32 }
    ensures value { result ≡ reference_of start low (2 ^ exponent) step place }
    ensures fits { result < 2 ^ 32 }
{
    if place == low >> exponent && low % (1 << exponent) != 0 {
        return u64::from(start);
    }
    (u64::from(place) << exponent) * step
}
