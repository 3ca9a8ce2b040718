//! The segments of a block, put together from its pieces.

ghost use Rattle.std.specs.Prelude.{◌≡◌, ◌≤◌, ◌<◌, ◌+◌, ◌^◌, false, map, drop, length, All, IfOk};
ghost use Rattle.jx_base.specs.Pieces.{value_of};
ghost use Rattle.jx_codeblock.specs.Tables.{bytes_joined};
ghost use Rattle.jx_codeblock.specs.Groups.{ends_it, is_last_of_segment, goes_on, groups};
ghost use Rattle.jx_base.specs.Limits.{most_bytes};

use jx_base::{NoMemory, Piece, Style, ends_segment};
use jx_tier1_specs::Segments;
use std::alloc::Global;

/// The bytes of pieces, one behind another.
pub(crate) fn joined(alloc: Global, pieces: &[Piece<'_>]) -> Result<Vec<u8>, NoMemory>
    ensures { IfOk result (λ bytes. bytes.items ≡ bytes_joined (map value_of pieces.now)) }
{
    let mut bytes = Vec::new(alloc);
    for piece in pieces {
        bytes.extend_from_slice(piece.bytes)?;
    }
    Ok(bytes)
}

/// Whether a piece ends with a pass that ends a segment.
fn ends_it(style: Style, piece: Piece<'_>) -> bool
    requires { piece.first + piece.passes < 2 ^ 16 }
    ensures { result ≡ ends_it style.bits (value_of piece.entry) }
{
    ends_segment(style, (piece.first + piece.passes).saturating_sub(1))
}

/// Whether a piece is the last of its segment.
#[tactic(auto, using(crate::proofs::DropLemmas::last_in_segment, crate::proofs::DropLemmas::before_in_segment))]
fn ends_its_segment(style: Style, pieces: &[Piece<'_>], at: usize) -> bool
    requires at { at < length pieces.now }
    requires few { All (λ p. p.first + p.passes < 2 ^ 16) pieces.now }
    ensures { result ≡ is_last_of_segment style.bits (map value_of (drop at pieces.now)) }
{
    if at + 1 == pieces.len() {
        return true;
    }
    ends_it(style, pieces[at])
}

/// The segments of pieces, whose bytes stand one behind another in `whole`.
pub(crate) fn segments_in<'a>(
    alloc: Global,
    style: Style,
    pieces: &[Piece<'_>],
    whole: &'a [u8],
) -> Result<Segments<'a>, NoMemory>
    requires whole { whole.now ≡ bytes_joined (map value_of pieces.now) }
    requires long { length whole.now ≤ most_bytes }
    requires few { All (λ p. p.first + p.passes < 2 ^ 16) pieces.now }
    ensures { IfOk result (λ segments. segments ≡ groups style.bits (map value_of pieces.now)) }
{
    let mut segments = Segments::new(alloc);
    let mut rest = whole;
    let mut count = 0;
    for at in 0..pieces.len() {
        count += pieces[at].bytes.len();
        if ends_its_segment(style, pieces, at) {
            let (segment, behind) = rest.split_at(count);
            segments.push(segment)?;
            rest = behind;
            count = 0;
        }
    }
    Ok(segments)
}

/// The segments of pieces of which each is one.
pub(crate) fn segments_apart<'a>(
    alloc: Global,
    style: Style,
    pieces: &[Piece<'a>],
) -> Result<Segments<'a>, NoMemory>
    requires { goes_on style.bits (map value_of pieces.now) ≡ false }
    ensures { IfOk result (λ segments. segments ≡ groups style.bits (map value_of pieces.now)) }
{
    // It is asked for in the contract alone.
    let _ = style;
    let mut segments = Segments::new(alloc);
    for piece in pieces {
        segments.push(piece.bytes)?;
    }
    Ok(segments)
}

/// Whether some piece is followed by one of its own segment.
pub(crate) fn goes_on(style: Style, pieces: &[Piece<'_>]) -> bool
    requires { All (λ p. p.first + p.passes < 2 ^ 16) pieces.now }
    ensures { result ≡ goes_on style.bits (map value_of pieces.now) }
{
    for at in 0..pieces.len() {
        if !ends_its_segment(style, pieces, at) {
            return true;
        }
    }
    false
}
