//! A generator of codestreams with random code-blocks (ITU-T T.800): one tile, three components, five levels, twelve layers in the
//! order LRCP, and coded bytes from a seed.
#![tactic(auto)]

ghost use Rattle.std.specs.Prelude.{◌≡◌, ◌≤◌, ◌^◌, length, IfOk};
ghost use Rattle.jx_tier2_reader.specs.Accepted.{IsAccepted};
ghost use Rattle.jx_tier2_reader.specs.WellFormed.{IsWellFormed};
ghost use Rattle.jx_generate.specs.Made.{body_made, file_made};
ghost use Rattle.jx_generate.specs.Reading.{stream_made};

mod drawing;
mod geometry;
mod headers;
pub mod laws;
mod picture;
mod random;

use crate::headers::file;
use crate::picture::Picture;
use jx_base::NoMemory;
use std::alloc::Global;

/// The codestream of a seed, for a picture of `width` by `height` samples, each 1 to 4,096.
///
/// For each code-block, in the order of the blocks' numbers, its zero planes are drawn, then how many passes it has, then for each pass
/// how many bytes it has, 0 to 23, and these bytes; pass `i` of `n` lies in layer `12 * i / n`. The file violates no rule.
///
/// # Errors
///
/// `NoMemory` where memory is refused. No file has more than 2^28 bytes.
pub fn make(alloc: Global, seed: u64, width: u32, height: u32) -> Result<Vec<u8>, NoMemory>
    requires wide { 1 ≤ width }
    requires most_wide { width ≤ 4096 }
    requires high { 1 ≤ height }
    requires most_high { height ≤ 4096 }
    ensures made { IfOk result (λ bytes. bytes.items ≡ file_made seed width height) }
    // No rule is violated, and no limit passed.
    ensures short { IfOk result (λ bytes. length bytes.items ≤ 2 ^ 28) }
    ensures well_formed { IfOk result (λ bytes. IsWellFormed bytes.items) }
    ensures accepted { IfOk result (λ bytes. IsAccepted bytes.items (stream_made width height (length (body_made seed width height)))) }
{
    let body = Picture::new(alloc, seed, width, height)?.body(alloc)?;
    file(alloc, width, height, &body)
}
