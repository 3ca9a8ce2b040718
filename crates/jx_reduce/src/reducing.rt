//! A codestream without its highest resolutions.

ghost use Rattle.std.specs.Prelude.{◌≡◌, ◌≤◌, Err, IfErr, IfOk, IfSome, None, OnOk};
ghost use Rattle.jx_plan.specs.Meaning.{meaning_of};
ghost use Rattle.jx_plan.specs.Plan.{MayBePlanned};
ghost use Rattle.jx_reduce.specs.Left.{IsLeft};
ghost use Rattle.jx_reduce.specs.Reduction.{blocks_left, stream_left};
ghost use Rattle.jx_reduce.specs.Unreducible.{IsUnreducible, first_choice};

use crate::ReduceFault;
use crate::blocks::blocks_left;
use crate::choices::check;
use crate::headers::headers_left;
use jx_base::Block;
use jx_codestream::Stream;
use std::alloc::Global;

/// A codestream that was read, with its code-blocks, without the `d` highest resolutions of every tile-component, `d` from 0 to 32: the
/// picture is smaller by 2^`d` both ways. The subsampling factors grow by 2^`d`, and each COD and COC has `d` levels fewer and the
/// precincts of the resolutions that are left; all else stays, and so do the places of the code-blocks, which are numbered from 0 anew
/// (ITU-T T.800, A.5.1, A.6.1, A.6.2 and B.5). Nothing is decoded.
///
/// Time and memory follow the bytes of the headers, the number of tiles, and the pieces of the code-blocks that are left.
///
/// # Errors
///
/// Choice 8 at the lowest component of which a subsampling factor would pass 255 (Table A.9). Else choice 9 where a COD or a COC has
/// fewer than `d` levels: at 0 where one stands in the main header, else at the lowest tile that has one. Both come before any memory
/// is asked for. `NoMemory` where memory is refused.
pub fn reduce<'a>(
    alloc: Global,
    stream: &Stream,
    blocks: &[Block<'a>],
    d: u8,
) -> Result<(Stream, Vec<Block<'a>>), ReduceFault>
    requires may { MayBePlanned stream.now blocks.now }
    requires few { d ≤ 32 }
    ensures stream { IfOk result (λ r. r.0 ≡ stream_left d stream.now) }
    ensures blocks { IfOk result (λ r. r.1.items ≡ blocks_left d stream.now blocks.now) }
    // A choice comes exactly where it is in the way, and no other refusal does then.
    ensures free { OnOk result (first_choice d stream.now ≡ None) }
    ensures cause { IfErr result (IsUnreducible d stream.now) }
    ensures choice { IfSome (first_choice d stream.now) (λ e. result ≡ Err e) }
    // What is left may be planned again, and means what is left of the meaning.
    ensures planned { IfOk result (λ r. MayBePlanned r.0 r.1.items) }
    ensures meaning { IfOk result (λ r. IsLeft d (meaning_of stream.now blocks.now) (meaning_of r.0 r.1.items)) }
{
    check(stream, d)?;
    let left = headers_left(alloc, stream, d)?;
    let blocks = blocks_left(alloc, stream, blocks, d)?;
    Ok((left, blocks))
}
