//! The main header (ITU-T T.800, A.2).

ghost use Rattle.std.specs.Prelude.{◌≡◌, ◌++◌, [], length, IfOk, OnOk};
ghost use Rattle.jx_marker.specs.declared.Segment.TheVariants as segment;
ghost use Rattle.jx_marker.specs.Ranges.{SizInRange};
ghost use Rattle.jx_marker.specs.Segments.{spelling};
ghost use Rattle.jx_codestream.specs.declared.headers.HeaderKind.TheVariants.{Main};
ghost use Rattle.jx_codestream.specs.Spells.{AreSegments, all_bytes};

use crate::segments::put_segments;
use jx_base::NoMemory;
use jx_codestream::{Stream, comps_of};
use jx_marker::{Segment, Siz, put_segment};
use std::alloc::Global;

/// Appends SOC.
fn put_soc(out: &mut Vec<u8>) -> Result<(), NoMemory>
    ensures { OnOk result (out.new.items ≡ out.old.items ++ spelling 1 segment.Soc) }
{
    put_segment(&Segment::Soc, 1, out)
}

/// Appends SIZ.
fn put_siz(siz: &Siz, out: &mut Vec<u8>) -> Result<(), NoMemory>
    requires { SizInRange siz.now }
    ensures { OnOk result (out.new.items ≡ out.old.items ++ spelling 1 (segment.Siz siz.now)) }
{
    let copy = siz.copy()?;
    put_segment(&Segment::Siz(copy), 1, out)
}

/// The main header: SOC, SIZ and the segments after it, in their order.
pub(crate) fn header_bytes(alloc: Global, stream: &Stream) -> Result<Vec<u8>, NoMemory>
    requires siz { SizInRange stream.now.siz }
    requires main { AreSegments Main (length stream.now.siz.comps) [] stream.now.main }
    ensures { IfOk result (λ bytes. bytes.items ≡ spelling 1 segment.Soc ++ (spelling 1 (segment.Siz stream.now.siz) ++ all_bytes (length stream.now.siz.comps) stream.now.main)) }
{
    let mut bytes = Vec::new(alloc);
    let comps = comps_of(&stream.siz);
    put_soc(&mut bytes)?;
    put_siz(&stream.siz, &mut bytes)?;
    put_segments(stream.main.as_slice(), comps, &mut bytes)?;
    Ok(bytes)
}
