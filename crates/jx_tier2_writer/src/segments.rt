//! Segments one after another.

ghost use Rattle.std.specs.Prelude.{◌≡◌, ◌++◌, OnOk};
ghost use Rattle.std.specs.List.{All};
ghost use Rattle.jx_marker.specs.Ranges.{InRange};
ghost use Rattle.jx_codestream.specs.Spells.{all_bytes};

use jx_base::NoMemory;
use jx_marker::{Segment, put_segment};

/// Appends the bytes of segments in a picture of `comps` components. After `NoMemory` a front of them may have been appended.
pub(crate) fn put_segments(
    segments: &[Segment],
    comps: u16,
    out: &mut Vec<u8>,
) -> Result<(), NoMemory>
    requires { All (InRange comps) segments.now }
    ensures { OnOk result (out.new.items ≡ out.old.items ++ all_bytes comps segments.now) }
{
    for segment in segments {
        put_segment(segment, comps, out)?;
    }
    Ok(())
}
