//! How far a decoder of a finished segment has looked.

ghost use Rattle.std.specs.Prelude.{◌≡◌, ◌++◌, map, OnOk};
ghost use Rattle.jx_tier1_specs.specs.Ends.{end_in};

use jx_base::NoMemory;
use jx_raw::looked_from;
use jx_tier1_specs::Stand;

/// Appends how many bytes of a segment a decoder has looked at where its encoder stood so.
pub fn tell(looked: &mut Vec<usize>, stands: &[Stand], segment: &[u8]) -> Result<(), NoMemory>
    ensures { OnOk result (looked.new.items ≡ looked.old.items ++ map (λ s. end_in segment.now s) stands.now) }
{
    for stand in stands {
        looked.push(looked_from(segment, stand.given, stand.places))?;
    }
    Ok(())
}
