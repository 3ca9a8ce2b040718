//! The tile-parts of a tile, each in one buffer.

ghost use Rattle.std.specs.Prelude.{◌≡◌, ◌<◌, [], length, map, slice_index_or, IfOk};
ghost use Rattle.std.specs.List.{concat};

use crate::tile_out::TileOut;
use jx_base::NoMemory;
use std::alloc::Global;

/// A tile-part in a buffer that is taken before a byte is copied.
fn whole_part(alloc: Global, out: &TileOut<'_, '_>, part: usize) -> Result<Vec<u8>, NoMemory>
    requires { part < length out.now }
    ensures { IfOk result (λ bytes. bytes.items ≡ concat (slice_index_or out.now part [])) }
{
    let mut bytes = Vec::with_capacity(alloc, out.size(part) as usize)?;
    for piece in 0..out.pieces(part) {
        out.put(part, piece, &mut bytes)?;
    }
    Ok(bytes)
}

/// All tile-parts of a tile. Each coded byte is copied once.
///
/// # Errors
///
/// `NoMemory` where memory is refused.
pub fn whole_parts(alloc: Global, out: &TileOut<'_, '_>) -> Result<Vec<Vec<u8>>, NoMemory>
    ensures { IfOk result (λ parts. map (λ v. v.items) parts.items ≡ map concat out.now) }
{
    let mut parts = Vec::new(alloc);
    for part in 0..out.parts() {
        let bytes = whole_part(alloc, out, part)?;
        parts.push(bytes)?;
    }
    Ok(parts)
}
