//! Whether a file has a box that holds positions in the file, which may be wrong once its codestream has another length.

ghost use Rattle.std.specs.Prelude.{◌≡◌, ◌↔◌, ◌≤◌, length, IsTrue};
ghost use Rattle.jx_base.specs.Limits.{most_bytes};
ghost use Rattle.jx_jp2.specs.Positions.{has_positions, is_index, HoldsPositions};

use crate::heads::{read_box, tbox};
use crate::kinds::{CHCK, CIDX, CREF, FIDX, FLST, FTBL, IPTR, PAGT};

/// Whether boxes of a type are indexes (ITU-T T.808, Annex I).
fn is_index(kind: u32) -> bool
    ensures { result ≡ is_index kind }
{
    kind == FIDX || kind == CIDX || kind == IPTR
}

/// Whether boxes of a type hold positions in the file.
fn has_positions(kind: u32) -> bool
    ensures { result ≡ has_positions kind }
{
    let is_fragment = kind == FTBL || kind == FLST || kind == CREF;
    is_fragment || kind == CHCK || kind == PAGT || is_index(kind)
}

/// Whether a box on the top level holds positions in the file: fragments, a cross-reference or a signature, `ftbl`, `flst`, `cref`
/// or `chck` (ITU-T T.801, Annex M), a table of pages, `pagt` (T.805), or an index, `fidx`, `cidx` or `iptr` (T.808, Annex I).
/// Boxes are read in order, up to the first that breaks rule 32, 33 or 34, or to the file's end. It takes no memory.
pub fn holds_positions(bytes: &[u8]) -> bool
    requires { length bytes.now ≤ most_bytes }
    ensures { IsTrue result ↔ HoldsPositions bytes.now }
{
    let mut at = 0;
    while at < bytes.len() {
        let Ok(boxed) = read_box(bytes, true, bytes.len(), at) else {
            return false;
        };
        if has_positions(tbox(bytes, at)) {
            return true;
        }
        at = boxed.to as usize;
    }
    false
}
