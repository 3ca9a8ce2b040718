//! Whether a file is JP2, and its codestream (ITU-T T.800, I.5.1 and I.5.4).

ghost use Rattle.std.specs.Prelude.{◌≡◌, ◌↔◌, ℕ, ◌≤◌, length, IsTrue, IfOk, IfErr, Ok, Err};
ghost use Rattle.jx_base.specs.Limits.{most_bytes};
ghost use Rattle.jx_jp2.specs.declared.Boxed.{Boxed};
ghost use Rattle.jx_jp2.specs.Codestream.{IsJp2, IsCodestream, IsFault, IsNextFault};

use crate::heads::{read_box, tbox};
use crate::kinds::JP2C;
use crate::{BoxFault, Boxed};

const SIGNATURE: [u8; 12] = [0, 0, 0, 12, 0x6A, 0x50, 0x20, 0x20, 0x0D, 0x0A, 0x87, 0x0A];

/// Whether a file begins with the signature box of JP2 (T.800, I.5.1). JPX files begin with it too.
pub fn is_jp2(bytes: &[u8]) -> bool
    ensures { IsTrue result ↔ IsJp2 bytes.now }
{
    bytes.starts_with(&SIGNATURE)
}

fn next_codestream(bytes: &[u8]) -> Result<Boxed, BoxFault>
    requires { length bytes.now ≤ most_bytes }
    ensures found { IfOk result (λ boxed. IsCodestream bytes.now boxed) }
    ensures fault { IfErr result (λ wrong. IsFault bytes.now wrong) }
{
    let mut at = 0;
    while at < bytes.len() {
        let boxed = read_box(bytes, true, bytes.len(), at)?;
        if tbox(bytes, at) == JP2C {
            return Ok(boxed);
        }
        at = boxed.to as usize;
    }
    Err(BoxFault::Rule {
        number: 35,
        place: bytes.len() as u32,
    })
}

/// The first box of type `jp2c` on the top level: its content is the codestream (T.800, I.5.4). It takes no memory, and what follows
/// that box isn't read.
///
/// `Rule` comes exactly where no codestream stands before the first box that breaks a rule: rule 32, 33 or 34 at the box, 35 at the
/// file's length where all boxes are sound and none is of the type.
pub fn find(bytes: &[u8]) -> Result<Boxed, BoxFault>
    requires { length bytes.now ≤ most_bytes }
    ensures found { IfOk result (λ boxed. IsCodestream bytes.now boxed) }
    ensures fault { IfErr result (λ wrong. IsFault bytes.now wrong) }
    ensures one { (boxed : Boxed) → IsCodestream bytes.now boxed → result ≡ Ok boxed }
    ensures violated { (number place : ℕ) → IsNextFault bytes.now 0 number place → result ≡ Err (BoxFault.Rule number place) }
{
    next_codestream(bytes)
}
