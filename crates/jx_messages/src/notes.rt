//! What is said of a run that was done, where the output may mislead.

ghost use Rattle.std.specs.Prelude.{◌≡◌, map, string_bytes, IfOk};
ghost use Rattle.jx_messages.specs.Names.{name_in};
ghost use Rattle.jx_messages.specs.Notes.{positions_note};
ghost use Rattle.jx_messages.specs.Shown.{shown_all};

use crate::shown::shown_words;
use crate::words::name_at;
use std::alloc::{AllocError, Global};

/// Boxes that hold positions were kept, over words that may be shown.
fn positions_kept(alloc: Global, words: &[String]) -> Result<String, AllocError>
    ensures { IfOk result (λ text. string_bytes text ≡ positions_note (name_in (map string_bytes words.now) 1)) }
{
    let output = name_at(words, 1);
    format!(in alloc;
        "jx: {output}: boxes that hold positions in the file (ftbl, flst, cref, chck,\n    pagt, fidx, cidx or iptr) are as they were in the input, and may be wrong now\n"
    )
}

/// That the output of a run on these words has boxes which hold positions in the file and stay as they were: two lines, each of which ends
/// with a line feed. Control characters in the words are shown as `\x` and two digits.
///
/// # Errors
///
/// `AllocError` where memory is refused.
pub fn note_positions(alloc: Global, words: &[String]) -> Result<String, AllocError>
    ensures { IfOk result (λ text. string_bytes text
        ≡ positions_note (name_in (shown_all (map string_bytes words.now)) 1)) }
{
    let shown = shown_words(alloc, words)?;
    positions_kept(alloc, &shown)
}
