//! A list of a file's boxes in order of place (ITU-T T.800, I.4).

ghost use Rattle.std.specs.Prelude.{◌≡◌, ◌+◌, ◌≤◌, length, string_bytes, OnOk, IfOk, IfErr};
ghost use Rattle.jx_base.specs.Limits.{most_bytes};
ghost use Rattle.jx_jp2.specs.Lines.{HasLines, AddsLines};
ghost use Rattle.jx_jp2.specs.Trees.{below, IsLevelFault, IsTreeFault};

use crate::BoxFault;
use crate::heads::{read_box, tbox};
use crate::levels::{Level, is_top, opened};
use crate::lines::push_line;
use std::alloc::Global;

// Appends the lines of a level's boxes from a place on, and of what is in them. After an `Err` the text may have a part of them.
fn list_level(
    bytes: &[u8],
    level: Level,
    depth: u8,
    from: usize,
    stop: usize,
    text: &mut String,
) -> Result<(), BoxFault>
    requires small { length bytes.now ≤ most_bytes }
    requires span { from ≤ stop }
    requires within { stop ≤ length bytes.now }
    requires deep { depth + below level ≤ 2 }
    ensures lines { OnOk result (AddsLines bytes.now level depth from stop (string_bytes text.old) (string_bytes text.new)) }
    ensures fault { IfErr result (λ wrong. IsLevelFault bytes.now level from stop wrong) }
{
    let mut at = from;
    while at < stop {
        let boxed = read_box(bytes, is_top(level), stop, at)?;
        let kind = tbox(bytes, at);
        push_line(text, depth, kind, &boxed)?;
        at = boxed.to as usize;
        let Some(inner) = opened(level, kind) else {
            continue;
        };
        list_level(bytes, inner, depth + 1, boxed.from as usize, at, text)?;
    }
    Ok(())
}

/// The lines of all boxes in order of place, with what is in `jp2h`, in its `res `, and in `uinf`. A box's line is two spaces for each
/// level of depth, its type, a space, its place, a space, its length with the head, and a line feed. The type is its four characters
/// where all are from 20 to 7E in hexadecimal, else its eight hexadecimal digits in capitals.
///
/// `Rule` names the first box in order of place that breaks rule 32, 33 or 34. It never names 35, and `jp2c` ends nothing.
pub fn list(alloc: Global, bytes: &[u8]) -> Result<String, BoxFault>
    requires { length bytes.now ≤ most_bytes }
    ensures lines { IfOk result (λ text. HasLines bytes.now (string_bytes text)) }
    ensures fault { IfErr result (λ wrong. IsTreeFault bytes.now wrong) }
{
    let mut text = String::new(alloc);
    list_level(bytes, Level::Top, 0, 0, bytes.len(), &mut text)?;
    Ok(text)
}
