//! Where a file's codestream lies: it is all of the file, or the content of its first codestream box (ITU-T T.800, I.4 and I.5.4).

ghost use Rattle.std.specs.Prelude.{◌≡◌, ◌+◌, ◌<◌, ◌≤◌, IfErr, IfOk, OnOk, length};
ghost use Rattle.jx_base.specs.Limits.{most_bytes};
ghost use Rattle.jx_jp2.specs.Codestream.{IsCodestream, IsFault, IsJp2, content};
ghost use Rattle.jx_transcode.specs.Sources.{IsSource, told_of_boxes};

use crate::Status;
use jx_jp2::laws::codestream_lies_within;
use jx_jp2::{BoxFault, Boxed, find, is_jp2};

/// A file with its codestream.
#[derive(Clone, Copy, Debug)]
pub struct Source<'a> {
    /// All of the file.
    pub file: &'a [u8],
    /// Its codestream.
    pub codestream: &'a [u8],
    /// The place in the file of the codestream's first byte.
    pub from: u32,
    /// The box of the codestream; none where the file is a codestream.
    pub boxed: Option<Boxed>,
}

/// Refuses a file that has over `limit` bytes: limit 1.
pub fn check_length(file: &[u8], limit: u32) -> Result<(), Status>
    ensures ok { OnOk result (length file.now ≤ limit) }
    ensures err { IfErr result (λ status. (status ≡ Status.Limit 1 (limit + 1)) × (limit < length file.now)) }
{
    if file.len() > limit as usize {
        return Err(Status::too_long(limit));
    }
    Ok(())
}

/// The status of boxes that can't be told.
pub fn status_of_boxes(fault: BoxFault) -> Status
    ensures { result ≡ told_of_boxes fault }
{
    match fault {
        BoxFault::Rule { number, place } => Status::Rule {
            number,
            place: u64::from(place),
        },
        BoxFault::NoMemory => Status::NoMemory,
    }
}

/// The content of a codestream's box.
fn content_of<'a>(input: &'a [u8], boxed: &Boxed) -> &'a [u8]
    requires { IsCodestream input.now boxed.now }
    ensures { result.now ≡ content input.entry.now boxed.now }
{
    codestream_lies_within();
    &input[boxed.from as usize..boxed.to as usize]
}

/// Finds the codestream of a file.
///
/// # Errors
/// The first of the rules 32 to 35 that a JP2 file breaks before a codestream.
pub fn source_of<'a>(file: &'a [u8]) -> Result<Source<'a>, BoxFault>
    requires within { length file.now ≤ most_bytes }
    ensures ok { IfOk result (λ source. IsSource file.entry.now source) }
    ensures within { IfOk result (λ source. length source.codestream.now ≤ most_bytes) }
    ensures err { IfErr result (λ fault. IsJp2 file.entry.now × IsFault file.entry.now fault) }
{
    if !is_jp2(file) {
        return Ok(Source {
            file,
            codestream: file,
            from: 0,
            boxed: None,
        });
    }
    match find(file) {
        Ok(boxed) => Ok(Source {
            file,
            codestream: content_of(file, &boxed),
            from: boxed.from,
            boxed: Some(boxed),
        }),
        Err(fault) => Err(fault),
    }
}
