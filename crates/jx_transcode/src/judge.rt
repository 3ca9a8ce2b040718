//! What a file is judged before anything is made of it: its codestream with the code-blocks, or the first rule that it violates or limit
//! that it passes.

ghost use Rattle.std.specs.Prelude.{◌≡◌, ◌+◌, ◌<◌, ◌≤◌, ℕ, IfErr, IfOk, IsErrOf, OnOk, length};
ghost use Rattle.jx_base.specs.Limits.{most_bytes};
ghost use Rattle.jx_plan.specs.Plan.{MayBePlanned};
ghost use Rattle.jx_transcode.specs.Filed.{told_by};
ghost use Rattle.jx_transcode.specs.Jp2Run.{raised};
ghost use Rattle.jx_transcode.specs.Judged.{IsInputCause};
ghost use Rattle.jx_transcode.specs.Rewritten.{Reads};
ghost use Rattle.jx_transcode.specs.Sources.{IsAccepted, IsSource, IsUnfit};

use crate::Status;
use crate::source::{Source, check_length, source_of, status_of_boxes};
use jx_base::Block;
use jx_codestream::{Stream, StreamFault, read_stream};
use jx_plan::laws::gathered_may_be_planned;
use jx_tier2_reader::gather;
use std::alloc::Global;

/// The headers and the code-blocks of a codestream, or of what is left of it.
#[derive(Drop)]
pub struct Picture<'a> {
    pub stream: Stream,
    pub blocks: Vec<Block<'a>>,
}

/// A file whose codestream was read.
#[derive(Drop)]
pub struct Accepted<'a> {
    pub source: Source<'a>,
    pub picture: Picture<'a>,
}

/// Reads a codestream, and gathers its code-blocks.
fn read_picture<'a>(alloc: Global, codestream: &'a [u8]) -> Result<Picture<'a>, StreamFault>
    requires within { length codestream.now ≤ most_bytes }
    ensures ok { IfOk result (λ read. Reads codestream.entry.now read.stream read.blocks.items) }
    ensures may { IfOk result (λ read. MayBePlanned read.stream read.blocks.items) }
    ensures err { IfErr result (λ fault. IsInputCause codestream.entry.now fault) }
{
    gathered_may_be_planned();
    let stream = match read_stream(alloc, codestream) {
        Ok(stream) => stream,
        Err(fault) => return Err(fault),
    };
    match gather(alloc, codestream, &stream) {
        Ok(blocks) => Ok(Picture { stream, blocks }),
        Err(fault) => Err(fault),
    }
}

/// The status of a fault in a codestream that begins at a byte of the file.
fn status_at(from: u32, fault: StreamFault) -> Status
    ensures { result ≡ raised from (told_by fault) }
{
    match fault {
        StreamFault::Rule { number, place } => Status::Rule {
            number,
            place: u64::from(from) + u64::from(place),
        },
        StreamFault::Limit { number, found } => Status::Limit { number, found },
        StreamFault::NoMemory => Status::NoMemory,
    }
}

/// Reads the codestream of a file that may have `limit` bytes, of which these were read.
///
/// # Errors
/// Limit 1, then one of the rules 32 to 35 of a JP2 file, then the first rule that the codestream violates or limit that it passes; a rule
/// with its place in the file. `NoMemory` where memory is refused.
pub fn read_checked<'a>(alloc: Global, file: &'a [u8], limit: u32) -> Result<Accepted<'a>, Status>
    ensures ok { IfOk result (λ read. IsAccepted limit file.entry.now read.picture.stream read.picture.blocks.items) }
    ensures source { IfOk result (λ read. IsSource file.entry.now read.source) }
    ensures reads { IfOk result
        (λ read. Reads read.source.codestream.now read.picture.stream read.picture.blocks.items) }
    ensures may { IfOk result (λ read. MayBePlanned read.picture.stream read.picture.blocks.items) }
    ensures within { OnOk result (length file.entry.now ≤ limit) }
    ensures err { IfErr result (λ status. IsUnfit limit file.entry.now status) }
    ensures long { limit < length file.entry.now → IsErrOf result (Status.Limit 1 (limit + 1)) }
{
    match check_length(file, limit) {
        Ok(()) => {}
        Err(status) => return Err(status),
    }
    let source = match source_of(file) {
        Ok(source) => source,
        Err(fault) => return Err(status_of_boxes(fault)),
    };
    match read_picture(alloc, source.codestream) {
        Ok(picture) => Ok(Accepted { source, picture }),
        Err(fault) => Err(status_at(source.from, fault)),
    }
}
