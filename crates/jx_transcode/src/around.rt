//! A plan that is written around: in the place of the codestream of a JP2 file (ITU-T T.800, Annex I).

ghost use Rattle.std.specs.Prelude.{◌≡◌, ◌≤◌, ◌<◌, ◌^◌, length, map, IfErr, IfOk, IsErrOf, None, OnErr, OnOk};
ghost use Rattle.std.specs.List.{concat};
ghost use Rattle.jx_base.specs.Limits.{most_bytes};
ghost use Rattle.jx_io.specs.Causes.{Rose};
ghost use Rattle.jx_jp2.specs.Codestream.{IsCodestream};
ghost use Rattle.jx_options.specs.Work.{MayBeWork};
ghost use Rattle.jx_plan.specs.Plan.{IsPlan};
ghost use Rattle.jx_rounds.specs.Files.{IsBegun, IsMade};
ghost use Rattle.jx_rounds.specs.Taken.{SomeFront, followed_by};
ghost use Rattle.jx_transcode.specs.Filed.{unwritten_as};
ghost use Rattle.jx_transcode.specs.Jp2Run.{IsCarriedAround, file_in};

use crate::Status;
use crate::rewrite::{Ending, made_in_memory};
use jx_io::{Files, Gate, Refused};
use jx_jp2::{Boxed, around, head_for};
use jx_options::FormChoice;
use jx_plan::OutStream;
use jx_rounds::{ByteWriter, Crew, TapeEntry};
use std::alloc::Global;
use std::sync::Wait;
use std::thread::Threads;

/// Writes these pieces one behind another, and gives how many bytes they have; or is refused after a front of them.
fn put_all<W: ByteWriter>(writer: &mut W, pieces: &[&[u8]]) -> Result<usize, Refused>
    requires may { W.can_write (W.kept writer.old) }
    requires few { length (concat (map (λ piece. piece.now) pieces.now)) < 2 ^ 64 }
    ensures ok { IfOk result (λ count. (W.written writer.new
        ≡ followed_by (concat (map (λ piece. piece.now) pieces.now)) (W.written writer.old))
        × (count ≡ length (concat (map (λ piece. piece.now) pieces.now)))) }
    ensures front { SomeFront (W.written writer.old) (W.written writer.new)
        (concat (map (λ piece. piece.now) pieces.now)) }
    ensures cause { IsErrOf result Refused.Failed → Rose (W.faults writer.old) (W.faults writer.new) }
    ensures rose { W.faults writer.old < W.faults writer.new → IsErrOf result Refused.Failed }
    ensures same { OnOk result (W.faults writer.new ≡ W.faults writer.old) }
    ensures other { W.kept writer.new ≡ W.kept writer.old }
{
    let Some((piece, rest)) = pieces.split_first() else {
        return Ok(0);
    };
    match writer.write(piece) {
        Ok(()) => match put_all(writer, rest) {
            Ok(count) => Ok(piece.len() + count),
            Err(refused) => Err(refused),
        },
        Err(refused) => Err(refused),
    }
}

/// Writes a file of these pieces under a name, and gives how many bytes it has.
fn write_pieces<F: Files>(files: &mut F, to: &str, pieces: &[&[u8]]) -> Result<usize, Refused>
    requires creates { F.can_create files.old to.now }
    requires few { length (concat (map (λ piece. piece.now) pieces.now)) < 2 ^ 64 }
    ensures ok { OnOk result (IsMade to.now (concat (map (λ piece. piece.now) pieces.now)) (F.meaning files.old)
        (F.meaning files.new)) }
    ensures count { IfOk result (λ count. count ≡ length (concat (map (λ piece. piece.now) pieces.now))) }
    ensures err { OnErr result (IsBegun to.now (concat (map (λ piece. piece.now) pieces.now)) (F.meaning files.old)
        (F.meaning files.new)) }
    ensures cause { IsErrOf result Refused.Failed → Rose (F.write_faults files.old) (F.write_faults files.new) }
    ensures rose { F.write_faults files.old < F.write_faults files.new → IsErrOf result Refused.Failed }
    ensures other { F.read_faults files.new ≡ F.read_faults files.old }
{
    match files.create(to) {
        Ok(()) => {}
        Err(refused) => return Err(refused),
    }
    match put_all(files, pieces) {
        Ok(count) => match files.finish() {
            Ok(()) => Ok(count),
            Err(refused) => Err(refused),
        },
        Err(refused) => Err(refused),
    }
}

/// Writes the output of a file `input`, of which `boxed` is the codestream, in the form that is asked: with `out` in its place, or `out`
/// alone. No byte is copied.
fn write_form<F: Files>(
    files: &mut F,
    to: &str,
    form: FormChoice,
    input: &[u8],
    boxed: &Boxed,
    out: &[u8],
) -> Result<usize, Refused>
    requires creates { F.can_create files.old to.now }
    requires within { length input.now ≤ most_bytes }
    requires found { IsCodestream input.now boxed.now }
    ensures ok { OnOk result (IsMade to.now (file_in form input.now boxed.now out.now) (F.meaning files.old)
        (F.meaning files.new)) }
    ensures count { IfOk result (λ count. count ≡ length (file_in form input.now boxed.now out.now)) }
    ensures err { OnErr result (IsBegun to.now (file_in form input.now boxed.now out.now) (F.meaning files.old)
        (F.meaning files.new)) }
    ensures cause { IsErrOf result Refused.Failed → Rose (F.write_faults files.old) (F.write_faults files.new) }
    ensures rose { F.write_faults files.old < F.write_faults files.new → IsErrOf result Refused.Failed }
    ensures other { F.read_faults files.new ≡ F.read_faults files.old }
{
    match form {
        FormChoice::Keep => {
            let head = head_for(boxed, out.len() as u64);
            let (front, back) = around(input, boxed);
            write_pieces(files, to, &[front, head.bytes(), out, back])
        }
        FormChoice::Codestream => write_pieces(files, to, &[out]),
    }
}

/// The status of a file that wasn't written to its end.
fn unwritten_as(refused: Refused) -> Status
    ensures { result ≡ unwritten_as refused }
{
    match refused {
        Refused::Failed => Status::WriteFault,
        Refused::NoMemory => Status::NoMemory,
    }
}

/// How a file is left that was written with so many bytes, or wasn't to its end.
fn written_as(written: Result<usize, Refused>, blocks: u32, tape: Vec<TapeEntry>) -> Ending
    ensures ok { IfOk written (λ count. (result.status ≡ Status.Done) × (result.bytes ≡ count)) }
    ensures err { IfErr written (λ refused. result.status ≡ unwritten_as refused) }
    ensures blocks { result.blocks ≡ blocks }
    ensures tape { result.tape.items ≡ tape.items }
    ensures misfit { result.misfit ≡ None }
{
    match written {
        Ok(bytes) => Ending {
            status: Status::Done,
            blocks,
            bytes,
            tape,
            misfit: None,
        },
        Err(refused) => Ending {
            status: unwritten_as(refused),
            blocks,
            bytes: 0,
            tape,
            misfit: None,
        },
    }
}

/// A plan that is written in the place of the codestream of a JP2 file, or alone, as is asked. It is written to memory first, since the head of
/// its box tells how long it is.
pub fn write_around<R: Threads + Wait + Sync, G: Gate + Sync, F: Files>(
    crew: &Crew<'_, R, G>,
    alloc: Global,
    files: &mut F,
    to: &str,
    form: FormChoice,
    file: &[u8],
    boxed: &Boxed,
    plan: &OutStream<'_>,
) -> Ending
    requires creates { F.can_create files.old to.now }
    requires within { length file.now ≤ most_bytes }
    requires found { IsCodestream file.now boxed.now }
    requires plan { IsPlan plan.now }
    requires work { MayBeWork crew.now.work }
    ensures carried { IsCarriedAround plan.now to.now crew.now.work form file.now boxed.now
        result.status result.blocks result.bytes result.tape.items (F.meaning files.old) (F.meaning files.new) }
    ensures cause { result.status ≡ Status.WriteFault → Rose (F.write_faults files.old) (F.write_faults files.new) }
    ensures rose { F.write_faults files.old < F.write_faults files.new → result.status ≡ Status.WriteFault }
    ensures read { (result.status ≡ Status.ReadFault → ⊥) × (result.status ≡ Status.Words → ⊥) }
    ensures other { F.read_faults files.new ≡ F.read_faults files.old }
    ensures misfit { result.misfit ≡ None }
{
    let made = made_in_memory(crew, alloc, plan);
    match made.status {
        Status::Done => {
            let written = write_form(files, to, form, file, boxed, &made.out);
            written_as(written, made.blocks, made.tape)
        }
        status => Ending {
            status,
            blocks: made.blocks,
            bytes: 0,
            tape: made.tape,
            misfit: None,
        },
    }
}
