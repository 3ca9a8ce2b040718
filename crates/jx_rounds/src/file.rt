//! The codestream of a plan, written to a file or to memory.

ghost use Rattle.std.specs.Prelude.{◌≡◌, ◌<◌, [], None, length, IfErr, IfOk, IfSome, IsErrOf, OnOk};
ghost use Rattle.jx_io.specs.Causes.{Rose};
ghost use Rattle.jx_options.specs.Work.{MayBeWork};
ghost use Rattle.jx_plan.specs.Plan.{IsPlan};
ghost use Rattle.jx_rounds.specs.Files.{IsFileHalted, IsFileMade};
ghost use Rattle.jx_rounds.specs.Heads.{IsCodestreamOf, IsHead, IsHeld, IsUnmeasured};
ghost use Rattle.jx_rounds.specs.Rounds.{HasWhole, IsHalted, IsTapedTo};
ghost use Rattle.jx_rounds.specs.Tapes.{IsTapeOf};

use crate::TapeEntry;
use crate::buffer::ENOUGH;
use crate::crew::Crew;
use crate::halt::{Halt, halt_of};
use crate::making::Making;
use crate::memory_writer::MemoryWriter;
use crate::ready::{Ready, ready_for};
use crate::write::{write_codestream, write_held};
use crate::writer::ByteWriter;
use jx_io::{Files, Gate};
use jx_plan::OutStream;
use jx_tier2_writer::{main_header, main_view};
use std::alloc::Global;
use std::sync::Wait;
use std::thread::Threads;

/// Writes the codestream of a plan, of which this was found out before: how many bytes it has.
///
/// The main header, each tile-part and EOC begin with a write of their own, and a tile-part of 65,536 bytes or more may come in several.
/// The code-blocks of a round are made, and its tile-parts are packed, before a byte of it is written. After an `Err` what was written is
/// a front of the codestream; after `Bad` and `TooLong` it is just the main header and the rounds before that of the tile.
fn write_ready<R: Threads + Wait + Sync, G: Gate + Sync, W: ByteWriter>(
    crew: &Crew<'_, R, G>,
    alloc: Global,
    writer: &mut W,
    making: &Making<'_, '_>,
    ready: &Ready,
    tape: &mut Vec<TapeEntry>,
    buffer: &mut Vec<u8>,
) -> Result<usize, Halt>
    requires may { W.can_write (W.kept writer.old) }
    requires plan { IsPlan making.now }
    requires head { IsHead making.now ready.now.head.items }
    requires held { IfSome ready.now.held (λ parts. IsHeld making.now parts.items) }
    requires work { MayBeWork crew.now.work }
    requires few { IsTapeOf crew.now.work making.now.blocks tape.old.items }
    requires fresh { ready.now.held ≡ None → tape.old.items ≡ [] }
    requires full { IfSome ready.now.held (λ _. length tape.old.items ≡ length making.now.blocks) }
    requires buffer { buffer.old.items ≡ [] }
    ensures ok { IfOk result (λ bytes. HasWhole making.now ready.now.head.items bytes (W.written writer.old)
        (W.written writer.new)) }
    ensures err { IfErr result (λ h. IsHalted making.now ready.now.head.items h (W.written writer.old)
        (W.written writer.new)) }
    ensures tape { IsTapeOf crew.now.work making.now.blocks tape.new.items }
    ensures whole { OnOk result (length tape.new.items ≡ length making.now.blocks) }
    ensures taped { IfErr result (λ h. IsTapedTo making.now h (length tape.new.items)) }
    ensures cause { IsErrOf result Halt.Failed → Rose (W.faults writer.old) (W.faults writer.new) }
    ensures rose { W.faults writer.old < W.faults writer.new → IsErrOf result Halt.Failed }
    ensures same { OnOk result (W.faults writer.new ≡ W.faults writer.old) }
    ensures other { W.kept writer.new ≡ W.kept writer.old }
{
    match &ready.held {
        None => write_codestream(crew, alloc, writer, making, &ready.head, tape, buffer),
        Some(parts) => write_held(writer, &ready.head, parts),
    }
}

/// Creates the file of a plan, writes it and finishes it.
fn write_created<R: Threads + Wait + Sync, G: Gate + Sync, F: Files>(
    crew: &Crew<'_, R, G>,
    alloc: Global,
    files: &mut F,
    to: &str,
    making: &Making<'_, '_>,
    ready: &Ready,
    tape: &mut Vec<TapeEntry>,
    buffer: &mut Vec<u8>,
) -> Result<usize, Halt>
    requires creates { F.can_create files.old to.now }
    requires plan { IsPlan making.now }
    requires head { IsHead making.now ready.now.head.items }
    requires held { IfSome ready.now.held (λ parts. IsHeld making.now parts.items) }
    requires work { MayBeWork crew.now.work }
    requires few { IsTapeOf crew.now.work making.now.blocks tape.old.items }
    requires fresh { ready.now.held ≡ None → tape.old.items ≡ [] }
    requires full { IfSome ready.now.held (λ _. length tape.old.items ≡ length making.now.blocks) }
    requires buffer { buffer.old.items ≡ [] }
    ensures ok { IfOk result (λ bytes. IsFileMade making.now to.now bytes (F.meaning files.old) (F.meaning files.new)) }
    ensures err { IfErr result (λ h. IsFileHalted making.now to.now h (F.meaning files.old) (F.meaning files.new)) }
    ensures tape { IsTapeOf crew.now.work making.now.blocks tape.new.items }
    ensures whole { OnOk result (length tape.new.items ≡ length making.now.blocks) }
    ensures taped { IfErr result (λ h. IsTapedTo making.now h (length tape.new.items)) }
    ensures cause { IsErrOf result Halt.Failed → Rose (F.write_faults files.old) (F.write_faults files.new) }
    ensures rose { F.write_faults files.old < F.write_faults files.new → IsErrOf result Halt.Failed }
    ensures other { F.read_faults files.new ≡ F.read_faults files.old }
{
    match files.create(to) {
        Ok(()) => {}
        Err(refused) => return Err(halt_of(refused)),
    }
    match write_ready(crew, alloc, files, making, ready, tape, buffer) {
        Ok(bytes) => match files.finish() {
            Ok(()) => Ok(bytes),
            Err(refused) => Err(halt_of(refused)),
        },
        Err(halt) => Err(halt),
    }
}

/// Writes the file of a plan under a name, and gives how many bytes it has. `tape` gets the entries of each round's code-blocks once the
/// round is written, or made where it is held in memory.
///
/// After an `Err` nothing was created, or what was written is a front of the file; after `Bad` and `TooLong` it is just the main header
/// and the rounds before that of the tile. Where an index of the tile-parts is asked, nothing was created then.
pub fn write_file<R: Threads + Wait + Sync, G: Gate + Sync, F: Files>(
    crew: &Crew<'_, R, G>,
    alloc: Global,
    files: &mut F,
    to: &str,
    plan: &OutStream<'_>,
    tape: &mut Vec<TapeEntry>,
) -> Result<usize, Halt>
    requires creates { F.can_create files.old to.now }
    requires plan { IsPlan plan.now }
    requires work { MayBeWork crew.now.work }
    requires empty { tape.old.items ≡ [] }
    ensures ok { IfOk result (λ bytes. IsFileMade plan.now to.now bytes (F.meaning files.old) (F.meaning files.new)) }
    ensures err { IfErr result (λ h. IsFileHalted plan.now to.now h (F.meaning files.old) (F.meaning files.new)) }
    ensures tape { IsTapeOf crew.now.work plan.now.blocks tape.new.items }
    ensures whole { OnOk result (length tape.new.items ≡ length plan.now.blocks) }
    ensures taped { IfErr result (λ h. IsTapedTo plan.now h (length tape.new.items)) }
    ensures cause { IsErrOf result Halt.Failed → Rose (F.write_faults files.old) (F.write_faults files.new) }
    ensures rose { F.write_faults files.old < F.write_faults files.new → IsErrOf result Halt.Failed }
    ensures other { F.read_faults files.new ≡ F.read_faults files.old }
{
    let Ok(header) = main_header(alloc, plan) else {
        return Err(Halt::NoMemory);
    };
    let Ok(written) = main_view(alloc, plan) else {
        return Err(Halt::NoMemory);
    };
    let Ok(mut buffer) = Vec::with_capacity(alloc, ENOUGH) else {
        return Err(Halt::NoMemory);
    };
    let making = Making::new(plan, &written);
    match ready_for(crew, alloc, &making, header, tape, &mut buffer) {
        Ok(ready) => write_created(crew, alloc, files, to, &making, &ready, tape, &mut buffer),
        Err(halt) => Err(halt),
    }
}

/// Writes the codestream of a plan to memory: its bytes. `tape` gets the entries of each round's code-blocks once the round is made.
///
/// # Errors
/// `Bad` and `TooLong` where a tile can't be written, with the tape of the rounds before its own; `NoMemory`.
pub fn write_memory<R: Threads + Wait + Sync, G: Gate + Sync>(
    crew: &Crew<'_, R, G>,
    alloc: Global,
    plan: &OutStream<'_>,
    tape: &mut Vec<TapeEntry>,
) -> Result<Vec<u8>, Halt>
    requires plan { IsPlan plan.now }
    requires work { MayBeWork crew.now.work }
    requires empty { tape.old.items ≡ [] }
    ensures ok { IfOk result (λ bytes. IsCodestreamOf plan.now bytes.items) }
    ensures err { IfErr result (λ h. IsUnmeasured plan.now h) }
    ensures tape { IsTapeOf crew.now.work plan.now.blocks tape.new.items }
    ensures whole { OnOk result (length tape.new.items ≡ length plan.now.blocks) }
    ensures taped { IfErr result (λ h. IsTapedTo plan.now h (length tape.new.items)) }
{
    let Ok(header) = main_header(alloc, plan) else {
        return Err(Halt::NoMemory);
    };
    let Ok(written) = main_view(alloc, plan) else {
        return Err(Halt::NoMemory);
    };
    let Ok(mut buffer) = Vec::with_capacity(alloc, ENOUGH) else {
        return Err(Halt::NoMemory);
    };
    let making = Making::new(plan, &written);
    let ready = match ready_for(crew, alloc, &making, header, tape, &mut buffer) {
        Ok(ready) => ready,
        Err(halt) => return Err(halt),
    };
    let mut writer = MemoryWriter::new(alloc);
    match write_ready(crew, alloc, &mut writer, &making, &ready, tape, &mut buffer) {
        Ok(_) => Ok(writer.into_bytes()),
        Err(halt) => Err(halt),
    }
}
