//! How long the tile-parts of a file are, found before it is begun.

ghost use Rattle.std.specs.Prelude.{◌≡◌, ℕ, List, [], Some, length, IfErr, IfOk, OnOk};
ghost use Rattle.jx_options.specs.Work.{MayBeWork};
ghost use Rattle.jx_rounds.specs.Heads.{AreMeasured, IsHeld, IsUnmeasured};
ghost use Rattle.jx_rounds.specs.Rounds.{IsTapedTo};
ghost use Rattle.jx_rounds.specs.Tapes.{IsTapeOf};

use crate::TapeEntry;
use crate::blind_writer::BlindWriter;
use crate::crew::Crew;
use crate::halt::Halt;
use crate::lengths::Lengths;
use crate::making::Making;
use crate::memory_writer::MemoryWriter;
use crate::write::write_tiles;
use crate::writer::ByteWriter;
use jx_io::Gate;
use jx_tier2_writer::PartLength;
use std::alloc::Global;
use std::sync::Wait;
use std::thread::Threads;

/// All tile-parts of a file, held in memory, and how long each is.
#[derive(Drop)]
pub struct Held {
    pub lengths: Vec<PartLength>,
    pub parts: MemoryWriter,
}

/// How long the tile-parts of a plan's file are: its rounds are made and packed one after another, and let go. `tape` gets the entries of
/// each round's code-blocks once it is packed.
///
/// # Errors
///
/// `Bad` and `TooLong` where a tile can't be written, with the tape of the rounds before its own; `NoMemory`.
pub fn measured_parts<R: Threads + Wait + Sync, G: Gate + Sync>(
    crew: &Crew<'_, R, G>,
    alloc: Global,
    making: &Making<'_, '_>,
    tape: &mut Vec<TapeEntry>,
    buffer: &mut Vec<u8>,
) -> Result<Vec<PartLength>, Halt>
    requires work { MayBeWork crew.now.work }
    requires empty { tape.old.items ≡ [] }
    requires buffer { buffer.old.items ≡ [] }
    ensures ok { IfOk result (λ lengths. AreMeasured making.now lengths.items) }
    ensures err { IfErr result (λ h. IsUnmeasured making.now h) }
    ensures tape { IsTapeOf crew.now.work making.now.blocks tape.new.items }
    ensures whole { OnOk result (length tape.new.items ≡ length making.now.blocks) }
    ensures taped { IfErr result (λ h. IsTapedTo making.now h (length tape.new.items)) }
    ensures buffer { OnOk result (buffer.new.items ≡ []) }
{
    let mut blind = BlindWriter;
    let mut lengths = Lengths::asked(alloc);
    match write_tiles(
        crew,
        alloc,
        &mut blind,
        making,
        0,
        &mut lengths,
        tape,
        buffer,
    ) {
        Ok(_) => Ok(lengths.into_parts()),
        Err(halt) => Err(halt),
    }
}

/// The same with the tile-parts themselves, for a file of which code-blocks are coded anew: each is coded once.
///
/// # Errors
///
/// As `measured_parts`.
pub fn held_parts<R: Threads + Wait + Sync, G: Gate + Sync>(
    crew: &Crew<'_, R, G>,
    alloc: Global,
    making: &Making<'_, '_>,
    tape: &mut Vec<TapeEntry>,
    buffer: &mut Vec<u8>,
) -> Result<Held, Halt>
    requires work { MayBeWork crew.now.work }
    requires empty { tape.old.items ≡ [] }
    requires buffer { buffer.old.items ≡ [] }
    ensures ok { IfOk result (λ held. AreMeasured making.now held.lengths.items) }
    ensures held { IfOk result (λ held. (bytes : List ℕ)
        → ⟦<MemoryWriter as ByteWriter>⟧.written held.parts ≡ Some bytes → IsHeld making.now bytes) }
    ensures err { IfErr result (λ h. IsUnmeasured making.now h) }
    ensures tape { IsTapeOf crew.now.work making.now.blocks tape.new.items }
    ensures whole { OnOk result (length tape.new.items ≡ length making.now.blocks) }
    ensures taped { IfErr result (λ h. IsTapedTo making.now h (length tape.new.items)) }
    ensures buffer { OnOk result (buffer.new.items ≡ []) }
{
    let mut parts = MemoryWriter::new(alloc);
    let mut lengths = Lengths::asked(alloc);
    match write_tiles(
        crew,
        alloc,
        &mut parts,
        making,
        0,
        &mut lengths,
        tape,
        buffer,
    ) {
        Ok(_) => Ok(Held {
            lengths: lengths.into_parts(),
            parts,
        }),
        Err(halt) => Err(halt),
    }
}
