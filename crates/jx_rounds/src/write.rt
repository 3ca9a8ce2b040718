//! A codestream, written round by round.

ghost use Rattle.std.specs.Prelude.{◌≡◌, ◌<◌, ◌≤◌, ◌+◌, ℕ, List, Option, [], ◌++◌, length, map, vec_capacity, vec_len, IfOk, IfErr, IfSome, OnErr, OnOk, OnSome, IsErrOf};
ghost use Rattle.std.specs.List.{concat};
ghost use Rattle.jx_io.specs.Causes.{Rose};
ghost use Rattle.jx_plan.specs.Plan.{Plan};
ghost use Rattle.jx_codestream.specs.First.{tile_number};
ghost use Rattle.jx_tier2_writer.specs.Tile.{first_block};
ghost use Rattle.jx_options.specs.Work.{MayBeWork};
ghost use Rattle.jx_rounds.specs.MadeRounds.{entry_of, parts_of};
ghost use Rattle.jx_rounds.specs.Rounds.{BeginsRound, EndsRound, HasFront, HasRounds, HasTape, HasWhole, IsFault, IsHalted, IsHaltedByFault, IsOfRound, IsPlace, IsTapedTo, IsUnwritten};
ghost use Rattle.jx_rounds.specs.Heads.{IsHeld};
ghost use Rattle.jx_rounds.specs.Sent.{lengths_behind, sent_from};
ghost use Rattle.jx_rounds.specs.Taken.{SomeFront, followed_by};
ghost use Rattle.jx_rounds.specs.Tapes.{IsTapeOf};

use crate::TapeEntry;
use crate::buffer::{count_bytes, put, put_tiles};
use crate::crew::Crew;
use crate::halt::Halt;
use crate::lengths::Lengths;
use crate::making::Making;
use crate::packed::Packed;
use crate::rounds::{Round, made_round, packed_tiles};
use crate::writer::ByteWriter;
use jx_codeblock::Recoded;
use jx_io::Gate;
use jx_marker::codes;
use jx_store::Entry;
use std::alloc::Global;
use std::sync::Wait;
use std::thread::Threads;

const EOC: [u8; 2] = [0xFF, codes::EOC];

/// What has been written before a tile: the number of its first code-block, and how many bytes.
#[derive(Clone, Copy)]
pub struct Mark {
    pub tile: u16,
    pub block: u32,
    pub bytes: usize,
}

/// What the tape says of a block.
fn told_of(entry: &Entry<Recoded<'_>>) -> TapeEntry
    ensures { result ≡ entry_of entry.now }
{
    TapeEntry {
        number: entry.number,
        worker: entry.worker,
        seen: entry.seen,
    }
}

/// Puts what the tape says of a round's blocks behind those of the rounds before it.
fn put_entries(tape: &mut Vec<TapeEntry>, entries: &[Entry<Recoded<'_>>])
    requires { vec_len tape.old + length entries.now ≤ vec_capacity tape.old }
    ensures { tape.new.items ≡ tape.old.items ++ map entry_of entries.now }
{
    for entry in entries {
        tape.push_reserved(told_of(entry));
    }
}

/// Where a round ends that is written after a mark, with the lengths of its tile-parts put down; none where there is no room for them, or
/// for its entries on the tape, or no number has so many bytes.
fn mark_after(
    mark: Mark,
    round: &Round<'_>,
    tiles: &[Packed<'_, '_>],
    lengths: &mut Lengths,
    tape: &mut Vec<TapeEntry>,
) -> Option<Mark>
    requires few { mark.tile + length tiles.now < 65536 }
    ensures lengths { OnSome result (lengths.new ≡ lengths_behind (sent_from mark.tile tiles.now) lengths.old) }
    ensures next { IfSome result (λ next. (next.tile ≡ round.now.extent.tile) × (next.block ≡ round.now.extent.block)
        × (next.bytes ≡ mark.bytes + length (concat (parts_of tiles.now)))) }
    ensures room { OnSome result (vec_len tape.new + length round.now.entries.items ≤ vec_capacity tape.new) }
    ensures kept { tape.new.items ≡ tape.old.items }
{
    let bytes = count_bytes(mark.bytes, tiles)?;
    if tape.reserve(round.entries.len()).is_err() {
        return None;
    }
    if lengths.put_tiles(mark.tile, tiles).is_err() {
        return None;
    }
    Some(Mark {
        tile: round.extent.tile,
        block: round.extent.block,
        bytes,
    })
}

/// Writes the tile-parts of a round, as `put_tiles`, unless they are let go.
fn put_round<W: ByteWriter>(
    writer: &mut W,
    tiles: &[Packed<'_, '_>],
    buffer: &mut Vec<u8>,
) -> Result<(), Halt>
    requires may { W.can_write (W.kept writer.old) }
    requires empty { buffer.old.items ≡ [] }
    ensures ok { OnOk result (W.written writer.new ≡ followed_by (concat (parts_of tiles.now)) (W.written writer.old)) }
    ensures empty { OnOk result (buffer.new.items ≡ []) }
    ensures front { SomeFront (W.written writer.old) (W.written writer.new) (concat (parts_of tiles.now)) }
    ensures fault { IfErr result (λ h. IsFault h) }
    ensures cause { IsErrOf result Halt.Failed → Rose (W.faults writer.old) (W.faults writer.new) }
    ensures rose { W.faults writer.old < W.faults writer.new → IsErrOf result Halt.Failed }
    ensures same { OnOk result (W.faults writer.new ≡ W.faults writer.old) }
    ensures other { W.kept writer.new ≡ W.kept writer.old }
{
    if writer.is_blind() {
        return Ok(());
    }
    put_tiles(writer, tiles, buffer)
}

/// Writes the round that begins at a tile, and puts its entries on the tape once it is written. `lengths` gets how long its tile-parts are.
fn write_round<R: Threads + Wait + Sync, G: Gate + Sync, W: ByteWriter>(
    crew: &Crew<'_, R, G>,
    alloc: Global,
    writer: &mut W,
    making: &Making<'_, '_>,
    mark: Mark,
    lengths: &mut Lengths,
    tape: &mut Vec<TapeEntry>,
    buffer: &mut Vec<u8>,
) -> Result<Mark, Halt>
    requires may { W.can_write (W.kept writer.old) }
    requires tile { mark.tile < tile_number making.now.stream.siz }
    requires block { mark.block ≡ first_block making.now mark.tile }
    requires begins { BeginsRound making.now mark.tile }
    requires work { MayBeWork crew.now.work }
    requires tape { HasTape making.now crew.now.work mark.block tape.old.items }
    requires buffer { buffer.old.items ≡ [] }
    ensures ok { IfOk result (λ next. HasRounds making.now mark.tile next.tile mark.bytes next.bytes
        (W.written writer.old) (W.written writer.new) lengths.old lengths.new) }
    ensures later { IfOk result (λ next. mark.tile < next.tile) }
    ensures place { IfOk result (λ next. IsPlace making.now next.tile next.block) }
    ensures ends { IfOk result (λ next. EndsRound making.now next.tile) }
    ensures tape { IfOk result (λ next. HasTape making.now crew.now.work next.block tape.new.items) }
    ensures kept { OnErr result (tape.new.items ≡ tape.old.items) }
    ensures buffer { OnOk result (buffer.new.items ≡ []) }
    ensures err { IfErr result (λ h. IsUnwritten making.now mark.tile h (W.written writer.old) (W.written writer.new)) }
    ensures round { IfErr result (λ h. IsOfRound making.now mark.tile h) }
    ensures cause { IsErrOf result Halt.Failed → Rose (W.faults writer.old) (W.faults writer.new) }
    ensures rose { W.faults writer.old < W.faults writer.new → IsErrOf result Halt.Failed }
    ensures same { OnOk result (W.faults writer.new ≡ W.faults writer.old) }
    ensures other { W.kept writer.new ≡ W.kept writer.old }
{
    let Ok(round) = made_round(crew, alloc, making, mark.tile, mark.block) else {
        return Err(Halt::NoMemory);
    };
    let tiles = match packed_tiles(alloc, making, mark.tile, &round.extent, &round.entries) {
        Ok(tiles) => tiles,
        Err(halt) => return Err(halt),
    };
    let Some(next) = mark_after(mark, &round, &tiles, lengths, tape) else {
        return Err(Halt::NoMemory);
    };
    match put_round(writer, &tiles, buffer) {
        Ok(()) => {
            put_entries(tape, &round.entries);
            Ok(next)
        }
        Err(halt) => Err(halt),
    }
}

/// Writes all rounds after `header` bytes: how many there are then. `lengths` gets how long their tile-parts are.
pub fn write_tiles<R: Threads + Wait + Sync, G: Gate + Sync, W: ByteWriter>(
    crew: &Crew<'_, R, G>,
    alloc: Global,
    writer: &mut W,
    making: &Making<'_, '_>,
    header: usize,
    lengths: &mut Lengths,
    tape: &mut Vec<TapeEntry>,
    buffer: &mut Vec<u8>,
) -> Result<usize, Halt>
    requires may { W.can_write (W.kept writer.old) }
    requires work { MayBeWork crew.now.work }
    requires empty { tape.old.items ≡ [] }
    requires buffer { buffer.old.items ≡ [] }
    ensures ok { IfOk result (λ bytes. HasRounds making.now 0 (tile_number making.now.stream.siz) header bytes
        (W.written writer.old) (W.written writer.new) lengths.old lengths.new) }
    ensures err { IfErr result (λ h. IsUnwritten making.now 0 h (W.written writer.old) (W.written writer.new)) }
    ensures tape { IsTapeOf crew.now.work making.now.blocks tape.new.items }
    ensures whole { OnOk result (length tape.new.items ≡ length making.now.blocks) }
    ensures last { OnOk result (IsPlace making.now (tile_number making.now.stream.siz) (length tape.new.items)) }
    ensures buffer { OnOk result (buffer.new.items ≡ []) }
    ensures taped { IfErr result (λ h. IsTapedTo making.now h (length tape.new.items)) }
    ensures cause { IsErrOf result Halt.Failed → Rose (W.faults writer.old) (W.faults writer.new) }
    ensures rose { W.faults writer.old < W.faults writer.new → IsErrOf result Halt.Failed }
    ensures same { OnOk result (W.faults writer.new ≡ W.faults writer.old) }
    ensures other { W.kept writer.new ≡ W.kept writer.old }
{
    let tiles = making.tile_count();
    let mut mark = Mark {
        tile: 0,
        block: 0,
        bytes: header,
    };
    while mark.tile < tiles {
        mark = match write_round(crew, alloc, writer, making, mark, lengths, tape, buffer) {
            Ok(next) => next,
            Err(halt) => return Err(halt),
        };
    }
    Ok(mark.bytes)
}

/// Writes EOC after `before` bytes.
fn write_end<W: ByteWriter>(writer: &mut W, before: usize) -> Result<usize, Halt>
    requires may { W.can_write (W.kept writer.old) }
    ensures ok { IfOk result (λ bytes. (p : Plan) (head : List ℕ) (first : Option (List ℕ))
        → HasFront p head (tile_number p.stream.siz) before first (W.written writer.old)
        → HasWhole p head bytes first (W.written writer.new)) }
    ensures err { IfErr result (λ h. (p : Plan) (head : List ℕ) (first : Option (List ℕ))
        → HasFront p head (tile_number p.stream.siz) before first (W.written writer.old)
        → IsHalted p head h first (W.written writer.new)) }
    ensures fault { IfErr result (λ h. IsFault h) }
    ensures cause { IsErrOf result Halt.Failed → Rose (W.faults writer.old) (W.faults writer.new) }
    ensures rose { W.faults writer.old < W.faults writer.new → IsErrOf result Halt.Failed }
    ensures same { OnOk result (W.faults writer.new ≡ W.faults writer.old) }
    ensures other { W.kept writer.new ≡ W.kept writer.old }
{
    let Some(bytes) = before.checked_add(EOC.len()) else {
        return Err(Halt::NoMemory);
    };
    match put(writer, &EOC) {
        Ok(()) => Ok(bytes),
        Err(halt) => Err(halt),
    }
}

/// Writes a head, all rounds and EOC.
fn write_from_head<R: Threads + Wait + Sync, G: Gate + Sync, W: ByteWriter>(
    crew: &Crew<'_, R, G>,
    alloc: Global,
    writer: &mut W,
    making: &Making<'_, '_>,
    head: &[u8],
    lengths: &mut Lengths,
    tape: &mut Vec<TapeEntry>,
    buffer: &mut Vec<u8>,
) -> Result<usize, Halt>
    requires may { W.can_write (W.kept writer.old) }
    requires work { MayBeWork crew.now.work }
    requires empty { tape.old.items ≡ [] }
    requires buffer { buffer.old.items ≡ [] }
    ensures ok { IfOk result (λ bytes. HasWhole making.now head.now bytes (W.written writer.old)
        (W.written writer.new)) }
    ensures err { IfErr result (λ h. IsHalted making.now head.now h (W.written writer.old) (W.written writer.new)) }
    ensures tape { IsTapeOf crew.now.work making.now.blocks tape.new.items }
    ensures whole { OnOk result (length tape.new.items ≡ length making.now.blocks) }
    ensures taped { IfErr result (λ h. IsTapedTo making.now h (length tape.new.items)) }
    ensures cause { IsErrOf result Halt.Failed → Rose (W.faults writer.old) (W.faults writer.new) }
    ensures rose { W.faults writer.old < W.faults writer.new → IsErrOf result Halt.Failed }
    ensures same { OnOk result (W.faults writer.new ≡ W.faults writer.old) }
    ensures other { W.kept writer.new ≡ W.kept writer.old }
{
    match put(writer, head) {
        Ok(()) => match write_tiles(
            crew,
            alloc,
            writer,
            making,
            head.len(),
            lengths,
            tape,
            buffer,
        ) {
            Ok(before) => write_end(writer, before),
            Err(halt) => Err(halt),
        },
        Err(halt) => Err(halt),
    }
}

/// Writes the codestream of a plan, with `head` before its first tile-part: how many bytes it has. `tape` gets the entries of each round's
/// code-blocks once the round is written.
///
/// The head, each tile-part and EOC begin with a write of their own, and a tile-part of 65,536 bytes or more may come in several,
/// through `buffer`. The code-blocks of a round are made, and its tile-parts are packed, before a byte of it is written. After an `Err`
/// what was written is a front of the codestream; after `Bad` and `TooLong` it is just the head and the rounds before that of the tile.
pub fn write_codestream<R: Threads + Wait + Sync, G: Gate + Sync, W: ByteWriter>(
    crew: &Crew<'_, R, G>,
    alloc: Global,
    writer: &mut W,
    making: &Making<'_, '_>,
    head: &[u8],
    tape: &mut Vec<TapeEntry>,
    buffer: &mut Vec<u8>,
) -> Result<usize, Halt>
    requires may { W.can_write (W.kept writer.old) }
    requires work { MayBeWork crew.now.work }
    requires empty { tape.old.items ≡ [] }
    requires buffer { buffer.old.items ≡ [] }
    ensures ok { IfOk result (λ bytes. HasWhole making.now head.now bytes (W.written writer.old)
        (W.written writer.new)) }
    ensures err { IfErr result (λ h. IsHalted making.now head.now h (W.written writer.old) (W.written writer.new)) }
    ensures tape { IsTapeOf crew.now.work making.now.blocks tape.new.items }
    ensures whole { OnOk result (length tape.new.items ≡ length making.now.blocks) }
    ensures taped { IfErr result (λ h. IsTapedTo making.now h (length tape.new.items)) }
    ensures cause { IsErrOf result Halt.Failed → Rose (W.faults writer.old) (W.faults writer.new) }
    ensures rose { W.faults writer.old < W.faults writer.new → IsErrOf result Halt.Failed }
    ensures same { OnOk result (W.faults writer.new ≡ W.faults writer.old) }
    ensures other { W.kept writer.new ≡ W.kept writer.old }
{
    let mut lengths = Lengths::unasked(alloc);
    write_from_head(
        crew,
        alloc,
        writer,
        making,
        head,
        &mut lengths,
        tape,
        buffer,
    )
}

/// Writes what stands behind a head of so many bytes, and EOC.
fn write_behind<W: ByteWriter>(writer: &mut W, head: usize, held: &[u8]) -> Result<usize, Halt>
    requires may { W.can_write (W.kept writer.old) }
    ensures ok { IfOk result (λ bytes. (p : Plan) (first : Option (List ℕ)) (before : List ℕ) → head ≡ length before
        → IsHeld p held.now → W.written writer.old ≡ followed_by before first
        → HasWhole p before bytes first (W.written writer.new)) }
    ensures err { OnErr result ((p : Plan) (first : Option (List ℕ)) (before : List ℕ) → head ≡ length before
        → IsHeld p held.now → W.written writer.old ≡ followed_by before first
        → IsHaltedByFault p before first (W.written writer.new)) }
    ensures fault { IfErr result (λ h. IsFault h) }
    ensures cause { IsErrOf result Halt.Failed → Rose (W.faults writer.old) (W.faults writer.new) }
    ensures rose { W.faults writer.old < W.faults writer.new → IsErrOf result Halt.Failed }
    ensures same { OnOk result (W.faults writer.new ≡ W.faults writer.old) }
    ensures other { W.kept writer.new ≡ W.kept writer.old }
{
    let Some(before) = head.checked_add(held.len()) else {
        return Err(Halt::NoMemory);
    };
    match put(writer, held) {
        Ok(()) => write_end(writer, before),
        Err(halt) => Err(halt),
    }
}

/// Writes the codestream of a plan, of which all tile-parts are held in memory, with `head` before them: how many bytes it has. After an
/// `Err` what was written is a front of it.
pub fn write_held<W: ByteWriter>(writer: &mut W, head: &[u8], held: &[u8]) -> Result<usize, Halt>
    requires may { W.can_write (W.kept writer.old) }
    ensures ok { IfOk result (λ bytes. (p : Plan) → IsHeld p held.now
        → HasWhole p head.now bytes (W.written writer.old) (W.written writer.new)) }
    ensures err { OnErr result ((p : Plan) → IsHeld p held.now
        → IsHaltedByFault p head.now (W.written writer.old) (W.written writer.new)) }
    ensures fault { IfErr result (λ h. IsFault h) }
    ensures cause { IsErrOf result Halt.Failed → Rose (W.faults writer.old) (W.faults writer.new) }
    ensures rose { W.faults writer.old < W.faults writer.new → IsErrOf result Halt.Failed }
    ensures same { OnOk result (W.faults writer.new ≡ W.faults writer.old) }
    ensures other { W.kept writer.new ≡ W.kept writer.old }
{
    match put(writer, head) {
        Ok(()) => write_behind(writer, head.len(), held),
        Err(halt) => Err(halt),
    }
}
