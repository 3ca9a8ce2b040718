//! What is found out of a plan before a byte of it is written.

ghost use Rattle.std.specs.Prelude.{◌≡◌, [], None, true, IfErr, IfOk, IfSome, OnErr, OnOk, length};
ghost use Rattle.jx_options.specs.Work.{MayBeWork};
ghost use Rattle.jx_plan.specs.Plan.{IsPlan, headers_of};
ghost use Rattle.jx_rounds.specs.Heads.{IsHead, IsHeld, IsUnmeasured};
ghost use Rattle.jx_rounds.specs.Rounds.{IsTapedTo};
ghost use Rattle.jx_rounds.specs.Tapes.{IsTapeOf};
ghost use Rattle.jx_tier2_writer.specs.Tile.{main_bytes};

use crate::TapeEntry;
use crate::crew::{Crew, is_anew};
use crate::halt::Halt;
use crate::head::indexed_head;
use crate::making::Making;
use crate::measure::{held_parts, measured_parts};
use jx_io::Gate;
use std::alloc::Global;
use std::sync::Wait;
use std::thread::Threads;

/// What stands before the first tile-part of a file; and all of its tile-parts, where they were made to find out how long they are.
#[derive(Drop)]
pub struct Ready {
    pub head: Vec<u8>,
    pub held: Option<Vec<u8>>,
}

/// With an index, of a plan whose rounds are made twice: first to find how long all tile-parts are. No code-block is coded anew.
fn measured<R: Threads + Wait + Sync, G: Gate + Sync>(
    crew: &Crew<'_, R, G>,
    alloc: Global,
    making: &Making<'_, '_>,
    header: Vec<u8>,
    tape: &mut Vec<TapeEntry>,
    buffer: &mut Vec<u8>,
) -> Result<Ready, Halt>
    requires plan { IsPlan making.now }
    requires asked { making.now.wanted.marks.tlm ≡ true }
    requires header { header.items ≡ main_bytes (headers_of making.now) }
    requires work { MayBeWork crew.now.work }
    requires empty { tape.old.items ≡ [] }
    requires buffer { buffer.old.items ≡ [] }
    ensures head { IfOk result (λ ready. IsHead making.now ready.head.items) }
    ensures held { IfOk result (λ ready. ready.held ≡ None) }
    ensures err { IfErr result (λ h. IsUnmeasured making.now h) }
    ensures tape { OnOk result (tape.new.items ≡ []) }
    ensures taped { IfErr result (λ h. IsTapedTo making.now h (length tape.new.items)) }
    ensures few { IsTapeOf crew.now.work making.now.blocks tape.new.items }
    ensures buffer { OnOk result (buffer.new.items ≡ []) }
{
    let lengths = match measured_parts(crew, alloc, making, tape, buffer) {
        Ok(lengths) => lengths,
        Err(halt) => return Err(halt),
    };
    tape.clear();
    match indexed_head(alloc, making, header, &lengths) {
        Ok(head) => Ok(Ready { head, held: None }),
        Err(_) => Err(Halt::NoMemory),
    }
}

/// With an index, of a plan of which code-blocks are coded anew: its tile-parts are held in memory until all are there.
fn held<R: Threads + Wait + Sync, G: Gate + Sync>(
    crew: &Crew<'_, R, G>,
    alloc: Global,
    making: &Making<'_, '_>,
    header: Vec<u8>,
    tape: &mut Vec<TapeEntry>,
    buffer: &mut Vec<u8>,
) -> Result<Ready, Halt>
    requires plan { IsPlan making.now }
    requires asked { making.now.wanted.marks.tlm ≡ true }
    requires header { header.items ≡ main_bytes (headers_of making.now) }
    requires work { MayBeWork crew.now.work }
    requires empty { tape.old.items ≡ [] }
    requires buffer { buffer.old.items ≡ [] }
    ensures head { IfOk result (λ ready. IsHead making.now ready.head.items) }
    ensures held { IfOk result (λ ready. IfSome ready.held (λ parts. IsHeld making.now parts.items)) }
    ensures some { IfOk result (λ ready. ready.held ≡ None → ⊥) }
    ensures err { IfErr result (λ h. IsUnmeasured making.now h) }
    ensures tape { IsTapeOf crew.now.work making.now.blocks tape.new.items }
    ensures whole { OnOk result (length tape.new.items ≡ length making.now.blocks) }
    ensures taped { IfErr result (λ h. IsTapedTo making.now h (length tape.new.items)) }
    ensures buffer { OnOk result (buffer.new.items ≡ []) }
{
    let held = match held_parts(crew, alloc, making, tape, buffer) {
        Ok(held) => held,
        Err(halt) => return Err(halt),
    };
    match indexed_head(alloc, making, header, &held.lengths) {
        Ok(head) => Ok(Ready {
            head,
            held: Some(held.parts.into_bytes()),
        }),
        Err(_) => Err(Halt::NoMemory),
    }
}

/// What is found out of a plan before a byte of it is written; `header` is its main header.
///
/// Where an index of the tile-parts is asked, the lengths of all of them are found: the rounds are made twice, or, where a code-block is
/// coded anew, once, and held in memory. Without one nothing is made yet, and there is no error.
///
/// # Errors
/// `Bad` and `TooLong` where a tile can't be written, with the tape of the rounds before its own; `NoMemory`.
pub fn ready_for<R: Threads + Wait + Sync, G: Gate + Sync>(
    crew: &Crew<'_, R, G>,
    alloc: Global,
    making: &Making<'_, '_>,
    header: Vec<u8>,
    tape: &mut Vec<TapeEntry>,
    buffer: &mut Vec<u8>,
) -> Result<Ready, Halt>
    requires plan { IsPlan making.now }
    requires header { header.items ≡ main_bytes (headers_of making.now) }
    requires work { MayBeWork crew.now.work }
    requires empty { tape.old.items ≡ [] }
    requires buffer { buffer.old.items ≡ [] }
    ensures head { IfOk result (λ ready. IsHead making.now ready.head.items) }
    ensures held { IfOk result (λ ready. IfSome ready.held (λ parts. IsHeld making.now parts.items)) }
    ensures asked { OnErr result (making.now.wanted.marks.tlm ≡ true) }
    ensures err { IfErr result (λ h. IsUnmeasured making.now h) }
    ensures tape { IsTapeOf crew.now.work making.now.blocks tape.new.items }
    ensures fresh { IfOk result (λ ready. ready.held ≡ None → tape.new.items ≡ []) }
    ensures whole { IfOk result (λ ready. IfSome ready.held (λ _. length tape.new.items ≡ length making.now.blocks)) }
    ensures taped { IfErr result (λ h. IsTapedTo making.now h (length tape.new.items)) }
    ensures buffer { OnOk result (buffer.new.items ≡ []) }
{
    if !making.plan().marks().tlm {
        return Ok(Ready {
            head: header,
            held: None,
        });
    }
    if is_anew(making.jobs()) {
        return held(crew, alloc, making, header, tape, buffer);
    }
    measured(crew, alloc, making, header, tape, buffer)
}
