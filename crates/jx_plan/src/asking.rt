//! The questions to a planner, and what is asked of each code-block by its answers.

ghost use Rattle.std.specs.Prelude.{◌≡◌, ◌+◌, ◌-◌, ◌<◌, ◌≤◌, ◌^◌, ℕ, min, length, IfOk, IfSome, IsSome, OnOk};
ghost use Rattle.std.specs.List.{All};
ghost use Rattle.jx_base.specs.Sound.{IsSound};
ghost use Rattle.jx_layers.specs.Rule.{Rule, answer};
ghost use Rattle.jx_plan.specs.Layers.{AreJobs, asked_before, layer_in};
ghost use Rattle.jx_plan.specs.Sent.{AreSent, IsJobFrom, answered};
ghost use Rattle.jx_base.specs.Limits.{most_blocks};

use crate::causal::style_for;
use crate::sending::Sending;
use jx_base::{Block, NoMemory, Piece, Style};
use jx_codeblock::Job;
use jx_layers::{LayerPlanner, PassFacts};
use std::alloc::Global;

/// One question: the answer, cut down to the last layer.
fn layer_for(planner: &mut Box<dyn LayerPlanner>, last: u16, pass: &PassFacts) -> u16
    requires begun { IsSome (rule planner.old) }
    requires room { asked planner.old < 2 ^ 64 - 1 }
    ensures answer { IfSome (rule planner.old) (λ r. result ≡ min (answer r (asked planner.old) pass.now) last) }
    ensures asked { asked planner.new ≡ asked planner.old + 1 }
    ensures rule { rule planner.new ≡ rule planner.old }
{
    let layer = planner.layer_of(pass);
    if layer < last { layer } else { last }
}

/// Asks for one pass more.
fn ask_pass(
    planner: &mut Box<dyn LayerPlanner>,
    last: u16,
    pass: &PassFacts,
    sending: &mut Sending,
) -> Result<(), NoMemory>
    requires begun { IsSome (rule planner.old) }
    requires room { asked planner.old < 2 ^ 64 - 1 }
    requires few { sending.old.passes < 65535 }
    ensures passes { OnOk result (sending.new.passes ≡ sending.old.passes + 1) }
    ensures sent { OnOk result (IfSome (rule planner.old) (λ r. (g : ℕ → ℕ) → AreSent g sending.old.passes sending.old.last sending.old.ends
        → min (answer r (asked planner.old) pass.now) last ≡ g sending.old.passes → AreSent g sending.new.passes sending.new.last sending.new.ends)) }
    ensures asked { asked planner.new ≡ asked planner.old + 1 }
    ensures rule { rule planner.new ≡ rule planner.old }
{
    let layer = layer_for(planner, last, pass);
    sending.put(layer)
}

/// Asks for the passes of a piece.
fn ask_piece(
    planner: &mut Box<dyn LayerPlanner>,
    last: u16,
    number: u32,
    block: &Block<'_>,
    piece: &Piece<'_>,
    sending: &mut Sending,
) -> Result<(), NoMemory>
    requires begun { IsSome (rule planner.old) }
    requires room { asked planner.old < 2 ^ 32 }
    requires few { piece.now.first + piece.now.passes ≤ 220 }
    requires begins { piece.now.first ≡ sending.old.passes }
    requires layer { (pass : ℕ) → piece.now.first ≤ pass → pass < piece.now.first + piece.now.passes → layer_in block.now.pieces pass ≡ piece.now.layer }
    ensures passes { OnOk result (sending.new.passes ≡ piece.now.first + piece.now.passes) }
    ensures sent { OnOk result (IfSome (rule planner.old) (λ r. (start : ℕ) → asked planner.old ≡ start + sending.old.passes
        → AreSent (answered r last start number block.now) sending.old.passes sending.old.last sending.old.ends
        → AreSent (answered r last start number block.now) sending.new.passes sending.new.last sending.new.ends)) }
    ensures asked { OnOk result (asked planner.new ≡ asked planner.old + piece.now.passes) }
    ensures most { asked planner.new ≤ asked planner.old + piece.now.passes }
    ensures rule { rule planner.new ≡ rule planner.old }
{
    for pass in piece.first..piece.first + piece.passes {
        let facts = PassFacts {
            block: number,
            pass,
            plane: ((pass + 2) / 3) as u8,
            zero: block.zero,
            layer: piece.layer,
        };
        ask_pass(planner, last, &facts, sending)?;
    }
    Ok(())
}

/// Asks for the passes of a block, and puts them into layers by the answers.
#[tactic(auto)]
fn ask_block<'a>(
    alloc: Global,
    planner: &mut Box<dyn LayerPlanner>,
    last: u16,
    number: u32,
    block: &'a Block<'a>,
    style: Option<Style>,
) -> Result<Job<'a>, NoMemory>
    requires begun { IsSome (rule planner.old) }
    requires room { asked planner.old < 2 ^ 31 }
    requires sound { IsSound block.now }
    ensures job { IfOk result (λ job. IfSome (rule planner.old) (λ r. IsJobFrom style r last (asked planner.old) number block.entry.now job)) }
    ensures asked { OnOk result (asked planner.new ≡ asked planner.old + block.entry.now.passes) }
    ensures most { asked planner.new ≤ asked planner.old + block.entry.now.passes }
    ensures rule { rule planner.new ≡ rule planner.old }
{
    let mut sending = Sending::new(alloc);
    for piece in block.pieces.as_slice() {
        ask_piece(planner, last, number, block, piece, &mut sending)?;
    }
    let ends = sending.finish()?;
    Ok(Job {
        number,
        block,
        style: style_for(style, block),
        ends,
    })
}

/// Asks the planner once for each coding pass of the code-blocks, in their order, and gives what is asked of each block: its
/// passes are sent in the layers that were answered, none in a lower one than the pass before it, and it is coded anew where it has
/// another style than the one that is asked. There are `layers` layers, 1 to 65,535; an answer past the last one means the last.
///
/// The planner has begun and wasn't asked yet. After an `Err` it may have been asked for the first of the passes alone.
#[tactic(auto)]
pub fn ask_jobs<'a>(
    alloc: Global,
    blocks: &'a [Block<'a>],
    layers: u16,
    style: Option<Style>,
    planner: &mut Box<dyn LayerPlanner>,
) -> Result<Vec<Job<'a>>, NoMemory>
    requires begun { IsSome (rule planner.old) }
    requires start { asked planner.old ≡ 0 }
    requires layers { 1 ≤ layers }
    requires few { length blocks.now ≤ most_blocks }
    requires sound { All IsSound blocks.now }
    ensures jobs { IfOk result (λ jobs. IfSome (rule planner.old) (λ r. AreJobs style r layers blocks.entry.now jobs.items)) }
    ensures count { IfOk result (λ jobs. length jobs.items ≡ length blocks.entry.now) }
    ensures asked { OnOk result (asked planner.new ≡ asked_before blocks.entry.now (length blocks.entry.now)) }
    ensures most { asked planner.new ≤ asked_before blocks.entry.now (length blocks.entry.now) }
    ensures rule { rule planner.new ≡ rule planner.old }
{
    let mut jobs = Vec::new(alloc);
    for number in 0..blocks.len() {
        let job = ask_block(
            alloc,
            planner,
            layers - 1,
            number as u32,
            &blocks[number],
            style,
        )?;
        jobs.push(job)?;
    }
    Ok(jobs)
}
