//! Code-blocks with random passes.

ghost use Rattle.std.specs.Prelude.{◌≡◌, ◌+◌, ◌-◌, ◌*◌, ◌%◌, ◌<◌, ◌≤◌, ◌++◌, ◌^◌, ◌==◌, if◌then◌else◌, ℕ, map, OnOk, IfOk};
ghost use Rattle.std.specs.List.{range_with_len};
ghost use Rattle.jx_generate.specs.Random.{number_at, state_after};
ghost use Rattle.jx_generate.specs.Drawn.{block_drawn, drawn_at, first_pass, lowered, pass_bytes, pass_count, passes_bytes, passes_in, layer_pieces, past_block, past_pass, past_passes, piece_in, stuffed, zero_planes};
ghost use Rattle.jx_base.specs.Joined.{joined};
ghost use Rattle.jx_generate.specs.Values.{drawn_of, drawn_piece};

use crate::random::next;
use jx_base::{NoMemory, ceil_div};
use std::alloc::Global;

/// What a layer has of a block.
#[derive(Drop)]
pub(crate) struct DrawnPiece {
    pub(crate) layer: u16,
    pub(crate) first: u16,
    pub(crate) passes: u16,
    pub(crate) bytes: Vec<u8>,
}

/// A block: its zero planes, and its pieces in the order of layers.
#[derive(Drop)]
pub(crate) struct DrawnBlock {
    pub(crate) zero: u8,
    pub(crate) pieces: Vec<DrawnPiece>,
}

/// A byte behind another one, so that both are no marker.
fn stuffed(before: u8, byte: u8) -> u8
    ensures { result ≡ stuffed before byte }
{
    if before == 255 { byte % 128 } else { byte }
}

/// A byte with which a pass may end.
fn lowered(byte: u8) -> u8
    ensures { result ≡ lowered byte }
{
    if byte == 255 { 254 } else { byte }
}

/// A byte of a pass of which so many more come.
fn ended(byte: u8, left: u32) -> u8
    ensures { result ≡ (if left == 0 then lowered byte else byte) }
{
    if left == 0 { lowered(byte) } else { byte }
}

/// The next byte behind another one.
fn next_byte(state: &mut u64, before: u8) -> u8
    ensures value { result ≡ stuffed before (number_at state.old % 256) }
    ensures state { state.new ≡ state_after state.old }
{
    let byte = (next(state) % 256) as u8;
    stuffed(before, byte)
}

/// Appends the bytes of a pass, at most 23.
fn put_pass(state: &mut u64, out: &mut Vec<u8>) -> Result<(), NoMemory>
    ensures bytes { OnOk result (out.new.items ≡ out.old.items ++ pass_bytes state.old) }
    ensures state { OnOk result (state.new ≡ past_pass state.old) }
{
    let count = next(state) % 24;
    let mut before = 0;
    for number in 0..count {
        before = next_byte(state, before);
        out.push(ended(before, count - number - 1))?;
    }
    Ok(())
}

/// Appends the bytes of so many passes.
fn put_passes(state: &mut u64, count: u16, out: &mut Vec<u8>) -> Result<(), NoMemory>
    ensures bytes { OnOk result (out.new.items ≡ out.old.items ++ passes_bytes state.old count) }
    ensures state { OnOk result (state.new ≡ past_passes state.old count) }
{
    for _ in 0..count {
        put_pass(state, out)?;
    }
    Ok(())
}

/// The first of some passes that lies in a layer of twelve or in a later one.
#[tactic(auto, using(crate::proofs::DrawnLemmas::first_few), unfolding(crate::specs::Drawn::first_pass))]
fn first_pass(passes: u16, layer: u16) -> u16
    requires passes { passes ≤ 37 }
    requires layer { layer ≤ 12 }
    ensures value { result ≡ first_pass passes layer }
    ensures bound { result ≤ 37 }
{
    ceil_div(u64::from(layer) * u64::from(passes), 12) as u16
}

/// What a layer has of a block with so many passes, of which the next is the layer's first.
fn draw_piece(
    alloc: Global,
    state: &mut u64,
    passes: u16,
    layer: u16,
) -> Result<DrawnPiece, NoMemory>
    requires passes { passes ≤ 37 }
    requires layer { layer < 12 }
    ensures piece { (x : ℕ) → state.old ≡ past_passes x (first_pass passes layer) → IfOk result (λ p. drawn_piece p ≡ piece_in x passes layer) }
    ensures state { IfOk result (λ p. state.new ≡ past_passes state.old (passes_in passes layer)) }
{
    let first = first_pass(passes, layer);
    let count = passes_in(passes, layer);
    let mut bytes = Vec::new(alloc);
    put_passes(state, count, &mut bytes)?;
    Ok(DrawnPiece {
        layer,
        first,
        passes: count,
        bytes,
    })
}

/// How many of some passes lie in a layer of twelve.
#[tactic(auto, using(crate::proofs::DrawnLemmas::first_grows), unfolding(crate::specs::Drawn::passes_in))]
fn passes_in(passes: u16, layer: u16) -> u16
    requires passes { passes ≤ 37 }
    requires layer { layer < 12 }
    ensures value { result ≡ passes_in passes layer }
    ensures bound { result ≤ 37 }
{
    first_pass(passes, layer + 1) - first_pass(passes, layer)
}

/// Appends what a layer has of a block, if it has passes.
#[tactic(auto, unfolding(crate::specs::Drawn::layer_pieces))]
fn draw_layer(
    alloc: Global,
    state: &mut u64,
    passes: u16,
    layer: u16,
    pieces: &mut Vec<DrawnPiece>,
) -> Result<(), NoMemory>
    requires passes { passes ≤ 37 }
    requires layer { layer < 12 }
    ensures pieces { (x : ℕ) → state.old ≡ past_passes x (first_pass passes layer)
        → OnOk result (map drawn_piece pieces.new.items ≡ map drawn_piece pieces.old.items ++ layer_pieces x passes layer) }
    ensures state { OnOk result (state.new ≡ past_passes state.old (passes_in passes layer)) }
{
    if passes_in(passes, layer) == 0 {
        return Ok(());
    }
    let piece = draw_piece(alloc, state, passes, layer)?;
    pieces.push(piece)?;
    Ok(())
}

/// The zero planes of a block, out of 13 planes.
#[tactic(auto, unfolding(crate::specs::Drawn::zero_planes))]
fn draw_zero(state: &mut u64) -> u8
    ensures value { result ≡ zero_planes state.old }
    ensures state { state.new ≡ state_after state.old }
    ensures bound { result ≤ 12 }
{
    (next(state) % 13) as u8
}

/// How many passes a block with so many zero planes has, at most 37.
fn draw_count(state: &mut u64, zero: u8) -> u16
    requires { zero ≤ 12 }
    ensures value { result ≡ 1 + number_at state.old % (3 * (13 - zero) - 2) }
    ensures state { state.new ≡ state_after state.old }
    ensures bound { result ≤ 37 }
{
    let most = 3 * (13 - u32::from(zero)) - 2;
    1 + (next(state) % most) as u16
}

/// The next block.
#[tactic(auto, unfolding(crate::specs::Drawn::drawn_at, crate::specs::Drawn::past_block, crate::specs::Drawn::pass_count))]
fn draw_block(alloc: Global, state: &mut u64) -> Result<DrawnBlock, NoMemory>
    ensures block { IfOk result (λ b. drawn_of b ≡ drawn_at state.old) }
    ensures state { IfOk result (λ b. state.new ≡ past_block state.old) }
{
    let zero = draw_zero(state);
    let passes = draw_count(state, zero);
    let pieces = draw_pieces(alloc, state, passes)?;
    Ok(DrawnBlock { zero, pieces })
}

/// The pieces of a block with so many passes.
fn draw_pieces(alloc: Global, state: &mut u64, passes: u16) -> Result<Vec<DrawnPiece>, NoMemory>
    requires { passes ≤ 37 }
    ensures pieces { IfOk result (λ p. map drawn_piece p.items ≡ joined (layer_pieces state.old passes) 0 12) }
    ensures state { IfOk result (λ p. state.new ≡ past_passes state.old passes) }
{
    let mut pieces = Vec::new(alloc);
    for layer in 0..12 {
        draw_layer(alloc, state, passes, layer, &mut pieces)?;
    }
    Ok(pieces)
}

/// The blocks of a seed, so many of them.
pub(crate) fn draw_blocks(alloc: Global, seed: u64, count: u32) -> Result<Vec<DrawnBlock>, NoMemory>
    ensures { IfOk result (λ blocks. map drawn_of blocks.items ≡ map (block_drawn seed) (range_with_len 0 count)) }
{
    let mut state = seed;
    let mut blocks = Vec::new(alloc);
    for _ in 0..count {
        let block = draw_block(alloc, &mut state)?;
        blocks.push(block)?;
    }
    Ok(blocks)
}
