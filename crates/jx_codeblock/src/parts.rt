//! The parts of the layers.

ghost use Rattle.std.specs.Prelude.{◌≡◌, ◌≤◌, ◌<◌, ◌+◌, ◌-◌, ◌^◌, ◌++◌, ◌∷◌, OnOk, IfOk};
ghost use Rattle.jx_packet_header.specs.Parts.{cut};
ghost use Rattle.jx_codeblock.specs.Recoding.{layer_parts, layer_parts_after};
ghost use Rattle.jx_codeblock.specs.Tables.{at_place};

use crate::sent::number_at;
use crate::{LayerEnd, LayerPart};
use jx_base::{NoMemory, Style, ends_segment};
use std::alloc::Global;

/// How many of `left` passes, from `first` on, lie in the first's segment.
fn first_run(style: Style, first: u16, left: u16) -> u16
    requires some { 1 ≤ left }
    requires few { first + left < 2 ^ 16 }
    ensures some { 1 ≤ result }
    ensures within { result ≤ left }
    ensures cut { cut style.bits first left ≡ result ∷ cut style.bits (first + result) (left - result) }
{
    if left == 1 || ends_segment(style, first) {
        return 1;
    }
    1 + first_run(style, first + 1, left - 1)
}

/// The part of a layer that has some passes, over a table of how many bytes are sent.
fn part_of(layer: u16, first: u16, passes: u16, table: &[u32]) -> LayerPart
    requires { first + passes < 2 ^ 16 }
    ensures { result ≡ record { layer = layer; first = first; passes = passes; from = at_place table.now first; to = at_place table.now (first + passes) } }
{
    LayerPart {
        layer,
        first,
        passes,
        from: number_at(table, usize::from(first)),
        to: number_at(table, usize::from(first + passes)),
    }
}

/// Appends the parts of a layer, which has `count` passes from `first` on.
fn push_layer(
    style: Style,
    layer: u16,
    first: u16,
    count: u16,
    table: &[u32],
    parts: &mut Vec<LayerPart>,
) -> Result<(), NoMemory>
    requires { first + count < 2 ^ 16 }
    ensures { OnOk result (parts.new.items ≡ parts.old.items ++ layer_parts (at_place table.now) layer first (cut style.bits first count)) }
{
    let mut at = first;
    let mut left = count;
    while left > 0 {
        let passes = first_run(style, at, left);
        parts.push(part_of(layer, at, passes, table))?;
        at += passes;
        left -= passes;
    }
    Ok(())
}

/// Appends the parts of a layer, before which `first` passes were sent.
fn push_end(
    style: Style,
    end: LayerEnd,
    first: u16,
    table: &[u32],
    parts: &mut Vec<LayerPart>,
) -> Result<(), NoMemory>
    ensures { OnOk result (parts.new.items ≡ parts.old.items ++ layer_parts (at_place table.now) end.layer first (cut style.bits first (end.passes - first))) }
{
    let count = end.passes.saturating_sub(first);
    push_layer(style, end.layer, first, count, table, parts)
}

/// The parts of all layers.
pub(crate) fn all_parts(
    alloc: Global,
    style: Style,
    ends: &[LayerEnd],
    table: &[u32],
) -> Result<Vec<LayerPart>, NoMemory>
    ensures { IfOk result (λ parts. parts.items ≡ layer_parts_after style.bits (at_place table.now) 0 ends.now) }
{
    let mut parts = Vec::new(alloc);
    let mut first = 0;
    for end in ends {
        push_end(style, *end, first, table, &mut parts)?;
        first = end.passes;
    }
    // They are kept until the block is written.
    parts.shrink_to_fit();
    Ok(parts)
}
