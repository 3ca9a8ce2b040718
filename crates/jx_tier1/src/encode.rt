//! A code-block coded.

ghost use Rattle.std.specs.Prelude.{◌≡◌, ◌+◌, ◌-◌, ◌*◌, ◌++◌, [], ◌<◌, ◌≤◌, ℕ, map, IfOk, OnOk};
ghost use Rattle.jx_coder_specs.specs.MqTable.{mq_fresh};
ghost use Rattle.jx_base.specs.Passes.{raw_pass};
ghost use Rattle.jx_tier1_specs.specs.Cells.{Cells, HasSize};
ghost use Rattle.jx_tier1_specs.specs.Reading.{coding_of, zeros};
ghost use Rattle.jx_tier1_specs.specs.Needs.{needs_from, written};
ghost use Rattle.jx_tier1.specs.InStep.{no_grid};
ghost use Rattle.jx_tier1.specs.Blocks.{BlockWords, blank};
ghost use Rattle.jx_tier1_specs.specs.Writing.{fresh_writing, finished_from};
ghost use Rattle.jx_tier1_specs.specs.Encoding.{Encoding};

use crate::FlagGrid;
use crate::block::BlockState;
use crate::contexts::Tables;
use crate::encoder::Encoder;
use crate::writer::Writer;
use jx_base::{Band, NoMemory, Style, is_raw};
use std::alloc::Global;

/// A block of which no pass was coded.
fn start<'a>(alloc: Global, grid: &'a FlagGrid, style: Style) -> Result<Encoder<'a>, NoMemory>
    ensures { IfOk result (λ e. e ≡ record {
      cells = no_grid;
      writing = fresh_writing grid.entry.now (raw_pass style.bits 0) mq_fresh;
      done = [];
    }) }
{
    Ok(Encoder {
        writer: Writer::new(alloc, grid, is_raw(style, 0))?,
        segments: Vec::new(alloc),
    })
}

/// The segments of a block whose passes were coded.
fn end(encoder: Encoder) -> Vec<Vec<u8>>
    ensures { map (λ s. s.items) result.items ≡ encoder.entry.done }
{
    encoder.segments
}

/// Codes the passes of a block.
fn run<'a>(
    encoder: &mut Encoder<'a>,
    block: &mut BlockState,
    alloc: Global,
    tables: &Tables,
    band: Band,
    style: Style,
    planes: u8,
    passes: u16,
) -> Result<(), NoMemory>
    requires some { 1 ≤ planes }
    requires planes { planes ≤ 74 }
    requires passes { passes ≤ 3 * planes - 2 }
    requires fresh { block.old ≡ blank block.old.width block.old.height }
    requires band { tables.now ≡ band }
    requires wide { block.old.width ≤ 1024 }
    requires high { block.old.height ≤ 1024 }
    requires kind { encoder.old.writing.raw ≡ raw_pass style.bits 0 }
    ensures { OnOk result (encoder.new.done ≡ encoder.old.done ++ finished_from style.bits 0 encoder.old.writing
        (needs_from (coding_of band style.bits planes) encoder.old.writing.target passes 0 (zeros block.old.width block.old.height))) }
{
    for pass in 0..passes {
        encoder.pass(
            alloc,
            block,
            tables,
            band,
            style,
            planes,
            pass,
            pass + 1 == passes,
        )?;
    }
    Ok(())
}

/// The same with tables and words of a block that it makes.
fn run_block<'a>(
    encoder: &mut Encoder<'a>,
    alloc: Global,
    width: u16,
    height: u16,
    band: Band,
    style: Style,
    planes: u8,
    passes: u16,
) -> Result<(), NoMemory>
    requires some { 1 ≤ planes }
    requires planes { planes ≤ 74 }
    requires passes { passes ≤ 3 * planes - 2 }
    requires wide { width ≤ 1024 }
    requires high { height ≤ 1024 }
    requires kind { encoder.old.writing.raw ≡ raw_pass style.bits 0 }
    ensures { OnOk result (encoder.new.done ≡ encoder.old.done ++ finished_from style.bits 0 encoder.old.writing
        (needs_from (coding_of band style.bits planes) encoder.old.writing.target passes 0 (zeros width height))) }
{
    let tables = Tables::new(band);
    let mut block = BlockState::new(alloc, width, height)?;
    run(
        encoder, &mut block, alloc, &tables, band, style, planes, passes,
    )
}

/// The segments of a block's passes that make the coefficients of a grid, of at most 1,024 by 1,024
/// places (T.800, Annex D). `planes` is the number of coded planes, 1 to 74, and there are at most
/// 3·planes − 2 passes. The segments are those of the decisions that the grid calls for; the grid is
/// one that such passes decode to where it fits them.
pub fn encode_flags(
    alloc: Global,
    grid: &FlagGrid,
    band: Band,
    style: Style,
    planes: u8,
    passes: u16,
) -> Result<Vec<Vec<u8>>, NoMemory>
    requires some { 1 ≤ planes }
    requires planes { planes ≤ 74 }
    requires passes { passes ≤ 3 * planes - 2 }
    requires size { HasSize grid.now }
    ensures { IfOk result (λ segments. map (λ s. s.items) segments.items ≡ written (coding_of band style.bits planes) grid.now passes) }
{
    let mut encoder = start(alloc, grid, style)?;
    let result = run_block(
        &mut encoder,
        alloc,
        grid.width(),
        grid.height(),
        band,
        style,
        planes,
        passes,
    );
    let segments = end(encoder);
    result?;
    Ok(segments)
}
