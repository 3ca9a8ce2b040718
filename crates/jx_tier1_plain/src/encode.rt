//! A code-block coded by the plain form of the coding passes.

ghost use Rattle.std.specs.Prelude.{◌≡◌, ◌+◌, ◌-◌, ◌*◌, ◌++◌, ◌<◌, ◌≤◌, ℕ, map, IfOk, OnOk};
ghost use Rattle.jx_base.specs.Passes.{raw_pass};
ghost use Rattle.jx_tier1_specs.specs.Cells.{Cells, HasSize, AreWithin};
ghost use Rattle.jx_tier1_specs.specs.Reading.{coding_of};
ghost use Rattle.jx_tier1_specs.specs.Needs.{needs_from, written};
ghost use Rattle.jx_tier1_specs.specs.Writing.{finished_from};
ghost use Rattle.jx_tier1_specs.specs.Encoding.{Encoding};

use crate::Grid;
use crate::encoder::Encoder;
use crate::writer::Writer;
use jx_base::{Band, NoMemory, Style, is_raw};
use std::alloc::Global;

/// Codes the passes of a block.
#[tactic(auto, using(jx_tier1_specs::proofs::WroteLemmas::step_more, jx_tier1_specs::proofs::WroteLemmas::step_end, jx_tier1_specs::proofs::WroteLemmas::step_kind, jx_tier1_specs::proofs::WroteLemmas::step_target, jx_tier1_specs::proofs::Places::within_more))]
fn run<'a>(
    encoder: &mut Encoder<'a>,
    alloc: Global,
    band: Band,
    style: Style,
    planes: u8,
    passes: u16,
) -> Result<(), NoMemory>
    requires some { 1 ≤ planes }
    requires planes { planes ≤ 74 }
    requires passes { passes ≤ 3 * planes - 2 }
    requires size { HasSize encoder.old.cells }
    requires within { AreWithin planes 1 encoder.old.cells }
    requires kind { encoder.old.writing.raw ≡ raw_pass style.bits 0 }
    ensures { OnOk result (encoder.new.done ≡ encoder.old.done ++ finished_from style.bits 0 encoder.old.writing
        (needs_from (coding_of band style.bits planes) encoder.old.writing.target passes 0 encoder.old.cells)) }
{
    for pass in 0..passes {
        encoder.pass(alloc, band, style, planes, pass, pass + 1 == passes)?;
    }
    Ok(())
}

/// The segments of a block's passes that make the coefficients of a grid, of at most 1,024 by 1,024
/// places (T.800, Annex D). `planes` is the number of coded planes, 1 to 74, and there are at most
/// 3·planes − 2 passes. The segments are those of the decisions that the grid calls for; the grid is
/// one that such passes decode to where it fits them.
#[tactic(auto, using(jx_tier1_specs::proofs::SegmentLemmas::segments_finished, jx_tier1_specs::proofs::Places::zeros_within))]
pub fn encode_passes(
    alloc: Global,
    grid: &Grid,
    band: Band,
    style: Style,
    planes: u8,
    passes: u16,
) -> Result<Vec<Vec<u8>>, NoMemory>
    requires some { 1 ≤ planes }
    requires planes { planes ≤ 74 }
    requires passes { passes ≤ 3 * planes - 2 }
    requires size { HasSize grid.now }
    ensures { IfOk result (λ segments. map (λ s. s.items) segments.items ≡ written (coding_of band style.bits planes) grid.now passes) }
{
    let mut encoder = Encoder {
        grid: Grid::new(alloc, grid.width(), grid.height())?,
        writer: Writer::new(alloc, grid, is_raw(style, 0)),
        segments: Vec::new(alloc),
    };
    run(&mut encoder, alloc, band, style, planes, passes)?;
    let Encoder { segments, .. } = encoder;
    Ok(segments)
}
