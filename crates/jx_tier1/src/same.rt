//! Two codings of a code-block, compared in one walk.

ghost use Rattle.std.specs.Prelude.{◌≡◌, ◌-◌, ◌*◌, ◌<◌, ◌≤◌, map, IfOk, OnOk};
ghost use Rattle.std.specs.Bool.{Decides};
ghost use Rattle.jx_base.specs.Passes.{is_causal};
ghost use Rattle.jx_tier1_specs.specs.Segments.{bytes_of};
ghost use Rattle.jx_tier1_specs.specs.Reading.{at_start, coding_of, decoded};
ghost use Rattle.jx_tier1_specs.specs.Short.{AreShort};
ghost use Rattle.jx_tier1.specs.Beside.{pair_of};
ghost use Rattle.jx_tier1.specs.Blocks.{blank};

use crate::block::BlockState;
use crate::comparer::Comparer;
use crate::contexts::Tables;
use crate::half::Half;
use jx_base::{NoMemory, Style};
use jx_tier1_specs::Coded;
use std::alloc::Global;

/// Reads the passes of two codings up to the first pass that has a decision which differs.
fn run(
    comparer: &mut Comparer<'_>,
    block: &mut BlockState,
    tables: &Tables,
    coded: &Coded,
    style: Style,
) -> Result<bool, NoMemory>
    requires some { 1 ≤ coded.now.planes }
    requires planes { coded.now.planes ≤ 74 }
    requires passes { coded.now.passes ≤ 3 * coded.now.planes - 2 }
    requires causal { is_causal style.bits ≡ is_causal coded.now.style.bits }
    requires fresh { block.old ≡ blank block.old.width block.old.height }
    requires band { tables.now ≡ coded.now.band }
    requires wide { block.old.width ≤ 1024 }
    requires high { block.old.height ≤ 1024 }
    requires start { comparer.old ≡ pair_of (at_start block.old.width block.old.height comparer.old.one.rest) (at_start block.old.width block.old.height comparer.old.two.rest) }
    ensures { let c = coding_of coded.now.band coded.now.style.bits coded.now.planes in
        let d = coding_of coded.now.band style.bits coded.now.planes in
        IfOk result (λ same. Decides same ((decoded block.old.width block.old.height c comparer.old.one.rest coded.now.passes).cells
        ≡ (decoded block.old.width block.old.height d comparer.old.two.rest coded.now.passes).cells)) }
{
    for pass in 0..coded.passes {
        comparer.pass(
            block,
            tables,
            coded.band,
            coded.style,
            style,
            coded.planes,
            pass,
        )?;
        if !comparer.alike {
            return Ok(false);
        }
    }
    Ok(true)
}

/// Whether two codings of a block of at most 1,024 by 1,024 places decode to the same coefficients
/// (T.800, Annex D): sign, magnitude bits and decoded planes of each. They are of one band and have as
/// many coded planes and passes, and their styles agree on causal contexts; else styles and segments
/// may differ. Each segment has fewer than 2^32 bytes; one that isn't there is taken as one of no
/// bytes. Both are read in step and neither is decoded, up to the end of the first pass in which a
/// decision differs. Segmentation symbols may be wrong.
pub fn same_flags(
    alloc: Global,
    width: u16,
    height: u16,
    a: &Coded,
    b: &Coded,
) -> Result<bool, NoMemory>
    requires wide { width ≤ 1024 }
    requires high { height ≤ 1024 }
    requires some { 1 ≤ a.now.planes }
    requires planes { a.now.planes ≤ 74 }
    requires passes { a.now.passes ≤ 3 * a.now.planes - 2 }
    requires one { AreShort a.now.segments }
    requires two { AreShort b.now.segments }
    requires band { b.now.band ≡ a.now.band }
    requires as_planes { b.now.planes ≡ a.now.planes }
    requires as_passes { b.now.passes ≡ a.now.passes }
    requires causal { is_causal b.now.style.bits ≡ is_causal a.now.style.bits }
    ensures { let c = coding_of a.now.band a.now.style.bits a.now.planes in
        let d = coding_of b.now.band b.now.style.bits b.now.planes in
        IfOk result (λ same. Decides same ((decoded width height c a.now.segments a.now.passes).cells ≡ (decoded width height d b.now.segments b.now.passes).cells)) }
{
    let mut comparer = Comparer {
        one: Half::new(a.segments.as_slice()),
        two: Half::new(b.segments.as_slice()),
        alike: true,
    };
    let tables = Tables::new(a.band);
    let mut block = BlockState::new(alloc, width, height)?;
    run(&mut comparer, &mut block, &tables, a, b.style)
}
