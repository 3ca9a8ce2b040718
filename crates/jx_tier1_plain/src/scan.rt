//! A coding pass over a code-block, stripe by stripe (T.800, D.1).

ghost use Rattle.std.specs.Prelude.{◌≡◌, ◌+◌, ◌-◌, ◌*◌, ◌/◌, ◌<◌, ◌≤◌, ℕ, OnOk, true, IsOk};
ghost use Rattle.jx_tier1_specs.specs.Cells.{Cells, HasSize, IsPlace, AreWithin, IsKept};
ghost use Rattle.jx_tier1_specs.specs.Asking.{told};
ghost use Rattle.jx_tier1_specs.specs.Pass.{IsScan, scan_column, scan_row, pass_at, pass_at_nth, plane_of, scanned, pass_of};

use crate::Grid;
use crate::runs::cleanup;
use crate::steps::{refinement, significance};
use jx_base::{Band, NoMemory};
use jx_tier1_specs::{Plane, Source};

/// The column and the row of the place of number `n`, counted from 0, in the order in which coding
/// passes scan a block (T.800 D.1). `n` is below width times height, which are at most 1,024.
#[tactic(auto, unfolding(jx_tier1_specs::specs::Pass::scan_column, jx_tier1_specs::specs::Pass::scan_row), using(jx_tier1_specs::proofs::Scanning::column_inside, jx_tier1_specs::proofs::Scanning::row_inside, jx_tier1_specs::proofs::Scanning::in_stripe))]
pub fn place(width: u16, height: u16, n: u32) -> (u16, u16)
    requires wide { width ≤ 1024 }
    requires high { height ≤ 1024 }
    requires within { n < width * height }
    ensures column { result.0 ≡ scan_column width height n }
    ensures row { result.1 ≡ scan_row width height n }
    ensures in_columns { result.0 < width }
    ensures in_rows { result.1 < height }
{
    let stripe = 4 * u32::from(width);
    let top = n / stripe * 4;
    let rows = 4u32.min(u32::from(height) - top);
    let from = n % stripe;
    ((from / rows) as u16, (top + from % rows) as u16)
}

/// A pass at a place, by its number's kind.
fn pass_at_place<S: Source>(
    source: &mut S,
    grid: &mut Grid,
    plane: Plane,
    pass: u16,
    x: u16,
    y: u16,
) -> Result<(), NoMemory>
    requires scan { IsScan plane }
    requires place { IsPlace grid.old x y }
    requires within { AreWithin plane.planes (plane.number + 1) grid.old }
    ensures grid { OnOk result (grid.new ≡ (told S.ask (pass_at pass plane grid.old x y) source.old).0) }
    ensures source { OnOk result (source.new ≡ (told S.ask (pass_at pass plane grid.old x y) source.old).1) }
    ensures sure { S.is_sure ≡ true → IsOk result }
    ensures kept { IsKept plane.planes (plane.number + 1) grid.old grid.new }
{
    match pass % 3 {
        1 => significance(source, grid, plane, x, y),
        2 => refinement(source, grid, plane, x, y),
        _ => cleanup(source, grid, plane, x, y),
    }
}

/// A pass at the place of a number.
fn pass_at_number<S: Source>(
    source: &mut S,
    grid: &mut Grid,
    plane: Plane,
    pass: u16,
    n: u32,
) -> Result<(), NoMemory>
    requires scan { IsScan plane }
    requires size { HasSize grid.old }
    requires number { n < grid.old.width * grid.old.height }
    requires within { AreWithin plane.planes (plane.number + 1) grid.old }
    ensures grid { OnOk result (grid.new ≡ (told S.ask (pass_at_nth pass plane grid.old n) source.old).0) }
    ensures source { OnOk result (source.new ≡ (told S.ask (pass_at_nth pass plane grid.old n) source.old).1) }
    ensures sure { S.is_sure ≡ true → IsOk result }
    ensures kept { IsKept plane.planes (plane.number + 1) grid.old grid.new }
{
    let (x, y) = place(grid.width(), grid.height(), n);
    pass_at_place(source, grid, plane, pass, x, y)
}

/// A coding pass over a block of at most 1,024 by 1,024 places (T.800 D.3). `planes` is the number
/// of its coded planes, at most 74, and `pass` the number of the pass, one of theirs. The
/// coefficients, of which no plane below the pass's was decided, are as the source's answers make
/// them. After `NoMemory` they and the source are given up.
#[tactic(auto, using(jx_tier1_specs::proofs::Told::scanned_more), unfolding(jx_tier1_specs::specs::Pass::pass_of))]
pub fn run_pass<S: Source>(
    source: &mut S,
    grid: &mut Grid,
    band: Band,
    causal: bool,
    planes: u8,
    pass: u16,
) -> Result<(), NoMemory>
    requires scan { IsScan (plane_of band causal planes pass) }
    requires size { HasSize grid.old }
    requires within { AreWithin planes ((pass + 2) / 3 + 1) grid.old }
    ensures grid { OnOk result (grid.new ≡ (told S.ask (pass_of band causal planes pass grid.old) source.old).0) }
    ensures source { OnOk result (source.new ≡ (told S.ask (pass_of band causal planes pass grid.old) source.old).1) }
    ensures sure { S.is_sure ≡ true → IsOk result }
    ensures kept { IsKept planes ((pass + 2) / 3 + 1) grid.old grid.new }
{
    let plane = Plane {
        band,
        causal,
        planes,
        number: ((pass + 2) / 3) as u8,
    };
    let places = u32::from(grid.width()) * u32::from(grid.height());
    for n in 0..places {
        pass_at_number(source, grid, plane, pass, n)?;
    }
    Ok(())
}
