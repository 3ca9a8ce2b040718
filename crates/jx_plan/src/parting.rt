//! How many tile-parts the tiles would have (ITU-T T.800, A.4.2).

ghost use Rattle.std.specs.Prelude.{◌≡◌, ◌<◌, ◌-◌, ℕ, None, IfOk, IfSome, MatchResult};
ghost use Rattle.jx_codestream.specs.First.{tile_number};
ghost use Rattle.jx_codestream.specs.InRange.{StreamInRange};
ghost use Rattle.jx_tile.specs.Covered.{IsWhole};
ghost use Rattle.jx_tile.specs.Totals.{totals_fault};
ghost use Rattle.jx_tile_parts.specs.Groups.{IsPartCount, IsPartedAt};
ghost use Rattle.jx_plan.specs.Steps.{AreAllParts};

use jx_base::NoMemory;
use jx_codestream::{MainView, Stream};
use jx_options::PartChoice;
use jx_tile::TileFrame;
use jx_tile_parts::count_parts;
use std::alloc::Global;

/// How many tile-parts a tile would have.
fn part_count(
    alloc: Global,
    written: &Stream,
    main: &MainView<'_>,
    tile: u16,
    parts: PartChoice,
) -> Result<usize, NoMemory>
    requires main { main.now ≡ record { siz = written.now.siz; main = written.now.main } }
    requires range { StreamInRange written.now }
    requires totals { totals_fault written.now ≡ None }
    requires tile { tile < tile_number written.now.siz }
    requires whole { IsWhole written.now tile }
    ensures { IfOk result (λ count. IsPartCount parts written.now tile count) }
{
    let frame = TileFrame::new(alloc, written, main, tile)?;
    let names = match frame.names(alloc) {
        Ok(names) => names,
        // No packet is uncovered, so memory was refused.
        Err(_) => return Err(NoMemory),
    };
    Ok(count_parts(names.as_slice(), parts))
}

/// All tile-parts where nothing is asked: one of each tile.
#[tactic(auto, using(crate::proofs::PartedLemmas::undivided_by))]
fn undivided(written: &Stream, parts: PartChoice) -> Option<usize>
    requires { StreamInRange written.now }
    ensures { IfSome result (λ all. AreAllParts parts written.now all) }
{
    match parts {
        PartChoice::None => Some(usize::from(written.tile_count())),
        _ => None,
    }
}

/// How many tile-parts written headers would have in all; or else the lowest tile that would have over 255.
///
/// # Errors
///
/// `NoMemory` where memory is refused.
pub(crate) fn all_parts(
    alloc: Global,
    written: &Stream,
    parts: PartChoice,
) -> Result<Result<usize, u16>, NoMemory>
    requires range { StreamInRange written.now }
    requires totals { totals_fault written.now ≡ None }
    requires whole { (t : ℕ) → t < tile_number written.now.siz → IsWhole written.now t }
    ensures { IfOk result (λ r. MatchResult r (λ all. AreAllParts parts written.now all) (λ t. IsPartedAt parts written.now t)) }
{
    if let Some(all) = undivided(written, parts) {
        return Ok(Ok(all));
    }
    let main = written.main_view(alloc)?;
    let mut all = 0;
    for tile in 0..written.tile_count() {
        let count = part_count(alloc, written, &main, tile, parts)?;
        if count > 255 {
            return Ok(Err(tile));
        }
        all += count;
    }
    Ok(Ok(all))
}
