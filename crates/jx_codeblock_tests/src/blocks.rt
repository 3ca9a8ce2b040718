//! Small blocks, the layers that they are sent in, and what becomes of them.

ghost use Rattle.std.specs.Prelude.{◌≡◌, ◌≤◌, ◌-◌, ◌*◌, length, IfOk};
ghost use Rattle.jx_base.specs.Markers.{HasNoMarker};
ghost use Rattle.jx_base.specs.Pieces.{ArePieces, bytes_in};
ghost use Rattle.jx_base.specs.Sound.{IsSound};
ghost use Rattle.jx_codeblock.specs.Jobs.{AreEnds, IsAsked};
ghost use Rattle.jx_base.specs.Limits.{most_bytes};

use jx_base::{Band, Block, BlockName, NoMemory, Piece, Pieces, Rect, Span, Style};
use jx_codeblock::{BlockFault, Ends, Job, LayerEnd, LayerPart, recode};
use jx_store::Claim;
use std::alloc::Global;

/// A block of one place with nine planes.
pub(crate) fn block_of<'a>(style: Style, zero: u8, passes: u16, pieces: Pieces<'a>) -> Block<'a>
    requires zero { zero ≤ 9 }
    requires passes { passes ≤ 3 * (9 - zero) - 2 }
    requires pieces { ArePieces style.bits 0 0 passes pieces }
    requires bytes { bytes_in pieces ≤ most_bytes }
    ensures sound { IsSound result }
    ensures passes { result.passes ≡ passes }
    ensures pieces { result.pieces ≡ pieces.entry }
{
    Block {
        name: BlockName {
            tile: 0,
            comp: 0,
            res: 0,
            band: Band::LL,
            index: 0,
        },
        rect: Rect {
            x: Span { low: 0, high: 1 },
            y: Span { low: 0, high: 1 },
        },
        planes: 9,
        zero,
        passes,
        style,
        pieces,
    }
}

/// One coded plane in one pass.
#[tactic(auto, using(crate::proofs::Samples::one_pass, crate::proofs::Samples::one_bytes))]
pub(crate) fn one_pass<'a>(
    alloc: Global,
    style: Style,
    bytes: &'a [u8],
) -> Result<Block<'a>, NoMemory>
    requires bytes { HasNoMarker 0 bytes.now }
    requires few { length bytes.now ≤ 100 }
    ensures sound { IfOk result (λ b. IsSound b) }
    ensures passes { IfOk result (λ b. b.passes ≡ 1) }
    ensures bytes { IfOk result (λ b. bytes_in b.pieces ≡ length bytes.now) }
{
    let mut pieces = Pieces::new(alloc);
    pieces.push(Piece {
        layer: 0,
        first: 0,
        passes: 1,
        bytes,
    })?;
    Ok(block_of(style, 8, 1, pieces))
}

/// Two coded planes in four passes, which are one segment in one piece of the first layer.
#[tactic(auto, using(crate::proofs::Samples::one_piece, crate::proofs::Samples::one_bytes))]
pub(crate) fn one_piece<'a>(alloc: Global, bytes: &'a [u8]) -> Result<Block<'a>, NoMemory>
    requires bytes { HasNoMarker 0 bytes.now }
    requires few { length bytes.now ≤ 100 }
    ensures sound { IfOk result (λ b. IsSound b) }
    ensures passes { IfOk result (λ b. b.passes ≡ 4) }
{
    let mut pieces = Pieces::new(alloc);
    pieces.push(Piece {
        layer: 0,
        first: 0,
        passes: 4,
        bytes,
    })?;
    Ok(block_of(Style { bits: 0 }, 7, 4, pieces))
}

/// All passes in the first layer.
pub(crate) fn in_one(alloc: Global, passes: u16) -> Result<Ends, NoMemory>
    requires { 1 ≤ passes }
    ensures { IfOk result (λ ends. AreEnds 0 0 passes ends) }
{
    let mut ends = Ends::new(alloc);
    ends.push(LayerEnd { layer: 0, passes })?;
    Ok(ends)
}

/// Some passes in the first layer, all four by a later one.
pub(crate) fn in_two(alloc: Global, passes: u16, layer: u16) -> Result<Ends, NoMemory>
    requires some { 1 ≤ passes }
    requires few { passes ≤ 3 }
    requires later { 1 ≤ layer }
    ensures { IfOk result (λ ends. AreEnds 0 0 4 ends) }
{
    let mut ends = Ends::new(alloc);
    ends.push(LayerEnd { layer: 0, passes })?;
    ends.push(LayerEnd { layer, passes: 4 })?;
    Ok(ends)
}

/// Does a job. It gives the parts, and their bytes one behind another.
pub(crate) fn done(alloc: Global, job: &Job<'_>) -> Result<(Vec<LayerPart>, Vec<u8>), BlockFault>
    requires { IsAsked job.now.block.now job.now.style job.now.ends }
{
    let claim = Claim::issue(job.number, 0);
    let recoded = recode(alloc, &claim, job);
    claim.spend();
    let recoded = recoded?;
    let mut bytes = Vec::new(alloc);
    for part in recoded.parts() {
        recoded.append(part, &mut bytes)?;
    }
    Ok((Vec::from_slice(alloc, recoded.parts())?, bytes))
}

/// Keeps a block in these layers.
pub(crate) fn kept(
    alloc: Global,
    block: &Block<'_>,
    ends: Ends,
) -> Result<(Vec<LayerPart>, Vec<u8>), BlockFault>
    requires sound { IsSound block.now }
    requires ends { AreEnds 0 0 block.now.passes ends }
{
    let job = Job {
        number: 3,
        block,
        style: None,
        ends,
    };
    done(alloc, &job)
}

/// A part.
pub(crate) fn part(layer: u16, first: u16, passes: u16, from: u32, to: u32) -> LayerPart {
    LayerPart {
        layer,
        first,
        passes,
        from,
        to,
    }
}
