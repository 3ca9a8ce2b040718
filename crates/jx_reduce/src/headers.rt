//! The headers that are left (ITU-T T.800, A.5.1, A.6.1 and A.6.2).

ghost use Rattle.std.specs.Prelude.{◌≡◌, ◌≤◌, ◌*◌, ◌^◌, false, IfOk, map};
ghost use Rattle.std.specs.List.{All};
ghost use Rattle.jx_marker.specs.declared.CompSize.{CompSize};
ghost use Rattle.jx_reduce.specs.Reduction.{cod_left, segment_left, shape_left, siz_left, size_left, stream_left, tile_left};
ghost use Rattle.jx_reduce.specs.Unreducible.{passes_byte};

use crate::choices::times;
use jx_base::NoMemory;
use jx_codestream::{Bodies, Heads, Segments, Stream, Tile, Tiles};
use jx_marker::{Bytes, Cod, CompSize, CompSizes, Segment, Shape, Siz};
use std::alloc::Global;

/// A subsampling factor, which one byte holds.
fn factor_left(factor: u8, d: u8) -> u8
    requires some { d ≤ 32 }
    requires holds { factor * 2 ^ d ≤ 255 }
    ensures { result ≡ factor * 2 ^ d }
{
    (u64::from(factor) * times(d)) as u8
}

/// A component's depth and subsampling.
fn size_left(size: CompSize, d: u8) -> CompSize
    requires some { d ≤ 32 }
    requires holds { passes_byte d size ≡ false }
    ensures { result ≡ size_left d size }
{
    CompSize {
        ssiz: size.ssiz,
        dx: factor_left(size.dx, d),
        dy: factor_left(size.dy, d),
    }
}

fn sizes_left(alloc: Global, sizes: &[CompSize], d: u8) -> Result<CompSizes, NoMemory>
    requires some { d ≤ 32 }
    requires hold { All (λ (size : CompSize). passes_byte d size ≡ false) sizes.now }
    ensures { IfOk result (λ left. left ≡ map (size_left d) sizes.now) }
{
    let mut left = Vec::new(alloc);
    for size in sizes {
        left.push(size_left(*size, d))?;
    }
    Ok(CompSizes::new(left))
}

fn siz_left(alloc: Global, siz: &Siz, d: u8) -> Result<Siz, NoMemory>
    requires some { d ≤ 32 }
    requires hold { All (λ (size : CompSize). passes_byte d size ≡ false) siz.now.comps }
    ensures { IfOk result (λ left. left ≡ siz_left d siz.now) }
{
    let comps = sizes_left(alloc, siz.comps.as_slice(), d)?;
    Ok(Siz {
        rsiz: siz.rsiz,
        x1: siz.x1,
        y1: siz.y1,
        x0: siz.x0,
        y0: siz.y0,
        tw: siz.tw,
        th: siz.th,
        tx: siz.tx,
        ty: siz.ty,
        comps,
    })
}

/// A shape with `d` levels fewer, and the precincts of the resolutions that are left.
fn shape_left(shape: &Shape, d: u8) -> Result<Shape, NoMemory>
    ensures { IfOk result (λ left. left ≡ shape_left d shape.now) }
{
    let levels = shape.levels.saturating_sub(d);
    let mut precincts = shape.precincts.copy()?.into_vec();
    precincts.truncate(usize::from(levels) + 1);
    Ok(Shape {
        levels,
        xcb: shape.xcb,
        ycb: shape.ycb,
        style: shape.style,
        wavelet: shape.wavelet,
        precincts: Bytes::new(precincts),
    })
}

fn cod_left(cod: &Cod, d: u8) -> Result<Cod, NoMemory>
    ensures { IfOk result (λ left. left ≡ cod_left d cod.now) }
{
    let shape = shape_left(&cod.shape, d)?;
    Ok(Cod {
        sop: cod.sop,
        eph: cod.eph,
        order: cod.order,
        layers: cod.layers,
        transform: cod.transform,
        shape,
    })
}

fn segment_left(segment: &Segment, d: u8) -> Result<Segment, NoMemory>
    ensures { IfOk result (λ left. left ≡ segment_left d segment.now) }
{
    match segment {
        Segment::Cod(cod) => Ok(Segment::Cod(cod_left(cod, d)?)),
        Segment::Coc { comp, shape } => Ok(Segment::Coc {
            comp: *comp,
            shape: shape_left(shape, d)?,
        }),
        _ => segment.copy(),
    }
}

fn segments_left(alloc: Global, segments: &[Segment], d: u8) -> Result<Segments, NoMemory>
    ensures { IfOk result (λ left. left ≡ map (segment_left d) segments.now) }
{
    let mut left = Vec::new(alloc);
    for segment in segments {
        let copy = segment_left(segment, d)?;
        left.push(copy)?;
    }
    Ok(Segments::new(left))
}

/// The segments as they are.
fn copies_of(alloc: Global, segments: &[Segment]) -> Result<Segments, NoMemory>
    ensures { IfOk result (λ copies. copies ≡ segments.now) }
{
    let mut copies = Vec::new(alloc);
    for segment in segments {
        let copy = segment.copy()?;
        copies.push(copy)?;
    }
    Ok(Segments::new(copies))
}

/// The same packed packet headers.
fn heads_of(alloc: Global, heads: &Heads) -> Result<Heads, NoMemory>
    ensures { IfOk result (λ copy. copy ≡ heads.now) }
{
    let Some(pieces) = heads.pieces() else {
        return Ok(Heads::none());
    };
    let copy = pieces.to_vec(alloc)?;
    Ok(Heads::new(copy))
}

fn tile_left(alloc: Global, tile: &Tile, d: u8) -> Result<Tile, NoMemory>
    ensures { IfOk result (λ left. left ≡ tile_left d tile.now) }
{
    let header = segments_left(alloc, tile.header.as_slice(), d)?;
    let notes = copies_of(alloc, tile.notes.as_slice())?;
    let progressions = tile.progressions.share()?;
    let heads = heads_of(alloc, &tile.heads)?;
    let bodies = tile.bodies.as_slice().to_vec(alloc)?;
    Ok(Tile {
        place: tile.place,
        header,
        notes,
        has_plt: tile.has_plt,
        progressions,
        heads,
        bodies: Bodies::new(bodies),
    })
}

fn tiles_left(alloc: Global, tiles: &[Tile], d: u8) -> Result<Tiles, NoMemory>
    ensures { IfOk result (λ left. left ≡ map (tile_left d) tiles.now) }
{
    let mut left = Vec::new(alloc);
    for tile in tiles {
        let copy = tile_left(alloc, tile, d)?;
        left.push(copy)?;
    }
    Ok(Tiles::new(left))
}

/// The headers of a stream without `d` resolutions, where no factor passes 255. Where tile data and packed packet
/// headers stand stays as it is. Time and memory follow the bytes of the headers and the number of tiles, tile-parts
/// and pieces of packed headers.
///
/// # Errors
///
/// `NoMemory` where memory is refused.
#[tactic(auto, unfolding(crate::specs::Reduction::stream_left))]
pub(crate) fn headers_left(alloc: Global, stream: &Stream, d: u8) -> Result<Stream, NoMemory>
    requires some { d ≤ 32 }
    requires hold { All (λ (size : CompSize). passes_byte d size ≡ false) stream.now.siz.comps }
    ensures { IfOk result (λ left. left ≡ stream_left d stream.now) }
{
    let siz = siz_left(alloc, &stream.siz, d)?;
    let main = segments_left(alloc, stream.main.as_slice(), d)?;
    let tiles = tiles_left(alloc, stream.tiles.as_slice(), d)?;
    Ok(Stream { siz, main, tiles })
}
