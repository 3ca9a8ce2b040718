//! The headers of the file that is written (ITU-T T.800, A.4 to A.9).

ghost use Rattle.std.specs.Prelude.{◌≡◌, ◌++◌, ◌+◌, ◌<◌, IfOk, OnOk, length, map};
ghost use Rattle.std.specs.List.{range_with_len};
ghost use Rattle.jx_plan.specs.Changes.{keeps_changes, main_order};
ghost use Rattle.jx_plan.specs.Headers.{all_written, bytes_for, cod_written, is_written, item_at, main_written, order_written, precincts_written, rsiz_written, shape_written, stream_written, style_written, tile_header, tile_written, with_layers, written};
ghost use Rattle.jx_options.specs.Choices.{lent};

use crate::changes::{MainOrder, coding_end, push_volumes};
use crate::own_entries::{poc_kept, tile_entries, with_entries};
use jx_base::{NoMemory, Style};
use jx_codestream::{Bodies, Heads, Segments, Stream, Tile, Tiles};
use jx_marker::{Bytes, Cod, Segment, Shape, Siz};
use jx_options::{Options, PocChoice, RsizChoice};
use std::alloc::Global;

/// The progression changes of the input are kept.
fn keeps_changes(options: &Options) -> bool
    ensures { result ≡ keeps_changes options.now.changes }
{
    matches!(options.poc, PocChoice::Keep)
}

/// The segment is written: packet and tile-part lengths, packed packet headers and skipped markers aren't, nor is POC
/// where the input's isn't kept.
fn is_written(segment: &Segment, options: &Options) -> bool
    ensures { result ≡ is_written options.now.changes segment.now }
{
    match segment {
        Segment::Poc(_) => keeps_changes(options),
        Segment::Plt(_)
        | Segment::Plm(_)
        | Segment::Tlm(_)
        | Segment::Ppm { .. }
        | Segment::Ppt { .. }
        | Segment::Skipped(_) => false,
        _ => true,
    }
}

/// The byte of a resolution, of which the last stands for all above.
fn item_at(items: &[u8], res: usize) -> u8
    requires { 0 < length items.now }
    ensures { result ≡ item_at items.now res }
{
    items[res.min(items.len() - 1)]
}

/// A byte for each resolution.
#[tactic(auto, using(crate::proofs::WrittenLemmas::bytes_next))]
fn each_byte(alloc: Global, items: &[u8], levels: u8) -> Result<Vec<u8>, NoMemory>
    requires { 0 < length items.now }
    ensures { IfOk result (λ bytes. bytes.items ≡ map (item_at items.now) (range_with_len 0 (levels + 1))) }
{
    let mut bytes = Vec::new(alloc);
    for res in 0..usize::from(levels) + 1 {
        bytes.push(item_at(items, res))?;
    }
    Ok(bytes)
}

/// The bytes of a shape with so many levels: none where every exponent is 15 (Table A.15).
fn bytes_for(alloc: Global, items: &[u8], levels: u8) -> Result<Bytes, NoMemory>
    ensures { IfOk result (λ bytes. bytes ≡ bytes_for items.now levels) }
{
    if items.is_empty() {
        return Ok(Bytes::new(Vec::new(alloc)));
    }
    let bytes = each_byte(alloc, items, levels)?;
    Ok(Bytes::new(bytes))
}

/// The precincts of a shape, with those that are asked, if any are.
fn copy_precincts(alloc: Global, shape: &Shape, asked: Option<&[u8]>) -> Result<Bytes, NoMemory>
    ensures { IfOk result (λ bytes. bytes ≡ precincts_written (lent asked.entry) shape.now) }
{
    match asked {
        Some(items) => bytes_for(alloc, items, shape.levels),
        None => shape.precincts.copy(),
    }
}

/// The style that is asked, else the one that is there.
fn style_for(asked: Option<Style>, bits: u8) -> Style
    ensures { result ≡ style_written asked (record { bits = bits }) }
{
    match asked {
        Some(style) => style,
        None => Style { bits },
    }
}

/// A shape with the precincts and the style that are asked.
fn copy_shape(alloc: Global, shape: &Shape, options: &Options) -> Result<Shape, NoMemory>
    ensures { IfOk result (λ copy. copy ≡ shape_written options.now.precincts options.now.style shape.now) }
{
    let precincts = copy_precincts(alloc, shape, options.precincts.bytes())?;
    Ok(Shape {
        levels: shape.levels,
        xcb: shape.xcb,
        ycb: shape.ycb,
        style: style_for(options.style, shape.style).bits,
        wavelet: shape.wavelet,
        precincts,
    })
}

/// The order that is asked, else the one that is there.
fn order_for(asked: Option<u8>, order: u8) -> u8
    ensures { result ≡ order_written asked order }
{
    match asked {
        Some(new) => new,
        None => order,
    }
}

/// COD with its marks, order, layers, precincts and style as asked.
fn copy_cod(alloc: Global, cod: &Cod, options: &Options, layers: u16) -> Result<Cod, NoMemory>
    ensures { IfOk result (λ copy. copy ≡ cod_written (with_layers options.now layers) cod.now) }
{
    let shape = copy_shape(alloc, &cod.shape, options)?;
    Ok(Cod {
        sop: options.marks.sop,
        eph: options.marks.eph,
        order: order_for(options.order.number(), cod.order),
        layers,
        transform: cod.transform,
        shape,
    })
}

/// The segment as it is written.
fn copy_segment(
    alloc: Global,
    segment: &Segment,
    options: &Options,
    layers: u16,
) -> Result<Segment, NoMemory>
    ensures { IfOk result (λ copy. copy ≡ written (with_layers options.now layers) segment.now) }
{
    match segment {
        Segment::Cod(cod) => Ok(Segment::Cod(copy_cod(alloc, cod, options, layers)?)),
        Segment::Coc { comp, shape } => Ok(Segment::Coc {
            comp: *comp,
            shape: copy_shape(alloc, shape, options)?,
        }),
        Segment::Poc(entries) => poc_kept(alloc, entries),
        _ => segment.copy(),
    }
}

/// Appends those of the segments that are written.
fn push_written(
    alloc: Global,
    segments: &[Segment],
    options: &Options,
    layers: u16,
    into: &mut Vec<Segment>,
) -> Result<(), NoMemory>
    ensures { OnOk result (into.new.items
        ≡ into.old.items ++ all_written (with_layers options.now layers) segments.now) }
{
    for segment in segments {
        if is_written(segment, options) {
            let copy = copy_segment(alloc, segment, options, layers)?;
            into.push(copy)?;
        }
    }
    Ok(())
}

/// Appends the segments as they are.
fn push_copies(segments: &[Segment], into: &mut Vec<Segment>) -> Result<(), NoMemory>
    ensures { OnOk result (into.new.items ≡ into.old.items ++ segments.now) }
{
    for segment in segments {
        let copy = segment.copy()?;
        into.push(copy)?;
    }
    Ok(())
}

/// The main header, with the volumes that are asked behind its last COD or COC.
fn write_main(
    alloc: Global,
    main: &[Segment],
    comps: u16,
    options: &Options,
    layers: u16,
) -> Result<Vec<Segment>, NoMemory>
    ensures { IfOk result (λ list. list.items ≡ main_written (with_layers options.now layers) comps main.now) }
{
    let (front, back) = main.split_at(coding_end(main));
    let mut list = Vec::new(alloc);
    push_written(alloc, front, options, layers, &mut list)?;
    push_volumes(alloc, comps, &options.poc, &mut list)?;
    push_written(alloc, back, options, layers, &mut list)?;
    Ok(list)
}

/// The header of a tile's first tile-part: with its own entries where they are kept, and the COM segments of all its
/// headers.
fn write_header(
    alloc: Global,
    tile: &Tile,
    comps: u16,
    options: &Options,
    layers: u16,
    read: &MainOrder,
) -> Result<Vec<Segment>, NoMemory>
    ensures { IfOk result (λ list. list.items ≡ tile_header (with_layers options.now layers) comps read.now tile.now) }
{
    let mut own = Vec::new(alloc);
    push_written(alloc, tile.header.as_slice(), options, layers, &mut own)?;
    let entries = tile_entries(alloc, comps, &options.poc, read, tile)?;
    let mut header = with_entries(alloc, own, entries)?;
    push_copies(tile.notes.as_slice(), &mut header)?;
    Ok(header)
}

/// A tile without tile data, its COM segments in one header.
fn write_tile(
    alloc: Global,
    tile: &Tile,
    comps: u16,
    options: &Options,
    layers: u16,
    read: &MainOrder,
    written: &MainOrder,
) -> Result<Tile, NoMemory>
    ensures { IfOk result (λ copy. copy
        ≡ tile_written (with_layers options.now layers) comps read.now written.now tile.now) }
{
    let header = write_header(alloc, tile, comps, options, layers, read)?;
    let progressions = written.entries_by(alloc, &header)?;
    Ok(Tile {
        place: 0,
        header: Segments::new(header),
        notes: Segments::new(Vec::new(alloc)),
        has_plt: false,
        progressions,
        heads: Heads::none(),
        bodies: Bodies::new(Vec::new(alloc)),
    })
}

fn write_tiles(
    alloc: Global,
    tiles: &[Tile],
    comps: u16,
    options: &Options,
    layers: u16,
    read: &MainOrder,
    written: &MainOrder,
) -> Result<Vec<Tile>, NoMemory>
    ensures { IfOk result (λ copies. copies.items
        ≡ map (tile_written (with_layers options.now layers) comps read.now written.now) tiles.now) }
{
    let mut copies = Vec::new(alloc);
    for tile in tiles {
        let copy = write_tile(alloc, tile, comps, options, layers, read, written)?;
        copies.push(copy)?;
    }
    Ok(copies)
}

/// The tiles of a stream under a main header that is written.
fn tiles_under(
    alloc: Global,
    stream: &Stream,
    main: &[Segment],
    comps: u16,
    options: &Options,
    layers: u16,
) -> Result<Vec<Tile>, NoMemory>
    ensures { IfOk result (λ copies. copies.items
        ≡ map (tile_written (with_layers options.now layers) comps (main_order stream.now.main) (main_order main.now))
        stream.now.tiles) }
{
    let read = MainOrder::new(alloc, stream.main.as_slice())?;
    let written = MainOrder::new(alloc, main)?;
    write_tiles(
        alloc,
        stream.tiles.as_slice(),
        comps,
        options,
        layers,
        &read,
        &written,
    )
}

/// The profile that is claimed: none, or the input's.
fn rsiz_for(asked: RsizChoice, rsiz: u16) -> u16
    ensures { result ≡ rsiz_written asked rsiz }
{
    match asked {
        RsizChoice::Zero => 0,
        RsizChoice::Keep => rsiz,
    }
}

/// SIZ with the profile that is claimed: a file that is packed anew may leave the one that Rsiz named (A.5.1).
fn write_siz(siz: &Siz, asked: RsizChoice) -> Result<Siz, NoMemory>
    ensures { IfOk result (λ copy. copy ≡ record siz.now { rsiz = rsiz_written asked siz.now.rsiz }) }
{
    let mut copy = siz.copy()?;
    copy.rsiz = rsiz_for(asked, siz.rsiz);
    Ok(copy)
}

/// The headers of the file that is written as the options ask, with so many layers in each tile, at least 1, as a
/// stream without tile data: Rsiz is 0 or kept, as asked; PLT, PLM, TLM, PPM, PPT and skipped markers are left out;
/// POC is left out, or stands in the main header with the volumes that are asked, or is kept, in one segment for each
/// tile; each COD has SOP, EPH, order and layers as asked, and each COD and COC the precincts and the style; a tile's
/// first header takes the COM segments of its later ones; all else is kept. Time and memory follow the bytes of the
/// headers, the precincts that are written and the number of tiles.
///
/// # Errors
///
/// `NoMemory` where memory is refused.
pub(crate) fn write_headers(
    alloc: Global,
    stream: &Stream,
    options: &Options,
    layers: u16,
) -> Result<Stream, NoMemory>
    requires { length stream.now.siz.comps < 65536 }
    ensures { IfOk result (λ copy. copy ≡ stream_written (with_layers options.now layers) stream.now) }
{
    let siz = write_siz(&stream.siz, options.rsiz)?;
    let comps = stream.siz.comps.as_slice().len() as u16;
    let main = write_main(alloc, stream.main.as_slice(), comps, options, layers)?;
    let tiles = tiles_under(alloc, stream, &main, comps, options, layers)?;
    Ok(Stream {
        siz,
        main: Segments::new(main),
        tiles: Tiles::new(tiles),
    })
}
