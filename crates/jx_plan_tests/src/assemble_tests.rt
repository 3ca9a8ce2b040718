//! A codestream of one tile put together again.

ghost use Rattle.std.specs.Prelude.{◌≡◌, ◌<◌, length, IfOk};
ghost use Rattle.jx_codestream.specs.First.{tile_number};
ghost use Rattle.jx_plan.specs.Plan.{MayBePlanned, headers_of};
ghost use Rattle.jx_options.specs.Wanted.{MayBeWanted};
ghost use Rattle.jx_tier2_writer.specs.Tile.{AreMade, AreValuesOf, made_in};

use crate::checks::equal;
use crate::hex::bytes_of;
use crate::planned::{input, planners};
use crate::values::bare_values;
use jx_base::{Block, NoMemory};
use jx_codeblock::Recoded;
use jx_codestream::{MainView, Stream};
use jx_layers::LayerPlanner;
use jx_options::{Marks, Options, OrderChoice, PartChoice, PocChoice, PrecinctChoice, RsizChoice};
use jx_plan::{OutStream, plan_served};
use jx_store::Entry;
use jx_tier2_writer::{AssembleFault, TileOut, main_header, main_view, pack_tile, whole_parts};
use std::alloc::{AllocError, Global};
use std::test::Fail;

/// The pieces of a tile: their bytes, one behind another, and how many each has.
#[derive(Drop)]
struct Pieces {
    bytes: Vec<u8>,
    sizes: Vec<usize>,
}

/// Puts the pieces of a tile-part behind others. Where its size isn't that of its pieces this fails as if memory were refused.
fn put_pieces(out: &TileOut<'_, '_>, part: usize, pieces: &mut Pieces) -> Result<(), NoMemory>
    requires { part < length out.now }
{
    let first = pieces.bytes.len();
    for piece in 0..out.pieces(part) {
        let before = pieces.bytes.len();
        out.put(part, piece, &mut pieces.bytes)?;
        pieces
            .sizes
            .push(pieces.bytes.len().saturating_sub(before))?;
    }
    if pieces.bytes.len().saturating_sub(first) as u64 != u64::from(out.size(part)) {
        return Err(NoMemory);
    }
    Ok(())
}

/// The pieces of a tile.
fn pieces_of(alloc: Global, out: &TileOut<'_, '_>) -> Result<Pieces, NoMemory> {
    let mut pieces = Pieces {
        bytes: Vec::new(alloc),
        sizes: Vec::new(alloc),
    };
    for part in 0..out.parts() {
        put_pieces(out, part, &mut pieces)?;
    }
    Ok(pieces)
}

/// The tile-parts of a tile, by its number 0, each in one buffer, and its pieces.
fn put_tile(
    alloc: Global,
    plan: &OutStream<'_>,
    values: &[Entry<Recoded<'_>>],
    most: u32,
) -> Result<(Vec<Vec<u8>>, Pieces), AssembleFault>
    requires tile { 0 < tile_number plan.now.stream.siz }
    requires made { AreMade values.now }
    requires values { AreValuesOf plan.now 0 (made_in values.now) }
{
    let main = main_view(alloc, plan)?;
    put_packed(alloc, plan, &main, values, most)
}

/// The same, with what is known of the main header.
fn put_packed(
    alloc: Global,
    plan: &OutStream<'_>,
    main: &MainView<'_>,
    values: &[Entry<Recoded<'_>>],
    most: u32,
) -> Result<(Vec<Vec<u8>>, Pieces), AssembleFault>
    requires main { main.now ≡ record { siz = (headers_of plan.now).siz; main = (headers_of plan.now).main } }
    requires tile { 0 < tile_number plan.now.stream.siz }
    requires made { AreMade values.now }
    requires values { AreValuesOf plan.now 0 (made_in values.now) }
{
    match pack_tile(alloc, plan, main, 0, values, most) {
        Ok(out) => Ok((whole_parts(alloc, &out)?, pieces_of(alloc, &out)?)),
        Err(fault) => Err(fault),
    }
}

/// The tile-parts, SOP, EPH and PLT.
type Asked = (PartChoice, bool, bool, bool);

/// What is asked of a file with one tile, and what is wanted: the length of the main header, and those of the tile-parts and of their
/// pieces, or nothing where a tile-part has more bytes than the most.
struct Row {
    text: &'static str,
    marks: Asked,
    most: u32,
    main: usize,
    parts: &'static [usize],
    pieces: &'static [usize],
}

fn have_sizes(parts: &[Vec<u8>], sizes: &[usize]) -> bool {
    if parts.len() != sizes.len() {
        return false;
    }
    let mut rest = sizes;
    for part in parts {
        match rest.split_first() {
            Some((size, behind)) if *size == part.len() => rest = behind,
            _ => return false,
        }
    }
    true
}

/// Whether they are these bytes, one behind another.
fn are_whole(parts: &[Vec<u8>], whole: &[u8]) -> bool {
    let mut rest = whole;
    for part in parts {
        let (front, behind) = rest.split_at(part.len().min(rest.len()));
        if part.as_slice() != front {
            return false;
        }
        rest = behind;
    }
    rest.is_empty()
}

/// Whether tile-parts and pieces are the same bytes, and have these lengths.
fn are_so(tile: &Result<(Vec<Vec<u8>>, Pieces), AssembleFault>, row: &Row) -> bool {
    match tile {
        Ok((parts, pieces)) => {
            have_sizes(parts, row.parts)
                && pieces.sizes.as_slice() == row.pieces
                && are_whole(parts, &pieces.bytes)
        }
        Err(AssembleFault::TooLong) => row.parts.is_empty(),
        Err(AssembleFault::NoMemory) => false,
    }
}

/// Whether the tile is so.
fn is_tile(alloc: Global, plan: &OutStream<'_>, values: &[Entry<Recoded<'_>>], row: &Row) -> bool
    requires tile { 0 < tile_number plan.now.stream.siz }
    requires made { AreMade values.now }
    requires values { AreValuesOf plan.now 0 (made_in values.now) }
{
    are_so(&put_tile(alloc, plan, values, row.most), row)
}

/// Whether the one tile of a plan is so. None where a block has a pass, or for want of memory.
fn only_tile(alloc: Global, plan: &OutStream<'_>, row: &Row) -> Option<bool>
    requires { tile_number plan.now.stream.siz ≡ 1 }
{
    let Ok(values) = bare_values(alloc, plan.jobs()) else {
        return None;
    };
    let entries = values.as_slice();
    Some(is_tile(alloc, plan, entries, row))
}

fn is_main(alloc: Global, plan: &OutStream<'_>, row: &Row) -> bool {
    match main_header(alloc, plan) {
        Ok(main) => main.len() == row.main,
        Err(_) => false,
    }
}

/// Whether the main header and the one tile of a plan are so.
fn is_kept_by(alloc: Global, plan: &OutStream<'_>, row: &Row) -> Option<bool>
    requires { tile_number plan.now.stream.siz ≡ 1 }
{
    if is_main(alloc, plan, row) {
        only_tile(alloc, plan, row)
    } else {
        None
    }
}

/// The same of a stream of one tile. The stream and the blocks come as references: a value can't be lent where it is made, since both
/// lifetimes of the blocks are one.
fn is_planned(
    alloc: Global,
    stream: &Stream,
    blocks: &[Block<'_>],
    options: &Options,
    planners: &mut [Box<dyn LayerPlanner>],
    row: &Row,
) -> Option<bool>
    requires may { MayBePlanned stream.now blocks.now }
    requires wanted { MayBeWanted options.now }
    requires one { tile_number stream.now.siz ≡ 1 }
{
    match plan_served(alloc, stream, blocks, options, planners) {
        Ok(plan) => is_kept_by(alloc, &plan, row),
        Err(_) => None,
    }
}

/// The same of the headers and the blocks of a file, by the planner that keeps layers.
fn is_kept_of(
    alloc: Global,
    stream: &Stream,
    blocks: &[Block<'_>],
    options: &Options,
    row: &Row,
) -> Option<bool>
    requires may { MayBePlanned stream.now blocks.now }
    requires wanted { MayBeWanted options.now }
{
    if stream.tile_count() != 1 {
        return None;
    }
    match planners(alloc, &[0]) {
        Ok(mut planners) => is_planned(alloc, stream, blocks, options, &mut planners, row),
        Err(_) => None,
    }
}

/// The same of a file.
fn is_kept_in(alloc: Global, file: &[u8], options: &Options, row: &Row) -> Option<bool>
    requires { MayBeWanted options.now }
{
    let read = input(alloc, file)?;
    is_kept_of(alloc, &read.0, &read.1, options, row)
}

/// Order, precincts, style and layers are kept.
fn with_marks(alloc: Global, asked: Asked) -> Result<Options, AllocError>
    ensures { IfOk result (λ options. MayBeWanted options) }
{
    let (parts, sop, eph, plt) = asked;
    let layers = String::from_str(alloc, "keep")?;
    let mut marks = Marks::none();
    marks.sop = sop;
    marks.eph = eph;
    marks.plt = plt;
    marks.parts = parts;
    Ok(Options {
        order: OrderChoice::Keep,
        poc: PocChoice::None,
        precincts: PrecinctChoice::Keep,
        style: None,
        layers,
        marks,
        rsiz: RsizChoice::Zero,
    })
}

fn is_marked(alloc: Global, file: &[u8], row: &Row) -> Option<bool> {
    let options = with_marks(alloc, row.marks).ok()?;
    is_kept_in(alloc, file, &options, row)
}

fn is_kept(alloc: Global, row: &Row) -> Option<bool> {
    let file = bytes_of(alloc, row.text)?;
    is_marked(alloc, &file, row)
}

// One sample, whose packet is empty.
const SMALL: &str = "
    FF4F FF51 0029 0000 00000001 00000001 00000000 00000000 00000001 00000001 00000000 00000000 0001 07 01 01
    FF52 000C 00 00 0001 00 00 04 04 00 01 FF5C 0004 40 40
    FF90 000A 0000 0000000F 00 01 FF93 00
    FFD9";

// Four samples in a row, three layers, one level, and two precincts in resolution 1; the tile has a comment. Every packet is empty.
const LAYERS: &str = "
    FF4F FF51 0029 0000 00000004 00000001 00000000 00000000 00000004 00000001 00000000 00000000 0001 07 01 01
    FF52 000E 01 00 0003 00 01 04 04 00 01 FF 11 FF5C 0007 40 40 48 48 50
    FF90 000A 0000 0000001E 00 01 FF64 0005 0001 61 FF93 000000 000000 000000
    FFD9";

// The picture's one column is none of its component, which has each second one.
const EMPTY: &str = "
    FF4F FF51 0029 0000 00000002 00000001 00000001 00000000 00000002 00000001 00000000 00000000 0001 07 02 01
    FF52 000C 00 00 0001 00 00 04 04 00 01 FF5C 0004 40 40
    FF90 000A 0000 0000000E 00 01 FF93
    FFD9";

// The second tile-part of resolutions with SOP and EPH has 32 bytes, the first 30. A tile without packets has one tile-part, and no
// lengths.
static TILES: [Row; 12] = [
    Row {
        text: SMALL,
        marks: (PartChoice::None, false, false, false),
        most: 15,
        main: 65,
        parts: &[15],
        pieces: &[14, 1],
    },
    Row {
        text: SMALL,
        marks: (PartChoice::None, false, false, false),
        most: 14,
        main: 65,
        parts: &[],
        pieces: &[],
    },
    Row {
        text: SMALL,
        marks: (PartChoice::None, true, true, true),
        most: 29,
        main: 65,
        parts: &[29],
        pieces: &[20, 9],
    },
    Row {
        text: LAYERS,
        marks: (PartChoice::Layer, true, false, false),
        most: 42,
        main: 70,
        parts: &[42, 35, 35],
        pieces: &[21, 7, 7, 7, 14, 7, 7, 7, 14, 7, 7, 7],
    },
    Row {
        text: LAYERS,
        marks: (PartChoice::Layer, true, false, false),
        most: 41,
        main: 70,
        parts: &[],
        pieces: &[],
    },
    Row {
        text: LAYERS,
        marks: (PartChoice::Resolution, false, false, true),
        most: 28,
        main: 70,
        parts: &[28, 23, 21, 23, 21, 23],
        pieces: &[27, 1, 21, 1, 1, 20, 1, 21, 1, 1, 20, 1, 21, 1, 1],
    },
    Row {
        text: LAYERS,
        marks: (PartChoice::Resolution, true, true, false),
        most: 31,
        main: 70,
        parts: &[],
        pieces: &[],
    },
    Row {
        text: LAYERS,
        marks: (PartChoice::Resolution, true, true, false),
        most: 32,
        main: 70,
        parts: &[30, 32, 23, 32, 23, 32],
        pieces: &[21, 9, 14, 9, 9, 14, 9, 14, 9, 9, 14, 9, 14, 9, 9],
    },
    Row {
        text: LAYERS,
        marks: (PartChoice::None, false, true, true),
        most: 62,
        main: 70,
        parts: &[62],
        pieces: &[35, 3, 3, 3, 3, 3, 3, 3, 3, 3],
    },
    Row {
        text: EMPTY,
        marks: (PartChoice::Layer, true, true, true),
        most: 14,
        main: 65,
        parts: &[14],
        pieces: &[14],
    },
    Row {
        text: EMPTY,
        marks: (PartChoice::Layer, true, true, true),
        most: 13,
        main: 65,
        parts: &[],
        pieces: &[],
    },
    Row {
        text: EMPTY,
        marks: (PartChoice::None, false, false, true),
        most: 14,
        main: 65,
        parts: &[14],
        pieces: &[14],
    },
];

#[test]
fn tiles(rt: HostRuntime) -> Result<(), Fail> {
    for row in &TILES {
        equal(&rt, is_kept(rt.alloc(), row), Some(true));
    }
    Ok(())
}
