//! Words that say rules or none, and the layers of a block by each planner.

ghost use Rattle.std.specs.Prelude.{◌≡◌, ◌+◌, ◌≤◌, [], length, IfOk, IfSome};
ghost use Rattle.std.specs.List.{All};
ghost use Rattle.std.specs.Option.{option_map};
ghost use Rattle.jx_base.specs.Sound.{IsSound};
ghost use Rattle.jx_layers.specs.Rule.{layers_by};
ghost use Rattle.jx_base.specs.Limits.{most_blocks};

use crate::checks::{check, equal, equal_at};
use crate::table::TableLayers;
use jx_base::{Band, Block, BlockName, NoMemory, Piece, Pieces, Rect, Span, Style};
use jx_codeblock::Job;
use jx_layers::{CutLayers, KeepLayers, LayerPlanner, OneLayer, PlaneLayers, StreamFacts};
use jx_plan::{ask_jobs, first_broken, first_crowded, shortened, style_for};
use std::alloc::Global;
use std::test::Fail;

// The number of layers by words, for two layers and 56 planes.
fn layers_by(words: &str) -> Option<u16> {
    let facts = StreamFacts {
        layers: 2,
        planes: 56,
        blocks: 1,
    };
    let mut keep = KeepLayers::new();
    if keep.serves(words) {
        return keep.begin(words, &facts);
    }
    let mut one = OneLayer::new();
    if one.serves(words) {
        return one.begin(words, &facts);
    }
    let mut cuts = CutLayers::new();
    if cuts.serves(words) {
        return cuts.begin(words, &facts);
    }
    let mut planes = PlaneLayers::new();
    if planes.serves(words) {
        return planes.begin(words, &facts);
    }
    None
}

// Words are told by their beginning or as a whole; numbers are decimal, rise, and have no leading zero.
#[test]
fn layers_of_words(rt: HostRuntime) {
    for (words, layers) in [
        ("keep", Some(2)),
        ("one", Some(1)),
        ("ten", None),
        ("cuts:1,2", Some(3)),
        ("cuts:220", Some(2)),
        ("cuts:4,4", None),
        ("cuts:0", None),
        ("cuts:221", None),
        ("cuts:01", None),
        ("cuts:1,", None),
        ("cuts:", None),
        ("cuts:+1", None),
        ("planes:8", Some(7)),
        ("planes:74", Some(1)),
        ("planes:75", None),
        ("planes:", None),
    ] {
        equal_at(&rt, &words, layers_by(words), layers);
    }
}

// A piece without bytes.
fn piece_of<'a>(layer: u16, first: u16, passes: u16) -> Piece<'a>
    ensures layer { result.layer ≡ layer }
    ensures first { result.first ≡ first }
    ensures passes { result.passes ≡ passes }
    ensures bytes { result.bytes.now ≡ [] }
{
    Piece {
        layer,
        first,
        passes,
        bytes: &[],
    }
}

// A block of 56 planes with so many passes in layer 0 and in layer 1.
fn block_of<'a>(alloc: Global, front: u16, back: u16) -> Result<Block<'a>, NoMemory>
    requires front { 1 ≤ front }
    requires back { 1 ≤ back }
    requires all { front + back ≤ 166 }
    ensures { IfOk result (λ b. IsSound b) }
{
    let mut pieces = Pieces::new(alloc);
    pieces.push(piece_of(0, 0, front))?;
    pieces.push(piece_of(1, front, back))?;
    let side = Span { low: 0, high: 4 };
    Ok(Block {
        name: BlockName {
            tile: 0,
            comp: 0,
            res: 0,
            band: Band::LL,
            index: 0,
        },
        rect: Rect { x: side, y: side },
        planes: 56,
        zero: 0,
        passes: front + back,
        style: Style { bits: 0 },
        pieces,
    })
}

// What is asked of blocks: the number of layers, each layer's number and the passes sent by its end, and the block that has too many.
#[derive(Debug, PartialEq, Drop)]
struct Planned {
    layers: u16,
    ends: Vec<(u16, u16)>,
    crowded: Option<u32>,
}

// The number of layers of the rule that a planner makes of the words.
fn begin(planner: &mut Box<dyn LayerPlanner>, words: &str, facts: &StreamFacts) -> Option<u16>
    ensures layers { result ≡ option_map (λ r. layers_by r facts.now) (rule_of planner.old words.now facts.now) }
    ensures some { IfSome result (λ layers. 1 ≤ layers) }
    ensures rule { rule planner.new ≡ rule_of planner.old words.now facts.now }
    ensures asked { asked planner.new ≡ 0 }
{
    planner.begin(words, facts)
}

// The layers of blocks by a planner and words; none where the words say no rule.
fn plan_in(
    alloc: Global,
    planner: &mut Box<dyn LayerPlanner>,
    words: &str,
    blocks: &[Block<'_>],
) -> Result<Option<Planned>, NoMemory>
    requires few { length blocks.now ≤ most_blocks }
    requires sound { All IsSound blocks.now }
{
    let facts = StreamFacts {
        layers: 2,
        planes: 56,
        blocks: 1,
    };
    let layers = match begin(planner, words, &facts) {
        Some(layers) => layers,
        None => return Ok(None),
    };
    let jobs = ask_jobs(alloc, shortened(blocks), layers, None, planner)?;
    let mut ends = Vec::new(alloc);
    for job in jobs.as_slice() {
        for end in job.ends.as_slice() {
            ends.push((end.layer, end.passes))?;
        }
    }
    Ok(Some(Planned {
        layers,
        ends,
        crowded: first_crowded(&jobs),
    }))
}

// The layers of such a block.
fn plan_of(
    alloc: Global,
    planner: &mut Box<dyn LayerPlanner>,
    words: &str,
    front: u16,
    back: u16,
) -> Result<Option<Planned>, NoMemory>
    requires front { 1 ≤ front }
    requires back { 1 ≤ back }
    requires all { front + back ≤ 166 }
{
    let block = block_of(alloc, front, back)?;
    let mut blocks = Vec::new(alloc);
    blocks.push(block)?;
    plan_in(alloc, planner, words, &blocks)
}

// Whether a plan is this one.
fn is_plan(
    plan: Result<Option<Planned>, NoMemory>,
    layers: u16,
    ends: &[(u16, u16)],
    crowded: Option<u32>,
) -> bool {
    match plan {
        Ok(Some(plan)) => plan.layers == layers
            && plan.ends.as_slice() == ends
            && plan.crowded == crowded,
        _ => false,
    }
}

// Four passes keep their two layers; they are cut before the passes 1 and 2.
#[test]
fn kept_and_cut(rt: HostRuntime) -> Result<(), Fail> {
    let alloc = rt.alloc();
    let mut keep: Box<dyn LayerPlanner> = Box::new(alloc, KeepLayers::new())?;
    let kept = plan_of(alloc, &mut keep, "keep", 2, 2);
    check(&rt, is_plan(kept, 2, &[(0, 2), (1, 4)], None));
    let mut cuts: Box<dyn LayerPlanner> = Box::new(alloc, CutLayers::new())?;
    let cut = plan_of(alloc, &mut cuts, "cuts:1,2", 2, 2);
    check(&rt, is_plan(cut, 3, &[(0, 1), (1, 2), (2, 4)], None));
    let refused = plan_of(alloc, &mut cuts, "cuts:4,4", 2, 2);
    check(&rt, refused == Ok(None));
    Ok(())
}

// 166 passes are too many for one layer; by eight planes they make seven layers.
#[test]
fn one_and_planes(rt: HostRuntime) -> Result<(), Fail> {
    let alloc = rt.alloc();
    let mut one: Box<dyn LayerPlanner> = Box::new(alloc, OneLayer::new())?;
    let all = plan_of(alloc, &mut one, "one", 164, 2);
    check(&rt, is_plan(all, 1, &[(0, 166)], Some(0)));
    let mut planes: Box<dyn LayerPlanner> = Box::new(alloc, PlaneLayers::new())?;
    let cut = plan_of(alloc, &mut planes, "planes:8", 164, 2);
    let ends = [
        (0, 22),
        (1, 46),
        (2, 70),
        (3, 94),
        (4, 118),
        (5, 142),
        (6, 166),
    ];
    check(&rt, is_plan(cut, 7, &ends, None));
    Ok(())
}

// A list's answers: past its end 0, which is raised to the greatest so far.
#[test]
fn listed(rt: HostRuntime) -> Result<(), Fail> {
    let alloc = rt.alloc();
    let Ok(table) = TableLayers::new(alloc, "t", &[0, 1]) else {
        return Err(Fail::from("no memory"));
    };
    let mut table: Box<dyn LayerPlanner> = Box::new(alloc, table)?;
    let cut = plan_of(alloc, &mut table, "t", 2, 2);
    check(&rt, is_plan(cut, 2, &[(0, 1), (1, 4)], None));
    Ok(())
}

// A block of so many passes in a style, without bytes.
fn bare<'a>(alloc: Global, passes: u16, bits: u8) -> Block<'a> {
    let side = Span { low: 0, high: 4 };
    Block {
        name: BlockName {
            tile: 0,
            comp: 0,
            res: 0,
            band: Band::LL,
            index: 0,
        },
        rect: Rect { x: side, y: side },
        planes: 74,
        zero: 0,
        passes,
        style: Style { bits },
        pieces: Pieces::new(alloc),
    }
}

// Which of two blocks of so many passes, each in its style, is the lowest that can't have the style that is asked.
fn broken_of(
    alloc: Global,
    asked: Option<u8>,
    front: (u16, u8),
    back: (u16, u8),
) -> Result<Option<u32>, NoMemory> {
    let style = match asked {
        Some(bits) => Some(Style { bits }),
        None => None,
    };
    let mut blocks = Vec::new(alloc);
    blocks.push(bare(alloc, front.0, front.1))?;
    blocks.push(bare(alloc, back.0, back.1))?;
    Ok(first_broken(style, &blocks))
}

// Bit 3 is causal. The first pass is a cleanup pass, and so is each third one after it.
#[test]
fn causal_bit_within_a_plane(rt: HostRuntime) {
    for (asked, front, back, broken) in [
        (Some(8), (3, 0), (3, 0), Some(0)),
        (Some(8), (4, 0), (3, 0), Some(1)),
        (Some(8), (0, 0), (2, 0x37), Some(1)),
        (Some(0x37), (1, 8), (219, 8), Some(1)),
        (Some(8), (1, 0), (220, 0), None),
        (Some(8), (3, 8), (3, 0x3F), None),
        (Some(0x37), (3, 0), (2, 0x11), None),
        (None, (3, 0), (3, 8), None),
    ] {
        equal_at(
            &rt,
            &(front, back),
            broken_of(rt.alloc(), asked, front, back),
            Ok(broken),
        );
    }
}

// A block is coded anew where any of the six bits is another.
#[test]
fn style_of_one_block(rt: HostRuntime) {
    let block = bare(rt.alloc(), 4, 0x2F);
    equal(&rt, style_for(None, &block), None);
    equal(&rt, style_for(Some(Style { bits: 0x2F }), &block), None);
    for bits in [0_u8, 0x0F, 0x27, 0x2E, 0x3F] {
        equal(
            &rt,
            style_for(Some(Style { bits }), &block),
            Some(Style { bits }),
        );
    }
}

// The style and the number of layers of the first job.
fn first_of(jobs: &[Job<'_>]) -> (Option<Style>, usize) {
    match jobs.first() {
        Some(job) => (job.style, job.ends.as_slice().len()),
        None => (None, 0),
    }
}

// A block of style 0 in two layers, sent in one: it has a new style where another one is asked.
#[test]
fn jobs_with_a_style(rt: HostRuntime) -> Result<(), Fail> {
    let alloc = rt.alloc();
    let mut blocks = Vec::new(alloc);
    blocks.push(block_of(alloc, 2, 2)?)?;
    let facts = StreamFacts {
        layers: 2,
        planes: 56,
        blocks: 1,
    };
    for (bits, style) in [(0, None), (0x2F, Some(Style { bits: 0x2F }))] {
        let mut one: Box<dyn LayerPlanner> = Box::new(alloc, OneLayer::new())?;
        let Some(layers) = begin(&mut one, "one", &facts) else {
            return Err(Fail::from("no rule"));
        };
        let asked = ask_jobs(
            alloc,
            shortened(&blocks),
            layers,
            Some(Style { bits }),
            &mut one,
        )?;
        equal(&rt, first_of(&asked), (style, 1));
    }
    Ok(())
}
