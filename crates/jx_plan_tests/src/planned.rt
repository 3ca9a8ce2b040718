//! What tests ask of a file, and what they want of its plan.

ghost use Rattle.std.specs.Prelude.{IfOk, IfSome};
ghost use Rattle.jx_marker.specs.Ranges.{AreBytes};
ghost use Rattle.jx_base.specs.OrderNumbers.{IsOrderNumber};
ghost use Rattle.jx_codestream.specs.InRange.{StreamInRange};
ghost use Rattle.jx_options.specs.Choices.{bytes_in, order_in};
ghost use Rattle.jx_plan.specs.Plan.{MayBePlanned};
ghost use Rattle.jx_options.specs.Wanted.{MayBeStyle, MayBeWanted};

use crate::hex::bytes_of;
use crate::table::TableLayers;
use jx_base::{Block, MOST_BYTES, NoMemory, Style};
use jx_codeblock::Job;
use jx_codestream::{Stream, Tile, read_stream};
use jx_layers::{CutLayers, KeepLayers, LayerPlanner, OneLayer};
use jx_options::{Marks, Options, OrderChoice, PocChoice, PrecinctChoice, RsizChoice};
use jx_plan::{OutStream, PlanFault, first_misfit, plan_served};
use jx_tier2_reader::gather;
use std::alloc::{AllocError, Global};

/// What is asked of a file. Nothing is marked or cut.
#[derive(Clone, Copy)]
pub(crate) struct Ask {
    /// The words for the planners.
    pub words: &'static str,
    /// The planners, each by its number: that which keeps layers; one of a table, by which the second block's passes come into a second
    /// layer where the words are `one`; that of one layer; that of cuts.
    pub planners: &'static [u8],
    pub style: AskStyle,
    /// Whether the order is to be CPRL; else it is kept.
    pub cprl: bool,
    /// The exponents; they are kept where there are none.
    pub precincts: Option<&'static [u8]>,
}

/// A style that is asked.
#[derive(Clone, Copy)]
pub(crate) enum AskStyle {
    Keep,
    Plain,
    Causal,
    /// Each bit that may be asked, but the causal one.
    Others,
}

/// What is wanted of a plan.
#[derive(Clone, Copy)]
pub(crate) enum Want {
    /// That there is none, and why.
    Fault(PlanFault),
    /// The layers of each tile, and the ends of all blocks' layers, each as the block's number, the layer and the passes.
    Layers(u16, &'static [[u32; 3]]),
    /// The style of the one job.
    Style(Option<Style>),
    /// The numbers of each tile's jobs.
    Tiles(&'static [(u32, u32)]),
    /// The layers, resolutions and order of the one entry by which the first tile's packets are ordered.
    Entry(u16, u8, u8),
}

fn style_of(ask: AskStyle) -> Option<Style>
    ensures { IfSome result MayBeStyle }
{
    match ask {
        AskStyle::Keep => None,
        AskStyle::Plain => Some(Style { bits: 0 }),
        AskStyle::Causal => Some(Style { bits: 0x08 }),
        AskStyle::Others => Some(Style { bits: 0x27 }),
    }
}

fn list_of(alloc: Global, bytes: &[u8]) -> Result<PrecinctChoice, AllocError>
    ensures { IfOk result (λ p. IfSome (bytes_in p) AreBytes) }
{
    let list = bytes.to_vec(alloc)?;
    Ok(PrecinctChoice::List(list))
}

fn precincts_of(alloc: Global, ask: Option<&[u8]>) -> Result<PrecinctChoice, AllocError>
    ensures { IfOk result (λ p. IfSome (bytes_in p) AreBytes) }
{
    match ask {
        Some(bytes) => list_of(alloc, bytes),
        None => Ok(PrecinctChoice::Keep),
    }
}

fn order_of(cprl: bool) -> OrderChoice
    ensures { IfSome (order_in result) IsOrderNumber }
{
    if cprl {
        OrderChoice::Order(4)
    } else {
        OrderChoice::Keep
    }
}

fn options_of(alloc: Global, ask: &Ask) -> Result<Options, AllocError>
    ensures { IfOk result (λ options. MayBeWanted options) }
{
    let precincts = precincts_of(alloc, ask.precincts)?;
    let layers = String::from_str(alloc, ask.words)?;
    Ok(Options {
        order: order_of(ask.cprl),
        poc: PocChoice::None,
        precincts,
        style: style_of(ask.style),
        layers,
        marks: Marks::none(),
        rsiz: RsizChoice::Zero,
    })
}

fn keeper(alloc: Global) -> Result<Box<dyn LayerPlanner>, NoMemory> {
    let planner: Box<dyn LayerPlanner> = Box::new(alloc, KeepLayers::new())?;
    Ok(planner)
}

fn joiner(alloc: Global) -> Result<Box<dyn LayerPlanner>, NoMemory> {
    let planner: Box<dyn LayerPlanner> = Box::new(alloc, OneLayer::new())?;
    Ok(planner)
}

fn cutter(alloc: Global) -> Result<Box<dyn LayerPlanner>, NoMemory> {
    let planner: Box<dyn LayerPlanner> = Box::new(alloc, CutLayers::new())?;
    Ok(planner)
}

fn table(alloc: Global) -> Result<Box<dyn LayerPlanner>, NoMemory> {
    let table = TableLayers::new(alloc, "one", &[0, 1])?;
    let table: Box<dyn LayerPlanner> = Box::new(alloc, table)?;
    Ok(table)
}

fn planner(alloc: Global, which: u8) -> Result<Box<dyn LayerPlanner>, NoMemory> {
    match which {
        0 => keeper(alloc),
        1 => table(alloc),
        2 => joiner(alloc),
        _ => cutter(alloc),
    }
}

/// Planners by their numbers.
pub(crate) fn planners(
    alloc: Global,
    order: &[u8],
) -> Result<Vec<Box<dyn LayerPlanner>>, NoMemory> {
    let mut list = Vec::new(alloc);
    for which in order {
        let planner = planner(alloc, *which)?;
        list.push(planner)?;
    }
    Ok(list)
}

/// A file's headers and blocks, where it isn't refused.
#[tactic(auto, using(jx_plan::proofs::PlanLemmas::gathered_may))]
pub(crate) fn input<'a>(alloc: Global, file: &'a [u8]) -> Option<(Stream, Vec<Block<'a>>)>
    ensures { IfSome result (λ r. MayBePlanned r.0 r.1.items) }
{
    if file.len() > MOST_BYTES {
        return None;
    }
    let Ok(stream) = read_stream(alloc, file) else {
        return None;
    };
    let Ok(blocks) = gather(alloc, file, &stream) else {
        return None;
    };
    Some((stream, blocks))
}

fn are_ends(jobs: &[Job<'_>], want: &[[u32; 3]]) -> bool {
    let mut rest = want;
    for job in jobs {
        for end in job.ends.as_slice() {
            let found = [job.number, u32::from(end.layer), u32::from(end.passes)];
            match rest.split_first() {
                Some((first, behind)) if *first == found => rest = behind,
                _ => return false,
            }
        }
    }
    rest.is_empty()
}

fn are_tiles(plan: &OutStream<'_>, want: &[(u32, u32)]) -> bool {
    // For what is known of its value.
    let _ = plan.jobs();
    let count = plan.stream().tile_count();
    for tile in 0..count {
        if want.get(usize::from(tile)) != Some(&plan.tile_jobs(tile)) {
            return false;
        }
    }
    want.len() == usize::from(count)
}

fn is_ordered(tile: &Tile, want: (u16, u8, u8)) -> bool {
    let entries = tile.progressions.as_slice();
    match entries.first() {
        Some(entry) => entries.len() == 1 && (entry.lye, entry.re, entry.order) == want,
        None => false,
    }
}

fn is_so(plan: &OutStream<'_>, want: Want) -> bool {
    match want {
        Want::Fault(_) => false,
        Want::Layers(layers, ends) => plan.layers() == layers && are_ends(plan.jobs(), ends),
        Want::Style(style) => match plan.jobs().first() {
            Some(job) => plan.jobs().len() == 1 && job.style == style,
            None => false,
        },
        Want::Tiles(tiles) => are_tiles(plan, tiles),
        Want::Entry(layers, resolutions, order) => match plan.headers().tiles.as_slice().first() {
            Some(tile) => is_ordered(tile, (layers, resolutions, order)),
            None => false,
        },
    }
}

// Whether a plan is so, or there is none for this reason.
fn is_wanted(plan: &Result<OutStream<'_>, PlanFault>, want: Want) -> bool {
    match (plan, want) {
        (Ok(plan), want) => is_so(plan, want),
        (Err(found), Want::Fault(fault)) => *found == fault,
        (Err(_), _) => false,
    }
}

// The stream and the blocks come as references: a value can't be lent where it is made, since both lifetimes of the blocks are one.
fn is_planned(
    alloc: Global,
    stream: &Stream,
    blocks: &[Block<'_>],
    options: &Options,
    planners: &mut [Box<dyn LayerPlanner>],
    want: Want,
) -> bool
    requires may { MayBePlanned stream.now blocks.now }
    requires wanted { MayBeWanted options.now }
{
    is_wanted(&plan_served(alloc, stream, blocks, options, planners), want)
}

fn is_planned_of(
    alloc: Global,
    file: &[u8],
    options: &Options,
    planners: &mut [Box<dyn LayerPlanner>],
    want: Want,
) -> Option<bool>
    requires { MayBeWanted options.now }
{
    let read = input(alloc, file)?;
    Some(is_planned(alloc, &read.0, &read.1, options, planners, want))
}

fn is_planned_by(
    alloc: Global,
    file: &[u8],
    options: &Options,
    order: &[u8],
    want: Want,
) -> Option<bool>
    requires { MayBeWanted options.now }
{
    let mut planners = planners(alloc, order).ok()?;
    is_planned_of(alloc, file, options, &mut planners, want)
}

fn is_answered_of(alloc: Global, file: &[u8], ask: &Ask, want: Want) -> Option<bool> {
    let options = options_of(alloc, ask).ok()?;
    is_planned_by(alloc, file, &options, ask.planners, want)
}

/// Whether the plan of a file of these digits is so. None where the file is refused, or for want of memory.
pub(crate) fn is_answered(alloc: Global, text: &str, ask: &Ask, want: Want) -> Option<bool> {
    let file = bytes_of(alloc, text)?;
    is_answered_of(alloc, &file, ask, want)
}

/// A component, a resolution, and the two exponents of its precincts there.
type Place = (u16, u8, u8, u8);

fn misfit_of(
    alloc: Global,
    stream: &Stream,
    tile: u16,
    precincts: &PrecinctChoice,
) -> Option<Option<Place>>
    requires { StreamInRange stream.now }
{
    if tile >= stream.tile_count() {
        return None;
    }
    match first_misfit(alloc, stream, tile, precincts) {
        Ok(Some(own)) => Some(Some((own.comp, own.res, own.across, own.down))),
        Ok(None) => Some(None),
        Err(_) => None,
    }
}

fn misfit_in(alloc: Global, file: &[u8], tile: u16, bytes: &[u8]) -> Option<Option<Place>> {
    let read = input(alloc, file)?;
    let precincts = list_of(alloc, bytes).ok()?;
    misfit_of(alloc, &read.0, tile, &precincts)
}

/// Where precincts of these bytes would change the code-blocks of a tile first, of a file of these digits. None where the file is refused or has
/// no such tile, or for want of memory.
pub(crate) fn misfit(alloc: Global, text: &str, tile: u16, bytes: &[u8]) -> Option<Option<Place>> {
    let file = bytes_of(alloc, text)?;
    misfit_in(alloc, &file, tile, bytes)
}
