//! The tiles of two codestreams one after another.

ghost use Rattle.std.specs.Prelude.{◌≡◌, ◌<◌, ◌≤◌, ◌-◌, ◌&&◌, ◌||◌, ℕ, false, find, length, slice_get, IfOk, IsTrue, None, Some, true};
ghost use Rattle.jx_base.specs.Joined.{joined};
ghost use Rattle.jx_codestream.specs.First.{tile_number};
ghost use Rattle.jx_same.specs.Items.{component_items, differs, tile_items};
ghost use Rattle.jx_same.specs.Sayings.{sayings};
ghost use Rattle.jx_same.specs.Shared.{AreBareAt, AreSameHeaders, SameHeaders, gives_some};
ghost use Rattle.jx_same.specs.Sides.{AreBeside, IsEmptyIn, IsInput, geometry_at, meaning_at, meaning_in};

use crate::Spot;
use crate::bands::compare_component;
use crate::changes::{changed_comps, is_unchanged};
use crate::input::Input;
use crate::sayings::{are_alike, are_as_before};
use crate::side::Side;
use jx_base::NoMemory;
use jx_codestream::MainView;
use jx_marker::Segment;
use std::alloc::Global;
use std::thread::Threads;

/// Tiles from one on below another; whether both main headers say the same of all components.
#[derive(Clone, Copy, Debug)]
pub(crate) struct Tiles {
    pub(crate) low: u16,
    pub(crate) high: u16,
    pub(crate) mains: bool,
}

/// Whether a segment of a tile's header says how components are transformed or quantized (T.800, A.6).
fn gives_some(header: &[Segment]) -> bool
    ensures { result ≡ gives_some header.now }
{
    for segment in header {
        if matches!(
            segment,
            Segment::Cod(_)
                | Segment::Coc { .. }
                | Segment::Qcd(_)
                | Segment::Qcc { .. }
                | Segment::Rgn { .. }
        ) {
            return true;
        }
    }
    false
}

/// Whether the headers of a tile say nothing of its components, in either codestream.
fn are_bare(a: &Input<'_>, b: &Input<'_>, tile: u16) -> bool
    ensures { IsTrue result → AreBareAt a.now.stream.now b.now.stream.now tile }
{
    if gives_some(a.stream.header(tile)) {
        return false;
    }
    if gives_some(b.stream.header(tile)) {
        return false;
    }
    true
}

/// Whether both hold.
fn both(a: bool, b: bool) -> bool
    ensures { result ≡ (a && b) }
{
    if a {
        return b;
    }
    false
}

/// Whether one of them holds.
fn either(a: bool, b: bool) -> bool
    ensures { result ≡ (a || b) }
{
    if a {
        return true;
    }
    b
}

/// Whether a tile isn't the first one.
fn is_above(tile: u16, first: u16) -> bool
    ensures { IsTrue result → first < tile }
{
    first < tile
}

/// The components of which the headers of a tile may say something else than those of the tile before; none are looked for if it is
/// known that both headers say the same of all, nor for the first tile that is looked at.
fn changed_unless(
    alloc: Global,
    a: &Input<'_>,
    b: &Input<'_>,
    tile: u16,
    known: bool,
    after: bool,
) -> Result<Vec<bool>, NoMemory>
    requires { IsTrue after → AreSameHeaders a.now.stream.now b.now.stream.now (tile - 1) }
    ensures { IfOk result (λ changed. (c : ℕ) → c < length a.now.stream.now.siz.comps
        → slice_get changed.items c ≡ Some false
        → SameHeaders a.now.stream.now b.now.stream.now tile c) }
{
    if known {
        return Ok(Vec::new(alloc));
    }
    if !after {
        return Ok(Vec::new(alloc));
    }
    changed_comps(alloc, a.stream, b.stream, tile)
}

/// Whether the headers of a tile say what they said in the tile before, in both codestreams; no for the first tile that is looked at.
fn are_kept(a: &Input<'_>, b: &Input<'_>, tile: u16, after: bool) -> bool
    requires before { IsTrue after → AreSameHeaders a.now.stream.now b.now.stream.now (tile - 1) }
    ensures { IsTrue result → AreSameHeaders a.now.stream.now b.now.stream.now tile }
{
    if !after {
        return false;
    }
    are_as_before(a.stream, b.stream, true, tile)
}

/// Whether it is known that both headers of a tile say the same of all components: they say what they said in the tile before, or both
/// say the same as the other, and so do the main headers.
fn is_known(a: &Input<'_>, b: &Input<'_>, tile: u16, mains: bool, shared: bool, after: bool) -> bool
    requires mains { IsTrue mains → sayings true a.now.stream.now.main ≡ sayings true b.now.stream.now.main }
    requires shared { IsTrue shared → AreSameHeaders a.now.stream.now b.now.stream.now tile }
    requires before { IsTrue after → AreSameHeaders a.now.stream.now b.now.stream.now (tile - 1) }
    ensures { IsTrue result → AreSameHeaders a.now.stream.now b.now.stream.now tile }
{
    if shared {
        return true;
    }
    if are_kept(a, b, tile, after) {
        return true;
    }
    are_alike(a, b, mains, tile)
}

/// Whether it is known that both headers say the same of a component.
fn is_same(a: &Side<'_>, b: &Side<'_>, comp: u16, known: bool, changed: &[bool]) -> bool
    requires comp { comp < length a.now.stream.siz.comps }
    requires known { IsTrue known → AreSameHeaders a.now.stream b.now.stream a.now.tile }
    requires changed { (c : ℕ) → c < length a.now.stream.siz.comps → slice_get changed.now c ≡ Some false
        → SameHeaders a.now.stream b.now.stream a.now.tile c }
    ensures { IsTrue result → SameHeaders a.now.stream b.now.stream a.now.tile comp }
{
    // They are asked for in the contract alone.
    let _ = a;
    let _ = b;
    if known {
        return true;
    }
    is_unchanged(changed, comp)
}

/// Whether it is known of a component that no value of it differs: it has no place in the tile, and both headers say the same of it.
fn is_settled(a: &Side<'_>, b: &Side<'_>, comp: u16, same: bool, empty: bool) -> bool
    requires comp { comp < length a.now.stream.siz.comps }
    requires same { IsTrue same → SameHeaders a.now.stream b.now.stream a.now.tile comp }
    requires empty { IsTrue empty → IsEmptyIn a.now comp }
    ensures { IsTrue result → find (differs (meaning_at a.now) (meaning_at b.now))
        (component_items (geometry_at a.now) comp) ≡ None }
{
    // They are asked for in the contract alone.
    let _ = a;
    let _ = b;
    let _ = comp;
    if !empty {
        return false;
    }
    same
}

/// The first value of a tile-component that differs; none is looked for where it is known that there is none.
fn compare_unless<R: Threads + Sync>(
    rt: &R,
    alloc: Global,
    threads: u32,
    a: &Side<'_>,
    b: &Side<'_>,
    comp: u16,
    same: bool,
    empty: bool,
) -> Result<Option<Spot>, NoMemory>
    requires threads { (1 ≤ threads) × (threads ≤ 64) }
    requires beside { AreBeside a.now b.now }
    requires comp { comp < length a.now.stream.siz.comps }
    requires same { IsTrue same → SameHeaders a.now.stream b.now.stream a.now.tile comp }
    requires empty { IsTrue empty → IsEmptyIn a.now comp }
    ensures { IfOk result (λ found. found ≡ find (differs (meaning_at a.now) (meaning_at b.now))
        (component_items (geometry_at a.now) comp)) }
{
    if is_settled(a, b, comp, same, empty) {
        return Ok(None);
    }
    compare_component(rt, alloc, threads, a, b, comp, same)
}

/// The first value of a tile that differs. Components without a place aren't looked at where it is known that both headers say the same
/// of them: of all, or of each whatever it said in the tile before.
#[tactic(auto, unfolding(crate::specs::Items::tile_items))]
fn compare_tile<R: Threads + Sync>(
    rt: &R,
    alloc: Global,
    threads: u32,
    a: &Side<'_>,
    b: &Side<'_>,
    known: bool,
    changed: &[bool],
) -> Result<Option<Spot>, NoMemory>
    requires threads { (1 ≤ threads) × (threads ≤ 64) }
    requires beside { AreBeside a.now b.now }
    requires known { IsTrue known → AreSameHeaders a.now.stream b.now.stream a.now.tile }
    requires changed { (c : ℕ) → c < length a.now.stream.siz.comps → slice_get changed.now c ≡ Some false
        → SameHeaders a.now.stream b.now.stream a.now.tile c }
    ensures { IfOk result (λ found. found ≡ find (differs (meaning_at a.now) (meaning_at b.now))
        (tile_items a.now.stream a.now.tile)) }
{
    let mut empty = false;
    for comp in 0..a.comps() {
        empty = a.is_empty_after(comp, empty);
        let same = is_same(a, b, comp, known, changed);
        if let Some(spot) = compare_unless(rt, alloc, threads, a, b, comp, same, empty)? {
            return Ok(Some(spot));
        }
    }
    Ok(None)
}

/// The first value of some tiles that differs, with the views of both main headers. What these say of tiles whose headers say nothing
/// is compared once, and of the first tile each component is looked at, unless both headers are alike.
///
/// # Errors
///
/// `NoMemory` where memory is refused.
pub(crate) fn compare_between<'a, R: Threads + Sync>(
    rt: &R,
    alloc: Global,
    threads: u32,
    a: Input<'a>,
    main_a: &'a MainView<'a>,
    b: Input<'a>,
    main_b: &'a MainView<'a>,
    tiles: Tiles,
) -> Result<Option<Spot>, NoMemory>
    requires threads { (1 ≤ threads) × (threads ≤ 64) }
    requires a { IsInput a }
    requires b { IsInput b }
    requires main_a { main_a.now ≡ record { siz = a.stream.now.siz; main = a.stream.now.main } }
    requires main_b { main_b.now ≡ record { siz = b.stream.now.siz; main = b.stream.now.main } }
    requires siz { (meaning_in a).siz ≡ (meaning_in b).siz }
    requires mains { IsTrue tiles.mains → sayings true a.stream.now.main ≡ sayings true b.stream.now.main }
    requires high { tiles.high ≤ tile_number a.stream.now.siz }
    ensures { IfOk result (λ found. found ≡ find (differs (meaning_in a.entry) (meaning_in b.entry))
        (joined (tile_items a.entry.stream.now) tiles.low tiles.high)) }
{
    let mut known = false;
    for tile in tiles.low..tiles.high {
        let side_a = Side::new(alloc, a, main_a, tile)?;
        let side_b = Side::new(alloc, b, main_b, tile)?;
        let after = is_above(tile, tiles.low);
        let bare = are_bare(&a, &b, tile);
        let same = is_known(&a, &b, tile, tiles.mains, both(known, bare), after);
        let changed = changed_unless(alloc, &a, &b, tile, same, after)?;
        if let Some(spot) = compare_tile(rt, alloc, threads, &side_a, &side_b, same, &changed)? {
            return Ok(Some(spot));
        }
        known = either(known, bare);
    }
    Ok(None)
}
