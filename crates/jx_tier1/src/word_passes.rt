//! Coding passes within a word of a block (T.800, D.3): eight columns of a stripe.

ghost use Rattle.std.specs.Prelude.{◌≡◌, ◌+◌, ◌/◌, ◌%◌, ◌^◌, ◌<◌, ◌≤◌, ℕ, Bool, max, IfOk, OnOk};
ghost use Rattle.std.specs.Int.{bit_at};
ghost use Rattle.jx_tier1_specs.specs.Cells.{Cells};
ghost use Rattle.jx_tier1_specs.specs.Asking.{told};
ghost use Rattle.jx_tier1_specs.specs.Pass.{IsScan, zeroed, named_at, run_at};
ghost use Rattle.jx_tier1.specs.Places.{IsWord};
ghost use Rattle.jx_tier1.specs.Sights.{IsBit, EndsIn};
ghost use Rattle.jx_tier1.specs.WordPasses.{Seeks, SeeksIn, BeforeSignificance, AfterSignificance, IsRefinable, BeforeRefinement, BeforeCleanup, Cleans, CleansIn};
ghost use Rattle.jx_tier1.specs.WordScan.{pass_at_bit, word_pass};

use crate::contexts::Tables;
use crate::decisions::{Corner, Sight, decide_bit, decide_sign};
use crate::questions::asked;
use crate::words::{behind, beside, following, lowest, near, whole_columns};
use jx_base::NoMemory;
use jx_tier1_specs::{About, Plane, Source};

/// A word within a significance pass: its windows, the places that are due, and those that were
/// decided or are due.
#[derive(Clone, Copy)]
struct Seeking {
    sight: Sight,
    due: u64,
    seen: u64,
}

/// Decides the bit of a place that is due, and at 1 its sign (T.800 D.3.1).
#[inline(always)]
fn significance_place<S: Source>(
    source: &mut S,
    tables: &Tables,
    plane: Plane,
    corner: Corner,
    word: Seeking,
    free: u64,
    place: u32,
) -> Result<Seeking, NoMemory>
    requires scan { IsScan plane }
    requires band { tables.now ≡ plane.band }
    requires wide { corner.x < 1024 }
    requires high { corner.y < 1024 }
    requires first { corner.y % 4 ≡ 0 }
    requires place { IsBit place }
    requires one { bit_at word.due place ≡ 1 }
    ensures walk { (g : Cells) → Seeks plane g corner.x corner.y word.sight.window word.sight.signs free word.due word.seen place
        → IfOk result (λ after. SeeksIn plane corner.x corner.y (told S.ask (pass_at_bit 1 plane g corner.x corner.y place) source.old) after.sight.window after.sight.signs free after.due after.seen (place + 1) source.new) }
    ensures before { IfOk result (λ after. (i : ℕ) → i ≤ place → bit_at after.due i ≡ 0) }
    ensures within { IfOk result (λ after. (i : ℕ) → bit_at after.due i ≤ max (bit_at word.due i) (bit_at free i)) }
    ensures fits { IfOk result (λ after. after.due < 2 ^ 64) }
{
    let due = behind(word.due, place);
    if !decide_bit(source, tables, plane, corner, word.sight, place)? {
        return Ok(Seeking {
            sight: word.sight,
            due,
            seen: word.seen,
        });
    }
    let more = following(place) & free;
    let sight = decide_sign(source, tables, plane, corner, word.sight, place)?;
    Ok(Seeking {
        sight,
        due: due | more,
        seen: word.seen | more,
    })
}

/// A significance pass over a word (T.800 D.3.1), by its windows and its insignificant places. Gives
/// the windows after it, and the places that it decided. After `NoMemory` the source is given up.
#[inline(always)]
pub(crate) fn significance_word<S: Source>(
    source: &mut S,
    tables: &Tables,
    plane: Plane,
    corner: Corner,
    sight: Sight,
    free: u64,
) -> Result<(Sight, u64), NoMemory>
    requires scan { IsScan plane }
    requires band { tables.now ≡ plane.band }
    requires wide { corner.x < 1024 }
    requires high { corner.y < 1024 }
    requires first { corner.y % 4 ≡ 0 }
    requires free { IsWord free }
    ensures walk { (g : Cells) → BeforeSignificance plane g corner.x corner.y sight.window sight.signs free
        → IfOk result (λ after. AfterSignificance plane corner.x corner.y (told S.ask (word_pass 1 plane corner.x corner.y g) source.old) after.0.window after.0.signs after.1 source.new) }
{
    let due = near(sight.window) & free;
    let mut word = Seeking {
        sight,
        due,
        seen: due,
    };
    while word.due != 0 {
        let place = lowest(word.due);
        word = significance_place(source, tables, plane, corner, word, free, place)?;
    }
    Ok((word.sight, word.seen))
}

/// Decides the next bit of a significant coefficient (T.800 D.3.3), by the places that were refined
/// before and those that weren't and have a significant neighbour.
#[inline(always)]
fn refinement_place<S: Source>(
    source: &mut S,
    plane: Plane,
    corner: Corner,
    near: u64,
    refined: u64,
    place: u32,
) -> Result<(), NoMemory>
    requires scan { IsScan plane }
    requires wide { corner.x < 1024 }
    requires high { corner.y < 1024 }
    requires place { place < 64 }
    ensures { (g : Cells) → IsRefinable plane g corner.x corner.y near refined place
        → OnOk result (source.new ≡ (told S.ask (pass_at_bit 2 plane g corner.x corner.y place) source.old).1) }
{
    let label = 14 + 2 * ((refined >> place) % 2) + (near >> place) % 2;
    let about = About::Bit(corner.column(place), corner.row(place));
    source.ask(asked(plane, label as u8, false, about))?;
    Ok(())
}

/// A refinement pass over a word (T.800 D.3.3), by its window, the significant places that weren't
/// decided in this plane, and the places that were refined before. After `NoMemory` the source is
/// given up.
#[inline(always)]
pub(crate) fn refinement_word<S: Source>(
    source: &mut S,
    plane: Plane,
    corner: Corner,
    window: u64,
    places: u64,
    refined: u64,
) -> Result<(), NoMemory>
    requires scan { IsScan plane }
    requires wide { corner.x < 1024 }
    requires high { corner.y < 1024 }
    requires first { corner.y % 4 ≡ 0 }
    ensures walk { (g : Cells) → BeforeRefinement plane g corner.x corner.y window places refined
        → OnOk result (source.new ≡ (told S.ask (word_pass 2 plane corner.x corner.y g) source.old).1) }
{
    let near = beside(window) & !refined;
    let mut due = places;
    while due != 0 {
        let place = lowest(due);
        refinement_place(source, plane, corner, near, refined, place)?;
        due = behind(due, place);
    }
    Ok(())
}

/// The run mode of a column that begins at a place (T.800 D.3.4): the first of its four places that is
/// 1, counted from 0; 4 if none is.
#[inline(always)]
pub(crate) fn decide_run<S: Source>(
    source: &mut S,
    plane: Plane,
    corner: Corner,
    place: u32,
) -> Result<u32, NoMemory>
    requires scan { IsScan plane }
    requires place { IsBit place }
    requires wide { corner.x < 1024 }
    requires high { corner.y < 1024 }
    ensures few { IfOk result (λ row. row ≤ 4) }
    ensures none { (g : Cells) → IfOk result (λ row. row ≡ 4
        → told S.ask (run_at plane g (corner.x + place / 6) (corner.y + place % 6)) source.old ≡ (zeroed plane 4 g (corner.x + place / 6) (corner.y + place % 6), source.new)) }
    ensures named { (g : Cells) → IfOk result (λ row. row < 4
        → told S.ask (run_at plane g (corner.x + place / 6) (corner.y + place % 6)) source.old ≡ told S.ask (named_at plane g (corner.x + place / 6) (corner.y + place % 6) row) source.new) }
{
    let x = corner.column(place);
    let y = corner.row(place);
    if !source.ask(asked(plane, 17, false, About::Run(x, y)))? {
        return Ok(4);
    }
    let high = source.ask(asked(plane, 18, false, About::High(x, y)))?;
    let low = source.ask(asked(plane, 18, false, About::Low(x, y)))?;
    Ok(2 * u32::from(high) + u32::from(low))
}

/// A word within a cleanup pass: its windows, the places that are left, and the columns in run mode, at
/// the bits of their first places.
#[derive(Clone, Copy)]
struct Cleaning {
    sight: Sight,
    due: u64,
    runs: u64,
}

/// Decides a column in run mode, by its first place (T.800 D.3.4).
#[inline(always)]
fn cleanup_run<S: Source>(
    source: &mut S,
    tables: &Tables,
    plane: Plane,
    corner: Corner,
    word: Cleaning,
    place: u32,
) -> Result<Cleaning, NoMemory>
    requires scan { IsScan plane }
    requires band { tables.now ≡ plane.band }
    requires wide { corner.x < 1024 }
    requires high { corner.y < 1024 }
    requires first { corner.y % 4 ≡ 0 }
    requires place { IsBit place }
    requires one { bit_at word.due place ≡ 1 }
    requires row { place % 6 ≡ 0 }
    requires run { bit_at word.runs place ≡ 1 }
    ensures walk { (g : Cells) → Cleans plane g corner.x corner.y word.sight.window word.sight.signs word.due word.runs place
        → IfOk result (λ after. CleansIn plane corner.x corner.y (told S.ask (pass_at_bit 0 plane g corner.x corner.y place) source.old) after.sight.window after.sight.signs after.due after.runs (place + 1) source.new) }
    ensures before { IfOk result (λ after. (i : ℕ) → i ≤ place → bit_at after.due i ≡ 0) }
    ensures due { IfOk result (λ after. (i : ℕ) → bit_at after.due i ≤ bit_at word.due i) }
    ensures runs { IfOk result (λ after. (i : ℕ) → bit_at after.runs i ≤ bit_at word.runs i) }
    ensures fits { IfOk result (λ after. after.due < 2 ^ 64) }
{
    let row = decide_run(source, plane, corner, place)?;
    if row == 4 {
        return Ok(Cleaning {
            sight: word.sight,
            due: behind(word.due, place + 3),
            runs: word.runs,
        });
    }
    let first = place + row;
    let sight = decide_sign(source, tables, plane, corner, word.sight, first)?;
    Ok(Cleaning {
        sight,
        due: behind(word.due, first),
        runs: behind(word.runs, first + 6),
    })
}

/// Decides the bit of a place that isn't in run mode, and at 1 its sign (T.800 D.3.4).
#[inline(always)]
fn cleanup_usual<S: Source>(
    source: &mut S,
    tables: &Tables,
    plane: Plane,
    corner: Corner,
    word: Cleaning,
    place: u32,
) -> Result<Cleaning, NoMemory>
    requires scan { IsScan plane }
    requires band { tables.now ≡ plane.band }
    requires wide { corner.x < 1024 }
    requires high { corner.y < 1024 }
    requires first { corner.y % 4 ≡ 0 }
    requires place { IsBit place }
    requires one { bit_at word.due place ≡ 1 }
    requires run { bit_at word.runs place ≡ 0 }
    ensures walk { (g : Cells) → Cleans plane g corner.x corner.y word.sight.window word.sight.signs word.due word.runs place
        → IfOk result (λ after. CleansIn plane corner.x corner.y (told S.ask (pass_at_bit 0 plane g corner.x corner.y place) source.old) after.sight.window after.sight.signs after.due after.runs (place + 1) source.new) }
    ensures before { IfOk result (λ after. (i : ℕ) → i ≤ place → bit_at after.due i ≡ 0) }
    ensures due { IfOk result (λ after. (i : ℕ) → bit_at after.due i ≤ bit_at word.due i) }
    ensures runs { IfOk result (λ after. (i : ℕ) → bit_at after.runs i ≤ bit_at word.runs i) }
    ensures fits { IfOk result (λ after. after.due < 2 ^ 64) }
{
    let due = behind(word.due, place);
    if !decide_bit(source, tables, plane, corner, word.sight, place)? {
        return Ok(Cleaning {
            sight: word.sight,
            due,
            runs: word.runs,
        });
    }
    let sight = decide_sign(source, tables, plane, corner, word.sight, place)?;
    Ok(Cleaning {
        sight,
        due,
        runs: behind(word.runs, place + 6),
    })
}

/// Decides a place that is left, or the column in run mode that begins with it (T.800 D.3.4).
#[inline(always)]
fn cleanup_place<S: Source>(
    source: &mut S,
    tables: &Tables,
    plane: Plane,
    corner: Corner,
    word: Cleaning,
    place: u32,
) -> Result<Cleaning, NoMemory>
    requires scan { IsScan plane }
    requires band { tables.now ≡ plane.band }
    requires wide { corner.x < 1024 }
    requires high { corner.y < 1024 }
    requires first { corner.y % 4 ≡ 0 }
    requires place { IsBit place }
    requires one { bit_at word.due place ≡ 1 }
    requires rows { (i : ℕ) → bit_at word.runs i ≡ 1 → i % 6 ≡ 0 }
    ensures walk { (g : Cells) → Cleans plane g corner.x corner.y word.sight.window word.sight.signs word.due word.runs place
        → IfOk result (λ after. CleansIn plane corner.x corner.y (told S.ask (pass_at_bit 0 plane g corner.x corner.y place) source.old) after.sight.window after.sight.signs after.due after.runs (place + 1) source.new) }
    ensures before { IfOk result (λ after. (i : ℕ) → i ≤ place → bit_at after.due i ≡ 0) }
    ensures due { IfOk result (λ after. (i : ℕ) → bit_at after.due i ≤ bit_at word.due i) }
    ensures runs { IfOk result (λ after. (i : ℕ) → bit_at after.runs i ≤ bit_at word.runs i) }
    ensures fits { IfOk result (λ after. after.due < 2 ^ 64) }
{
    if (word.runs >> place) % 2 != 0 {
        return cleanup_run(source, tables, plane, corner, word, place);
    }
    cleanup_usual(source, tables, plane, corner, word, place)
}

/// A cleanup pass over a word (T.800 D.3.4), by its windows and the insignificant places that weren't
/// decided in this plane. Gives the windows after it. After `NoMemory` the source is given up.
#[inline(always)]
pub(crate) fn cleanup_word<S: Source>(
    source: &mut S,
    tables: &Tables,
    plane: Plane,
    corner: Corner,
    sight: Sight,
    places: u64,
) -> Result<Sight, NoMemory>
    requires scan { IsScan plane }
    requires band { tables.now ≡ plane.band }
    requires wide { corner.x < 1024 }
    requires high { corner.y < 1024 }
    requires first { corner.y % 4 ≡ 0 }
    requires places { IsWord places }
    ensures walk { (g : Cells) → BeforeCleanup plane g corner.x corner.y sight.window sight.signs places
        → IfOk result (λ after. EndsIn plane.causal corner.x corner.y (told S.ask (word_pass 0 plane corner.x corner.y g) source.old) after.window after.signs source.new) }
{
    let mut word = Cleaning {
        sight,
        due: places,
        runs: whole_columns(places & !near(sight.window)),
    };
    while word.due != 0 {
        let place = lowest(word.due);
        word = cleanup_place(source, tables, plane, corner, word, place)?;
    }
    Ok(word.sight)
}
