//! The three coding passes over the words of a block (T.800, D.3).

ghost use Rattle.std.specs.Prelude.{◌≡◌, ◌+◌, ◌-◌, ◌*◌, ◌/◌, ◌%◌, ◌<◌, ◌≤◌, ℕ, min, OnOk};
ghost use Rattle.jx_tier1_specs.specs.Cells.{Cells};
ghost use Rattle.jx_tier1_specs.specs.Asking.{told};
ghost use Rattle.jx_tier1_specs.specs.Pass.{IsScan, scanned};
ghost use Rattle.jx_tier1.specs.BlockPasses.{Shows, Ends, IsMidway, ComesTo, HasSizeOf};
ghost use Rattle.jx_tier1.specs.Walking.{IsNow};
ghost use Rattle.jx_tier1.specs.WordScan.{word_pass};

use crate::block::BlockState;
use crate::contexts::Tables;
use crate::decisions::{Corner, Sight};
use crate::places::{own_places, places_of, without};
use crate::word_passes::{cleanup_word, refinement_word, significance_word};
use crate::words::near;
use jx_base::NoMemory;
use jx_tier1_specs::{Plane, Source};

/// A significance pass over a word of a block, its stripe and its group counted from 0 (T.800 D.3.1).
/// After `NoMemory` source and block are given up.
#[inline(always)]
fn significance_group<S: Source>(
    source: &mut S,
    block: &mut BlockState,
    tables: &Tables,
    plane: Plane,
    stripe: u16,
    group: u16,
) -> Result<(), NoMemory>
    requires scan { IsScan plane }
    requires band { tables.now ≡ plane.band }
    requires wide { block.old.width ≤ 1024 }
    requires high { block.old.height ≤ 1024 }
    requires stripe { 4 * stripe < block.old.height }
    requires group { 8 * group < block.old.width }
    ensures size { HasSizeOf block.old block.new }
    ensures walk { (g : Cells) → IsNow plane g → IsMidway 0 stripe group plane g block.old
        → OnOk result (ComesTo 0 stripe (group + 1) plane (told S.ask (word_pass 1 plane (8 * group) (4 * stripe) g) source.old) block.new source.new) }
{
    let at = block.spot(stripe, group);
    let window = block.window(at, plane.causal);
    let valid = places_of(block, stripe, group);
    let free = without(valid, window >> 7);
    if near(window) & free == 0 {
        block.visit(at, 0);
        return Ok(());
    }
    let signs = block.signs(at, plane.causal);
    let sight = Sight { window, signs };
    let corner = Corner {
        x: 8 * group,
        y: 4 * stripe,
    };
    let (after, seen) = significance_word(source, tables, plane, corner, sight, free)?;
    block.put(
        at,
        own_places(after.window, valid),
        own_places(after.signs >> 1, valid),
    );
    block.visit(at, seen);
    Ok(())
}

/// A refinement pass over a word of a block (T.800 D.3.3). After `NoMemory` source and block are given
/// up.
#[inline(always)]
fn refinement_group<S: Source>(
    source: &mut S,
    block: &mut BlockState,
    plane: Plane,
    stripe: u16,
    group: u16,
) -> Result<(), NoMemory>
    requires scan { IsScan plane }
    requires wide { block.old.width ≤ 1024 }
    requires high { block.old.height ≤ 1024 }
    requires stripe { 4 * stripe < block.old.height }
    requires group { 8 * group < block.old.width }
    ensures size { HasSizeOf block.old block.new }
    ensures walk { (g : Cells) → IsNow plane g → IsMidway 1 stripe group plane g block.old
        → OnOk result (ComesTo 1 stripe (group + 1) plane (told S.ask (word_pass 2 plane (8 * group) (4 * stripe) g) source.old) block.new source.new) }
{
    let at = block.spot(stripe, group);
    let due = without(block.significant(at), block.visited(at));
    if due == 0 {
        return Ok(());
    }
    let refined = block.refined(at);
    let window = block.window(at, plane.causal);
    let corner = Corner {
        x: 8 * group,
        y: 4 * stripe,
    };
    refinement_word(source, plane, corner, window, due, refined)?;
    block.refine(at, refined | due);
    Ok(())
}

/// A cleanup pass over a word of a block (T.800 D.3.4). After `NoMemory` source and block are given up.
#[inline(always)]
fn cleanup_group<S: Source>(
    source: &mut S,
    block: &mut BlockState,
    tables: &Tables,
    plane: Plane,
    stripe: u16,
    group: u16,
) -> Result<(), NoMemory>
    requires scan { IsScan plane }
    requires band { tables.now ≡ plane.band }
    requires wide { block.old.width ≤ 1024 }
    requires high { block.old.height ≤ 1024 }
    requires stripe { 4 * stripe < block.old.height }
    requires group { 8 * group < block.old.width }
    ensures size { HasSizeOf block.old block.new }
    ensures walk { (g : Cells) → IsNow plane g → IsMidway 2 stripe group plane g block.old
        → OnOk result (ComesTo 2 stripe (group + 1) plane (told S.ask (word_pass 0 plane (8 * group) (4 * stripe) g) source.old) block.new source.new) }
{
    let at = block.spot(stripe, group);
    let valid = places_of(block, stripe, group);
    let left = without(valid, block.significant(at));
    let places = without(left, block.visited(at));
    if places == 0 {
        return Ok(());
    }
    let window = block.window(at, plane.causal);
    let signs = block.signs(at, plane.causal);
    let sight = Sight { window, signs };
    let corner = Corner {
        x: 8 * group,
        y: 4 * stripe,
    };
    let after = cleanup_word(source, tables, plane, corner, sight, places)?;
    block.put(
        at,
        own_places(after.window, valid),
        own_places(after.signs >> 1, valid),
    );
    Ok(())
}

/// A pass over a word of a block, by its kind: 1 is a significance pass, 2 a refinement pass, 0 a
/// cleanup pass.
#[inline(always)]
fn walk_group<S: Source, K>(
    source: &mut S,
    block: &mut BlockState,
    tables: &Tables,
    plane: Plane,
    kind: u16,
    stripe: u16,
    group: u16,
) -> Result<(), NoMemory>
    requires scan { IsScan plane }
    requires kind { kind < 3 }
    requires band { tables.now ≡ plane.band }
    requires wide { block.old.width ≤ 1024 }
    requires high { block.old.height ≤ 1024 }
    requires stripe { 4 * stripe < block.old.height }
    requires group { 8 * group < block.old.width }
    ensures size { HasSizeOf block.old block.new }
    ensures walk { (g : Cells) → IsNow plane g → IsMidway ((kind + 2) % 3) stripe group plane g block.old
        → OnOk result (ComesTo ((kind + 2) % 3) stripe (group + 1) plane (told S.ask (word_pass kind plane (8 * group) (4 * stripe) g) source.old) block.new source.new) }
{
    if kind == 1 {
        return significance_group(source, block, tables, plane, stripe, group);
    }
    if kind == 2 {
        return refinement_group(source, block, plane, stripe, group);
    }
    cleanup_group(source, block, tables, plane, stripe, group)
}

/// A pass over a stripe, word by word (T.800 D.1).
#[inline(always)]
fn walk_stripe<S: Source, K>(
    source: &mut S,
    block: &mut BlockState,
    tables: &Tables,
    plane: Plane,
    kind: u16,
    stripe: u16,
) -> Result<(), NoMemory>
    requires scan { IsScan plane }
    requires kind { kind < 3 }
    requires band { tables.now ≡ plane.band }
    requires wide { block.old.width ≤ 1024 }
    requires high { block.old.height ≤ 1024 }
    requires stripe { 4 * stripe < block.old.height }
    ensures size { HasSizeOf block.old block.new }
    ensures walk { (g : Cells) → IsNow plane g → IsMidway ((kind + 2) % 3) stripe 0 plane g block.old
        → OnOk result (ComesTo ((kind + 2) % 3) (stripe + 1) 0 plane (told S.ask (scanned kind plane (g.width * min 4 (g.height - 4 * stripe)) (4 * stripe * g.width) g) source.old) block.new source.new) }
{
    for group in 0..block.groups() {
        walk_group::<S, K>(source, block, tables, plane, kind, stripe, group)?;
    }
    Ok(())
}

/// A pass over a block, stripe by stripe.
#[inline(always)]
fn walk_stripes<S: Source, K>(
    source: &mut S,
    block: &mut BlockState,
    tables: &Tables,
    plane: Plane,
    kind: u16,
) -> Result<(), NoMemory>
    requires scan { IsScan plane }
    requires kind { kind < 3 }
    requires band { tables.now ≡ plane.band }
    requires wide { block.old.width ≤ 1024 }
    requires high { block.old.height ≤ 1024 }
    ensures size { HasSizeOf block.old block.new }
    ensures walk { (g : Cells) → IsNow plane g → IsMidway ((kind + 2) % 3) 0 0 plane g block.old
        → OnOk result (ComesTo ((kind + 2) % 3 + 1) 0 0 plane (told S.ask (scanned kind plane (g.width * g.height) 0 g) source.old) block.new source.new) }
{
    for stripe in 0..block.stripes() {
        walk_stripe::<S, K>(source, block, tables, plane, kind, stripe)?;
    }
    Ok(())
}

/// The three kinds of passes. Each has its own copy of the loops, so that the compiler knows its
/// number in all of it.
struct First;

struct Second;

struct Third;

/// A significance pass (T.800 D.3.1).
#[inline(never)]
fn significance_pass<S: Source>(
    source: &mut S,
    block: &mut BlockState,
    tables: &Tables,
    plane: Plane,
) -> Result<(), NoMemory>
    requires scan { IsScan plane }
    requires band { tables.now ≡ plane.band }
    requires wide { block.old.width ≤ 1024 }
    requires high { block.old.height ≤ 1024 }
    ensures size { HasSizeOf block.old block.new }
    ensures walk { (g : Cells) → IsNow plane g → IsMidway 0 0 0 plane g block.old
        → OnOk result (ComesTo 1 0 0 plane (told S.ask (scanned 1 plane (g.width * g.height) 0 g) source.old) block.new source.new) }
{
    walk_stripes::<S, First>(source, block, tables, plane, 1)
}

/// A refinement pass (T.800 D.3.3).
#[inline(never)]
fn refinement_pass<S: Source>(
    source: &mut S,
    block: &mut BlockState,
    tables: &Tables,
    plane: Plane,
) -> Result<(), NoMemory>
    requires scan { IsScan plane }
    requires band { tables.now ≡ plane.band }
    requires wide { block.old.width ≤ 1024 }
    requires high { block.old.height ≤ 1024 }
    ensures size { HasSizeOf block.old block.new }
    ensures walk { (g : Cells) → IsNow plane g → IsMidway 1 0 0 plane g block.old
        → OnOk result (ComesTo 2 0 0 plane (told S.ask (scanned 2 plane (g.width * g.height) 0 g) source.old) block.new source.new) }
{
    walk_stripes::<S, Second>(source, block, tables, plane, 2)
}

/// A cleanup pass (T.800 D.3.4).
#[inline(never)]
fn cleanup_pass<S: Source>(
    source: &mut S,
    block: &mut BlockState,
    tables: &Tables,
    plane: Plane,
) -> Result<(), NoMemory>
    requires scan { IsScan plane }
    requires band { tables.now ≡ plane.band }
    requires wide { block.old.width ≤ 1024 }
    requires high { block.old.height ≤ 1024 }
    ensures size { HasSizeOf block.old block.new }
    ensures walk { (g : Cells) → IsNow plane g → IsMidway 2 0 0 plane g block.old
        → OnOk result (ComesTo 3 0 0 plane (told S.ask (scanned 0 plane (g.width * g.height) 0 g) source.old) block.new source.new) }
{
    walk_stripes::<S, Third>(source, block, tables, plane, 0)
}

/// A coding pass over a block of at most 1,024 by 1,024 places (T.800 D.3), of which the plane is
/// one. Block and source are as the pass leaves the coefficients that are shown. After `NoMemory`
/// they are given up.
pub(crate) fn walk_pass<S: Source>(
    source: &mut S,
    block: &mut BlockState,
    tables: &Tables,
    plane: Plane,
    pass: u16,
) -> Result<(), NoMemory>
    requires scan { IsScan plane }
    requires number { plane.number ≡ (pass + 2) / 3 }
    requires band { tables.now ≡ plane.band }
    requires wide { block.old.width ≤ 1024 }
    requires high { block.old.height ≤ 1024 }
    ensures size { HasSizeOf block.old block.new }
    ensures walk { (g : Cells) → Shows plane.planes pass g block.old → IsNow plane g
        → OnOk result (Ends plane.planes (pass + 1) (told S.ask (scanned pass plane (g.width * g.height) 0 g) source.old) block.new source.new) }
{
    if pass % 3 == 1 {
        return significance_pass(source, block, tables, plane);
    }
    if pass % 3 == 2 {
        return refinement_pass(source, block, tables, plane);
    }
    cleanup_pass(source, block, tables, plane)
}
