//! The levels of a tag tree, and the nodes on the way to a leaf (T.800, B.10.2).

ghost use Rattle.std.specs.Prelude.{◌≡◌, ℕ, ◌+◌, ◌-◌, ◌*◌, ◌/◌, ◌^◌, ◌<◌, ◌≤◌, ◌↔◌, List, [], ◌∷◌, ◌++◌, length, slice_index, IsTrue, IfOk};
ghost use Rattle.jx_tagtree.specs.Shape.{IsShape, IsLevel, is_root, over, levels_of, node_in, way, root};
ghost use Rattle.jx_base.specs.Limits.{most_blocks};

use jx_base::NoMemory;
use std::alloc::Global;
use std::marker::Model;

/// A level of a tag tree: the number of its first node, and how many nodes it is wide and high.
#[derive(Clone, Copy)]
pub(crate) struct Level {
    first: u32,
    wide: u32,
    high: u32,
}

/// Whether it is the level of the root.
fn is_top(level: Level) -> bool
    ensures { result ≡ is_root level }
{
    level.wide <= 1 && level.high <= 1
}

/// The level above.
fn next(level: Level) -> Level
    requires sizes { level.wide * level.high ≤ most_blocks }
    requires wide { level.wide ≤ most_blocks }
    requires high { level.high ≤ most_blocks }
    requires first { level.first ≤ 22 * most_blocks }
    ensures { result ≡ over level }
{
    Level {
        first: level.first + level.wide * level.high,
        wide: (level.wide + 1) / 2,
        high: (level.high + 1) / 2,
    }
}

/// The levels of a tag tree, from that of the leaves up to that of the root: at most 23.
pub(crate) fn table(alloc: Global, wide: u32, high: u32) -> Result<Vec<Level>, NoMemory>
    requires { IsShape wide high }
    ensures { IfOk result (λ levels. levels.items ≡ levels_of wide high) }
{
    let mut levels = Vec::new(alloc);
    let mut level = Level {
        first: 0,
        wide,
        high,
    };
    while !is_top(level) {
        levels.push(level)?;
        level = next(level);
    }
    levels.push(level)?;
    Ok(levels)
}

/// The nodes from a leaf to the root, which stand over the leaf's place. None is kept: each is computed
/// where it is asked for.
#[derive(Drop)]
pub(crate) struct Way<'a> {
    levels: &'a [Level],
    down: u32,
    across: u32,
}

impl<'a> Model for Way<'a> {
    ghost use Rattle.std.specs.Prelude.{ℕ, List};
    ghost use Rattle.jx_tagtree.specs.Shape.{nodes_over, FitsWay};

    ghost Value = { List ℕ };

    ghost view = { λ w. nodes_over w.levels.now w.down w.across };

    ghost invariant = { λ w. FitsWay w.levels.now w.down w.across };
}

impl<'a> Way<'a> {
    /// The way from a leaf to the root, in a tag tree of these levels.
    pub(crate) fn new(levels: &'a [Level], wide: u32, high: u32, leaf: u32) -> Way<'a>
        requires shape { IsShape wide high }
        requires levels { levels.now ≡ levels_of wide high }
        requires leaf { leaf < wide * high }
        ensures { result ≡ way wide high leaf }
    {
        Way {
            levels,
            down: leaf / wide,
            across: leaf % wide,
        }
    }

    /// How many nodes it has.
    pub(crate) fn len(&self) -> usize
        ensures { result ≡ length self.now }
    {
        self.levels.len()
    }

    /// The node at a place, 0 for the leaf.
    pub(crate) fn at(&self, place: usize) -> u32
        requires { place < length self.now }
        ensures { result ≡ slice_index self.now place }
    {
        let levels = self.levels;
        node_of(
            levels[place],
            halved(self.down, place),
            halved(self.across, place),
        )
    }
}

/// The node of a level that stands down and across from the level's first.
fn node_of(level: Level, down: u32, across: u32) -> u32
    requires { node_in level down across < 2 ^ 32 }
    ensures { result ≡ node_in level down across }
{
    level.first + down * level.wide + across
}

/// A number that is halved so many times.
fn halved(number: u32, times: usize) -> u32
    requires { times < 32 }
    ensures { result ≡ number / 2 ^ times }
{
    number >> times
}

/// How many nodes a tag tree has.
pub(crate) fn count_nodes(wide: u32, high: u32) -> usize
    requires { IsShape wide high }
    ensures { result ≡ root wide high + 1 }
{
    let mut level = Level {
        first: 0,
        wide,
        high,
    };
    for _ in 0..22u32 {
        if is_top(level) {
            return level.first as usize + 1;
        }
        level = next(level);
    }
    level.first as usize + 1
}
