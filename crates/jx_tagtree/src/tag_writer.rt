//! A tag tree that is written.

ghost use Rattle.std.specs.Prelude.{◌≡◌, ◌*◌, ◌<◌, ◌≤◌, ◌++◌, ◌-◌, ◌^◌, replicate, length, ℕ, OnOk, IfOk, IfSome};
ghost use Rattle.jx_tagtree.specs.Shape.{IsShape, levels_of};
ghost use Rattle.jx_tagtree.specs.Leaves.{Written, untold, told, told_after};
ghost use Rattle.jx_tagtree.specs.KeptLeaves.{AreNodeValues};
ghost use Rattle.jx_tagtree.specs.Past.{IsPast, AreUnder};

use crate::BitWriter;
use crate::node::{Node, unknown_nodes};
use crate::passing::stop_of;
use crate::shape::{Level, Way, count_nodes, table};
use crate::writing::{lower, write_way};
use jx_base::NoMemory;
use std::alloc::Global;
use std::marker::Model;

/// A tag tree that is written: its leaves, and what was told of each of its nodes (T.800 B.10.2).
#[derive(Drop)]
pub struct TagWriter {
    wide: u32,
    high: u32,
    levels: Vec<Level>,
    /// The values of the nodes, of which the first are the leaves.
    values: Vec<u32>,
    nodes: Vec<Node>,
}

impl Model for TagWriter {
    ghost use Rattle.jx_tagtree.specs.Leaves.{Written};
    ghost use Rattle.jx_tagtree.specs.KeptLeaves.{leaves_in, KeepsWriter};

    ghost Value = { Written };

    ghost view = { λ t. record { leaves = leaves_in t.wide t.high t.values.items; tree = record { wide = t.wide; high = t.high; nodes = t.nodes.items } } };

    ghost invariant = { λ t. KeepsWriter t.wide t.high t.levels.items t.values.items t.nodes.items };
}

impl TagWriter {
    /// A tag tree of `wide` by `high` leaves, 1 to 2^22 in all, in raster order, of which nothing was told.
    pub fn new(alloc: Global, wide: u32, high: u32, leaves: &[u32]) -> Result<TagWriter, NoMemory>
        requires shape { IsShape wide high }
        requires leaves { length leaves.now ≡ wide * high }
        ensures { IfOk result (λ tree. tree ≡ untold wide high leaves.now) }
    {
        let levels = table(alloc, wide, high)?;
        let values = node_values(alloc, &levels, wide, high, leaves)?;
        let nodes = unknown_nodes(alloc, count_nodes(wide, high))?;
        Ok(TagWriter {
            wide,
            high,
            levels,
            values,
            nodes,
        })
    }

    /// Writes the bits that tell whether a leaf is below a threshold. After an `Err` the tag tree and the
    /// writer are given up.
    pub fn reach(&mut self, leaf: u32, threshold: u32, bits: &mut BitWriter) -> Result<(), NoMemory>
        requires { leaf < self.old.tree.wide * self.old.tree.high }
        ensures bits { OnOk result (bits.new ≡ bits.old ++ (told self.old leaf threshold).bits) }
        ensures after { OnOk result (self.new ≡ told_after self.old leaf threshold) }
    {
        let way = Way::new(&self.levels, self.wide, self.high, leaf);
        write_way(&mut self.nodes, &self.values, &way, threshold, bits)?;
        Ok(())
    }

    /// How many leaves stand side by side.
    pub fn wide(&self) -> u32
        ensures { result ≡ self.now.tree.wide }
    {
        self.wide
    }

    /// How many stand one above another.
    pub fn high(&self) -> u32
        ensures { result ≡ self.now.tree.high }
    {
        self.high
    }

    /// The place on a leaf's way of a node that isn't settled and of which was told that its value reaches a
    /// threshold, as `past` of `TagReader` gives it.
    pub fn past(&self, leaf: u32, threshold: u32) -> Option<usize>
        requires { leaf < self.now.tree.wide * self.now.tree.high }
        ensures low { IfSome result (λ place. place ≤ 22) }
        ensures under { IfSome result (λ place. (other : ℕ) → other < self.now.tree.wide * self.now.tree.high → AreUnder self.now.tree.wide place leaf other → IsPast self.now.tree other threshold) }
    {
        let way = Way::new(&self.levels, self.wide, self.high, leaf);
        stop_of(&self.nodes, &way, threshold)
    }
}

/// The values of the nodes over some leaves.
fn node_values(
    alloc: Global,
    levels: &[Level],
    wide: u32,
    high: u32,
    leaves: &[u32],
) -> Result<Vec<u32>, NoMemory>
    requires shape { IsShape wide high }
    requires levels { levels.now ≡ levels_of wide high }
    requires leaves { length leaves.now ≡ wide * high }
    ensures { IfOk result (λ values. AreNodeValues wide high leaves.now values.items) }
{
    let mut values = highest(alloc, count_nodes(wide, high))?;
    for leaf in 0..wide * high {
        lower(
            &mut values,
            &Way::new(levels, wide, high, leaf),
            leaves[leaf as usize],
        );
    }
    Ok(values)
}

/// Values that no leaf is above.
fn highest(alloc: Global, count: usize) -> Result<Vec<u32>, NoMemory>
    ensures { IfOk result (λ values. values.items ≡ replicate count (2 ^ 32 - 1)) }
{
    Ok(vec![in alloc; u32::MAX; count]?)
}
