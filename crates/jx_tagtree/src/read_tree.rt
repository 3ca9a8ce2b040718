//! A tag tree of more than one leaf that is read.

ghost use Rattle.std.specs.Prelude.{◌≡◌, ◌*◌, ◌<◌, ◌≤◌, ◌++◌, ℕ, Bool, List, length, Ok, OnOk, IfOk, IfErr, IfSome};
ghost use Rattle.jx_tagtree.specs.Header.{Took, to_come, fault_of, exhausted};
ghost use Rattle.jx_tagtree.specs.Shape.{IsShape};
ghost use Rattle.jx_tagtree.specs.TagTree.{Tree, fresh, query, ValuesOf, IsTree, HasRead};
ghost use Rattle.jx_tagtree.specs.Past.{IsPast, AreUnder};

use crate::node::{Node, unknown_nodes};
use crate::passing::stop_of;
use crate::reading::read_way;
use crate::shape::{Level, Way, count_nodes, table};
use crate::{BitFault, BitReader};
use jx_base::NoMemory;
use std::alloc::Global;
use std::marker::Model;

/// A tag tree that is read, with lists of its levels and nodes (T.800 B.10.2).
#[derive(Drop)]
pub(crate) struct ReadTree {
    wide: u32,
    high: u32,
    levels: Vec<Level>,
    nodes: Vec<Node>,
}

impl Model for ReadTree {
    ghost use Rattle.std.specs.Prelude.{◌≡◌, ◌+◌, length};
    ghost use Rattle.jx_tagtree.specs.Shape.{IsShape, root};
    ghost use Rattle.jx_tagtree.specs.TagTree.{Tree, IsSound};
    ghost use Rattle.jx_tagtree.specs.Kept.{KeepsReader};

    ghost Value = { Tree };

    ghost view = { λ t. record { wide = t.wide; high = t.high; nodes = t.nodes.items } };

    ghost invariant = { λ t. KeepsReader t.wide t.high t.levels.items t.nodes.items };
}

impl ReadTree {
    /// A tag tree of `wide` by `high` leaves, 1 to 2^22 in all, of which nothing is known.
    pub(crate) fn new(alloc: Global, wide: u32, high: u32) -> Result<ReadTree, NoMemory>
        requires { IsShape wide high }
        ensures fresh { IfOk result (λ tree. tree ≡ fresh wide high) }
    {
        let levels = table(alloc, wide, high)?;
        let nodes = unknown_nodes(alloc, count_nodes(wide, high))?;
        Ok(ReadTree {
            wide,
            high,
            levels,
            nodes,
        })
    }

    /// Reads the bits of a query of a leaf.
    pub(crate) fn reach(
        &mut self,
        leaf: u32,
        threshold: u32,
        bits: &mut BitReader<'_>,
    ) -> Result<bool, BitFault>
        requires { leaf < self.old.wide * self.old.high }
        ensures size { (self.new.wide ≡ self.old.wide) × (self.new.high ≡ self.old.high) }
        ensures took { OnOk result (Took bits.old bits.new) }
        // What was read are the query's bits, for all values that agree with what is known afterwards.
        ensures read { IfOk result (λ below. (values : ℕ → ℕ) → ValuesOf self.new values → HasRead values leaf threshold below self.old bits.old self.new bits.new) }
        // The query's bits for values that agree with what is known are read so, and in no other way.
        ensures only { (values : ℕ → ℕ) → ValuesOf self.old values → (rest : List Bool) → to_come bits.old ≡ (query values self.old leaf threshold).bits ++ rest →
            (below : Bool) × (result ≡ Ok below) × HasRead values leaf threshold below self.old bits.old self.new bits.new }
        // Where there are none such, and only there, the bits run out.
        ensures none { IfErr result (λ _. (values : ℕ → ℕ) → ValuesOf self.old values → (rest : List Bool) → to_come bits.old ≡ (query values self.old leaf threshold).bits ++ rest → ⊥) }
        ensures some { OnOk result ((values : ℕ → ℕ) × ValuesOf self.new values) }
        ensures tree { OnOk result (IsTree self.new) }
        ensures fault { IfErr result (λ e. (e ≡ fault_of bits.old) × (bits.new ≡ exhausted bits.old)) }
    {
        let way = Way::new(&self.levels, self.wide, self.high, leaf);
        let below = match read_way(&mut self.nodes, leaf, &way, threshold, bits) {
            Ok(below) => below,
            Err(fault) => return Err(fault),
        };
        Ok(below)
    }

    /// How many leaves stand side by side.
    pub(crate) fn wide(&self) -> u32
        ensures { result ≡ self.now.wide }
    {
        self.wide
    }

    /// How many stand one above another.
    pub(crate) fn high(&self) -> u32
        ensures { result ≡ self.now.high }
    {
        self.high
    }

    /// The place on a leaf's way of a node that isn't settled and whose value is known to reach a threshold.
    pub(crate) fn past(&self, leaf: u32, threshold: u32) -> Option<usize>
        requires { leaf < self.now.wide * self.now.high }
        ensures low { IfSome result (λ place. place ≤ 22) }
        ensures under { IfSome result (λ place. (other : ℕ) → other < self.now.wide * self.now.high → AreUnder self.now.wide place leaf other → IsPast self.now other threshold) }
    {
        let way = Way::new(&self.levels, self.wide, self.high, leaf);
        stop_of(&self.nodes, &way, threshold)
    }
}
