//! A tag tree that is read.

ghost use Rattle.std.specs.Prelude.{◌≡◌, ◌*◌, ◌<◌, ◌≤◌, ◌++◌, ℕ, Bool, List, false, Ok, OnOk, IfOk, IfErr, IfSome};
ghost use Rattle.jx_tagtree.specs.Header.{Took, to_come, fault_of, exhausted};
ghost use Rattle.jx_tagtree.specs.Shape.{IsShape};
ghost use Rattle.jx_tagtree.specs.TagTree.{Tree, fresh, query, ValuesOf, IsTree, HasRead};
ghost use Rattle.jx_tagtree.specs.Past.{IsPast, AreUnder};
ghost use Rattle.jx_tagtree.specs.Forms.{one_leaf};

use crate::node::Node;
use crate::read_tree::ReadTree;
use crate::reading::read_leaf;
use crate::{BitFault, BitReader};
use jx_base::NoMemory;
use std::alloc::Global;
use std::marker::Model;

/// How a tag tree is kept. A picture may have millions of precincts of one code-block, each with two such trees.
#[derive(Drop)]
enum Form {
    /// One leaf, which is the root: its node. It takes no memory of its own.
    Leaf(Node),
    /// More leaves.
    More(Box<ReadTree>),
}

/// A tag tree that is read: what is known of each of its nodes (T.800 B.10.2).
#[derive(Drop)]
pub struct TagReader {
    form: Form,
}

impl Model for TagReader {
    ghost use Rattle.jx_tagtree.specs.TagTree.{Tree};
    ghost use Rattle.jx_tagtree.specs.Forms.{tree_in};

    ghost Value = { Tree };

    ghost view = { λ t. tree_in t.form };
}

impl TagReader {
    /// A tag tree of `wide` by `high` leaves, 1 to 2^22 in all, of which nothing is known.
    pub fn new(alloc: Global, wide: u32, high: u32) -> Result<TagReader, NoMemory>
        requires { IsShape wide high }
        ensures fresh { IfOk result (λ tree. tree ≡ fresh wide high) }
    {
        if wide == 1 && high == 1 {
            return Ok(TagReader {
                form: Form::Leaf(unknown()),
            });
        }
        let tree = ReadTree::new(alloc, wide, high)?;
        match Box::new(alloc, tree) {
            Ok(tree) => Ok(TagReader {
                form: Form::More(tree),
            }),
            Err(_) => Err(NoMemory),
        }
    }

    /// Whether the value of a leaf is below a threshold. It reads the bits of this query and no others.
    /// After an `Err` the tag tree is given up, and the reader has given all its bits.
    pub fn reach(
        &mut self,
        leaf: u32,
        threshold: u32,
        bits: &mut BitReader<'_>,
    ) -> Result<bool, BitFault>
        requires { leaf < self.old.wide * self.old.high }
        ensures size { (self.new.wide ≡ self.old.wide) × (self.new.high ≡ self.old.high) }
        ensures took { OnOk result (Took bits.old bits.new) }
        // What was read are the query's bits, for all values that agree with what is known afterwards.
        ensures read { IfOk result (λ below. (values : ℕ → ℕ) → ValuesOf self.new values → HasRead values leaf threshold below self.old bits.old self.new bits.new) }
        // The query's bits for values that agree with what is known are read so, and in no other way.
        ensures only { (values : ℕ → ℕ) → ValuesOf self.old values → (rest : List Bool) → to_come bits.old ≡ (query values self.old leaf threshold).bits ++ rest →
            (below : Bool) × (result ≡ Ok below) × HasRead values leaf threshold below self.old bits.old self.new bits.new }
        // Where there are none such, and only there, the bits run out.
        ensures none { IfErr result (λ _. (values : ℕ → ℕ) → ValuesOf self.old values → (rest : List Bool) → to_come bits.old ≡ (query values self.old leaf threshold).bits ++ rest → ⊥) }
        ensures some { OnOk result ((values : ℕ → ℕ) × ValuesOf self.new values) }
        ensures tree { OnOk result (IsTree self.new) }
        ensures fault { IfErr result (λ e. (e ≡ fault_of bits.old) × (bits.new ≡ exhausted bits.old)) }
    {
        match &mut self.form {
            Form::Leaf(node) => reach_leaf(node, leaf, threshold, bits),
            Form::More(tree) => tree.reach(leaf, threshold, bits),
        }
    }

    /// How many leaves stand side by side.
    pub fn wide(&self) -> u32
        ensures { result ≡ self.now.wide }
    {
        match &self.form {
            Form::Leaf(_) => 1,
            Form::More(tree) => tree.wide(),
        }
    }

    /// How many stand one above another.
    pub fn high(&self) -> u32
        ensures { result ≡ self.now.high }
    {
        match &self.form {
            Form::Leaf(_) => 1,
            Form::More(tree) => tree.high(),
        }
    }

    /// The place on a leaf's way, 0 for the leaf and 22 at most for the root, of a node that isn't settled and
    /// whose value is known to reach a threshold: no query with it has a bit of any leaf under that node.
    /// None where a query of the leaf may have bits, or its node is settled.
    pub fn past(&self, leaf: u32, threshold: u32) -> Option<usize>
        requires { leaf < self.now.wide * self.now.high }
        ensures low { IfSome result (λ place. place ≤ 22) }
        ensures under { IfSome result (λ place. (other : ℕ) → other < self.now.wide * self.now.high → AreUnder self.now.wide place leaf other → IsPast self.now other threshold) }
    {
        match &self.form {
            Form::Leaf(node) => past_leaf(*node, threshold),
            Form::More(tree) => tree.past(leaf, threshold),
        }
    }
}

/// A node of which nothing is known.
fn unknown() -> Node
    ensures { result ≡ record { known = 0; settled = false } }
{
    Node {
        known: 0,
        settled: false,
    }
}

/// Reads the bits of a query of the only leaf of a tag tree.
fn reach_leaf(
    node: &mut Node,
    leaf: u32,
    threshold: u32,
    bits: &mut BitReader<'_>,
) -> Result<bool, BitFault>
    requires { leaf < 1 }
    ensures took { OnOk result (Took bits.old bits.new) }
    ensures read { IfOk result (λ below. (values : ℕ → ℕ) → ValuesOf (one_leaf node.new) values → HasRead values leaf threshold below (one_leaf node.old) bits.old (one_leaf node.new) bits.new) }
    ensures only { (values : ℕ → ℕ) → ValuesOf (one_leaf node.old) values → (rest : List Bool) → to_come bits.old ≡ (query values (one_leaf node.old) leaf threshold).bits ++ rest →
        (below : Bool) × (result ≡ Ok below) × HasRead values leaf threshold below (one_leaf node.old) bits.old (one_leaf node.new) bits.new }
    ensures none { IfErr result (λ _. (values : ℕ → ℕ) → ValuesOf (one_leaf node.old) values → (rest : List Bool) → to_come bits.old ≡ (query values (one_leaf node.old) leaf threshold).bits ++ rest → ⊥) }
    ensures some { OnOk result ((values : ℕ → ℕ) × ValuesOf (one_leaf node.new) values) }
    ensures tree { OnOk result (IsTree (one_leaf node.new)) }
    ensures fault { IfErr result (λ e. (e ≡ fault_of bits.old) × (bits.new ≡ exhausted bits.old)) }
{
    match read_leaf(node, threshold, bits) {
        Ok(below) => Ok(below),
        Err(fault) => Err(fault),
    }
}

/// The place 0 where the only leaf of a tag tree isn't settled and is known to reach a threshold.
fn past_leaf(node: Node, threshold: u32) -> Option<usize>
    ensures low { IfSome result (λ place. place ≤ 22) }
    ensures under { IfSome result (λ place. (other : ℕ) → other < 1 → IsPast (one_leaf node) other threshold) }
{
    if node.settled || threshold > node.known {
        return None;
    }
    Some(0)
}
