//! The bits of a tag tree on the way from its root to a leaf, written (T.800, B.10.2).

ghost use Rattle.std.specs.Prelude.{◌≡◌, ◌+◌, ◌-◌, ◌*◌, ◌<◌, ◌≤◌, ◌++◌, ◌∷◌, [], min, max, nat_lt, Bool, true, false, IfOk, OnOk, length, slice_index, replicate, ℕ, if◌then◌else◌};
ghost use Rattle.jx_tagtree.specs.TagTree.{node_bits, node_after, Walk, walk};
ghost use Rattle.jx_tagtree.specs.Leaves.{passes};

use crate::BitWriter;
use crate::node::Node;
use crate::shape::Way;
use jx_base::NoMemory;

/// Writes a zero for each number from `start` up to `end`.
fn write_zeros(start: u32, end: u32, bits: &mut BitWriter) -> Result<(), NoMemory>
    ensures { OnOk result (bits.new ≡ bits.old ++ replicate (end - start) false) }
{
    for _ in start..end {
        bits.bit(false)?;
    }
    Ok(())
}

/// Writes a 1 where a value is below the threshold.
fn write_one(value: u32, threshold: u32, bits: &mut BitWriter) -> Result<(), NoMemory>
    ensures { OnOk result (bits.new ≡ bits.old ++ (if nat_lt value threshold then true ∷ [] else [])) }
{
    if value < threshold {
        bits.bit(true)?;
    }
    Ok(())
}

/// Writes the bits of a node at a threshold, from what was told of its parent.
fn write_node(
    node: Node,
    above: u32,
    value: u32,
    threshold: u32,
    bits: &mut BitWriter,
) -> Result<Node, NoMemory>
    ensures after { IfOk result (λ after. after ≡ node_after node (max node.known above) value threshold) }
    ensures bits { OnOk result (bits.new ≡ bits.old ++ node_bits node (max node.known above) value threshold) }
{
    let start = node.known.max(above);
    if node.settled || threshold <= start {
        return Ok(node);
    }
    write_zeros(start, value.min(threshold), bits)?;
    write_one(value, threshold, bits)?;
    Ok(Node {
        known: start.max(value.min(threshold)),
        settled: value < threshold,
    })
}

/// Writes the bits of a way, from the root down to the leaf.
pub(crate) fn write_way(
    nodes: &mut Vec<Node>,
    values: &[u32],
    way: &Way<'_>,
    threshold: u32,
    bits: &mut BitWriter,
) -> Result<(), NoMemory>
    requires nodes { (k : ℕ) → k < length way.now → slice_index way.now k < length nodes.old.items }
    requires values { (k : ℕ) → k < length way.now → slice_index way.now k < length values.now }
    ensures long { length nodes.new.items ≡ length nodes.old.items }
    ensures nodes { OnOk result (nodes.new.items ≡ (walk (λ n. slice_index values.now n) threshold nodes.old.items way.now).nodes) }
    ensures bits { OnOk result (bits.new ≡ bits.old ++ (walk (λ n. slice_index values.now n) threshold nodes.old.items way.now).bits) }
{
    let mut above = 0;
    let mut place = way.len();
    while place > 0 {
        place -= 1;
        let at = way.at(place) as usize;
        let node = write_node(nodes[at], above, values[at], threshold, bits)?;
        above = above.max(node.known);
        nodes[at] = node;
    }
    Ok(())
}

/// Lowers the values of a way's nodes to a leaf's.
pub(crate) fn lower(values: &mut Vec<u32>, way: &Way<'_>, leaf: u32)
    requires { (k : ℕ) → k < length way.now → slice_index way.now k < length values.old.items }
    ensures long { length values.new.items ≡ length values.old.items }
    ensures each { (n : ℕ) → n < length values.old.items → slice_index values.new.items n
        ≡ (if passes n way.now then min (slice_index values.old.items n) leaf else slice_index values.old.items n) }
{
    let mut place = way.len();
    while place > 0 {
        place -= 1;
        let at = way.at(place) as usize;
        values[at] = values[at].min(leaf);
    }
}
