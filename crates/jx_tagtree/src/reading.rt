//! The bits of a tag tree on the way from its root to a leaf, read (T.800, B.10.2).

ghost use Rattle.std.specs.Prelude.{◌≡◌, ◌∷◌, [], ◌+◌, ◌-◌, ◌<◌, ◌≤◌, ◌++◌, max, Some, None, IfOk, IfErr, length, slice_index, ℕ};
ghost use Rattle.jx_tagtree.specs.Header.{Took, to_come, fault_of, exhausted};
ghost use Rattle.jx_tagtree.specs.Scan.{scan, scan_one, scan_way, Zeros, Found, Scanned, PartRead, WayRead};
ghost use Rattle.jx_tagtree.specs.Kept.{IsWayIn};

use crate::node::Node;
use crate::shape::Way;
use crate::{BitFault, BitReader};

/// Reads the bits of a node that isn't settled, from what is known of it and of its parent.
fn read_zeros(start: u32, threshold: u32, bits: &mut BitReader<'_>) -> Result<Node, BitFault>
    ensures above { IfOk result (λ node. start ≤ node.known) }
    ensures ok { IfOk result (λ node. scan (threshold - start) (to_come bits.old) ≡ Some (record { zeros = node.known - start; one = node.settled; rest = to_come bits.new })) }
    ensures took { IfOk result (λ _. Took bits.old bits.new) }
    ensures err { IfErr result (λ e. (scan (threshold - start) (to_come bits.old) ≡ None) × (e ≡ fault_of bits.old)) }
    ensures given { IfErr result (λ _. bits.new ≡ exhausted bits.old) }
{
    let mut known = start;
    while known < threshold {
        if bits.bit()? {
            return Ok(Node {
                known,
                settled: true,
            });
        }
        known += 1;
    }
    Ok(Node {
        known,
        settled: false,
    })
}

/// Reads the bits of a node at a threshold, from what is known of its parent.
pub(crate) fn read_node(
    node: Node,
    above: u32,
    threshold: u32,
    bits: &mut BitReader<'_>,
) -> Result<Node, BitFault>
    ensures ok { IfOk result (λ after. scan_one threshold node above (to_come bits.old) ≡ Some (record { node = after; rest = to_come bits.new })) }
    ensures took { IfOk result (λ _. Took bits.old bits.new) }
    ensures err { IfErr result (λ e. (scan_one threshold node above (to_come bits.old) ≡ None) × (e ≡ fault_of bits.old)) }
    ensures given { IfErr result (λ _. bits.new ≡ exhausted bits.old) }
{
    let start = node.known.max(above);
    if node.settled || threshold <= start {
        return Ok(node);
    }
    read_zeros(start, threshold, bits)
}

/// Reads the bits of the only node of a tag tree of one leaf, and says whether its value is below the threshold.
pub(crate) fn read_leaf(
    node: &mut Node,
    threshold: u32,
    bits: &mut BitReader<'_>,
) -> Result<bool, BitFault>
    ensures ok { IfOk result (λ below. WayRead threshold (node.old ∷ []) 0 (0 ∷ []) (to_come bits.old) below (node.new ∷ []) (to_come bits.new)) }
    ensures took { IfOk result (λ _. Took bits.old bits.new) }
    ensures err { IfErr result (λ e. (scan_way threshold (node.old ∷ []) (0 ∷ []) (to_come bits.old) ≡ None) × (e ≡ fault_of bits.old)) }
    ensures given { IfErr result (λ _. bits.new ≡ exhausted bits.old) }
{
    match read_node(*node, 0, threshold, bits) {
        Ok(after) => {
            *node = after;
            Ok(after.settled && after.known < threshold)
        }
        Err(fault) => Err(fault),
    }
}

/// Reads the bits of a way from the root down, and says whether its leaf's value is below the threshold.
/// It ends at the first node whose value isn't: no node under it has bits.
pub(crate) fn read_way(
    nodes: &mut Vec<Node>,
    leaf: u32,
    way: &Way<'_>,
    threshold: u32,
    bits: &mut BitReader<'_>,
) -> Result<bool, BitFault>
    requires { IsWayIn nodes.old.items leaf way.now }
    ensures ok { IfOk result (λ below. WayRead threshold nodes.old.items leaf way.now (to_come bits.old) below nodes.new.items (to_come bits.new)) }
    ensures took { IfOk result (λ _. Took bits.old bits.new) }
    ensures err { IfErr result (λ e. (scan_way threshold nodes.old.items way.now (to_come bits.old) ≡ None) × (e ≡ fault_of bits.old)) }
    ensures given { IfErr result (λ _. bits.new ≡ exhausted bits.old) }
    ensures part { IfErr result (λ _. PartRead threshold nodes.old.items way.now (to_come bits.old) nodes.new.items) }
{
    let mut above = 0;
    let mut place = way.len();
    while place > 0 {
        place -= 1;
        let at = way.at(place) as usize;
        match read_node(nodes[at], above, threshold, bits) {
            Ok(node) => {
                nodes[at] = node;
                if !node.settled {
                    return Ok(false);
                }
                above = above.max(node.known);
            }
            Err(fault) => return Err(fault),
        }
    }
    Ok(above < threshold)
}
