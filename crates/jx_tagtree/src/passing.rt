//! The node of a way at which a query stops before its first bit (T.800, B.10.2).

ghost use Rattle.std.specs.Prelude.{ℕ, ◌<◌, length, slice_index, IfSome};
ghost use Rattle.jx_tagtree.specs.Past.{Stops};

use crate::node::Node;
use crate::shape::Way;

/// The place on a way, 0 for the leaf, of the node at which a query with a threshold stops without a bit.
pub(crate) fn stop_of(nodes: &[Node], way: &Way<'_>, threshold: u32) -> Option<usize>
    requires { (k : ℕ) → k < length way.now → slice_index way.now k < length nodes.now }
    ensures { IfSome result (λ place. Stops nodes.now way.now place threshold) }
{
    let mut stop = None;
    for place in 0..way.len() {
        let node = nodes[way.at(place) as usize];
        if node.settled {
            return stop;
        }
        stop = if threshold <= node.known {
            Some(place)
        } else {
            None
        };
    }
    stop
}
