//! What is known of a node of a tag tree.

ghost use Rattle.std.specs.Prelude.{◌≡◌, IfOk, replicate, false};

use jx_base::NoMemory;
use std::alloc::Global;

/// What is known of a node of a tag tree: its value is at least `known`, and exactly that where it is settled.
#[derive(Clone, Copy, Debug, PartialEq, Eq)]
pub struct Node {
    /// What the value is at least.
    pub known: u32,
    /// Whether it is exactly that.
    pub settled: bool,
}

/// Nodes of which nothing is known.
pub(crate) fn unknown_nodes(alloc: Global, count: usize) -> Result<Vec<Node>, NoMemory>
    ensures { IfOk result (λ nodes. nodes.items ≡ replicate count (record { known = 0; settled = false })) }
{
    let unknown = Node {
        known: 0,
        settled: false,
    };
    Ok(vec![in alloc; unknown; count]?)
}
