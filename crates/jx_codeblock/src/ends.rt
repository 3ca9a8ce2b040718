//! The layers in which a block is sent.

ghost use Rattle.std.specs.Prelude.{◌≡◌, ◌++◌, ◌∷◌, [], OnOk, OnErr};

use crate::LayerEnd;
use jx_base::{NoMemory, ShortList};
use std::alloc::Global;
use std::marker::Model;

/// The layers that have passes of a block, in their order. An only one takes no memory of its own.
#[derive(Drop)]
pub struct Ends {
    items: ShortList<LayerEnd>,
}

impl Model for Ends {
    ghost use Rattle.std.specs.Prelude.{List};
    ghost use Rattle.jx_codeblock.specs.declared.LayerEnd.{LayerEnd};

    ghost Value = { List LayerEnd };

    ghost view = { λ e. e.items };
}

impl Ends {
    /// No layer. It takes no memory.
    pub fn new(alloc: Global) -> Ends
        ensures { result ≡ [] }
    {
        Ends {
            items: ShortList::new(alloc),
        }
    }

    /// The layers.
    pub fn as_slice(&self) -> &[LayerEnd]
        ensures { result.now ≡ self.now }
    {
        self.items.as_slice()
    }

    /// Appends a layer. After an `Err` they are as before.
    pub fn push(&mut self, end: LayerEnd) -> Result<(), NoMemory>
        ensures ok { OnOk result (self.new ≡ self.old ++ end ∷ []) }
        ensures err { OnErr result (self.new ≡ self.old) }
    {
        self.items.push(end)
    }
}
