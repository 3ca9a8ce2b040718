//! What was made of a block.

ghost use Rattle.std.specs.Prelude.{◌≡◌, [], IfOk};
ghost use Rattle.jx_codeblock.specs.Held.{new_bytes, own_starts};

use crate::LayerPart;
use crate::held::Held;
use jx_base::NoMemory;
use std::alloc::Global;
use std::marker::Model;

#[derive(Drop)]
struct Lists {
    held: Held,
    parts: Vec<LayerPart>,
}

/// The new bytes or where its own begin, and the parts of a block, behind one pointer: a picture may have a million of blocks without a pass, which have neither.
#[derive(Drop)]
pub(crate) struct Made {
    lists: Option<Box<Lists>>,
}

impl Model for Made {
    ghost use Rattle.jx_codeblock.specs.Held.{new_bytes, own_starts};
    ghost use Rattle.jx_codeblock.specs.Recoded.{MadeLists, list_of};

    ghost Value = { MadeLists };

    ghost view = { λ m. record { bytes = list_of (λ b. new_bytes b.value.held) m.lists; starts = list_of (λ b. own_starts b.value.held) m.lists; parts = list_of (λ b. b.value.parts.items) m.lists } };
}

impl Made {
    /// Of a block without a pass.
    pub(crate) fn nothing() -> Made
        ensures bytes { result.bytes ≡ [] }
        ensures starts { result.starts ≡ [] }
        ensures parts { result.parts ≡ [] }
    {
        Made { lists: None }
    }

    /// What is held and these parts.
    pub(crate) fn of(alloc: Global, held: Held, parts: Vec<LayerPart>) -> Result<Made, NoMemory>
        ensures bytes { IfOk result (λ m. m.bytes ≡ new_bytes held) }
        ensures starts { IfOk result (λ m. m.starts ≡ own_starts held) }
        ensures parts { IfOk result (λ m. m.parts ≡ parts.items) }
    {
        match Box::new(alloc, Lists { held, parts }) {
            Ok(lists) => Ok(Made { lists: Some(lists) }),
            Err(_) => Err(NoMemory),
        }
    }

    /// The bytes of the new segments; none where the block keeps its own.
    pub(crate) fn bytes(&self) -> &[u8]
        ensures { result.now ≡ self.now.bytes }
    {
        match &self.lists {
            None => &[],
            Some(lists) => lists.held.bytes(),
        }
    }

    /// Where pieces begin of a block that keeps its bytes; it isn't told of a few pieces.
    pub(crate) fn starts(&self) -> &[u32]
        ensures { result.now ≡ self.now.starts }
    {
        match &self.lists {
            None => &[],
            Some(lists) => lists.held.starts(),
        }
    }

    pub(crate) fn parts(&self) -> &[LayerPart]
        ensures { result.now ≡ self.now.parts }
    {
        match &self.lists {
            None => &[],
            Some(lists) => &lists.parts,
        }
    }
}
