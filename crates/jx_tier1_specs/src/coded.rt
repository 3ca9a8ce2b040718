//! A code-block's coded passes, with one list of bytes for each segment.

ghost use Rattle.std.specs.Prelude.{◌≡◌, ◌++◌, ◌∷◌, [], length, map, OnOk, OnErr};
ghost use Rattle.jx_tier1_specs.specs.Segments.{bytes_of};

use jx_base::{Band, NoMemory, Style};
use std::alloc::Global;
use std::marker::Model;

/// The bytes of segments in their order, which contracts see as a list of lists.
#[derive(Drop)]
pub struct Segments<'a> {
    items: Vec<&'a [u8]>,
}

impl<'a> Model for Segments<'a> {
    ghost use Rattle.std.specs.Prelude.{List, ℕ, map};
    ghost use Rattle.jx_tier1_specs.specs.Segments.{bytes_of};

    ghost Value = { List (List ℕ) };

    ghost view = { λ s. map bytes_of s.items.items };
}

impl<'a> Segments<'a> {
    /// No segments. It takes no memory.
    pub fn new(alloc: Global) -> Segments<'a>
        ensures { result ≡ [] }
    {
        Segments {
            items: Vec::new(alloc),
        }
    }

    /// Appends a segment. After an `Err` they are as before.
    pub fn push(&mut self, bytes: &'a [u8]) -> Result<(), NoMemory>
        ensures ok { OnOk result (self.new ≡ self.old ++ bytes.entry.now ∷ []) }
        ensures err { OnErr result (self.new ≡ self.old) }
    {
        self.items.push(bytes)?;
        Ok(())
    }

    /// The segments.
    pub fn as_slice(&self) -> &[&'a [u8]]
        ensures { map bytes_of result.now ≡ self.now }
    {
        &self.items
    }
}

/// A code-block's coded passes (T.800 D.3 and D.4).
#[derive(Drop)]
pub struct Coded<'a> {
    /// The block's band.
    pub band: Band,
    /// The style of its passes.
    pub style: Style,
    /// How many coded planes it has, 1 to 74: those of its band but for the zero planes.
    pub planes: u8,
    /// How many passes were coded, at most 3·planes − 2.
    pub passes: u16,
    /// The bytes of each segment of these passes.
    pub segments: Segments<'a>,
}

/// A segmentation symbol isn't 1010 (T.800 D.5).
#[derive(Clone, Copy, Debug, PartialEq, Eq)]
pub struct BadSymbol {
    /// The first pass of which it isn't.
    pub pass: u16,
}
