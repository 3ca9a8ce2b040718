//! Lists of segments and of tile data, which contracts see as lists.

ghost use Rattle.jx_codestream.specs.PackedHeaders.{both_heads};
ghost use Rattle.std.specs.Prelude.{◌≡◌, ◌∷◌, [], IfOk, OnOk, MatchOption, Some, None};

use crate::{Body, Tile};
use jx_marker::{Progression, Segment};
use std::alloc::{AllocError, Global};
use std::marker::Model;
use std::slice::from_ref;
use std::sync::ArcSlice;

/// Segments, which contracts see as a list.
#[derive(Drop)]
pub struct Segments {
    items: Vec<Segment>,
}

impl Model for Segments {
    ghost use Rattle.std.specs.Prelude.{List};
    ghost use Rattle.jx_marker.specs.declared.Segment.{Segment};

    ghost Value = { List Segment };

    ghost view = { λ list. list.items.items };
}

impl Segments {
    /// The list of these items. It takes no memory.
    pub fn new(items: Vec<Segment>) -> Self
        ensures { result ≡ items.items }
    {
        Segments { items }
    }

    /// The items.
    pub fn as_slice(&self) -> &[Segment]
        ensures { result.now ≡ self.now }
    {
        &self.items
    }

    /// The items as the `Vec` that they came in.
    pub fn into_vec(self) -> Vec<Segment>
        ensures { result.items ≡ self }
    {
        let Segments { items } = self;
        items
    }
}

/// The data of a tile's tile-parts, which contracts see as a list.
#[derive(Drop)]
pub struct Bodies {
    items: Vec<Body>,
}

impl Model for Bodies {
    ghost use Rattle.std.specs.Prelude.{List};
    ghost use Rattle.jx_codestream.specs.declared.Body.{Body};

    ghost Value = { List Body };

    ghost view = { λ list. list.items.items };
}

impl Bodies {
    /// The list of these items. It takes no memory.
    pub fn new(items: Vec<Body>) -> Self
        ensures { result ≡ items.items }
    {
        Bodies { items }
    }

    /// The items.
    pub fn as_slice(&self) -> &[Body]
        ensures { result.now ≡ self.now }
    {
        &self.items
    }

    /// The items as the `Vec` that they came in.
    pub fn into_vec(self) -> Vec<Body>
        ensures { result.items ≡ self }
    {
        let Bodies { items } = self;
        items
    }
}

/// A tile's packet headers that stand apart from its packets (T.800, A.7.4 and A.7.5): none, or pieces of the file, whose
/// bytes, joined, they are. Contracts see an optional list, which may be empty.
///
/// One piece takes no memory of its own.
#[derive(Drop)]
pub struct Heads {
    pieces: Pieces,
}

/// Where the pieces stand.
#[derive(Drop)]
enum Pieces {
    None,
    One(Body),
    Many(Vec<Body>),
}

impl Model for Heads {
    ghost use Rattle.std.specs.Prelude.{List, Option};
    ghost use Rattle.jx_codestream.specs.declared.Body.{Body};
    ghost use Rattle.jx_codestream.specs.Held.{held};

    ghost Value = { Option (List Body) };

    ghost view = { λ heads. held heads.pieces };
}

impl Heads {
    /// None: each packet's header stands before its packet.
    pub fn none() -> Self
        ensures { result ≡ None }
    {
        Heads {
            pieces: Pieces::None,
        }
    }

    /// The packet headers in these pieces.
    pub fn new(pieces: Vec<Body>) -> Self
        ensures { result ≡ Some pieces.items }
    {
        if let [piece] = pieces.as_slice() {
            return Heads::one(*piece);
        }
        Heads {
            pieces: Pieces::Many(pieces),
        }
    }

    /// The packet headers in this piece.
    pub fn one(piece: Body) -> Self
        ensures { result ≡ Some (piece ∷ []) }
    {
        Heads {
            pieces: Pieces::One(piece),
        }
    }

    /// The pieces, where there are packet headers.
    pub fn pieces(&self) -> Option<&[Body]>
        ensures { MatchOption result (self.now ≡ None) (λ pieces. self.now ≡ Some pieces.now) }
    {
        match &self.pieces {
            Pieces::None => None,
            Pieces::One(piece) => Some(from_ref(piece)),
            Pieces::Many(pieces) => Some(pieces.as_slice()),
        }
    }

    /// Adds those of a later tile-part, where it has some.
    pub fn add(&mut self, alloc: Global, later: Heads) -> Result<(), AllocError>
        ensures { OnOk result (self.new ≡ both_heads self.old later) }
    {
        let Some(more) = later.pieces() else {
            return Ok(());
        };
        match &mut self.pieces {
            Pieces::None => {
                *self = later;
            }
            Pieces::One(piece) => {
                let mut pieces = Vec::new(alloc);
                pieces.push(*piece)?;
                pieces.extend_from_slice(more)?;
                self.pieces = Pieces::Many(pieces);
            }
            Pieces::Many(pieces) => {
                pieces.extend_from_slice(more)?;
            }
        }
        Ok(())
    }
}

/// Tiles, which contracts see as a list.
#[derive(Drop)]
pub struct Tiles {
    items: Vec<Tile>,
}

impl Model for Tiles {
    ghost use Rattle.std.specs.Prelude.{List};
    ghost use Rattle.jx_codestream.specs.declared.Tile.{Tile};

    ghost Value = { List Tile };

    ghost view = { λ list. list.items.items };
}

impl Tiles {
    /// The list of these items. It takes no memory.
    pub fn new(items: Vec<Tile>) -> Self
        ensures { result ≡ items.items }
    {
        Tiles { items }
    }

    /// The items.
    pub fn as_slice(&self) -> &[Tile]
        ensures { result.now ≡ self.now }
    {
        &self.items
    }

    /// The items as the `Vec` that they came in.
    pub fn into_vec(self) -> Vec<Tile>
        ensures { result.items ≡ self }
    {
        let Tiles { items } = self;
        items
    }
}

/// Progression entries, which contracts see as a list. Tiles may share them.
#[derive(Drop)]
pub struct Entries {
    items: ArcSlice<Progression, Global>,
}

impl Model for Entries {
    ghost use Rattle.std.specs.Prelude.{List};
    ghost use Rattle.std.specs.Arc.{arc_slice_items};
    ghost use Rattle.jx_marker.specs.declared.Progression.{Progression};

    ghost Value = { List Progression };

    ghost view = { λ list. arc_slice_items list.items };
}

impl Entries {
    /// The list of these entries.
    pub fn new(items: Vec<Progression>) -> Result<Self, AllocError>
        ensures { IfOk result (λ list. list ≡ items.items) }
    {
        let items = ArcSlice::from_vec(items)?;
        Ok(Entries { items })
    }

    /// The same list once more, without a copy of its entries.
    pub fn share(&self) -> Result<Self, AllocError>
        ensures { IfOk result (λ list. list ≡ self.now) }
    {
        let items = self.items.clone()?;
        Ok(Entries { items })
    }

    /// The entries.
    pub fn as_slice(&self) -> &[Progression]
        ensures { result.now ≡ self.now }
    {
        self.items.as_slice()
    }
}
