//! Code-blocks with their coded bytes.

ghost use Rattle.std.specs.Prelude.{◌≡◌, ◌++◌, ◌∷◌, [], length, map, OnOk, OnErr};
ghost use Rattle.jx_base.specs.Pieces.{value_of};

use crate::{BlockName, NoMemory, Rect, ShortList, Style};
use std::alloc::Global;
use std::marker::Model;

/// What one packet has of a code-block within one segment (T.800 B.10.7).
#[derive(Clone, Copy, Debug)]
pub struct Piece<'a> {
    /// The layer of the packet.
    pub layer: u16,
    /// The block's first pass of this piece.
    pub first: u16,
    /// How many passes the piece has, at least 1.
    pub passes: u16,
    /// The coded bytes.
    pub bytes: &'a [u8],
}

/// Pieces in their order, which contracts see as a list of layers, passes and bytes. A code-block's only piece, which is what most
/// have, takes no memory of its own.
#[derive(Drop)]
pub struct Pieces<'a> {
    items: ShortList<Piece<'a>>,
}

impl<'a> Model for Pieces<'a> {
    ghost use Rattle.std.specs.Prelude.{List, map};
    ghost use Rattle.jx_base.specs.Pieces.{PieceValue, value_of};

    ghost Value = { List PieceValue };

    ghost view = { λ p. map value_of p.items };
}

impl<'a> Pieces<'a> {
    /// No pieces. It takes no memory.
    pub fn new(alloc: Global) -> Pieces<'a>
        ensures { result ≡ [] }
    {
        Pieces {
            items: ShortList::new(alloc),
        }
    }

    /// The pieces of a list. It takes no memory.
    pub fn from_vec(items: Vec<Piece<'a>>) -> Pieces<'a>
        ensures { result ≡ map value_of items.entry.items }
    {
        Pieces {
            items: ShortList::from_vec(items),
        }
    }

    /// The pieces.
    pub fn as_slice(&self) -> &[Piece<'a>]
        ensures { map value_of result.now ≡ self.now }
    {
        self.items.as_slice()
    }

    /// How many there are.
    pub fn len(&self) -> usize
        ensures { result ≡ length self.now }
    {
        self.items.len()
    }

    /// Appends a piece. After an `Err` they are as before.
    pub fn push(&mut self, piece: Piece<'a>) -> Result<(), NoMemory>
        ensures ok { OnOk result (self.new ≡ self.old ++ value_of piece.entry ∷ []) }
        ensures err { OnErr result (self.new ≡ self.old) }
    {
        self.items.push(piece)
    }
}

/// A code-block of a codestream, with its coded passes (T.800 B.7 and B.10).
#[derive(Drop)]
pub struct Block<'a> {
    /// Which block it is.
    pub name: BlockName,
    /// The block's places in its band.
    pub rect: Rect,
    /// The planes of its band, the region's shift among them.
    pub planes: u8,
    /// How many of them, from the highest on, are 0: all where the block has no pass.
    pub zero: u8,
    /// How many coding passes it has.
    pub passes: u16,
    /// The style of its passes.
    pub style: Style,
    /// Its coded bytes, in order of layers and passes.
    pub pieces: Pieces<'a>,
}

#[cfg(test)]
mod tests {
    use super::*;

    // Pieces come out in the order in which they were put in, the first alone and among others.
    #[test]
    fn in_order(rt: HostRuntime) {
        let bytes = [1, 2, 3, 4, 5, 6];
        let (one, behind) = bytes.split_at(1);
        let (two, three) = behind.split_at(2);
        let mut pieces = Pieces::new(rt.alloc());
        assert_eq!(rt; pieces.len(), 0);
        assert!(rt; pieces.as_slice().is_empty());
        for (first, bytes) in [(0, one), (1, two), (2, three)] {
            let piece = Piece {
                layer: first,
                first,
                passes: 1,
                bytes,
            };
            assert!(rt; pieces.push(piece).is_ok());
            assert_eq!(rt; pieces.len(), usize::from(first) + 1);
        }
        for piece in pieces.as_slice() {
            assert_eq!(rt; piece.first, piece.layer);
            assert_eq!(rt; piece.bytes.len(), usize::from(piece.first) + 1);
        }
    }
}
